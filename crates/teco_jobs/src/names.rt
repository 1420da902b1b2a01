//! The names of a file that is edited into another.
ghost use Rattle.std.specs.Prelude.{◌≤◌, length};
ghost use Rattle.teco_options.specs.declared.editing.TheConstants.{NAME};

/// A file that is edited into another.
#[derive(Clone, Copy)]
pub struct Names<'a> {
    pub source: &'a [u8],
    pub target: &'a [u8],
    ghost short_source: { length source.now ≤ NAME },
    ghost short_target: { length target.now ≤ NAME },
}
