//! Which files are edited.

/// Which files are edited, as words say it.
#[derive(Clone, Copy)]
pub struct FileChoice<'a> {
    /// Files, and folders where these are looked through.
    pub names: &'a [&'a [u8]],
    /// A file with the names of others; `-` for standard input.
    pub list: Option<&'a str>,
    /// Is each name of the list ended by a NUL, and not by a LF?
    pub ends_by_nul: bool,
    /// Are folders looked through?
    pub is_recursive: bool,
    /// The patterns of the files that are taken from folders; all where there are none.
    pub included: &'a [&'a str],
    /// The patterns of the files and the folders that are not.
    pub excluded: &'a [&'a str],
}
