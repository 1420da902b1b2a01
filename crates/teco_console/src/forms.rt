//! How files and words of the command line write ESC.
ghost use Rattle.std.specs.Prelude.{◌≡◌, ◌↔◌, IsTrue};
ghost use Rattle.teco_console.specs.Sources.{EndsIn, IsFileForm, word_form};
ghost use Rattle.teco_console.specs.declared.forms.TheConstants.{READABLE};

use teco_base::bytes::ESC;
use teco_source::EscapeForm;

/// What stands for ESC, by the words of the command line.
#[derive(Clone, Copy)]
pub enum Escape {
    /// Nothing is said of it: the name of a file tells.
    ByName,
    /// This character; ESC itself where it is none.
    Mark(u8),
}

/// What the names of files end in that are in the readable form.
pub const READABLE: &str = ".tes";

/// Is the name one of a file in the readable form?
pub fn is_readable_name(name: &str) -> bool
    ensures { IsTrue result ↔ EndsIn READABLE.now name.now }
{
    let name = name.as_bytes();
    let front = name.len().saturating_sub(READABLE.len());
    &name[front..] == READABLE.as_bytes()
}

/// The form of a file of a name.
pub fn form_of(name: &str, escape: Escape) -> EscapeForm
    ensures { IsFileForm escape name.now result }
{
    match escape {
        Escape::Mark(mark) => EscapeForm::Marked(mark),
        Escape::ByName if is_readable_name(name) => EscapeForm::Readable,
        Escape::ByName => EscapeForm::Marked(ESC),
    }
}

/// The form of a text on the command line.
pub fn form_of_word(escape: Escape) -> EscapeForm
    ensures { result ≡ word_form escape }
{
    match escape {
        Escape::Mark(mark) => EscapeForm::Marked(mark),
        Escape::ByName => EscapeForm::Readable,
    }
}

/// Does a file of a name write ESC as a character that can be seen?
pub fn is_readable(name: &str, escape: Escape) -> bool {
    form_of(name, escape) != EscapeForm::Marked(ESC)
}
