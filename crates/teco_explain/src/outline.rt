//! Texts as their elements, a few on a line, indented by their brackets.
use std::fmt;
use teco_base::Reg;
use teco_lex::element;
use teco_model::kind::{Command, Flow, Page, Storage};
use teco_model::{Element, Kind};
use teco_source::ShownAs;

/// How far a bracket indents what stands in it.
const STEP: usize = 2;

/// How far a line is indented at most, so that what is written is no longer than a multiple of the
/// text, however deeply its brackets are nested.
const MOST: usize = 40;

/// A text as its elements: those that only make arguments stand on one line with the command that
/// takes them, and what an iteration, a conditional or a macro's text holds is indented, up to twenty
/// times. A terminal can show it.
#[derive(Clone, Copy)]
pub struct Outline<'a> {
    pub text: &'a [u8],
    /// The character that is shown for ESC: a printable ASCII one.
    pub mark: u8,
}

// What a line does to the indentation.
#[derive(Clone, Copy)]
enum Layout {
    // arguments: the line goes on
    Joined,
    Plain,
    Opening,
    Closing,
    // the pipe between two parts
    Parting,
}

// How an element is laid out.
fn layout_of(kind: &Kind) -> Layout {
    match kind {
        Kind::Argument(_) | Kind::Value(_) | Kind::Query(_) | Kind::Page(Page::Append) => {
            Layout::Joined
        }
        Kind::Flow(Flow::Iterate | Flow::Test(_)) => Layout::Opening,
        Kind::Flow(Flow::EndTurn | Flow::EndTest) => Layout::Closing,
        Kind::Flow(Flow::Otherwise) => Layout::Parting,
        _ => Layout::Plain,
    }
}

// Can every element of a text be read?
fn is_readable(text: &[u8]) -> bool {
    let mut at = 0;
    for _ in 0..text.len() {
        if at > text.len() {
            return false;
        }
        match element(text, at) {
            Ok(Some(found)) => at = found.next,
            Ok(None) => return true,
            Err(_) => return false,
        }
    }
    true
}

// The register that gets a text of commands.
fn macro_of(found: &Element<'_>) -> Option<Reg> {
    match found.kind {
        Kind::Command(Command::Storage(Storage::SetText(register)))
            if !found.text.is_empty() && is_readable(found.text) => { Some(register) }
        _ => None,
    }
}

// The part of a text between two places.
fn part(text: &[u8], from: usize, to: usize) -> &[u8] {
    let front = text.get(..to).unwrap_or(text);
    front.get(from..).unwrap_or(&[])
}

// Writes a line that is indented so far.
fn write_line<W: fmt::Write>(
    f: &mut fmt::Formatter<W>,
    indent: usize,
    line: ShownAs<'_>,
) -> fmt::Result {
    let indent = indent.min(MOST);
    writeln!(f, "{:indent$}{line}", "")
}

// A text that is laid out.
#[derive(Clone, Copy)]
struct Pen<'a> {
    text: &'a [u8],
    mark: u8,
    // where the next line begins
    begin: usize,
    indent: usize,
    // the indentation that brackets don't go below
    least: usize,
}

impl<'a> Pen<'a> {
    // A text that is laid out at an indentation.
    fn at(text: &'a [u8], mark: u8, indent: usize) -> Pen<'a> {
        Pen {
            text,
            mark,
            begin: 0,
            indent,
            least: indent,
        }
    }

    // The indentation of what closes a bracket.
    fn outer(&self) -> usize {
        self.indent.saturating_sub(STEP).max(self.least)
    }

    // The line up to a place.
    fn line(&self, to: usize) -> ShownAs<'a> {
        ShownAs {
            text: part(self.text, self.begin, to),
            mark: self.mark,
        }
    }

    // Writes a line up to a place, if the element that ends there ends a line.
    fn write<W: fmt::Write>(
        &mut self,
        f: &mut fmt::Formatter<W>,
        layout: Layout,
        next: usize,
    ) -> fmt::Result {
        let line = self.line(next);
        match layout {
            Layout::Joined => return Ok(()),
            Layout::Plain => write_line(f, self.indent, line)?,
            Layout::Parting => write_line(f, self.outer(), line)?,
            Layout::Opening => {
                write_line(f, self.indent, line)?;
                self.indent = self.indent.saturating_add(STEP);
            }
            Layout::Closing => {
                self.indent = self.outer();
                write_line(f, self.indent, line)?;
            }
        }
        self.begin = next;
        Ok(())
    }

    // Writes what is left on one line, if anything but blanks is.
    fn write_rest<W: fmt::Write>(&self, f: &mut fmt::Formatter<W>) -> fmt::Result {
        let rest = self.line(self.text.len());
        if rest.text.iter().all(|byte| byte.is_ascii_whitespace()) {
            return Ok(());
        }
        write_line(f, self.indent, rest)
    }
}

// Writes a text of commands, in which texts of registers stay on their lines.
fn write_flat<W: fmt::Write>(f: &mut fmt::Formatter<W>, mut pen: Pen<'_>) -> fmt::Result {
    let text = pen.text;
    let mut at = 0;
    for _ in 0..text.len() {
        if at > text.len() {
            break;
        }
        let Ok(Some(found)) = element(text, at) else {
            break;
        };
        pen.write(f, layout_of(&found.kind), found.next)?;
        at = found.next;
    }
    pen.write_rest(f)
}

impl fmt::Display for Outline<'_> {
    fn fmt<W: fmt::Write>(&self, f: &mut fmt::Formatter<W>) -> fmt::Result {
        let text = self.text;
        let mut pen = Pen::at(text, self.mark, 0);
        let mut at = 0;
        for _ in 0..text.len() {
            if at > text.len() {
                break;
            }
            let Ok(Some(found)) = element(text, at) else {
                break;
            };
            at = found.next;
            match macro_of(&found) {
                None => pen.write(f, layout_of(&found.kind), at)?,
                Some(register) => {
                    writeln!(f, "{}:", char::from(register.name()))?;
                    write_flat(f, Pen::at(found.text, self.mark, STEP))?;
                    pen.begin = at;
                }
            }
        }
        pen.write_rest(f)
    }
}
