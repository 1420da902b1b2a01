//! Notes on codes and refusals.
use std::fmt;

/// What a code or a refusal means.
#[derive(Clone, Copy)]
pub struct Explanation {
    /// What happened, in a few words.
    pub summary: &'static str,
    /// What that means.
    pub meaning: &'static str,
    /// A small text that shows it; `$` stands for ESC. It may be empty.
    pub example: &'static str,
    /// How it is mended.
    pub remedy: &'static str,
}

impl fmt::Display for Explanation {
    fn fmt<W: fmt::Write>(&self, f: &mut fmt::Formatter<W>) -> fmt::Result {
        writeln!(f, "{}", self.summary)?;
        writeln!(f)?;
        writeln!(f, "{}", self.meaning)?;
        if !self.example.is_empty() {
            writeln!(f)?;
            writeln!(f, "    {}", self.example)?;
        }
        writeln!(f)?;
        writeln!(f, "{}", self.remedy)
    }
}
