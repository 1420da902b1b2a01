//! An example, as a comment says it.
use memchr::memmem;
use std::alloc::{AllocError, Global};
use std::str;
use teco_base::Reg;
use teco_console::Setting;
use teco_parameters::spelled;
use teco_policy::Policy;

/// What comments begin with that are examples.
pub const WORD: &[u8] = b"EXAMPLE";

/// What stands between the two texts of an example in one line.
const ARROW: &[u8] = b" => ";

/// What stands between the two texts of an example in lines of their own.
const ARROW_LINE: &[u8] = b"\n=>\n";

/// A text, what a macro makes of it, and how the macro is run.
#[derive(Drop)]
pub struct Example {
    pub argument: Option<i32>,
    pub settings: Vec<Setting>,
    pub before: Vec<u8>,
    pub after: Vec<u8>,
    /// The policies that the macro keeps, for these texts of its registers.
    pub policies: Vec<Policy>,
}

// The parts of a text before and behind the first place where another stands.
fn split_at_text<'a>(text: &'a [u8], mark: &[u8]) -> Option<(&'a [u8], &'a [u8])> {
    let at = memmem::find(text, mark)?;
    let behind = text.get(at.checked_add(mark.len())?..)?;
    Some((text.get(..at)?, behind))
}

// What stands in parentheses at the begin of a text, and what is behind them; nothing and all of it
// where there are none.
fn split_parameters(text: &[u8]) -> Option<(&[u8], &[u8])> {
    match text.strip_prefix(b"(") {
        Some(inside) => split_at_text(inside, b")"),
        None => Some((&[], text)),
    }
}

// The two texts of an example, as they are spelled.
fn split_texts(text: &[u8]) -> Option<(&[u8], &[u8])> {
    match text.split_first() {
        Some((b' ', line)) => split_at_text(line, ARROW),
        Some((b'\n', lines)) => {
            let (before, after) = split_at_text(text, ARROW_LINE)?;
            let count = before.len();
            Some((lines.get(..count)?, after))
        }
        _ => None,
    }
}

impl Example {
    /// An example of two texts, with no parameters yet.
    pub fn of(alloc: Global, before: Vec<u8>, after: Vec<u8>) -> Example {
        Example {
            argument: None,
            settings: Vec::new(alloc),
            before,
            after,
            policies: Vec::new(alloc),
        }
    }

    /// Gives a register a text by default: it has that where the example gives it none.
    pub fn take_default(
        &mut self,
        alloc: Global,
        register: Reg,
        text: &[u8],
    ) -> Result<(), AllocError> {
        let is_given = self
            .settings
            .iter()
            .any(|setting| setting.register().index() == register.index());
        if is_given {
            return Ok(());
        }
        if let Some(setting) = Setting::of(register, text.to_vec(alloc)?) {
            self.settings.push(setting)?;
        }
        Ok(())
    }

    // An example of two texts by how they are spelled; none where one of them spells nothing.
    fn of_spelled(
        alloc: Global,
        before: &[u8],
        after: &[u8],
    ) -> Result<Option<Example>, AllocError> {
        let Some(before) = spelled(alloc, before)? else {
            return Ok(None);
        };
        match spelled(alloc, after)? {
            Some(after) => Ok(Some(Example::of(alloc, before, after))),
            None => Ok(None),
        }
    }

    // Takes a parameter: a number, or a register and its text. Says whether it is one.
    fn take(&mut self, alloc: Global, parameter: &[u8]) -> Result<bool, AllocError> {
        if let [name, b'=', text @ ..] = parameter {
            return self.take_text(alloc, *name, text);
        }
        let number = str::from_utf8(parameter).ok().and_then(number_of);
        self.argument = number;
        Ok(number.is_some())
    }

    // Takes the text of a register. Says whether it is one.
    fn take_text(&mut self, alloc: Global, name: u8, text: &[u8]) -> Result<bool, AllocError> {
        let Some(setting) = setting_of(alloc, name, text)? else {
            return Ok(false);
        };
        self.settings.push(setting)?;
        Ok(true)
    }

    // Takes parameters with commas between them. Says whether they are some.
    fn take_all(&mut self, alloc: Global, parameters: &[u8]) -> Result<bool, AllocError> {
        for parameter in parameters.split(|byte| *byte == b',') {
            let parameter = parameter.trim_ascii();
            if !parameter.is_empty() && !self.take(alloc, parameter)? {
                return Ok(false);
            }
        }
        Ok(true)
    }

    /// The example that a comment says; none where it says none.
    pub fn read(alloc: Global, comment: &[u8]) -> Result<Option<Example>, AllocError> {
        let Some((parameters, texts)) = comment.strip_prefix(WORD).and_then(split_parameters) else {
            return Ok(None);
        };
        let Some((before, after)) = split_texts(texts) else {
            return Ok(None);
        };
        let Some(mut example) = Example::of_spelled(alloc, before, after)? else {
            return Ok(None);
        };
        Ok(example.take_all(alloc, parameters)?.then_some(example))
    }
}

// The text that a register is given, by its name and how the text is spelled, if there is one.
fn setting_of(alloc: Global, name: u8, text: &[u8]) -> Result<Option<Setting>, AllocError> {
    let Some(register) = Reg::of(name) else {
        return Ok(None);
    };
    match spelled(alloc, text)? {
        Some(text) => Ok(Setting::of(register, text)),
        None => Ok(None),
    }
}

// The number that decimal digits say.
fn number_of(digits: &str) -> Option<i32> {
    digits.parse().ok()
}
