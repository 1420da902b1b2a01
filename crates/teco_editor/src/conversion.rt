//! Numbers in the text of the buffer.
ghost use Rattle.std.specs.Prelude.{◌≡◌, ◌+◌, ◌≤◌, drop, length};
ghost use Rattle.std.specs.List.{prefix_len};
ghost use Rattle.teco_base.specs.Bytes as byte;
ghost use Rattle.teco_base.specs.Text.{range};
ghost use Rattle.teco_model.specs.Arguments.{run_value};
ghost use Rattle.teco_model.specs.Conversion as model;

use crate::editor::Editor;
use teco_base::arithmetic;
use teco_base::bytes::is_digit;
use teco_text::TextStore;

/// A number in the text, and the place behind it.
#[derive(Clone, Copy)]
pub(crate) struct NumberRead {
    /// The number, modulo 2^32.
    pub number: i32,
    /// The place behind its last digit; where no digit is there, the place where it was looked for.
    pub end: usize,
}

impl<T: TextStore> Editor<T> {
    // The place behind a sign at the pointer, or the pointer's where there is none.
    #[tactic(auto, using(crate::proofs::Numbers::signs))]
    fn digits_begin(&self) -> usize
        ensures value { result ≡ self.now.pointer + model.sign_len
            (drop self.now.pointer self.now.text) }
        ensures within_text { result ≤ length self.now.text }
    {
        let dot = self.dot();
        match self.screen.store().at(dot) {
            Some(b'+' | b'-') => dot + 1,
            _ => dot,
        }
    }

    // Is a minus sign at the pointer?
    #[tactic(auto, using(crate::proofs::Numbers::signs))]
    fn minus_here(&self) -> bool
        ensures { result ≡ model.is_minus (drop self.now.pointer self.now.text) }
    {
        self.screen.store().at(self.dot()) == Some(b'-')
    }

    // The place behind the digits that begin at a place.
    #[tactic(auto, using(crate::proofs::Numbers::run))]
    fn digits_end(&self, begin: usize) -> usize
        requires { begin ≤ length self.now.text }
        ensures value { result ≡ begin + prefix_len byte.is_digit (drop begin self.now.text) }
        ensures within_text { result ≤ length self.now.text }
    {
        let size = self.size();
        for end in begin..size {
            if !self.screen.store().at(end).is_some_and(is_digit) {
                return end;
            }
        }
        size
    }

    // The number that the digits from one place to another are.
    fn digits_value(&self, begin: usize, end: usize) -> i32
        requires ordered { begin ≤ end }
        requires within_text { end ≤ length self.now.text }
        ensures { result ≡ run_value (range self.now.text begin end) }
    {
        let mut value = 0;
        for place in begin..end {
            let digit = self.screen.store().at(place).unwrap_or(b'0');
            value = arithmetic::add(
                arithmetic::mul(value, 10),
                i32::from(digit.saturating_sub(b'0')),
            );
        }
        value
    }

    /// The number at the pointer: an optional sign and digits in decimal, modulo 2^32. Where no
    /// digit is there, it is 0, and ends at the pointer.
    #[tactic(auto, using(crate::proofs::Numbers::reads))]
    pub(crate) fn number_here(&self) -> NumberRead
        ensures number { result.number ≡ (model.number_here self.now).number }
        ensures end { result.end ≡ self.now.pointer + (model.number_here self.now).len }
        ensures within_text { result.end ≤ length self.now.text }
    {
        let begin = self.digits_begin();
        let end = self.digits_end(begin);
        if begin == end {
            return NumberRead {
                number: 0,
                end: self.dot(),
            };
        }
        let digits = self.digits_value(begin, end);
        let number = if self.minus_here() {
            arithmetic::sub(0, digits)
        } else {
            digits
        };
        NumberRead { number, end }
    }
}
