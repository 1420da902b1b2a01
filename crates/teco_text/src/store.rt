//! What every store of a text promises.
ghost use Rattle.std.specs.Prelude.{◌≡◌, ℕ, ◌+◌, ◌-◌, ◌≤◌, List, [], ◌++◌, length, slice_get, OnOk, OnErr, vec_len};
ghost use Rattle.std.specs.Prelude.{vec_capacity};
ghost use Rattle.teco_base.specs.Text.{range, text_after_replacement, text_after_deletion, text_after_insertion};
ghost use Rattle.teco_base.specs.Text.{pointer_after_deletion};
ghost use Rattle.teco_base.specs.declared.TheConstants.{LIMIT};
ghost use Rattle.teco_text.specs.Answers.{IsPart, OkWhere, OkWithin, OkWhereWithin, OkWhereSpare};

use crate::fault::TextFault;

/// A text with a pointer: at most `LIMIT` characters, each a byte, and a place from 0 to the text's
/// length.
///
/// A part of the text is named by its first place and by the place behind its last character. A
/// call is refused with `Off` where a place lies outside the text or `a` behind `b`, with `Full`
/// where the text would have more than `LIMIT` characters, and with `Memory` where it needs more
/// memory and that is refused. A refused call leaves text and pointer as they are.
///
/// # Examples
///
/// ```
/// let mut text = GapText::new(alloc);
/// text.insert(b"one two")?;
/// text.delete(3, 7)?;
/// Ok(text.dot() == 3 && text.at(0) == Some(b'o') && text.at(3).is_none())
/// ```
pub trait TextStore {
    // the characters
    ghost list: { Self → List ℕ };

    // the place of the pointer
    ghost pointer: { Self → ℕ };

    // how many characters fit without more memory
    ghost room: { Self → ℕ };

    /// How many characters the text has.
    fn len(&self) -> usize
        ensures value { result ≡ length (list self.now) }
        ensures within_limit { result ≤ LIMIT };

    /// The place of the pointer.
    fn dot(&self) -> usize
        ensures value { result ≡ pointer self.now }
        ensures within_text { result ≤ length (list self.now) }
        ensures within_limit { result ≤ LIMIT };

    /// The character behind place `i`, if there is one.
    fn at(&self, i: usize) -> Option<u8>
        ensures { result ≡ slice_get (list self.now) i };

    /// Moves the pointer to place `i`.
    ///
    /// # Errors
    ///
    /// `Off` where `i` lies behind the end of the text.
    fn set_dot(&mut self, i: usize) -> Result<(), TextFault>
        ensures answer { OkWhere result (i ≤ length (list self.old)) }
        ensures pointer { OnOk result (pointer self.new ≡ i) }
        ensures err { OnErr result (pointer self.new ≡ pointer self.old) }
        ensures list { list self.new ≡ list self.old }
        ensures room { room self.old ≤ room self.new };

    /// Puts `bytes` in before the pointer, which moves past them.
    ///
    /// # Errors
    ///
    /// `Full` where the text would have more than `LIMIT` characters; `Memory` where it needs
    /// more and is refused it.
    fn insert(&mut self, bytes: &[u8]) -> Result<(), TextFault>
        ensures answer { OkWithin result
            (length (text_after_insertion (list self.old) (pointer self.old) bytes.now))
            (room self.old) }
        ensures list { OnOk result (list self.new ≡
            text_after_insertion (list self.old) (pointer self.old) bytes.now) }
        ensures pointer { OnOk result (pointer self.new ≡ pointer self.old + length bytes.now) }
        ensures err { OnErr result ((list self.new ≡ list self.old)
            × (pointer self.new ≡ pointer self.old)) }
        ensures room { room self.old ≤ room self.new };

    /// Takes out the characters from `a` up to `b`. A pointer inside them goes to `a`, one behind
    /// them back with the text.
    ///
    /// # Errors
    ///
    /// `Off` where `a` lies behind `b`, or `b` behind the end of the text.
    fn delete(&mut self, a: usize, b: usize) -> Result<(), TextFault>
        ensures answer { OkWhere result (IsPart (list self.old) a b) }
        ensures list { OnOk result (list self.new ≡ text_after_deletion (list self.old) a b) }
        ensures pointer { OnOk result (pointer self.new
            ≡ pointer_after_deletion a b (pointer self.old)) }
        ensures err { OnErr result ((list self.new ≡ list self.old)
            × (pointer self.new ≡ pointer self.old)) }
        ensures room { room self.old ≤ room self.new };

    /// Puts `bytes` in the stead of the characters from `a` up to `b`. The pointer goes behind
    /// them, wherever it was.
    ///
    /// # Errors
    ///
    /// `Off`, `Full` and `Memory`, as at `delete` and `insert`, the first that holds.
    fn replace(&mut self, a: usize, b: usize, bytes: &[u8]) -> Result<(), TextFault>
        ensures answer { OkWhereWithin result (IsPart (list self.old) a b)
            (length (text_after_replacement (list self.old) a b bytes.now)) (room self.old) }
        ensures list { OnOk result (list self.new ≡
            text_after_replacement (list self.old) a b bytes.now) }
        ensures pointer { OnOk result (pointer self.new ≡ a + length bytes.now) }
        ensures err { OnErr result ((list self.new ≡ list self.old)
            × (pointer self.new ≡ pointer self.old)) }
        ensures room { room self.old ≤ room self.new };

    /// Appends the characters from `a` up to `b` to `out`, which grows by its own allocator and
    /// gives no capacity back. A refusal leaves its items.
    ///
    /// # Errors
    ///
    /// `Off` as at `delete`; `Memory` where `out` cannot grow.
    fn copy_range(&self, a: usize, b: usize, out: &mut Vec<u8>) -> Result<(), TextFault>
        ensures answer { OkWhereSpare result (IsPart (list self.now) a b) (b - a)
            (vec_capacity out.old - vec_len out.old) }
        ensures copied { OnOk result (out.new.items ≡ out.old.items ++ range (list self.now) a b) }
        ensures err { OnErr result (out.new.items ≡ out.old.items) }
        ensures capacity { vec_capacity out.old ≤ vec_capacity out.new };

    /// Makes room for `n` characters in all: until the text is longer, `insert` and `replace` need
    /// no memory.
    ///
    /// # Errors
    ///
    /// `Full` where `n` is more than `LIMIT`; `Memory` where memory is refused.
    fn reserve(&mut self, n: usize) -> Result<(), TextFault>
        ensures answer { OkWithin result n (room self.old) }
        ensures room { OnOk result (n ≤ room self.new) }
        ensures grows { room self.old ≤ room self.new }
        ensures list { list self.new ≡ list self.old }
        ensures pointer { pointer self.new ≡ pointer self.old };

    /// What a vector holds, which is at most `LIMIT` characters, becomes the text, with the pointer
    /// at its start. The larger of the two memories is kept, and the other handed back with nothing
    /// in it; no more is wanted. The text is copied only where its own memory is the smaller one.
    fn exchange(&mut self, text: Vec<u8>) -> Vec<u8>
        requires { length text.items ≤ LIMIT }
        ensures list { list self.new ≡ text.items }
        ensures pointer { pointer self.new ≡ 0 }
        ensures spare { result.items ≡ [] }
        ensures room { room self.old ≤ room self.new };

    /// The text in two pieces, of which either may be empty.
    fn slices(&self) -> (&[u8], &[u8])
        ensures { result.0.now ++ result.1.now ≡ list self.now };
}
