//! Moves of characters within a block. Its gap lies between two places, and what is behind the gap
//! at the block's end.
ghost use Rattle.std.specs.Prelude.{◌≡◌, ◌+◌, ◌-◌, ◌≤◌, length, take, drop, vec_capacity};
ghost use Rattle.std.specs.List.{copy_within};
ghost use Rattle.teco_text.specs.Answers.{IsPart};
ghost use Rattle.teco_text.specs.Text.{text_after_deletion, text_after_replacement};

// Copies the characters from one place up to another to a place before them, all at once where the
// two parts do not overlap.
#[inline(always)]
fn copy_back(block: &mut Vec<u8>, from: usize, end: usize, to: usize)
    requires part { IsPart block.old.items from end }
    requires back { to ≤ from }
    ensures items { block.new.items ≡ copy_within block.old.items from end to }
    ensures capacity { vec_capacity block.new ≡ vec_capacity block.old }
{
    let n = end - from;
    if n <= from - to {
        let (front, back) = block.split_at_mut(from);
        front[to..to + n].copy_from_slice(&back[..n]);
    } else {
        block.copy_within(from..end, to);
    }
}

// Moves a gap to a place of the text, in time by the way between. It gives where the gap ends then.
pub(crate) fn move_gap(block: &mut Vec<u8>, start: usize, end: usize, at: usize) -> usize
    requires gap { IsPart block.old.items start end }
    requires place { at ≤ length (text_after_deletion block.old.items start end) }
    ensures before { take at block.new.items
        ≡ take at (text_after_deletion block.old.items start end) }
    ensures behind { drop result block.new.items
        ≡ drop at (text_after_deletion block.old.items start end) }
    ensures end { result ≡ at + (end - start) }
    ensures len { length block.new.items ≡ length block.old.items }
    ensures capacity { vec_capacity block.new ≡ vec_capacity block.old }
{
    if start == end {
        return at;
    }
    let new_end = at + (end - start);
    if at < start {
        block.copy_within(at..start, new_end);
    } else {
        copy_back(block, end, new_end, start);
    }
    new_end
}

// Widens a gap that ends at a place, in time by what is behind it.
#[inline(never)]
pub(crate) fn widen(block: &mut Vec<u8>, end: usize, more: usize)
    requires place { end ≤ length block.old.items }
    requires room { length block.old.items + more ≤ vec_capacity block.old }
    ensures before { take end block.new.items ≡ take end block.old.items }
    ensures behind { drop (end + more) block.new.items ≡ drop end block.old.items }
    ensures len { length block.new.items ≡ length block.old.items + more }
    ensures capacity { vec_capacity block.old ≤ vec_capacity block.new }
{
    let len = block.len();
    block.resize(len + more, 0).unwrap();
    block.copy_within(end..len, end + more);
}

// Writes `new` over the characters from a place on.
pub(crate) fn overwrite(block: &mut Vec<u8>, at: usize, new: &[u8])
    requires { at + length new.now ≤ length block.old.items }
    ensures items { block.new.items ≡
        text_after_replacement block.old.items at (at + length new.now) new.now }
    ensures capacity { vec_capacity block.new ≡ vec_capacity block.old }
{
    block[at..at + new.len()].copy_from_slice(new);
}
