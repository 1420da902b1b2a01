//! Stacks of numbers, which share what is below, and are packed.
use crate::subjects::{TableRow, expect_all};
use std::alloc::{AllocError, Global};
use std::test::*;
use teco_stack::SharedStack;

// How many numbers a stack has.
struct Height(u32);

const HEIGHTS: &[Height] = &[Height(0), Height(1), Height(100), Height(50_000)];

// A stack of the numbers below one. Where a growth is refused, a copy that shares the numbers goes on with them.
fn numbers(alloc: Global, count: u32) -> Result<SharedStack<u32>, AllocError> {
    let mut stack = SharedStack::new(alloc);
    for number in 0..count {
        let copy = stack.copied()?;
        stack = match stack.with(number) {
            Ok(stack) => stack,
            Err(AllocError) => copy.with(number)?,
        };
    }
    Ok(stack)
}

// Are all numbers taken off a copy, from the top down, each with as many below it?
fn are_taken(stack: &SharedStack<u32>) -> Result<bool, AllocError> {
    let mut rest = stack.copied()?;
    for _ in 0..stack.len() {
        match rest.pop()? {
            Some(number) if number as usize == rest.len() => {}
            _ => return Ok(false),
        }
    }
    Ok(rest.len() == 0 && rest.pop()?.is_none())
}

// How many numbers are below the one on top, which is as great, if there is one.
fn below_top(stack: &SharedStack<u32>) -> Option<usize> {
    let (number, below) = stack.chain().parts()?;
    (*number as usize == below.len()).then_some(below.len())
}

// Has a stack the numbers below one, also when they were taken off a copy?
fn has_all(stack: &SharedStack<u32>, count: u32) -> bool {
    let count = count as usize;
    matches!(are_taken(stack), Ok(true))
        && stack.len() == count
        && below_top(stack) == count.checked_sub(1)
}

impl TableRow for Height {
    fn holds(&self, alloc: Global) -> Option<bool> {
        let mut stack = numbers(alloc, self.0).ok()?;
        let packed = match stack.packed() {
            Ok(packed) => packed,
            Err(AllocError) => stack.packed().ok()?,
        };
        let is_apart = packed.chain().is_at(stack.chain()) == (self.0 == 0);
        let is_kept = has_all(&stack, self.0);
        stack.clear();
        Some(is_apart && is_kept && has_all(&stack, 0) && has_all(&packed, self.0))
    }
}

#[test]
fn stacks_share_and_packed_ones_lie_elsewhere(rt: HostRuntime) {
    expect_all(&rt, rt.alloc(), HEIGHTS);
}
