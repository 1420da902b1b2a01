//! A run edits the store that it was given, and makes no list: a store counts the characters put into it.
use super::*;
use std::marker::Model;
use teco_text::{TextFault, TextStore};

#[derive(Drop)]
struct Counting {
    text: VecText,
    put_in: usize,
}

impl Model for Counting {
    ghost use Rattle.teco_text.specs.PointedText.{PointedText};

    ghost Value = { PointedText };

    ghost view = { λ c. c.text };
}

impl TextStore for Counting {
    ghost list = { λ c. c.list };

    ghost pointer = { λ c. c.pointer };

    ghost room = { λ c. c.room };

    fn len(&self) -> usize {
        self.text.len()
    }

    fn dot(&self) -> usize {
        self.text.dot()
    }

    fn at(&self, i: usize) -> Option<u8> {
        self.text.at(i)
    }

    fn set_dot(&mut self, i: usize) -> Result<(), TextFault> {
        self.text.set_dot(i)
    }

    fn insert(&mut self, bytes: &[u8]) -> Result<(), TextFault> {
        self.put_in = self.put_in.saturating_add(bytes.len());
        self.text.insert(bytes)
    }

    fn delete(&mut self, a: usize, b: usize) -> Result<(), TextFault> {
        self.text.delete(a, b)
    }

    fn replace(&mut self, a: usize, b: usize, bytes: &[u8]) -> Result<(), TextFault> {
        self.put_in = self.put_in.saturating_add(bytes.len());
        self.text.replace(a, b, bytes)
    }

    fn copy_range(&self, a: usize, b: usize, out: &mut Vec<u8>) -> Result<(), TextFault> {
        self.text.copy_range(a, b, out)
    }

    fn reserve(&mut self, n: usize) -> Result<(), TextFault> {
        self.text.reserve(n)
    }

    fn exchange(&mut self, text: Vec<u8>) -> Vec<u8> {
        self.put_in = self.put_in.saturating_add(text.len());
        self.text.exchange(text)
    }

    fn slices(&self) -> (&[u8], &[u8]) {
        self.text.slices()
    }
}

// The characters that a run is given.
const GIVEN: &[u8] = &[b'b'; 500];

// A store of these. It is empty where memory was refused twice.
fn new_store(alloc: Global) -> Counting {
    let mut text = VecText::new(alloc);
    let _is_done = text.insert(GIVEN).is_ok() || text.insert(GIVEN).is_ok();
    Counting { text, put_in: 0 }
}

// Does a run, which puts in 1,000 characters and deletes each, put in as many as it says?
fn is_counted_on(machine: &mut Machine<Counting>, alloc: Global) -> bool {
    let stop = machine.run(b"1000<Ia\x1b-D>\x1b\x1b", 10_000, &mut MemHost::new(alloc));
    let store = machine.store();
    let is_left = store.put_in == 1000 && store.slices().0 == GIVEN;
    is_left && matches!(stop, Stop::Ended { .. })
}

fn is_counted(alloc: Global) -> bool {
    match machine_over(alloc, new_store(alloc)) {
        Some(mut machine) => is_counted_on(machine.as_mut(), alloc),
        None => false,
    }
}

#[test]
fn a_run_puts_in_as_many_characters_as_it_says(rt: HostRuntime) {
    assert!(rt; is_counted(rt.alloc()) || is_counted(rt.alloc()));
}
