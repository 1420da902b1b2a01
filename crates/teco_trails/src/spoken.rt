//! Which measures a macro speaks of.
use teco_base::Reg;
use teco_bounds::measures::{LAST_LENGTH, LENGTH, NUMBER, PLACES, family_of, place_of};
use teco_bounds::workspace::Workspace;
use teco_expansion::Nodes;
use teco_model::kind::{Command, MachineValue, Query, Search, Stack, Storage};
use teco_model::{Element, Kind};

// The character of a pattern that stands before `EQ` and a register's name.
const CONTROL_E: u8 = 5;

// Marks a place.
fn mark(spoken: &mut [bool], place: u32) {
    if let Some(slot) = spoken.get_mut(place as usize) {
        *slot = true;
    }
}

// Marks the number of a register.
fn mark_number(spoken: &mut [bool], register: Reg) {
    mark(spoken, place_of(NUMBER, register));
}

// Marks the length of its text.
fn mark_length(spoken: &mut [bool], register: Reg) {
    mark(spoken, place_of(LENGTH, register));
}

// Marks what a command on registers speaks of.
fn mark_storage(spoken: &mut [bool], storage: Storage) {
    match storage {
        Storage::SetNumber(register) | Storage::Add(register) => mark_number(spoken, register),
        Storage::Copy(register) | Storage::SetText(register) | Storage::Get(register) => {
            mark_length(spoken, register);
        }
    }
}

// Marks the texts that a pattern names.
fn mark_pattern(spoken: &mut [bool], pattern: &[u8]) {
    for at in 0..pattern.len() {
        let here = pattern.get(at..).unwrap_or(&[]);
        if let [CONTROL_E, b'Q' | b'q', name, ..] = here {
            if let Some(register) = Reg::of(*name) {
                mark_length(spoken, register);
            }
        }
    }
}

// Marks what an element speaks of.
fn mark_element(spoken: &mut [bool], element: &Element<'_>) {
    match element.kind {
        Kind::Query(Query::Number(register)) => {
            if element.colons > 0 {
                mark_length(spoken, register);
            } else {
                mark_number(spoken, register);
            }
        }
        Kind::Stack(Stack::Push(register) | Stack::Pop(register)) => {
            mark_number(spoken, register);
            mark_length(spoken, register);
        }
        Kind::Command(Command::Storage(storage)) => mark_storage(spoken, storage),
        Kind::Search(
            Search::Find | Search::Replace | Search::FindInPages | Search::ReplaceInPages,
        ) => {
            mark_pattern(spoken, element.text);
        }
        Kind::Value(MachineValue::LastLength | MachineValue::LastText) => mark(spoken, LAST_LENGTH),
        _ => {}
    }
}

// The places of the measures that a macro speaks of: the pointer and the like, turns, values and pairs
// always, of registers the numbers and lengths that elements use.
pub fn spoken_of(nodes: &Nodes<'_>, space: &mut Workspace) -> Vec<bool> {
    let mut spoken = Vec::new(space.alloc);
    for place in 0..PLACES {
        let is_always = match family_of(place) {
            Some(family) => family > LENGTH,
            None => 0 < place && place < LAST_LENGTH,
        };
        space.push(&mut spoken, is_always);
    }
    for at in 0..nodes.len() {
        if let Some(element) = nodes.element(at + 1) {
            mark_element(&mut spoken, &element);
        }
    }
    spoken
}

// Whether the number of a register, or the length of its text, is spoken of.
fn are_named(spoken: &[bool], number: u32) -> bool {
    let length = number.saturating_add(1);
    spoken.get(number as usize) == Some(&true) || spoken.get(length as usize) == Some(&true)
}

// The places of the measures of which anything is told: all but those of registers that no element
// names.
pub fn used_of(spoken: &[bool], space: &mut Workspace) -> Vec<bool> {
    let mut used = Vec::new(space.alloc);
    for place in 0..PLACES {
        let is_used = match family_of(place) {
            Some(NUMBER) => are_named(spoken, place),
            Some(LENGTH) => are_named(spoken, place.saturating_sub(1)),
            _ => true,
        };
        space.push(&mut used, is_used);
    }
    used
}
