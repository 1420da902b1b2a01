//! What the search makes vectors and forms with.
use std::alloc::Global;
use teco_linear::{Form, LinearFault, Scale, Term};

// Why the search stops: a growth was refused, or it takes too much; a condition of the element of a number is not
// shown; what is held, or the steps of the loop whose body begins at an element, have no bound; or a number that was
// taken to be tame is not.
#[derive(Clone, Copy)]
pub enum Stop {
    Memory,
    TooMuch,
    Condition(usize),
    Size,
    Steps(usize),
    Wild,
}

// Makes vectors and forms. What cannot be made is noted, and less stands in for it, until the owner asks: nothing
// may rest on what was made before that.
#[derive(Drop)]
pub struct Workspace {
    pub alloc: Global,
    stop: Option<Stop>,
}

impl Workspace {
    pub fn new(alloc: Global) -> Workspace {
        Workspace { alloc, stop: None }
    }

    // Notes why the search stops, unless it is to stop already.
    pub fn stop(&mut self, stop: Stop) {
        if self.stop.is_none() {
            self.stop = Some(stop);
        }
    }

    pub fn is_stopped(&self) -> bool {
        self.stop.is_some()
    }

    // Notes what another workspace has noted.
    pub fn follow(&mut self, other: &Workspace) {
        if let Some(stop) = other.stop {
            self.stop(stop);
        }
    }

    // Why the search stops, if it is to stop. That is then forgotten.
    pub fn finish(&mut self) -> Result<(), Stop> {
        match self.stop.take() {
            Some(stop) => Err(stop),
            None => Ok(()),
        }
    }

    pub fn push<T: Drop>(&mut self, items: &mut Vec<T>, item: T) {
        if items.push(item).is_err() {
            self.stop(Stop::Memory);
        }
    }

    // Adds copies of numbers to others.
    pub fn extend<T: Copy + Drop>(&mut self, items: &mut Vec<T>, more: &[T]) {
        if items.extend_from_slice(more).is_err() {
            self.stop(Stop::Memory);
        }
    }

    // Moves items behind others.
    pub fn append<T: Drop>(&mut self, items: &mut Vec<T>, more: &mut Vec<T>) {
        if items.append(more).is_err() {
            self.stop(Stop::Memory);
        }
    }

    // So many times an item.
    pub fn repeated<T: Copy + Drop>(&mut self, item: T, count: usize) -> Vec<T> {
        match Vec::from_elem(self.alloc, item, count) {
            Ok(items) => items,
            Err(_) => {
                self.stop(Stop::Memory);
                Vec::new(self.alloc)
            }
        }
    }

    // A copy of items.
    pub fn listed<T: Copy + Drop>(&mut self, items: &[T]) -> Vec<T> {
        let mut copies = Vec::new(self.alloc);
        self.extend(&mut copies, items);
        copies
    }

    // A form that was to be made, or the form 0.
    fn made(&mut self, form: Result<Form, LinearFault>) -> Form {
        match form {
            Ok(form) => form,
            Err(fault) => {
                self.stop(match fault {
                    LinearFault::Memory => Stop::Memory,
                    _ => Stop::TooMuch,
                });
                Form::zero(self.alloc)
            }
        }
    }

    pub fn constant(&mut self, number: i128) -> Form {
        self.made(Form::constant(number, self.alloc))
    }

    pub fn symbol(&mut self, symbol: u32) -> Form {
        self.made(Form::symbol(symbol, self.alloc))
    }

    pub fn term(&mut self, term: Term) -> Form {
        self.made(Form::term(term, self.alloc))
    }

    pub fn sum(&mut self, one: &Form, other: &Form) -> Form {
        self.made(one.add(other, self.alloc))
    }

    pub fn difference(&mut self, one: &Form, other: &Form) -> Form {
        self.made(one.sub(other, self.alloc))
    }

    pub fn scaled(&mut self, form: &Form, scale: &Scale) -> Form {
        self.made(form.scaled(scale, self.alloc))
    }

    pub fn copied(&mut self, form: &Form) -> Form {
        self.made(form.copied(self.alloc))
    }

    pub fn copied_forms(&mut self, forms: &[Form]) -> Vec<Form> {
        let mut copies = Vec::new(self.alloc);
        for form in forms {
            let copy = self.copied(form);
            self.push(&mut copies, copy);
        }
        copies
    }
}
