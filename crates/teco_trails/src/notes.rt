//! What is noted while paths are followed.
use crate::fault::{SearchRefusal, SearchStop};
use std::alloc::Global;
use teco_bounds::record::Record;
use teco_bounds::workspace::Workspace;
use teco_paths::fault::PathFault;

// What is noted of paths, what they are made with, and why the search stops, if it is to stop.
#[derive(Drop)]
pub struct PathNotes {
    pub record: Record,
    pub space: Workspace,
    // How many questions programs were asked that are not counted yet.
    asked: usize,
    stop: Option<SearchStop>,
}

impl PathNotes {
    pub fn new(is_kept: bool, alloc: Global) -> PathNotes {
        PathNotes {
            record: Record::new(is_kept, alloc),
            space: Workspace::new(alloc),
            asked: 0,
            stop: None,
        }
    }

    // Notes that programs are asked.
    pub fn note_asked(&mut self) {
        self.asked = self.asked.saturating_add(1);
    }

    // How many questions they were asked since this was asked last.
    pub fn take_asked(&mut self) -> usize {
        std::mem::replace(&mut self.asked, 0)
    }

    pub fn is_stopped(&self) -> bool {
        self.stop.is_some() || self.space.is_stopped()
    }

    // Notes why the search stops, unless it is to stop already.
    pub fn stop(&mut self, stop: SearchStop) {
        if !self.is_stopped() {
            self.stop = Some(stop);
        }
    }

    // Notes that the search is refused.
    pub fn refuse(&mut self, refusal: SearchRefusal) {
        self.stop(SearchStop::Refused(refusal));
    }

    // Notes that the search takes too much.
    pub fn give_up(&mut self) {
        self.refuse(SearchRefusal::TooMuch(None));
    }

    // What was made, or none, where that is noted.
    pub fn take<T: Drop>(&mut self, made: Result<T, PathFault>) -> Option<T> {
        match made {
            Ok(made) => Some(made),
            Err(fault) => {
                self.stop(SearchStop::from(fault));
                None
            }
        }
    }

    // Why the search stops, if it is to stop. That is then forgotten.
    pub fn finish(&mut self) -> Result<(), SearchStop> {
        let made = self.space.finish();
        match self.stop.take() {
            Some(stop) => Err(stop),
            None => Ok(made?),
        }
    }
}
