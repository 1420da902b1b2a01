//! A few units: the symbols of a form, each as often as it is taken.

// How many units there are at most.
pub const MOST: usize = 6;

#[derive(Clone, Copy)]
pub struct Units {
    places: [usize; MOST],
    count: usize,
}

impl Units {
    pub fn none() -> Units {
        Units {
            places: [0; MOST],
            count: 0,
        }
    }

    pub fn count(&self) -> usize {
        self.count
    }

    pub fn at(&self, index: usize) -> usize {
        match self.places.get(index) {
            Some(place) => *place,
            None => 0,
        }
    }

    // Adds a place so many times; says whether there is room.
    pub fn add(&mut self, place: usize, times: u64) -> bool {
        for _ in 0..times.min(MOST as u64 + 1) {
            match self.places.get_mut(self.count) {
                Some(slot) => *slot = place,
                None => return false,
            }
            self.count = self.count.saturating_add(1);
        }
        true
    }
}
