//! Where the shape of a step may be found.

use flow_word::OutOfMemory;
use std::alloc::Global;

/// How many places are looked at for one hash.
pub(crate) const MOST_LOOKS: u32 = 8;

/// The fewest places that a table with a place has.
const FEWEST_PLACES: usize = 64;

/// Numbers of shapes by a hash of their slots. Each is a hint, and may be the number of any shape: who takes it compares the shape.
#[derive(Drop)]
pub struct ShapeHints {
    /// One more than the number of a shape, or 0.
    places: Vec<u32>,
}

/// The hash of some slots with one more after them.
#[inline(always)]
pub(crate) fn hash_more(hash: u32, slot: u32) -> u32 {
    let mixed = (hash ^ slot).wrapping_mul(0x9e37_79b1);
    mixed ^ mixed / 0x8000
}

impl ShapeHints {
    /// A table without a place. It takes no memory.
    pub fn new(alloc: Global) -> ShapeHints {
        ShapeHints {
            places: Vec::new(alloc),
        }
    }

    /// The place that comes so many places after that of the hash.
    #[inline(always)]
    fn place(&self, hash: u32, look: u32) -> usize {
        hash.wrapping_add(look) as usize & self.places.len().wrapping_sub(1)
    }

    /// The number of a shape that may have this hash. `None` at a place without a number.
    #[inline(always)]
    pub fn get(&self, hash: u32, look: u32) -> Option<u32> {
        let place = self.place(hash, look);
        if place >= self.places.len() {
            return None;
        }
        self.places[place].checked_sub(1)
    }

    /// Puts a number at the first free place for the hash, or at the first place where all that are looked at have a number.
    pub fn put(&mut self, hash: u32, number: u32) {
        for look in 0..MOST_LOOKS {
            let place = self.place(hash, look);
            if place < self.places.len() && self.places[place] == 0 {
                self.places[place] = number.wrapping_add(1);
                return;
            }
        }
        let place = self.place(hash, 0);
        if place < self.places.len() {
            self.places[place] = number.wrapping_add(1);
        }
    }

    /// Whether there are fewer than two places for each of so many shapes.
    pub fn is_small(&self, shapes: u64) -> bool {
        self.places.is_empty() || shapes > self.places.len() as u64 / 2
    }

    /// Doubles the number of places, and takes all numbers out. After `OutOfMemory` there is no place.
    pub fn double(&mut self) -> Result<(), OutOfMemory> {
        let len = self.places.len().saturating_mul(2).max(FEWEST_PLACES);
        self.places.clear();
        self.places.resize(len, 0)?;
        Ok(())
    }
}
