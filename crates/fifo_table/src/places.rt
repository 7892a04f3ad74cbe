//! The places of one module's steps, in 4 bytes each.
ghost use Rattle.std.specs.Prelude.{◌≡◌, ◌+◌, ◌<◌, ◌≤◌, ◌^◌, [], ◌∷◌, ◌++◌, length, slice_get, IsOk, OnOk, OnErr};
ghost use Rattle.fifo_table.specs.{AreAllOf, first_module};

use flow_word::{OutOfMemory, Place, RoomyList};
use std::alloc::Global;
use std::marker::Model;

/// The places of steps of one module, in order. A step's number must be below 2^32.
///
/// Contracts see the places, and how many further ones are taken without asking for memory.
#[derive(Drop)]
pub struct Places {
    module: u32,
    steps: RoomyList<u32>,
}

impl Model for Places {
    ghost use Rattle.flow_word.specs.{Roomed, Place as place_type};
    ghost use Rattle.fifo_table.specs.Kept.{places_numbered};

    ghost Value = { Roomed place_type };

    ghost view = { λ p. record { items = places_numbered p.module p.steps.items; room = p.steps.room } };
}

impl Places {
    /// A list without a place. It takes no memory.
    pub fn new(alloc: Global) -> Places
        ensures { result.items ≡ [] }
    {
        Places {
            module: 0,
            steps: RoomyList::new(alloc),
        }
    }

    /// Reserves room for `more` further places. The places stay, and the room never falls. `OutOfMemory` where memory ran out.
    pub fn reserve(&mut self, more: u64) -> Result<(), OutOfMemory>
        ensures items { self.new.items ≡ self.old.items }
        ensures room { OnOk result (more ≤ self.new.room) }
        ensures kept { self.old.room ≤ self.new.room }
    {
        self.steps.reserve(more)
    }

    /// Adds a place of the same module at the end. It succeeds where there is room, and then uses one place of it. After `OutOfMemory`
    /// the places are as they were.
    #[inline(always)]
    pub fn push(&mut self, at: Place) -> Result<(), OutOfMemory>
        requires own { AreAllOf at.module self.old.items }
        requires step { at.step < 2 ^ 32 }
        ensures ok { OnOk result (self.new.items ≡ self.old.items ++ at ∷ []) }
        ensures err { OnErr result (self.new.items ≡ self.old.items) }
        ensures succeeds { 0 < self.old.room → IsOk result }
        ensures room { self.old.room ≤ self.new.room + 1 }
    {
        self.module = at.module;
        self.steps.push(at.step as u32)
    }

    /// How many places there are.
    pub fn len(&self) -> u64
        ensures { result ≡ length self.now.items }
    {
        self.steps.len()
    }

    /// The place that comes after `before` others. `None` where there is none.
    pub fn get(&self, before: u64) -> Option<Place>
        ensures { result ≡ slice_get self.now.items before }
    {
        let module = self.module;
        let step = self.steps.as_slice().get(before as usize);
        step.map(|step| Place {
            module,
            step: *step as u64,
        })
    }

    /// The module of the places. `None` where there is no place.
    pub fn module(&self) -> Option<u32>
        ensures { result ≡ first_module self.now.items }
    {
        if self.steps.len() == 0 {
            None
        } else {
            Some(self.module)
        }
    }
}
