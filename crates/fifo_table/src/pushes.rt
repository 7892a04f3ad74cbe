//! The pushes of one module, in 12 bytes each.
ghost use Rattle.std.specs.Prelude.{◌≡◌, ◌+◌, ◌<◌, ◌≤◌, ◌^◌, [], ◌∷◌, ◌++◌, length, map, slice_get, IsOk, OnOk, OnErr};
ghost use Rattle.fifo_table.specs.{AreAllOf, push_of, first_module};

use crate::channel::Pushed;
use crate::places::Places;
use flow_word::{OutOfMemory, Place, RoomyList};
use std::alloc::Global;
use std::marker::Model;

/// The pushes of one module, in order.
///
/// Contracts see the pushes, and how many further ones are taken without asking for memory.
#[derive(Drop)]
pub struct Pushes {
    places: Places,
    values: RoomyList<u64>,
}

impl Model for Pushes {
    ghost use Rattle.std.specs.Prelude.{◌≡◌, length, min};
    ghost use Rattle.flow_word.specs.{Roomed};
    ghost use Rattle.fifo_table.specs.{declared.channel.Pushed.Pushed as pushed_type, Kept.pushes_in};

    ghost Value = { Roomed pushed_type };

    ghost view = { λ p. record { items = pushes_in p.places.items p.values.items; room = min p.places.room p.values.room } };

    ghost invariant = { λ p. length p.values.items ≡ length p.places.items };
}

impl Pushes {
    /// A list without a push. It takes no memory.
    pub fn new(alloc: Global) -> Pushes
        ensures { result.items ≡ [] }
    {
        Pushes {
            places: Places::new(alloc),
            values: RoomyList::new(alloc),
        }
    }

    /// Reserves room for `more` further pushes. The pushes stay, and the room never falls. `OutOfMemory` where memory ran out.
    pub fn reserve(&mut self, more: u64) -> Result<(), OutOfMemory>
        ensures items { self.new.items ≡ self.old.items }
        ensures room { OnOk result (more ≤ self.new.room) }
        ensures kept { self.old.room ≤ self.new.room }
    {
        self.places.reserve(more)?;
        self.values.reserve(more)
    }

    /// Adds a push of the same module at the end. It succeeds where there is room, and then uses one place of it. After `OutOfMemory`
    /// the pushes are as they were.
    #[inline(always)]
    pub fn push(&mut self, at: Place, value: u64) -> Result<(), OutOfMemory>
        requires own { AreAllOf at.module (map (λ p. p.at) self.old.items) }
        requires step { at.step < 2 ^ 32 }
        ensures ok { OnOk result (self.new.items ≡ self.old.items ++ push_of at value ∷ []) }
        ensures err { OnErr result (self.new.items ≡ self.old.items) }
        ensures succeeds { 0 < self.old.room → IsOk result }
        ensures room { self.old.room ≤ self.new.room + 1 }
    {
        let before = self.values.len();
        self.values.push(value)?;
        let added = self.places.push(at);
        if added.is_err() {
            self.values.truncate(before);
        }
        added
    }

    /// How many pushes there are.
    pub fn len(&self) -> u64
        ensures { result ≡ length self.now.items }
    {
        self.values.len()
    }

    /// The push that comes after `before` others. `None` where there is none.
    pub fn get(&self, before: u64) -> Option<Pushed>
        ensures { result ≡ slice_get self.now.items before }
    {
        match (self.place(before), self.value(before)) {
            (Some(at), Some(value)) => Some(Pushed { at, value }),
            _ => None,
        }
    }

    /// The step of the push that comes after `before` others. `None` where there is none.
    pub fn place(&self, before: u64) -> Option<Place>
        ensures { result ≡ slice_get (map (λ p. p.at) self.now.items) before }
    {
        self.places.get(before)
    }

    /// The value of the push that comes after `before` others. `None` where there is none.
    pub fn value(&self, before: u64) -> Option<u64>
        ensures { result ≡ slice_get (map (λ p. p.value) self.now.items) before }
    {
        nth(self.values.as_slice(), before)
    }

    /// The module of the pushes. `None` where there is no push.
    pub fn module(&self) -> Option<u32>
        ensures { result ≡ first_module (map (λ p. p.at) self.now.items) }
    {
        self.places.module()
    }
}

/// The value that comes after `before` others. `None` where there is none.
fn nth(values: &[u64], before: u64) -> Option<u64>
    ensures { result ≡ slice_get values.now before }
{
    values.get(before as usize).copied()
}
