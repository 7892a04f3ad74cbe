//! A list with reserved room.
ghost use Rattle.std.specs.Prelude.{◌≡◌, ◌+◌, ◌≤◌, ◌<◌, [], ◌∷◌, ◌++◌, length, take, IsOk, OnOk, OnErr};

use crate::memory::OutOfMemory;
use std::alloc::Global;
use std::marker::Model;

/// A list whose room is known. Contracts see its items, and how many more it takes without asking for memory.
pub struct RoomyList<T> {
    items: Vec<T>,
}

impl<T: Drop> Drop for RoomyList<T> {
    fn drop(self) {
        let RoomyList { items: _items } = self;
    }
}

impl<T> Model for RoomyList<T> {
    ghost use Rattle.std.specs.Prelude.{◌-◌, vec_len, vec_capacity};
    ghost use Rattle.flow_word.specs.Room.{Roomed, roomed_code};

    ghost Value = { Roomed T };

    ghost coded = { roomed_code T.code };

    ghost view = { λ list. record { items = list.items.items; room = vec_capacity list.items - vec_len list.items } };
}

impl<T> RoomyList<T> {
    /// An empty list, which takes no memory and has no room.
    pub fn new(alloc: Global) -> Self
        ensures { result.items ≡ [] }
    {
        RoomyList {
            items: Vec::new(alloc),
        }
    }

    /// How many items there are.
    pub fn len(&self) -> u64
        ensures { result ≡ length self.now.items }
    {
        self.items.len() as u64
    }

    /// The items.
    pub fn as_slice(&self) -> &[T]
        ensures { result.now ≡ self.now.items }
    {
        self.items.as_slice()
    }

    /// Reserves room for `more` further items. The items stay, and the room never falls, after `OutOfMemory` either.
    pub fn reserve(&mut self, more: u64) -> Result<(), OutOfMemory>
        ensures items { self.new.items ≡ self.old.items }
        ensures room { OnOk result (more ≤ self.new.room) }
        ensures kept { self.old.room ≤ self.new.room }
    {
        self.items.reserve(more as usize)?;
        Ok(())
    }
}

impl<T: Drop> RoomyList<T> {
    /// Adds an item at the end. It succeeds where there is room, and then uses one place of the room. After `OutOfMemory` the items are
    /// as they were.
    #[inline(always)]
    pub fn push(&mut self, item: T) -> Result<(), OutOfMemory>
        ensures ok { OnOk result (self.new.items ≡ self.old.items ++ item ∷ []) }
        ensures err { OnErr result (self.new.items ≡ self.old.items) }
        ensures succeeds { 0 < self.old.room → IsOk result }
        ensures room { self.old.room ≤ self.new.room + 1 }
    {
        self.items.push(item)?;
        Ok(())
    }

    /// Adds an item at the end, in the room that there is.
    #[inline(always)]
    pub fn push_reserved(&mut self, item: T)
        requires { 0 < self.old.room }
        ensures items { self.new.items ≡ self.old.items ++ item ∷ [] }
        ensures room { self.old.room ≤ self.new.room + 1 }
    {
        self.items.push_reserved(item);
    }

    /// Keeps the first `len` items and drops the others. The room does not fall.
    pub fn truncate(&mut self, len: u64)
        ensures items { self.new.items ≡ take len self.old.items }
        ensures room { self.old.room ≤ self.new.room }
    {
        self.items.truncate(len as usize);
    }
}
