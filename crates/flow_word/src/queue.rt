//! A queue, which contracts see as the list of its items, the front first.
ghost use Rattle.std.specs.Prelude.{◌≡◌, [], ◌∷◌, ◌++◌, length, drop, slice_get, OnOk, OnErr};

use crate::memory::OutOfMemory;
use std::alloc::Global;
use std::collections::VecDeque;
use std::marker::Model;

/// A queue: items come in at the back and leave at the front. Neither goes through the other items.
pub struct Queue<T> {
    items: VecDeque<T>,
}

impl<T: Drop> Drop for Queue<T> {
    fn drop(self) {
        let Queue { items: _items } = self;
    }
}

impl<T> Model for Queue<T> {
    ghost use Rattle.std.specs.{Prelude.List as Items, Coded.coded_list};

    ghost Value = { Items T };

    ghost coded = { coded_list T.code };

    ghost view = { λ queue. queue.items.items };
}

impl<T> Queue<T> {
    /// An empty queue, which takes no memory.
    pub fn new(alloc: Global) -> Self
        ensures { result ≡ [] }
    {
        Queue {
            items: VecDeque::new(alloc),
        }
    }

    /// How many items there are.
    pub fn len(&self) -> u64
        ensures { result ≡ length self.now }
    {
        self.items.len() as u64
    }
}

impl<T: Drop> Queue<T> {
    /// Adds an item at the back. After `OutOfMemory` the queue is as it was, and the item is dropped.
    pub fn push(&mut self, item: T) -> Result<(), OutOfMemory>
        ensures ok { OnOk result (self.new ≡ self.old ++ item ∷ []) }
        ensures err { OnErr result (self.new ≡ self.old) }
    {
        self.items.push_back(item)?;
        Ok(())
    }

    /// Takes the item at the front off. `None` where the queue is empty.
    pub fn pop(&mut self) -> Option<T>
        ensures front { result ≡ slice_get self.old 0 }
        ensures rest { self.new ≡ drop 1 self.old }
    {
        self.items.pop_front()
    }
}

impl<T: Copy> Queue<T> {
    /// The item at the front. `None` where the queue is empty.
    pub fn front(&self) -> Option<T>
        ensures { result ≡ slice_get self.now 0 }
    {
        self.items.front().copied()
    }
}
