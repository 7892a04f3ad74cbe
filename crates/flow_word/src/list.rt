//! A growing list, which contracts see as the list of its items.
ghost use Rattle.std.specs.Prelude.{◌≡◌, [], ◌∷◌, ◌++◌, length, take, drop, replicate, IfOk, OnOk, OnErr};
ghost use Rattle.std.specs.{Borrow.sem, Cmp.Lexicographic.pointwise, Cmp.Lexicographic.lists_per, Cmp.Lexicographic.lists_equiv};
ghost use Rattle.flow_word.specs.{LendsItems};

use crate::memory::OutOfMemory;
use std::alloc::Global;
use std::fmt;
use std::marker::Model;

/// A growing list, which keeps its allocator. Contracts see it as the list of its items.
pub struct List<T> {
    items: Vec<T>,
}

impl<T: Drop> Drop for List<T> {
    fn drop(self) {
        let List { items: _items } = self;
    }
}

impl<T> Model for List<T> {
    ghost use Rattle.std.specs.{Prelude.List as Items, Coded.coded_list};

    ghost Value = { Items T };

    ghost coded = { coded_list T.code };

    ghost view = { λ list. list.items.items };
}

/// Words of 64 bits.
pub type Words = List<u64>;

/// Outcomes of queries.
pub type Flags = List<bool>;

impl<T> List<T> {
    /// An empty list, which takes no memory.
    pub fn new(alloc: Global) -> Self
        ensures { result ≡ [] }
    {
        List {
            items: Vec::new(alloc),
        }
    }

    /// An empty list with memory reserved for `room` items. `OutOfMemory` where memory ran out.
    pub fn with_room(alloc: Global, room: u64) -> Result<Self, OutOfMemory>
        ensures { IfOk result (λ list. list ≡ []) }
    {
        Ok(List {
            items: Vec::with_capacity(alloc, room as usize)?,
        })
    }

    /// How many items there are.
    pub fn len(&self) -> u64
        ensures { result ≡ length self.now }
    {
        self.items.len() as u64
    }

    /// The items.
    pub fn as_slice(&self) -> &[T]
        ensures { result.now ≡ self.now }
    {
        self.items.as_slice()
    }

    /// The items, for writing: their number stays.
    pub fn as_mut_slice(&mut self) -> &mut [T]
        ensures* writes_back { sem 𝓛 (LendsItems T.row self.entry result) }
        ensures value { result.now ≡ self.old }
    {
        self.items.as_mut_slice()
    }
}

impl<T: Drop> List<T> {
    /// Adds an item at the end. After `OutOfMemory` the list is as it was, and the item is dropped.
    pub fn push(&mut self, item: T) -> Result<(), OutOfMemory>
        ensures ok { OnOk result (self.new ≡ self.old ++ item ∷ []) }
        ensures err { OnErr result (self.new ≡ self.old) }
    {
        self.items.push(item)?;
        Ok(())
    }

    /// Keeps the first `len` items and drops the others.
    pub fn truncate(&mut self, len: u64)
        ensures { self.new ≡ take len self.old }
    {
        self.items.truncate(len as usize);
    }
}

impl<T: Copy> List<T> {
    /// A list of these items. `OutOfMemory` where memory ran out.
    pub fn from_slice(alloc: Global, items: &[T]) -> Result<List<T>, OutOfMemory>
        ensures { IfOk result (λ list. list ≡ items.now) }
    {
        let items = Vec::from_slice(alloc, items)?;
        Ok(List { items })
    }

    /// Adds these items at the end. After `OutOfMemory` the list is as it was.
    pub fn extend_from_slice(&mut self, items: &[T]) -> Result<(), OutOfMemory>
        ensures ok { OnOk result (self.new ≡ self.old ++ items.now) }
        ensures err { OnErr result (self.new ≡ self.old) }
    {
        self.items.extend_from_slice(items)?;
        Ok(())
    }
}

impl List<u64> {
    /// A list of `len` zeros. `OutOfMemory` where memory ran out.
    pub fn zeros(alloc: Global, len: u64) -> Result<List<u64>, OutOfMemory>
        ensures { IfOk result (λ list. list ≡ replicate len 0) }
    {
        let items = vec![in alloc; 0u64; len as usize]?;
        Ok(List { items })
    }
}

impl<T: PartialEq> PartialEq for List<T> {
    ghost eq = { λ a b. pointwise T.eq a b };

    ghost laws = { lists_per T.laws };

    fn eq(&self, other: &Self) -> bool {
        self.as_slice() == other.as_slice()
    }
}

impl<T: Eq> Eq for List<T> {
    ghost laws = { lists_equiv T.Eq.laws };
}

impl<T: fmt::Debug> fmt::Debug for List<T> {
    fn fmt<W: fmt::Write>(&self, f: &mut fmt::Formatter<W>) -> fmt::Result {
        fmt::Debug::fmt(&self.as_slice(), f)
    }
}
