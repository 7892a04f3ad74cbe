//! Names that are declared already.
ghost use Rattle.std.specs.Prelude.{◌≡◌, false, [], ◌∷◌, nat_lt, length, OnOk, OnErr};
ghost use Rattle.flow_text.specs.{is_among};

use flow_word::OutOfMemory;
use indexmap::IndexSet;
use std::alloc::Global;
use std::marker::Model;

/// Names of a text, each once. They are not copied: each is a part of the text. Contracts see them as a list, the latest first.
#[derive(Drop)]
pub struct Names<'a> {
    names: IndexSet<&'a [u8]>,
}

impl<'a> Model for Names<'a> {
    ghost use Rattle.std.specs.Prelude.{List, ℕ, map, reverse};

    ghost Value = { List (List ℕ) };

    ghost view = { λ table. reverse (map (λ name. name.now) table.names.keys) };
}

impl<'a> Names<'a> {
    /// No names.
    pub fn new(alloc: Global) -> Names<'a>
        ensures { result ≡ [] }
    {
        Names {
            names: IndexSet::new(alloc),
        }
    }

    /// Whether there are fewer than `most` names.
    pub fn has_room(&self, most: u64) -> bool
        ensures { result ≡ nat_lt (length self.now) most }
    {
        (self.names.len() as u64) < most
    }

    /// Whether a name is one of these.
    pub fn has(&self, name: &[u8]) -> bool
        ensures { result ≡ is_among self.now name.now }
    {
        self.names.contains(name)
    }

    /// Adds a name that is not there. After `OutOfMemory` the names are as they were.
    pub fn add(&mut self, name: &'a [u8]) -> Result<(), OutOfMemory>
        requires { is_among self.old name.now ≡ false }
        ensures ok { OnOk result (self.new ≡ name.now ∷ self.old) }
        ensures err { OnErr result (self.new ≡ self.old) }
    {
        self.names.insert(name)?;
        Ok(())
    }

    /// Forgets all names.
    pub fn clear(&mut self)
        ensures { self.new ≡ [] }
    {
        self.names.clear();
    }
}
