//! The accesses of one step, which contracts see as a list.
ghost use Rattle.std.specs.Prelude.{◌≡◌, [], ◌∷◌, ◌++◌, length, OnOk, OnErr};

use crate::access::Access;
use crate::memory::OutOfMemory;
use smallvec::SmallVec;
use std::alloc::Global;
use std::marker::Model;

/// The accesses of one step, in commit order. Up to two accesses lie in the step itself and take no other memory.
#[derive(Debug)]
pub struct Accesses {
    items: SmallVec<Access, 2>,
}

impl Drop for Accesses {
    fn drop(self) {
        let Accesses { items: _items } = self;
    }
}

impl Model for Accesses {
    ghost use Rattle.std.specs.Prelude.{List};
    ghost use Rattle.flow_word.specs.declared.access.Access.{Access};

    ghost Value = { List Access };

    ghost view = { λ accesses. accesses.items.items };
}

impl Accesses {
    /// A list without accesses. It takes no memory.
    pub fn new(alloc: Global) -> Accesses
        ensures { result ≡ [] }
    {
        Accesses {
            items: SmallVec::new(alloc),
        }
    }

    /// How many accesses there are.
    pub fn len(&self) -> u64
        ensures { result ≡ length self.now }
    {
        self.items.len() as u64
    }

    /// The accesses, in order.
    pub fn as_slice(&self) -> &[Access]
        ensures { result.now ≡ self.now }
    {
        self.items.as_slice()
    }

    /// Adds an access at the end. After `OutOfMemory` the accesses are as they were.
    pub fn push(&mut self, access: Access) -> Result<(), OutOfMemory>
        ensures ok { OnOk result (self.new ≡ self.old ++ access ∷ []) }
        ensures err { OnErr result (self.new ≡ self.old) }
    {
        self.items.push(access)?;
        Ok(())
    }
}
