//! What is noted of a due operation before the replies.
ghost use Rattle.std.specs.Prelude.{◌≡◌, List as Items, map};
ghost use Rattle.module_code.specs.{Block as BlockOf, Due as DueOf, ModuleState as StateOf, Reply as ReplyOf, effects, noted_for, no_notes};
ghost use Rattle.module_code.specs.{effects_by};

use flow_word::List;
use std::alloc::Global;

/// What is noted of an operation at the age of a live iteration.
#[derive(Clone, Copy, Debug, PartialEq)]
pub struct Note {
    /// Whether the operation is due: it has no guard, or one that is not 0.
    pub passes: bool,
    /// The place of its iteration among the live ones, the oldest being 0.
    pub iteration: u32,
    /// The value that a `set`, a `load` or a `store` writes, not yet cut to a width; 0 for all others.
    pub value: u64,
    /// The address of a `store`; 0 for all others.
    pub address: u64,
}

/// What is noted of the operations of a block that stand at the ages of the live iterations.
pub struct Notes {
    /// The place, among the actions of the block, of the first operation that is noted.
    pub from: usize,
    /// The place after the last operation that is noted.
    pub to: usize,
    /// How many of the noted operations are due.
    pub count: u64,
    /// The note of each noted operation, in order. What follows means nothing.
    pub items: List<Note>,
}

impl Drop for Notes {
    fn drop(self) {
        let Notes {
            from: _from,
            to: _to,
            count: _count,
            items: _items,
        } = self;
    }
}

impl Notes {
    /// The notes of no operation. They take no memory.
    pub fn new(alloc: Global) -> Notes
        ensures { result ≡ no_notes }
    {
        Notes {
            from: 0,
            to: 0,
            count: 0,
            items: List::new(alloc),
        }
    }
}

/// A due operation, with what it takes from the state before the clock.
#[derive(Clone, Copy, Debug, PartialEq)]
pub struct Noted {
    /// The number of the operation in its block.
    pub op: u32,
    /// The place of its iteration among the live ones, the oldest being 0.
    pub iteration: u32,
    /// The value that a `set`, a `load` or a `store` writes, not yet cut to a width; 0 for all others.
    pub value: u64,
    /// The address of a `store`; 0 for all others.
    pub address: u64,
}

/// The notes of the due operations and the replies determine all that the operations write. The state from before the clock is no
/// longer needed.
#[tactic(auto, using(crate::proofs::Enough::all_noted))]
pub fn notes_are_enough()
    ensures { (b : BlockOf) (s : StateOf) (pending : Items DueOf) (replies : Items ReplyOf)
        → effects_by b (map (noted_for b s) pending) replies ≡ effects b s pending replies }
{}
