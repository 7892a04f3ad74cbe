//! What is kept of the modules from clock to clock.
ghost use Rattle.std.specs.Prelude.{◌≡◌, [], IfOk, replicate};
ghost use Rattle.clock_machine.specs.{no_memo};

use flow_design::{EventLine, Reply, Request};
use flow_word::{List, OutOfMemory, Words};
use module_code::Notes;
use std::alloc::Global;

/// A value that is pushed on a channel in one clock.
#[derive(Clone, Copy, Debug, PartialEq, Eq)]
pub struct PushedValue {
    pub channel: u32,
    pub value: u64,
}

/// What is kept of a module from clock to clock, beside its state.
#[derive(Drop)]
pub struct Memo {
    /// The clock up to which the module has nothing to do. Its state is already that of this clock.
    pub wakes: u64,
    /// Whether the notes and requests here are those of its state. A module that stalls keeps them until it moves.
    pub known: bool,
    /// The place, among the requests, of the one on which the module stalled. It is tried first; the answer does not depend on it.
    pub place: u64,
    /// The notes of the due operations.
    pub notes: Notes,
    /// The requests of the due FIFO operations, in commit order.
    pub requests: List<Request>,
}

/// What the modules pop and push in one clock.
#[derive(Drop)]
pub struct Traffic {
    /// The channels that are popped, each once for each pop.
    pub pops: List<u32>,
    /// The values that are pushed, with their channels.
    pub pushes: List<PushedValue>,
}

/// Lists that the modules of a clock use one after another.
#[derive(Drop)]
pub struct Round {
    /// Memory for the results of expressions.
    pub words: Words,
    /// The replies to the requests of one module.
    pub replies: List<Reply>,
    pub traffic: Traffic,
    /// The events of all clocks so far, or none where events are not kept.
    pub events: List<EventLine>,
}

impl Memo {
    /// A memo in which nothing is known. It takes no memory.
    pub fn new(alloc: Global) -> Memo
        ensures { result ≡ no_memo }
    {
        Memo {
            wakes: 0,
            known: false,
            place: 0,
            notes: Notes::new(alloc),
            requests: List::new(alloc),
        }
    }
}

impl Traffic {
    /// A clock in which nothing is popped or pushed. It takes no memory.
    pub fn new(alloc: Global) -> Traffic
        ensures { result ≡ record { pops = []; pushes = [] } }
    {
        Traffic {
            pops: List::new(alloc),
            pushes: List::new(alloc),
        }
    }

    /// Empties the two lists, which keep their memory.
    pub fn clear(&mut self)
        ensures { self.new ≡ record { pops = []; pushes = [] } }
    {
        self.pops.truncate(0);
        self.pushes.truncate(0);
    }
}

impl Round {
    /// Empty lists, which take no memory.
    pub fn new(alloc: Global) -> Round
        ensures traffic { result.traffic ≡ record { pops = []; pushes = [] } }
        ensures events { result.events ≡ [] }
    {
        Round {
            words: List::new(alloc),
            replies: List::new(alloc),
            traffic: Traffic::new(alloc),
            events: List::new(alloc),
        }
    }
}

/// One memo for each of `modules` modules, in which nothing is known. `OutOfMemory` where memory ran out.
pub fn memos_for(alloc: Global, modules: u64) -> Result<List<Memo>, OutOfMemory>
    ensures { IfOk result (λ memos. memos ≡ replicate modules no_memo) }
{
    let mut memos = List::new(alloc);
    for _ in 0..modules {
        memos.push(Memo::new(alloc))?;
    }
    Ok(memos)
}
