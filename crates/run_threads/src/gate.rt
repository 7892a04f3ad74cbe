//! The gate: who makes the bursts.
ghost use Rattle.run_threads.specs.{StandsSomewhere, IsBurstOn};

use sim_hub::{Burst, Task, work};
use std::alloc::Global;

/// Makes the bursts of modules. A test may watch or delay them in a gate of its own.
pub trait Gate {
    /// Makes a burst of a module on its task. Whoever drives the module calls it, once for each desk, and outside the turn.
    fn burst(&self, alloc: Global, owner: u32, task: Task) -> Burst
        requires { StandsSomewhere task.run }
        ensures { IsBurstOn task result };
}

/// A gate that makes each burst at once.
#[derive(Clone, Copy, Debug, PartialEq, Eq)]
pub struct FreeGate;

impl Gate for FreeGate {
    fn burst(&self, alloc: Global, _owner: u32, task: Task) -> Burst {
        work(alloc, task)
    }
}
