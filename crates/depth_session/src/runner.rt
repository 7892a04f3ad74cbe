//! What simulates a plan for a session.
ghost use Rattle.std.specs.Prelude.{◌≡◌, ℕ, ◌+◌, ◌<◌, ◌≤◌, Option, Some, None, option_copied, IfOk};
ghost use Rattle.depth_session.specs.{IsFinal, opening_core, AllVerified, design, theory_of, AreOwn};

use flow_design::CheckedPlan;
use flow_word::OutOfMemory;
use run_threads::{FreeGate, Gate, Threadless, run_core};
use sim_core::{Core, finish_alone};
use std::alloc::Global;
use std::sync::Wait;
use std::thread::Threads;
use timing_bridge::histories_are_legal;

/// The leave to count a run. Only `run_plan` and `run_again` make one, so that nobody else counts.
pub struct RunLeave {
    of: (),
}

impl Drop for RunLeave {
    fn drop(self) {
        let RunLeave { of: _of } = self;
    }
}

/// Something that simulates plans from the beginning, and counts how often: on the calling thread, or with a thread for each
/// module.
pub trait Runner {
    /// How many runs the runner was asked for. At the greatest u64 the count stays.
    ghost made: { Self → ℕ };

    /// The type of its gate, which makes the bursts of its threads.
    type Gate: Gate + Sync;

    /// The gate of its threads; none where it simulates on the calling thread.
    ghost gate_of: { Self → Option Self.Gate };

    /// Counts one more run.
    fn count_run(&mut self, asked: RunLeave)
        ensures counted { made self.old < u64.MAX → made self.new ≡ made self.old + 1 }
        ensures stays { u64.MAX ≤ made self.old → made self.new ≡ made self.old }
        ensures gate { gate_of self.new ≡ gate_of self.old };

    /// The gate of its threads. `None` where it simulates on the calling thread.
    fn gate(&self) -> Option<&Self::Gate>
        ensures { option_copied result ≡ gate_of self.now };

    /// The modules whose bursts the last run found to be short: they have no thread when a plan is simulated again.
    fn threadless(&self) -> Threadless;

    /// Keeps the modules whose bursts a run found to be short.
    fn set_threadless(&mut self, threadless: Threadless)
        ensures made { made self.new ≡ made self.old }
        ensures gate { gate_of self.new ≡ gate_of self.old };

    /// Simulates a plan. The answer is a final core of it, of which no run is lent and no outcome is assumed. The run is counted,
    /// after `OutOfMemory` too.
    final fn run_plan<R: Threads + Wait + Sync>(
        &mut self,
        rt: &R,
        alloc: Global,
        plan: CheckedPlan,
    ) -> Result<Core, OutOfMemory>
        ensures plan { IfOk result (λ core. core.plan ≡ plan) }
        ensures done { IfOk result (λ core. IsFinal (design core.plan) core.plan.cycles (theory_of core)) }
        ensures verified { IfOk result (λ core. AllVerified (theory_of core)) }
        ensures own { IfOk result (λ core. AreOwn core) }
        ensures counted { made self.old < u64.MAX → made self.new ≡ made self.old + 1 }
        ensures stays { u64.MAX ≤ made self.old → made self.new ≡ made self.old }
        ensures gate { gate_of self.new ≡ gate_of self.old }
    {
        self.count_run(RunLeave { of: () });
        let core = Core::new(alloc, plan)?;
        let (core, threadless) = simulate(rt, alloc, core, self.gate(), Threadless::none())?;
        self.set_threadless(threadless);
        Ok(core)
    }

    /// Simulates a plan once more, from a core of it in which nothing is emitted yet. The modules whose bursts the last run found
    /// to be short have no thread. The run is counted, after `OutOfMemory` too.
    final fn run_again<R: Threads + Wait + Sync>(
        &mut self,
        rt: &R,
        alloc: Global,
        core: Core,
    ) -> Result<Core, OutOfMemory>
        requires opening { theory_of core ≡ opening_core (design core.plan) }
        requires verified { AllVerified (theory_of core) }
        requires own { AreOwn core }
        ensures plan { IfOk result (λ done. done.plan ≡ core.plan) }
        ensures done { IfOk result (λ done. IsFinal (design done.plan) done.plan.cycles (theory_of done)) }
        ensures verified { IfOk result (λ done. AllVerified (theory_of done)) }
        ensures own { IfOk result (λ done. AreOwn done) }
        ensures counted { made self.old < u64.MAX → made self.new ≡ made self.old + 1 }
        ensures stays { u64.MAX ≤ made self.old → made self.new ≡ made self.old }
        ensures gate { gate_of self.new ≡ gate_of self.old }
    {
        self.count_run(RunLeave { of: () });
        let (core, threadless) = simulate(rt, alloc, core, self.gate(), self.threadless())?;
        self.set_threadless(threadless);
        Ok(core)
    }
}

/// Simulates from a core in which nothing is emitted yet: with a thread for each module whose bursts are not known to be short, or on the
/// calling thread where there is no gate. The second answer has the modules whose bursts are then known to be short.
fn simulate<R: Threads + Wait + Sync, G: Gate + Sync>(
    rt: &R,
    alloc: Global,
    core: Core,
    gate: Option<&G>,
    threadless: Threadless,
) -> Result<(Core, Threadless), OutOfMemory>
    requires opening { theory_of core ≡ opening_core (design core.plan) }
    requires verified { AllVerified (theory_of core) }
    requires own { AreOwn core }
    ensures plan { IfOk result (λ r. r.0.plan ≡ core.plan) }
    ensures done { IfOk result (λ r. IsFinal (design r.0.plan) r.0.plan.cycles (theory_of r.0)) }
    ensures verified { IfOk result (λ r. AllVerified (theory_of r.0)) }
    ensures own { IfOk result (λ r. AreOwn r.0) }
{
    match gate {
        Some(gate) => run_by_threads(rt, alloc, core, gate, threadless),
        None => Ok((finish_alone(core)?, threadless)),
    }
}

/// Simulates from a core in which nothing is emitted yet, with threads that use this gate.
fn run_by_threads<R: Threads + Wait + Sync, G: Gate + Sync>(
    rt: &R,
    alloc: Global,
    core: Core,
    gate: &G,
    threadless: Threadless,
) -> Result<(Core, Threadless), OutOfMemory>
    requires opening { theory_of core ≡ opening_core (design core.plan) }
    requires own { AreOwn core }
    ensures plan { IfOk result (λ r. r.0.plan ≡ core.plan) }
    ensures done { IfOk result (λ r. IsFinal (design r.0.plan) r.0.plan.cycles (theory_of r.0)) }
    ensures verified { IfOk result (λ r. AllVerified (theory_of r.0)) }
    ensures own { IfOk result (λ r. AreOwn r.0) }
{
    histories_are_legal();
    core.agrees();
    let mut threadless = threadless;
    let threaded = run_core(rt, alloc, core, gate, &mut threadless)?;
    Ok((threaded.core, threadless))
}

/// A runner that simulates on the calling thread.
#[derive(Clone, Copy, Debug, PartialEq, Eq)]
pub struct AloneRunner {
    /// How many runs the runner was asked for.
    runs: u64,
}

impl AloneRunner {
    /// A runner that was asked for no run yet.
    pub fn new() -> AloneRunner
        ensures { result.runs ≡ 0 }
    {
        AloneRunner { runs: 0 }
    }
}

impl Runner for AloneRunner {
    ghost made = { λ runner. runner.runs };

    /// The runner has no threads, so its gate is never used.
    type Gate = FreeGate;

    ghost gate_of = { λ runner. None };

    fn count_run(&mut self, _asked: RunLeave) {
        self.runs = self.runs.saturating_add(1);
    }

    fn gate(&self) -> Option<&FreeGate> {
        None
    }

    fn threadless(&self) -> Threadless {
        Threadless::none()
    }

    fn set_threadless(&mut self, _threadless: Threadless) {}
}

/// A runner that simulates with a thread for each module.
#[derive(Clone, Copy, Debug)]
pub struct ThreadRunner<'g, G> {
    /// The gate, which makes the bursts of all modules.
    gate: &'g G,
    /// How many runs the runner was asked for.
    runs: u64,
    /// The modules whose bursts the last run found to be short.
    threadless: Threadless,
}

impl<'g, G: Gate + Sync> ThreadRunner<'g, G> {
    /// A runner that was asked for no run yet.
    pub fn new(gate: &'g G) -> ThreadRunner<'g, G>
        ensures runs { result.runs ≡ 0 }
        ensures gate { result.gate.now ≡ gate.now }
    {
        ThreadRunner {
            gate,
            runs: 0,
            threadless: Threadless::none(),
        }
    }
}

impl<'g, G: Gate + Sync> Runner for ThreadRunner<'g, G> {
    ghost made = { λ runner. runner.runs };

    type Gate = G;

    ghost gate_of = { λ runner. Some runner.gate.now };

    fn count_run(&mut self, _asked: RunLeave) {
        self.runs = self.runs.saturating_add(1);
    }

    fn gate(&self) -> Option<&G> {
        Some(self.gate)
    }

    fn threadless(&self) -> Threadless {
        self.threadless
    }

    fn set_threadless(&mut self, threadless: Threadless) {
        self.threadless = threadless;
    }
}
