//! How a hub begins and ends.
ghost use Rattle.std.specs.Prelude.{◌≡◌, ℕ, ◌+◌, ◌^◌, ◌<◌, List, [], length, IfOk};
ghost use Rattle.sim_hub.specs.{opening_core, design, HubEntry, bearer, history_of, entries_of, lock_id, AreOwn, theory_of, IsFirstPass};
ghost use Rattle.sim_hub.specs.{HasModule, HasModules, ComesHome, entries_in, hub_id, perf_view, IsOverAt, IsPerfOf, AreFrom, AreNew};
ghost use Rattle.sim_hub.specs.{AreOfHub, AllHome, HasEachModule, ClosedIs, EndsAt};
ghost use Rattle.turn_lock.specs.Passes.{view_of, pass_lock};
ghost use mathlib.Core.List.{IsPrefix};

use super::Hub;
use crate::answer::{Closed, Threaded};
use crate::kept::BoxedLedger;
use crate::ledger::HubLedger;
use crate::pass::{ModulePass, NumberedPass, PerfPass};
use flow_word::OutOfMemory;
use sim_core::Core;
use std::alloc::Global;
use turn_lock::{Pass, TurnLock};

impl Hub {
    /// Opens a hub of a core in which nothing is emitted yet and no run is lent. The answer has its performance pass, and a pass
    /// for each module, in order. Its history has one entry.
    ///
    /// It takes memory for the core with its turns, for the lock, and for a pass for each module. After `OutOfMemory` the core is
    /// lost.
    pub fn new(alloc: Global, core: Core) -> Result<(Hub, PerfPass, Vec<ModulePass>), OutOfMemory>
        requires opening { theory_of core ≡ opening_core (design core.plan) }
        requires own { AreOwn core }
        ensures perf { IfOk result (λ r. IsPerfOf r.0 r.1 × ((perf_view r.1).seen ≡ history_of core.plan [])) }
        ensures count { IfOk result (λ r. length r.2.items ≡ length core.plan.design.modules) }
        ensures made { IfOk result (λ r. (perf_view r.1).made ≡ length r.2.items) }
        ensures modules { IfOk result (λ r. AreNew (hub_id r.0) core.plan r.2.items) }
    {
        let count = core.modules();
        let opening = HubLedger::new(alloc, core)?;
        let ledger = Box::new(alloc, opening)?;
        let (lock, first) = TurnLock::new(alloc, BoxedLedger { ledger }, count + 1)?;
        let (first, modules) = split_all(alloc, &lock, first, count)?;
        Ok((Hub { lock }, perf_pass(first), modules))
    }

    /// Closes a hub, once no desk is out, and the core is final or memory ran out. The answer has the core with all turns that led
    /// to it. The passes of the modules may come in any order.
    pub fn close(self, perf: PerfPass, modules: Vec<ModulePass>) -> Closed
        requires own { IsPerfOf self perf × AreOfHub (hub_id self) modules.items }
        requires each { HasEachModule perf modules.items }
        requires home { AllHome modules.items }
        requires over { IsOverAt (perf_view perf).seen }
        ensures { ClosedIs perf modules.items result }
    {
        let Hub { lock } = self;
        let PerfPass { place } = perf;
        let NumberedPass {
            mut pass,
            number: _,
        } = place;
        for other in modules {
            let ModulePass { place, which: _ } = other;
            let NumberedPass {
                pass: next,
                number: _,
            } = place;
            pass = lock.join(pass, next);
        }
        let BoxedLedger { ledger } = lock.close(pass);
        settle(Box::into_inner(ledger))
    }
}

/// Makes one pass for each of `count` modules, in order, out of the first pass.
fn split_all(
    alloc: Global,
    lock: &TurnLock<BoxedLedger>,
    first: Pass<BoxedLedger>,
    count: u32,
) -> Result<(Pass<BoxedLedger>, Vec<ModulePass>), OutOfMemory>
    requires own { pass_lock first ≡ lock_id lock.now }
    requires first { IsFirstPass 0 (view_of first).seen (view_of first) }
    requires room { count < (view_of first).passes }
    requires modules { HasModules count (view_of first).seen }
    requires fresh { (n : ℕ) → entries_of bearer n (view_of first).seen ≡ [] }
    ensures own { IfOk result (λ r. pass_lock r.0 ≡ lock_id lock.now) }
    ensures first { IfOk result (λ r. IsFirstPass count (view_of first).seen (view_of r.0)) }
    ensures count { IfOk result (λ r. length r.1.items ≡ count) }
    ensures modules { IfOk result (λ r. AreFrom (lock_id lock.now) (view_of first).seen r.1.items) }
{
    let mut first = first;
    let mut list = Vec::new(alloc);
    for made in 0..count {
        let (back, pass) = lock.split(first);
        first = back;
        list.push(module_pass(pass, made))?;
    }
    Ok((first, list))
}

/// The pass of a module, from a pass that was just made.
fn module_pass(pass: Pass<BoxedLedger>, which: u32) -> ModulePass
    requires room { which + 1 < 2 ^ 32 }
    requires number { (view_of pass).number ≡ which + 1 }
    requires own { (view_of pass).own ≡ entries_of bearer (which + 1) (view_of pass).seen }
    requires within { HasModule which (view_of pass).seen }
    ensures { (result.which ≡ which) × (result.place.pass ≡ pass) }
{
    let place = NumberedPass {
        pass,
        number: which + 1,
    };
    ModulePass { place, which }
}

/// The performance pass, made from the first pass after that has made a pass for each module.
fn perf_pass(pass: Pass<BoxedLedger>) -> PerfPass
    requires first { IsFirstPass (view_of pass).made (view_of pass).seen (view_of pass) }
    requires modules { HasModules (view_of pass).made (view_of pass).seen }
    requires fresh { entries_of bearer 0 (view_of pass).seen ≡ [] }
    ensures { result.place.pass ≡ pass }
{
    let place = NumberedPass { pass, number: 0 };
    PerfPass { place }
}

/// What a ledger leaves, once no desk is out, and the core is final or memory ran out.
fn settle(ledger: HubLedger) -> Closed
    requires over { (seen : List HubEntry) × IsPrefix seen (entries_in ledger) × IsOverAt seen }
    requires home { (m : ℕ) → m < length ledger.core.plan.design.modules → ∥ ComesHome m (entries_in ledger) ∥₁ }
    ensures { EndsAt (entries_in ledger) result }
{
    ledger.core.agrees();
    let HubLedger {
        core,
        turns,
        out: _,
        short,
    } = ledger;
    if short {
        Closed::Short
    } else {
        Closed::Final(Threaded { core, turns })
    }
}
