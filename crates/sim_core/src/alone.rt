//! A whole simulation on one thread.
ghost use Rattle.std.specs.Prelude.{◌≡◌, ◌<◌, IfOk, OnOk};
ghost use Rattle.sim_core.specs.{IsFinal, AllVerified, design, theory_of, AreOwn};

use crate::machine::Core;
use flow_design::CheckedPlan;
use flow_word::{OutOfMemory, Steps};
use std::alloc::Global;
use std::marker::Brand;
use std::sync::ledger::{Blank, Ledger};

/// Simulates a plan on one thread: the answer is a final core of the plan, with all outcomes verified.
///
/// After `OutOfMemory` the plan is lost.
pub fn run_alone(alloc: Global, plan: CheckedPlan) -> Result<Core, OutOfMemory>
    ensures plan { IfOk result (λ core. core.plan ≡ plan) }
    ensures done { IfOk result (λ core. IsFinal (design core.plan) core.plan.cycles (theory_of core)) }
    ensures verified { IfOk result (λ core. AllVerified (theory_of core)) }
    ensures own { IfOk result (λ core. AreOwn core) }
{
    finish_alone(Core::new(alloc, plan)?)
}

/// Does all actions that are left in a core, until it is final. No run is lent, and all its outcomes are verified, as in a core in
/// which nothing is emitted yet.
///
/// After `OutOfMemory` the core is lost.
pub fn finish_alone(mut core: Core) -> Result<Core, OutOfMemory>
    requires own { AreOwn core }
    requires verified { AllVerified (theory_of core) }
    ensures plan { IfOk result (λ done. done.plan ≡ core.plan) }
    ensures done { IfOk result (λ done. IsFinal (design done.plan) done.plan.cycles (theory_of done)) }
    ensures verified { IfOk result (λ done. AllVerified (theory_of done)) }
    ensures own { IfOk result (λ done. AreOwn done) }
{
    finish::<Brand>(&mut core, Blank::new(1))?;
    Ok(core)
}

/// Does all actions that are left in a core whose outcomes are all verified, until it is final.
fn finish<L: Ledger>(core: &mut Core, blank: Blank) -> Result<(), OutOfMemory>
    requires name { blank.name ≡ L.name }
    requires parts { blank.parts ≡ L.parts }
    requires one { L.parts ≡ 1 }
    requires own { AreOwn core.old }
    requires verified { AllVerified (theory_of core.old) }
    ensures plan { core.new.plan ≡ core.old.plan }
    ensures lent { core.new.lent ≡ core.old.lent }
    ensures done { OnOk result (IsFinal (design core.new.plan) core.new.plan.cycles (theory_of core.new)) }
    ensures verified { OnOk result (AllVerified (theory_of core.new)) }
{
    core.agrees();
    let mut steps = Steps::<L>::new(blank);
    core.drive(&mut steps)?;
    Ok(())
}
