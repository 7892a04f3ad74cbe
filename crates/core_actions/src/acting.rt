//! Single actions, done by name.
ghost use Rattle.std.specs.Prelude.{◌≡◌, ◌↔◌, ◌+◌, ◌<◌, length, IfOk, IsErrOf, OnErr, OnOk, Some};
ghost use Rattle.core_actions.specs.{design, theory_of, HasActed, HasRun, IsRun, gives, guard_of as guard_by, IsPermitted, cause_of};
ghost use Rattle.core_actions.specs.{acting_module};

use crate::actions::{ActFault, Action, Cause};
use crate::permitting::{next_cycle, permits};
use engine_view::Timing;
use flow_word::{OutOfMemory, Steps};
use outcome_guard::Guard;
use sim_core::Core;
use std::sync::ledger::Ledger;

/// Does an action at a module of the plan, if it is permitted. Where the outcome that is found for a query is not the assumed one,
/// the query is told, and nothing has changed.
///
/// For a Run the module's run must not be lent. Only a Run takes memory. A fault leaves the core as it was.
pub fn act<L: Ledger>(
    core: &mut Core,
    action: Action,
    steps: &mut Steps<L>,
) -> Result<Guard, ActFault>
    requires inside { acting_module action < length core.old.plan.design.modules }
    requires here { HasRun core.old action }
    ensures acted { IfOk result (λ guard. HasActed guard core.old action core.new) }
    ensures refused { (cause : Cause) → IsErrOf result (ActFault.NotPermitted cause)
        ↔ (cause_of (design core.old.plan) core.old.plan.cycles (theory_of core.old) action ≡ Some cause) }
    ensures no_memory { IsErrOf result ActFault.OutOfMemory → IsRun action }
    ensures unchanged { OnErr result ((core.new ≡ core.old) × (steps.new ≡ steps.old)) }
    ensures ticks { OnOk result (steps.new ≡ steps.old + gives action) }
    ensures plan { core.new.plan ≡ core.old.plan }
    ensures lent { core.new.lent ≡ core.old.lent }
{
    permits(core, action)?;
    let guard = act_now(core, action, steps)?;
    Ok(guard)
}

/// Does an action, which must be permitted.
fn act_now<L: Ledger>(
    core: &mut Core,
    action: Action,
    steps: &mut Steps<L>,
) -> Result<Guard, OutOfMemory>
    requires inside { acting_module action < length core.old.plan.design.modules }
    requires here { HasRun core.old action }
    requires permitted { IsPermitted (design core.old.plan) core.old.plan.cycles (theory_of core.old) action }
    ensures acted { IfOk result (λ guard. HasActed guard core.old action core.new) }
    ensures no_memory { OnErr result (IsRun action) }
    ensures unchanged { OnErr result ((core.new ≡ core.old) × (steps.new ≡ steps.old)) }
    ensures ticks { OnOk result (steps.new ≡ steps.old + gives action) }
    ensures plan { core.new.plan ≡ core.old.plan }
    ensures lent { core.new.lent ≡ core.old.lent }
{
    match action {
        Action::Run(owner) => {
            let _ran = core.run(owner)?;
            Ok(Guard::Same)
        }
        Action::Assign(owner) => Ok(guard_of(core.time(owner, steps))),
        Action::Answer(owner) => Ok(guard_of(core.time(owner, steps))),
        Action::Earliest(owner) => {
            let cycle = next_cycle(core, owner).unwrap();
            Ok(core.answer_open(owner, cycle))
        }
    }
}

/// What a turn tells about the outcomes.
fn guard_of(timing: Timing) -> Guard
    ensures { result ≡ guard_by timing }
{
    match timing {
        Timing::Differs(query) => Guard::Differs(query),
        Timing::Assigned(_) | Timing::Answered(_) | Timing::Nothing => Guard::Same,
    }
}
