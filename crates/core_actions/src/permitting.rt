//! Which actions are permitted, and why others are not.
ghost use Rattle.std.specs.Prelude.{◌≡◌, ◌<◌, length, IfErr, IfOk, IfSome, None, OnOk, Some, is_none, is_some, position};
ghost use Rattle.std.specs.Result.{result_err};
ghost use Rattle.core_actions.specs.{IsDetermined, view, is_open_before, first_accesses, candidate as candidate_of, known_of as known_by};
ghost use Rattle.core_actions.specs.{design, emitted_of, first_of, theory_of, IsPermitted, acting_module, cause_of, cycle_causes};
ghost use Rattle.core_actions.specs.{first_some, is_undecided, is_unverified, first_passing, first_place, open_causes, waiting_cause};
ghost use Rattle.core_actions.specs.{is_busy as busy_by, later as later_cause};

use crate::actions::{Action, Cause};
use crate::searching::{number_of, query_in, undecided_in};
use event_graph::{Candidate, Place};
use run_ahead::first_missing;
use sim_core::Core;
use time_engine::candidate;

/// Whether an action at a module of the plan is permitted. The error is the first of its conditions that fails. A Run stays
/// permitted while the module's run is lent.
///
/// It takes no memory. An Earliest looks at all modules, and any other action at one step alone.
pub fn permits(core: &Core, action: Action) -> Result<(), Cause>
    requires { acting_module action < length core.now.plan.design.modules }
    ensures permitted { OnOk result (IsPermitted (design core.now.plan) core.now.plan.cycles (theory_of core.now) action) }
    ensures no_cause { OnOk result (cause_of (design core.now.plan) core.now.plan.cycles (theory_of core.now) action ≡ None) }
    ensures refused { IfErr result (λ cause. IsPermitted (design core.now.plan) core.now.plan.cycles (theory_of core.now) action → ⊥) }
    ensures cause { IfErr result (λ cause.
        cause_of (design core.now.plan) core.now.plan.cycles (theory_of core.now) action ≡ Some cause) }
{
    core.agrees();
    try_conditions(core, action)
}

/// Tests the conditions of an action in order. The error is the first one that fails.
fn try_conditions(core: &Core, action: Action) -> Result<(), Cause>
    requires { acting_module action < length core.now.plan.design.modules }
    ensures { result_err result ≡ cause_of (design core.now.plan) core.now.plan.cycles (theory_of core.now) action }
{
    match action {
        Action::Run(owner) => permits_run(core, owner),
        Action::Assign(owner) => permits_assign(core, owner),
        Action::Answer(owner) => permits_answer(core, owner),
        Action::Earliest(owner) => permits_earliest(core, owner),
    }
}

/// Whether a Run of a module is permitted. The error is the first condition that fails.
fn permits_run(core: &Core, owner: u32) -> Result<(), Cause>
    requires { owner < length core.now.plan.design.modules }
    ensures { result_err result ≡ cause_of (design core.now.plan) core.now.plan.cycles (theory_of core.now) (Action.Run owner) }
{
    if let Some(cause) = waiting(core, owner) {
        return Err(cause);
    }
    if core.is_over(owner) {
        return Err(Cause::Over(owner));
    }
    Ok(())
}

/// Whether an Assign of a module is permitted. The error is the first condition that fails.
fn permits_assign(core: &Core, owner: u32) -> Result<(), Cause>
    requires { owner < length core.now.plan.design.modules }
    ensures { result_err result ≡ cause_of (design core.now.plan) core.now.plan.cycles (theory_of core.now) (Action.Assign owner) }
{
    let _cycle = next_cycle(core, owner)?;
    match first_unverified(core, owner) {
        Some(access) => Err(Cause::Unsettled(first_place(core, owner), access)),
        None => Ok(()),
    }
}

/// Whether an Answer of a module is permitted. The error is the first condition that fails.
fn permits_answer(core: &Core, owner: u32) -> Result<(), Cause>
    requires { owner < length core.now.plan.design.modules }
    ensures { result_err result ≡ cause_of (design core.now.plan) core.now.plan.cycles (theory_of core.now) (Action.Answer owner) }
{
    let _cycle = next_cycle(core, owner)?;
    if let Some(access) = first_undecided(core, owner) {
        return Err(Cause::Unsettled(first_place(core, owner), access));
    }
    match first_unverified(core, owner) {
        Some(_) => Ok(()),
        None => Err(Cause::NoQuery(first_place(core, owner))),
    }
}

/// Whether an Earliest of a module is permitted. The error is the first condition that fails.
fn permits_earliest(core: &Core, owner: u32) -> Result<(), Cause>
    requires { owner < length core.now.plan.design.modules }
    ensures { result_err result ≡ cause_of (design core.now.plan) core.now.plan.cycles (theory_of core.now) (Action.Earliest owner) }
{
    let cycle = open_cycle(core, owner)?;
    if let Some(busy) = first_busy(core) {
        return Err(Cause::Busy(busy));
    }
    match later(core, owner, cycle) {
        Some(cause) => Err(cause),
        None => Ok(()),
    }
}

/// The cycle of a module's open step: its first step without a cycle, if that is determined, below the limit, and some of its
/// queries have no verified outcome and some are undecided. The error is the first of these conditions that fails.
fn open_cycle(core: &Core, owner: u32) -> Result<u64, Cause>
    requires { owner < length core.now.plan.design.modules }
    ensures at { IfOk result (λ cycle. candidate_of (design core.now.plan) (view (design core.now.plan) (theory_of core.now)) owner
        ≡ Some cycle) }
    ensures cause { result_err result ≡ first_some (open_causes (design core.now.plan) core.now.plan.cycles (theory_of core.now) owner) }
{
    let cycle = next_cycle(core, owner)?;
    if first_unverified(core, owner).is_none() {
        return Err(Cause::NoQuery(first_place(core, owner)));
    }
    if first_undecided(core, owner).is_none() {
        return Err(Cause::Decided(first_place(core, owner)));
    }
    Ok(cycle)
}

/// The cycle of a module's first step without one, if it is determined and below the limit. The error is the first condition that
/// fails.
pub(crate) fn next_cycle(core: &Core, owner: u32) -> Result<u64, Cause>
    requires { owner < length core.now.plan.design.modules }
    ensures determined { IfOk result (λ cycle.
        IsDetermined (design core.now.plan) core.now.plan.cycles (theory_of core.now) owner cycle) }
    ensures cause { result_err result ≡ first_some (cycle_causes (design core.now.plan) core.now.plan.cycles (theory_of core.now) owner) }
{
    let engine = core.engine();
    match candidate(&engine.graph, &engine.fifos, owner, core.plan().cycles) {
        Candidate::Nothing => Err(Cause::NoStep(owner)),
        Candidate::Waits(access) => Err(Cause::Undetermined(first_place(core, owner), access)),
        Candidate::Beyond => Err(Cause::AtLimit(first_place(core, owner))),
        Candidate::At(cycle) => Ok(cycle),
    }
}

/// The place of a module's first step without a cycle.
fn first_place(core: &Core, owner: u32) -> Place
    requires { owner < length core.now.plan.design.modules }
    ensures { result ≡ first_place (theory_of core.now) owner }
{
    Place {
        module: owner,
        step: core.engine().graph.frontier(owner),
    }
}

/// The cause that a reply to a module's newest step is not there. `None` where all are there.
fn waiting(core: &Core, owner: u32) -> Option<Cause>
    requires { owner < length core.now.plan.design.modules }
    ensures { result ≡ waiting_cause (design core.now.plan) (theory_of core.now) owner (emitted_of core.now.held owner) }
{
    let engine = core.engine();
    let last = engine.graph.len(owner).checked_sub(1)?;
    let place = Place {
        module: owner,
        step: last,
    };
    let step = engine.graph.look(place);
    let missing = first_missing(
        engine.log.outcomes(owner),
        &engine.fifos,
        step.first_query,
        &step.accesses,
    );
    match number_of(missing) {
        Some(access) => Some(Cause::Waiting(place, access)),
        None => None,
    }
}

/// The number of the first query in a module's first step without a cycle. `None` where the step's outcomes are verified.
fn first_unverified(core: &Core, owner: u32) -> Option<u32>
    requires owner { owner < length core.now.plan.design.modules }
    requires there { first_of core.now.held owner < emitted_of core.now.held owner }
    ensures first { result ≡ position (is_unverified (theory_of core.now) owner)
        (first_accesses (view (design core.now.plan) (theory_of core.now)) owner) }
    ensures verified { is_none result ≡ (theory_of core.now).verified owner (first_of core.now.held owner) }
{
    let engine = core.engine();
    let step = engine.graph.look(first_place(core, owner));
    if step.first_query < engine.log.verified(owner) {
        return None;
    }
    query_in(&step.accesses)
}

/// The number of the first undecided query in a module's first step without a cycle. `None` where each is decided.
fn first_undecided(core: &Core, owner: u32) -> Option<u32>
    requires owner { owner < length core.now.plan.design.modules }
    requires there { first_of core.now.held owner < emitted_of core.now.held owner }
    ensures { result ≡ position (is_undecided (known_by (design core.now.plan)
        (view (design core.now.plan) (theory_of core.now)) owner))
        (first_accesses (view (design core.now.plan) (theory_of core.now)) owner) }
{
    let engine = core.engine();
    let step = engine.graph.look(first_place(core, owner));
    undecided_in(&engine.graph, &engine.fifos, &step.accesses)
}

/// The first module for which a Run, an Assign or an Answer is permitted. `None` where there is none.
fn first_busy(core: &Core) -> Option<u32>
    ensures { result ≡ first_passing (design core.now.plan) (busy_by (design core.now.plan) core.now.plan.cycles (theory_of core.now)) }
{
    for owner in 0..core.modules() {
        if is_busy(core, owner) {
            return Some(owner);
        }
    }
    None
}

/// Whether a Run, an Assign or an Answer of a module is permitted.
fn is_busy(core: &Core, owner: u32) -> bool
    requires { owner < length core.now.plan.design.modules }
    ensures { result ≡ busy_by (design core.now.plan) core.now.plan.cycles (theory_of core.now) owner }
{
    core.agrees();
    let runs = permits_run(core, owner).is_ok();
    let assigns = permits_assign(core, owner).is_ok();
    let answers = permits_answer(core, owner).is_ok();
    runs | assigns | answers
}

/// The cause that another module has an open step with a lesser cycle than this one, the module's own. `None` where no module has.
fn later(core: &Core, owner: u32, cycle: u64) -> Option<Cause>
    requires { candidate_of (design core.now.plan) (view (design core.now.plan) (theory_of core.now)) owner ≡ Some cycle }
    ensures { result ≡ later_cause (design core.now.plan) core.now.plan.cycles (theory_of core.now) owner }
{
    for other in 0..core.modules() {
        if let Some(earlier) = open_before(core, other, cycle) {
            return Some(Cause::Later(other, earlier));
        }
    }
    None
}

/// The cycle of a module's open step, if it is less than this one.
fn open_before(core: &Core, owner: u32, cycle: u64) -> Option<u64>
    requires { owner < length core.now.plan.design.modules }
    ensures at { IfSome result (λ earlier. candidate_of (design core.now.plan) (view (design core.now.plan) (theory_of core.now)) owner
        ≡ Some earlier) }
    ensures open { is_some result ≡ is_open_before (design core.now.plan) core.now.plan.cycles (theory_of core.now) (Some cycle) owner }
{
    match open_cycle(core, owner) {
        Ok(earlier) if earlier < cycle => Some(earlier),
        _ => None,
    }
}
