//! What a path of steps shows of the end of a plan.
ghost use Rattle.std.specs.Prelude.{◌≡◌, ◌≢◌, ℕ, ◌<◌, true, length, IfSome};
ghost use Rattle.path_check.specs.{Plan, verdict, with_depths, HasAccesses, gap_of_end, IsTried, depths_with, IsTimedAt, IsAlong, cycle_at};
ghost use Rattle.path_check.specs.{nth_place, moves_after};
ghost use Rattle.flow_design.specs.declared.report.Verdict.TheVariants.{Done};

use crate::waits::{clocks_between, is_timed};
use engine_view::Engine;
use flow_design::{Advance, Edit};
use flow_word::Place;

/// Whether a path of steps shows that the plan ends after `clock` with these depths and the edit. It does if each step waits for
/// the one before it, the first step is done no earlier than with the plan's own depths, and the module of the last step has not
/// ended by `clock`.
///
/// There is one depth per channel, none greater than the plan's own. The engine holds the end of the plan's run, and no operation
/// is a query. The check looks at the accesses of each step once, and takes no memory.
pub fn ends_after(
    engine: &Engine,
    depths: &[u64],
    edit: Option<Edit>,
    path: &[Place],
    clock: u64,
) -> bool
    requires { HasAccesses engine.now.graph.lanes engine.now.fifos.channels }
    ensures { result ≡ true → (p : Plan) → IsTried p engine.now (depths_with depths.now edit)
        → (end : ℕ) → verdict (with_depths p (depths_with depths.now edit)) ≡ Done end → clock < end }
{
    match clocks_along(engine, depths, edit, path) {
        Some(clocks) => {
            let first = cycle_of(engine, nth_place(path, 0));
            let after = clocks_after(engine, nth_place(path, path.len() - 1));
            clock <= first.saturating_add(clocks).saturating_add(after)
        }
        None => false,
    }
}

/// Whether a path of steps, each of which waits for the one before it, leads back to its first step one clock or more later. If so,
/// the plan never ends with these depths and the edit.
///
/// There is one depth per channel, none greater than the plan's own. The engine holds the end of the plan's run, and no operation
/// is a query. The check looks at the accesses of each step once, and takes no memory.
pub fn never_ends(engine: &Engine, depths: &[u64], edit: Option<Edit>, path: &[Place]) -> bool
    requires { HasAccesses engine.now.graph.lanes engine.now.fifos.channels }
    ensures { result ≡ true → (p : Plan) → IsTried p engine.now (depths_with depths.now edit)
        → (end : ℕ) → verdict (with_depths p (depths_with depths.now edit)) ≢ Done end }
{
    match clocks_along(engine, depths, edit, path) {
        Some(clocks) => {
            if clocks == 0 {
                return false;
            }
            is_same(nth_place(path, 0), nth_place(path, path.len() - 1))
        }
        None => false,
    }
}

/// How many clocks the last step of a path comes after its first one. `None` where the path is empty, or a step does not wait for
/// the one before it.
fn clocks_along(engine: &Engine, depths: &[u64], edit: Option<Edit>, path: &[Place]) -> Option<u64>
    requires { HasAccesses engine.now.graph.lanes engine.now.fifos.channels }
    ensures { IfSome result (λ clocks. IsAlong engine.now (depths_with depths.now edit) path.now (length path.now) clocks) }
{
    if path.is_empty() || !is_timed(engine, nth_place(path, 0)) {
        return None;
    }
    let mut clocks = 0u64;
    for at in 1..path.len() {
        let next = nth_place(path, at);
        if !is_timed(engine, next) {
            return None;
        }
        let more = clocks_between(engine, depths, edit, nth_place(path, at - 1), next)?;
        clocks = clocks.saturating_add(more);
    }
    Some(clocks)
}

/// The place with this number in a path, counted from 0.
fn nth_place(path: &[Place], at: usize) -> Place
    requires { at < length path.now }
    ensures { result ≡ nth_place path.now at }
{
    path[at]
}

/// Whether two places are the same.
fn is_same(first: Place, last: Place) -> bool
    ensures { result ≡ true → first ≡ last }
{
    first.module == last.module && first.step == last.step
}

/// The clock of a step with a cycle, in the run that the engine holds.
fn cycle_of(engine: &Engine, place: Place) -> u64
    requires { IsTimedAt engine.now.graph.lanes place }
    ensures { result ≡ cycle_at engine.now.graph.lanes place }
{
    engine.graph.cycle_of(place).unwrap_or(0)
}

/// How many clocks after a step its module still moves, up to its end; 0 where the module has a next step.
fn clocks_after(engine: &Engine, last: Place) -> u64
    requires { IsTimedAt engine.now.graph.lanes last }
    ensures { result ≡ moves_after engine.now.graph.lanes engine.now.ends.items last }
{
    if 1 < engine.graph.len(last.module).saturating_sub(last.step) {
        return 0;
    }
    match engine.ends.get(last.module as usize) {
        Some(end) => gap_of(end).saturating_sub(1),
        None => 0,
    }
}

/// The local clocks from a module's last step to its end; 0 where it does not end.
fn gap_of(end: &Option<Advance>) -> u64
    ensures { result ≡ gap_of_end end.now }
{
    match end {
        Some(Advance::Ended(gap)) | Some(Advance::Spent(gap)) => *gap,
        Some(Advance::Step(_)) | None => 0,
    }
}
