//! The outcomes of the queries that were done.
ghost use Rattle.std.specs.Prelude.{◌≡◌, ◌<◌, length, map, IfOk};
ghost use Rattle.engine_report.specs.{owners, timed_outcomes};

use engine_view::Engine;
use event_graph::Place;
use flow_word::{Flags, List, OutOfMemory};
use std::alloc::Global;

/// For each module the outcomes of its queries in steps with a cycle, in order. `OutOfMemory` where memory ran out.
#[tactic(auto, using(crate::proofs::Loops::mapped_more))]
pub fn answers(alloc: Global, engine: &Engine) -> Result<List<Flags>, OutOfMemory>
    requires { length engine.now.log.logs ≡ length engine.now.graph.lanes }
    ensures { IfOk result (λ answers. answers
        ≡ map (timed_outcomes engine.now.graph.lanes engine.now.log.logs) (owners engine.now.graph.lanes)) }
{
    let mut answers = List::with_room(alloc, engine.graph.modules() as u64)?;
    for owner in 0..engine.graph.modules() {
        answers.push(timed_outcomes(alloc, engine, owner)?)?;
    }
    Ok(answers)
}

/// The outcomes of a module's queries in steps with a cycle: those before its first step without a cycle, or all where there is
/// none.
fn timed_outcomes(alloc: Global, engine: &Engine, owner: u32) -> Result<Flags, OutOfMemory>
    requires owner { owner < length engine.now.graph.lanes }
    requires logs { length engine.now.log.logs ≡ length engine.now.graph.lanes }
    ensures { IfOk result (λ outcomes. outcomes ≡ timed_outcomes engine.now.graph.lanes engine.now.log.logs owner) }
{
    let outcomes = engine.log.outcomes(owner);
    let first = engine.graph.frontier(owner);
    if first == engine.graph.len(owner) {
        let all = List::from_slice(alloc, outcomes)?;
        return Ok(all);
    }
    let step = engine.graph.look(Place {
        module: owner,
        step: first,
    });
    let count = outcomes.len().min(step.first_query as usize);
    let front = List::from_slice(alloc, &outcomes[..count])?;
    Ok(front)
}
