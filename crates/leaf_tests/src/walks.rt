//! A walk over the steps of a graph.
ghost use Rattle.std.specs.Prelude.{◌≡◌};

use crate::graphs::step_after;
use engine_report::{StepWalk, TimedStep};
use event_graph::{Graph, NewStep};
use flow_word::{OutOfMemory, Steps};
use std::alloc::Global;
use std::marker::Brand;
use std::process::Abort;
use std::sync::ledger::{Blank, Ledger};
use std::test::Fail;

/// The step of a module with this number, done in this clock, as a walk gives it.
fn done_in(cycle: u64, module: u32, step: u64) -> Option<TimedStep> {
    Some(TimedStep {
        cycle,
        module,
        step,
    })
}

/// A graph of two modules. The second makes a step in clock 3, and one without a cycle.
fn goes_over_a_step<L: Ledger, R: Abort>(
    rt: &R,
    alloc: Global,
    blank: Blank,
) -> Result<(), OutOfMemory>
    requires name { blank.name ≡ L.name }
    requires parts { blank.parts ≡ L.parts }
    requires one { L.parts ≡ 1 }
{
    let mut steps = Steps::<L>::new(blank);
    let mut graph = Graph::new(alloc, 2)?;
    graph.push_step(1, NewStep::Whole(step_after(alloc, 3)))?;
    graph.push_step(1, NewStep::Whole(step_after(alloc, 1)))?;
    graph.set_cycle(1, 3, &mut steps);
    let mut walk = StepWalk::new(alloc, &graph)?;
    assert_eq!(rt; walk.advance(&graph), done_in(3, 1, 0));
    assert_eq!(rt; walk.advance(&graph), None);
    Ok(())
}

#[test]
fn a_walk_gives_the_steps_with_a_cycle(rt: HostRuntime) -> Result<(), Fail> {
    goes_over_a_step::<Brand, HostRuntime>(&rt, rt.alloc(), Blank::new(1))?;
    Ok(())
}
