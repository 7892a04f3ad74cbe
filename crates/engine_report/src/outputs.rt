//! The values that the sinks hold at the end.
ghost use Rattle.std.specs.Prelude.{◌≡◌, ◌<◌, ◌∷◌, ◌++◌, [], length, map, filter, IfOk, OnOk};
ghost use Rattle.engine_report.specs.{is_sink, kind_at, channel_at, HasPlaces, timed_values, outputs_of};

use engine_view::Engine;
use flow_design::Plan;
use flow_word::{List, OutOfMemory, Words};
use std::alloc::Global;

/// The values that were pushed on each sink in steps with a cycle, in order of the sinks. `OutOfMemory` where memory ran out.
#[tactic(auto, using(crate::proofs::Loops::passed_more))]
pub fn outputs(alloc: Global, plan: &Plan, engine: &Engine) -> Result<List<Words>, OutOfMemory>
    requires channels { length engine.now.fifos.channels ≡ length plan.now.design.channels }
    requires places { HasPlaces engine.now.graph.lanes engine.now.fifos.channels }
    ensures { IfOk result (λ outputs. outputs ≡ outputs_of plan.now engine.now.graph.lanes engine.now.fifos.channels) }
{
    let mut outputs = List::new(alloc);
    for channel in 0..engine.fifos.len() {
        add_output(alloc, plan, engine, channel, &mut outputs)?;
    }
    Ok(outputs)
}

/// Adds the values that a channel holds, if it is a sink.
fn add_output(
    alloc: Global,
    plan: &Plan,
    engine: &Engine,
    channel: u32,
    outputs: &mut List<Words>,
) -> Result<(), OutOfMemory>
    requires channel { channel < length engine.now.fifos.channels }
    requires channels { length engine.now.fifos.channels ≡ length plan.now.design.channels }
    requires places { HasPlaces engine.now.graph.lanes engine.now.fifos.channels }
    ensures { OnOk result (outputs.new ≡ outputs.old
        ++ map (λ f. timed_values engine.now.graph.lanes (channel_at engine.now.fifos.channels f).pushes)
        (filter (λ f. is_sink (kind_at plan.now f)) (channel ∷ []))) }
{
    if plan.design.channels.as_slice()[channel as usize]
        .kind
        .is_sink()
    {
        outputs.push(timed_values(alloc, engine, channel)?)?;
    }
    Ok(())
}

/// The values of a channel's pushes up to the first one whose step has no cycle.
fn timed_values(alloc: Global, engine: &Engine, channel: u32) -> Result<Words, OutOfMemory>
    requires channel { channel < length engine.now.fifos.channels }
    requires places { HasPlaces engine.now.graph.lanes engine.now.fifos.channels }
    ensures { IfOk result (λ values. values ≡ timed_values engine.now.graph.lanes (channel_at engine.now.fifos.channels channel).pushes) }
{
    let count = engine.fifos.pushes(channel);
    let mut values = List::with_room(alloc, count)?;
    for before in 0..count {
        let Some(push) = engine.fifos.pushed(channel, before) else {
            break;
        };
        if engine.graph.cycle_of(push.at).is_none() {
            break;
        }
        values.push(push.value)?;
    }
    Ok(values)
}
