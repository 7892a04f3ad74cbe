//! New cycles after a change of a depth.
ghost use Rattle.std.specs.Prelude.{◌≡◌, ◌+◌, ◌≤◌, length, map, unwrap_or};
ghost use Rattle.retime.specs.{cycle_bound, timed_below, deepened_channels, kinds_in, IsSomeCore, only_steps, cycles_in, IsEditIn};
ghost use Rattle.retime.specs.{AreNumbered, AreAssumed, IsCutBack, HasRetimed, KeepsRoomEdited};

use crate::rounds::time_all;
use engine_view::{Engine, Hints};
use event_graph::{Graph, Place};
use flow_design::Edit;
use flow_word::Steps;
use outcome_guard::Guard;
use query_log::QueryLog;
use std::sync::ledger::Ledger;

/// Sets a FIFO's depth, forgets the cycles from clock `from` on, makes the outcomes of steps without a cycle assumed, and then does
/// Assigns and Answers as long as one is permitted, or until an outcome that is found is not the assumed one.
///
/// Without `from` no cycle below the limit is forgotten. Where an outcome differs, the cycles that were given by then stay. The
/// hints say where to look first. It takes no memory.
pub fn retime<L: Ledger>(
    engine: &mut Engine,
    hints: &mut Hints,
    edit: &Edit,
    from: Option<u64>,
    limit: u64,
    steps: &mut Steps<L>,
) -> Guard
    requires edit { IsEditIn engine.old.fifos.channels edit.now }
    requires limit { limit ≤ cycle_bound }
    requires core { IsSomeCore engine.old }
    ensures hints { hints.new ≡ hints.old }
    ensures retimed { HasRetimed result edit.now (unwrap_or from limit) limit engine.old engine.new }
    ensures core { IsSomeCore engine.new }
    ensures room { KeepsRoomEdited edit.now engine.old engine.new }
    ensures steps_stay { only_steps engine.new.graph.lanes ≡ only_steps engine.old.graph.lanes }
    ensures kinds { kinds_in engine.new.fifos.channels
        ≡ kinds_in (deepened_channels engine.old.fifos.channels edit.now.channel edit.now.depth) }
    ensures ticks { steps.new + cycles_in (map (timed_below (unwrap_or from limit)) engine.old.graph.lanes)
        ≡ steps.old + cycles_in engine.new.graph.lanes }
{
    cut_back(engine, edit, from.unwrap_or(limit));
    time_all(engine, hints, limit, steps)
}

/// Sets a FIFO's depth, forgets the cycles from a clock on, and makes the outcomes of all steps without a cycle assumed.
fn cut_back(engine: &mut Engine, edit: &Edit, clock: u64)
    requires edit { IsEditIn engine.old.fifos.channels edit.now }
    requires core { IsSomeCore engine.old }
    ensures { IsCutBack engine.old engine.new edit.now clock }
{
    engine.fifos.set_depth(edit.channel, edit.depth);
    engine.graph.forget_from(clock);
    assume_rest(&engine.graph, &mut engine.log);
}

/// Makes the outcomes of all steps without a cycle assumed. It looks at one step of each module.
fn assume_rest(graph: &Graph, log: &mut QueryLog)
    requires logs { length log.old.logs ≡ length graph.now.lanes }
    requires numbered { AreNumbered graph.now.lanes log.old.logs }
    ensures assumed { AreAssumed graph.now.lanes log.old.logs log.new.logs (length log.old.logs) }
    ensures rooms { log.new.rooms ≡ log.old.rooms }
{
    for owner in 0..graph.modules() {
        let step = graph.frontier(owner);
        if step < graph.len(owner) {
            let first = graph.look(Place {
                module: owner,
                step,
            });
            log.assume_from(owner, first.first_query);
        }
    }
}
