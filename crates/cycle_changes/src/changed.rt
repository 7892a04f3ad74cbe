//! New cycles after a change of a depth, where few change.
ghost use Rattle.std.specs.Prelude.{◌≡◌, ◌+◌, ◌<◌, ◌≤◌, [], true, false, length, map, All, IfSome, IsNone, IsSome};
ghost use Rattle.cycle_changes.specs.{IsSoundLane, lane_at, cycle_bound, timed_below, HasAccesses, IsFifo, channel_at, IsSomeCore};
ghost use Rattle.cycle_changes.specs.{cycles_in, steps_in_lanes, IsEditIn, HasChanged, moved_in, HasPut, AreFoundRight, IsFoundRight};
ghost use Rattle.cycle_changes.specs.{put_places};

use crate::changes::{Changes, Put};
use crate::check::{are_late, are_right, is_right_around};
use crate::puts::{put_moved, undo};
use crate::seeds::find_seeds;
use engine_view::Engine;
use event_graph::{Graph, Place};
use flow_design::Edit;
use flow_word::Steps;
use std::marker::Brand;
use std::sync::ledger::{Blank, Ledger};

/// A search may visit one in this many of the steps from the first touched clock on. A visit takes several times as long as giving
/// a step its cycle in a retiming.
const SEARCHED_PART: u64 = 16;

/// How many steps a search may visit beside that part.
const SEARCHED_ALWAYS: u64 = 64;

/// Sets a FIFO's depth, and gives new cycles to those steps alone whose cycles change. It ticks once for each step that gets
/// another cycle.
///
/// False, with all as it was, where no new cycles are found, or they are not found right: a query would have another outcome, a
/// step would have no cycle below the limit, the search would visit more than a small part of the steps from clock `from` on, or
/// memory runs out.
pub fn retime_changes<L: Ledger>(
    engine: &mut Engine,
    changes: &mut Changes,
    edit: &Edit,
    from: u64,
    limit: u64,
    steps: &mut Steps<L>,
) -> bool
    requires edit { IsEditIn engine.old.fifos.channels edit.now }
    requires limit { limit ≤ cycle_bound }
    requires core { IsSomeCore engine.old }
    ensures same { result ≡ false → engine.new ≡ engine.old }
    ensures same_ticks { result ≡ false → steps.new ≡ steps.old }
    ensures changed { result ≡ true → HasChanged edit.now limit engine.old engine.new }
    ensures ticked { result ≡ true → steps.new ≡ steps.old + moved_in engine.old.graph.lanes engine.new.graph.lanes }
    ensures few { steps.new + cycles_in (map (timed_below from) engine.old.graph.lanes)
        ≤ steps.old + steps_in_lanes engine.old.graph.lanes }
{
    match try_changes::<Brand>(engine, changes, edit, from, limit, Blank::new(1)) {
        Some(count) => {
            tick_each(count, steps);
            true
        }
        None => false,
    }
}

/// Does the work of `retime_changes` with a counter of its own, so that puts that are undone do not count. It answers how many
/// ticks there were, or `None` where all is as it was.
fn try_changes<L: Ledger>(
    engine: &mut Engine,
    changes: &mut Changes,
    edit: &Edit,
    from: u64,
    limit: u64,
    blank: Blank,
) -> Option<u64>
    requires blank { (blank.name ≡ L.name) × (blank.parts ≡ L.parts) × (L.parts ≡ 1) }
    requires edit { IsEditIn engine.old.fifos.channels edit.now }
    requires limit { limit ≤ cycle_bound }
    requires core { IsSomeCore engine.old }
    ensures same { IsNone result → engine.new ≡ engine.old }
    ensures changed { IsSome result → HasChanged edit.now limit engine.old engine.new }
    ensures ticked { IfSome result (λ count. count ≡ moved_in engine.old.graph.lanes engine.new.graph.lanes) }
    ensures few { IfSome result (λ count. count + cycles_in (map (timed_below from) engine.old.graph.lanes)
        ≤ steps_in_lanes engine.old.graph.lanes) }
{
    let mut tried = Steps::<L>::new(blank);
    let stands = engine.fifos.depth(edit.channel);
    engine.fifos.set_depth(edit.channel, edit.depth);
    if change(engine, changes, edit.channel, from, limit, &mut tried) {
        return Some(count_of(&tried, changes.puts.as_slice()));
    }
    undo(&mut engine.graph, &mut changes.puts, &mut tried);
    changes.search.draft.leave();
    engine.fifos.set_depth(edit.channel, stands);
    None
}

/// How many steps a counter has counted: one for each of the puts.
fn count_of<L: Ledger>(tried: &Steps<L>, puts: &[Put]) -> u64
    requires { tried.now ≡ length puts.now }
    ensures { result ≡ tried.now }
{
    puts.len() as u64
}

/// Searches for the cycles that change with the FIFO's present depth, puts them, with a tick for each, and checks them. Where it
/// answers false, the list of puts still has all of them.
fn change<L: Ledger>(
    engine: &mut Engine,
    changes: &mut Changes,
    channel: u32,
    from: u64,
    limit: u64,
    steps: &mut Steps<L>,
) -> bool
    requires fifo { channel < length engine.old.fifos.channels × IsFifo (channel_at engine.old.fifos.channels channel).kind }
    requires limit { limit ≤ cycle_bound }
    requires core { IsSomeCore engine.old }
    ensures put { HasPut engine.old changes.new.puts.items engine.new }
    ensures moved { moved_in engine.old.graph.lanes engine.new.graph.lanes ≡ length changes.new.puts.items }
    ensures ticks { steps.new ≡ steps.old + length changes.new.puts.items }
    ensures right { result ≡ true → IsFoundRight engine.old engine.new channel limit changes.new.seeds.items
        (put_places changes.new.puts.items) }
    ensures few { result ≡ true → length changes.new.puts.items + cycles_in (map (timed_below from) engine.old.graph.lanes)
        ≤ steps_in_lanes engine.old.graph.lanes }
{
    changes.puts.clear();
    changes.seeds.clear();
    if !find_seeds(engine, channel, &mut changes.seeds) {
        return false;
    }
    let left = count_left(&engine.graph, from);
    let most = (left / SEARCHED_PART).saturating_add(SEARCHED_ALWAYS);
    if !put_found(engine, changes, most, limit, steps) {
        return false;
    }
    if changes.puts.len() as u64 > left {
        return false;
    }
    are_found_right(
        engine,
        changes.seeds.as_slice(),
        changes.puts.as_slice(),
        limit,
    )
}

/// Searches for the cycles that change, and puts them, with a tick for each. False where the search or the puts do not come to
/// their end.
fn put_found<L: Ledger>(
    engine: &mut Engine,
    changes: &mut Changes,
    most: u64,
    limit: u64,
    steps: &mut Steps<L>,
) -> bool
    requires none { changes.old.puts.items ≡ [] }
    requires sound { All IsSoundLane engine.old.graph.lanes }
    requires accesses { HasAccesses engine.old.graph.lanes engine.old.fifos.channels }
    ensures put { HasPut engine.old changes.new.puts.items engine.new }
    ensures moved { moved_in engine.old.graph.lanes engine.new.graph.lanes ≡ length changes.new.puts.items }
    ensures ticks { steps.new ≡ steps.old + length changes.new.puts.items }
    ensures seeds { changes.new.seeds ≡ changes.old.seeds }
{
    let Changes {
        search,
        seeds,
        puts,
    } = changes;
    let found = search.run(&engine.graph, &engine.fifos, seeds.as_slice(), limit, most);
    if !found.unwrap_or(false) {
        return false;
    }
    let moved = search.moved.as_mut_slice();
    put_moved(&mut engine.graph, &search.draft, moved, puts, steps)
}

/// Whether the seeds are right, and all that the puts can reach, and no further step is determined below the limit.
fn are_found_right(engine: &Engine, seeds: &[Place], puts: &[Put], limit: u64) -> bool
    requires limit { limit ≤ cycle_bound }
    requires core { IsSomeCore engine.now }
    ensures { result ≡ true → AreFoundRight engine.now limit seeds.now (put_places puts.now) }
{
    for put in puts {
        if !is_right_around(engine, put.place, limit) {
            return false;
        }
    }
    if !are_right(engine, seeds) {
        return false;
    }
    are_late(engine, limit)
}

/// Ticks `count` times.
fn tick_each<L: Ledger>(count: u64, steps: &mut Steps<L>)
    ensures { steps.new ≡ steps.old + count }
{
    for _tick in 0..count {
        steps.tick();
    }
}

/// How many steps have no cycle below the given one: a retiming from there gives at most this many cycles.
fn count_left(graph: &Graph, from: u64) -> u64
    ensures { result + cycles_in (map (timed_below from) graph.now.lanes) ≤ steps_in_lanes graph.now.lanes }
{
    let mut left: u64 = 0;
    for owner in 0..graph.modules() {
        left = left.saturating_add(left_of(graph, owner, from));
    }
    left
}

/// How many of a module's steps have no cycle below the given one.
fn left_of(graph: &Graph, owner: u32, from: u64) -> u64
    requires { owner < length graph.now.lanes }
    ensures { result + length (timed_below from (lane_at graph.now.lanes owner)).cycles ≡ length (lane_at graph.now.lanes owner).steps }
{
    graph.len(owner) - graph.count_below(owner, from)
}
