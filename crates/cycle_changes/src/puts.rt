//! Puts: cycles that are put into the graph, and taken back.
ghost use Rattle.std.specs.Prelude.{◌≡◌, ◌+◌, ◌<◌, List, length, true};
ghost use Rattle.cycle_changes.specs.{Lane, ArePut, AreDrafted, IsFitting};

use crate::changes::Put;
use crate::draft::Draft;
use crate::timed::has_cycle;
use event_graph::{Graph, Place};
use flow_word::Steps;
use std::sync::ledger::Ledger;

/// A bound that each cycle is below, in clocks.
const CYCLE_BOUND: u64 = 1_000_000_000_000_000;

/// Puts the draft's cycles of these steps into the graph, in an order in which the cycles of a lane always rise. It ticks once for
/// each put, and puts no cycle that is there already.
///
/// False where a cycle is too large or would not rise, or where memory runs out.
pub fn put_moved<L: Ledger>(
    graph: &mut Graph,
    draft: &Draft,
    moved: &mut [(u32, u64)],
    puts: &mut Vec<Put>,
    steps: &mut Steps<L>,
) -> bool
    ensures puts { (first : List Lane) → AreDrafted draft.now first puts.old.items graph.old.lanes
        → AreDrafted draft.now first puts.new.items graph.new.lanes }
    ensures rooms { graph.new.rooms ≡ graph.old.rooms }
    ensures ticks { steps.new + length puts.old.items ≡ steps.old + length puts.new.items }
{
    moved.sort_unstable();
    put_all(graph, draft, moved, puts, true, steps)
        && put_all(graph, draft, moved, puts, false, steps)
}

/// With `later` puts those cycles that get later, from the last step to the first; else those that get earlier, from the first step
/// to the last.
fn put_all<L: Ledger>(
    graph: &mut Graph,
    draft: &Draft,
    moved: &[(u32, u64)],
    puts: &mut Vec<Put>,
    later: bool,
    steps: &mut Steps<L>,
) -> bool
    ensures puts { (first : List Lane) → AreDrafted draft.now first puts.old.items graph.old.lanes
        → AreDrafted draft.now first puts.new.items graph.new.lanes }
    ensures rooms { graph.new.rooms ≡ graph.old.rooms }
    ensures ticks { steps.new + length puts.old.items ≡ steps.old + length puts.new.items }
{
    for before in 0..moved.len() {
        let index = if later {
            moved.len() - 1 - before
        } else {
            before
        };
        let (module, step) = moved[index];
        if !put_drafted(graph, draft, Place { module, step }, puts, later, steps) {
            return false;
        }
    }
    true
}

/// Puts the draft's cycle of a step: with `later` if it is later than the graph's, else if it is earlier. False where it is too
/// large or would not rise, or where memory runs out.
fn put_drafted<L: Ledger>(
    graph: &mut Graph,
    draft: &Draft,
    place: Place,
    puts: &mut Vec<Put>,
    later: bool,
    steps: &mut Steps<L>,
) -> bool
    ensures puts { (first : List Lane) → AreDrafted draft.now first puts.old.items graph.old.lanes
        → AreDrafted draft.now first puts.new.items graph.new.lanes }
    ensures rooms { graph.new.rooms ≡ graph.old.rooms }
    ensures ticks { steps.new + length puts.old.items ≡ steps.old + length puts.new.items }
{
    if !has_cycle(graph, place) {
        return false;
    }
    let old = graph.cycles(place.module)[place.step as usize];
    let cycle = draft.cycle(place).unwrap_or(old);
    if cycle == old || (cycle > old) != later {
        return true;
    }
    if cycle >= CYCLE_BOUND {
        return false;
    }
    if !is_fitting(graph.cycles(place.module), place.step as usize, cycle) {
        return false;
    }
    match puts.push(Put { place, old }) {
        Ok(()) => {
            graph.put(place, cycle, steps);
            true
        }
        Err(_) => false,
    }
}

/// Whether a cycle lies between those of the step before and the step after.
fn is_fitting(cycles: &[u64], step: usize, cycle: u64) -> bool
    requires { step < length cycles.now }
    ensures { result ≡ true → IsFitting cycles.now step cycle }
{
    (step == 0 || cycles[step - 1] < cycle)
        && (step + 1 == cycles.len() || cycle < cycles[step + 1])
}

/// Takes all puts back, from the last one to the first, with a tick for each.
pub fn undo<L: Ledger>(graph: &mut Graph, puts: &mut Vec<Put>, steps: &mut Steps<L>)
    requires { (first : List Lane) × ArePut first puts.old.items graph.old.lanes }
    ensures undone { (first : List Lane) → ArePut first puts.old.items graph.old.lanes → graph.new.lanes ≡ first }
    ensures rooms { graph.new.rooms ≡ graph.old.rooms }
{
    while let Some(put) = puts.pop() {
        graph.put(put.place, put.old, steps);
    }
}
