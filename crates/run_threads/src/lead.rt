//! The caller: it gives the cycles, drives the modules that have no thread, and takes all passes back.
ghost use Rattle.std.specs.Prelude.{◌≡◌, ◌≤◌, [], length, vec_capacity};
ghost use Rattle.run_threads.specs.{IsOverAt, IsPerfOf, perf_view, IsHere, HasMoreTurns, SlotIs, AreSlots, AreHere};

use crate::concern::News;
use crate::crew::Crew;
use crate::drive::{Went, drive_once};
use crate::gate::Gate;
use crate::start::PassHolder;
use crate::wakers::Wakers;
use crossbeam_utils::sync::Parker;
use module_sets::ModuleSet;
use sim_hub::{Hub, ModulePass, PerfAnswer, PerfPass};
use std::mem;
use std::sync::Wait;
use std::thread::{Threads, yield_now};

/// How many rounds over its modules the caller makes between two of its own turns, at most.
const ROUNDS: u32 = 16;

/// Tries once to drive a module that is called. If the module had a thread, that thread must have ended. The second answer tells
/// whether it ran.
fn try_one<G: Gate, R: Threads + Wait>(
    crew: &Crew<'_, G, R>,
    which: usize,
    slot: PassHolder,
) -> (PassHolder, bool)
    requires { SlotIs crew.now.hub.now which slot }
    ensures { SlotIs crew.now.hub.now which result.0 }
{
    let pass = take_one(crew.rt, crew.hub, slot, which);
    let owner = pass.which();
    crew.wakers.clear(owner);
    let (pass, went) = drive_once(crew.rt, crew.alloc, crew.hub, crew.gate, pass);
    match went {
        Went::Ran(concern, _) => {
            crew.wakers.want(owner, concern);
            crew.wakers.tell_readers(owner);
            (PassHolder::Here(pass), true)
        }
        Went::Held | Went::Over | Went::Short => (PassHolder::Here(pass), false),
    }
}

/// Tries once to drive each module that is called. The second answer tells whether one ran. The set is empty before and afterwards.
fn try_all<G: Gate, R: Threads + Wait>(
    crew: &Crew<'_, G, R>,
    slots: Vec<PassHolder>,
    noted: &mut ModuleSet,
) -> (Vec<PassHolder>, bool)
    requires { AreSlots crew.now.hub.now slots.items }
    ensures { (length result.0.items ≡ length slots.items) × AreSlots crew.now.hub.now result.0.items }
{
    let mut slots = slots;
    let mut any = false;
    crew.wakers.take_notes(noted);
    for _ in 0..slots.len() {
        let Some(first) = take_first(noted) else {
            return (slots, any);
        };
        let which = first as usize;
        if which < slots.len() && crew.wakers.is_due(which) {
            let slot = mem::replace(&mut slots[which], PassHolder::Gone);
            let (back, ran) = try_one(crew, which, slot);
            slots[which] = back;
            any = any || ran;
        }
    }
    (slots, any)
}

/// Drives the modules that are called in rounds, as long as one runs, up to `ROUNDS` rounds. The second answer tells whether one
/// ran.
fn try_rounds<G: Gate, R: Threads + Wait>(
    crew: &Crew<'_, G, R>,
    slots: Vec<PassHolder>,
    noted: &mut ModuleSet,
) -> (Vec<PassHolder>, bool)
    requires { AreSlots crew.now.hub.now slots.items }
    ensures { (length result.0.items ≡ length slots.items) × AreSlots crew.now.hub.now result.0.items }
{
    let (first, mut runs) = try_all(crew, slots, noted);
    let ran = runs;
    let mut slots = first;
    let mut left = ROUNDS;
    while runs && left > 0 {
        left -= 1;
        let (next, more) = try_all(crew, slots, noted);
        slots = next;
        runs = more;
    }
    (slots, ran)
}

/// Tells the wakers of the modules in the set, and empties it: after the last turn a Run of them is permitted.
fn tell_ready(wakers: &Wakers, ready: &mut ModuleSet) {
    for _ in 0..wakers.count() {
        match take_first(ready) {
            Some(which) => wakers.tell(which, News::Timed),
            None => return,
        }
    }
}

/// Takes the first module out of a set. `None` where the set is empty.
fn take_first(set: &mut ModuleSet) -> Option<u32> {
    let first = set.first_from(0)?;
    set.remove(first);
    Some(first)
}

/// Takes performance turns until all is over, and drives the modules that have no thread between these turns. It waits where there
/// is nothing to do, and drives none meanwhile.
pub fn lead<G: Gate, R: Threads + Wait>(
    crew: &Crew<'_, G, R>,
    parker: &Parker,
    perf: PerfPass,
    slots: Vec<PassHolder>,
    noted: ModuleSet,
) -> (PerfPass, Vec<PassHolder>)
    requires own { IsPerfOf crew.now.hub.now perf }
    requires slots { AreSlots crew.now.hub.now slots.items }
    ensures own { IsPerfOf crew.now.hub.now result.0 }
    ensures over { IsOverAt (perf_view result.0).seen }
    ensures later { HasMoreTurns (perf_view perf) (perf_view result.0) }
    ensures slots { (length result.1.items ≡ length slots.items) × AreSlots crew.now.hub.now result.1.items }
{
    let mut perf = perf;
    let mut slots = slots;
    let mut noted = noted;
    for _ in crew.rt.forever() {
        crew.wakers.clear_for_caller();
        let (next, answer) = crew.hub.perf_turn_telling(crew.rt, perf, &mut noted);
        perf = next;
        let idle = match answer {
            PerfAnswer::Did(_) => false,
            PerfAnswer::Idle(_) => true,
            PerfAnswer::Over | PerfAnswer::Short => {
                crew.wakers.tell_end();
                return (perf, slots);
            }
        };
        tell_ready(crew.wakers, &mut noted);
        let (back, ran) = try_rounds(crew, slots, &mut noted);
        slots = back;
        if idle && !ran {
            rest(crew.rt, crew.wakers, parker);
        }
    }
    unreachable!()
}

/// Waits for news; or, where some module's thread was not started, lets other threads go first.
fn rest<R: Wait>(rt: &R, wakers: &Wakers, parker: &Parker) {
    if wakers.has_unstarted() {
        yield_now();
    } else {
        wakers.wait_as_caller(rt, parker);
    }
}

/// Takes a module's pass. Where a thread has it, it waits for the thread's end.
fn take_one<R: Threads>(rt: &R, hub: &Hub, slot: PassHolder, which: usize) -> ModulePass
    requires { SlotIs hub.now which slot }
    ensures { IsHere hub.now which result }
{
    match slot {
        PassHolder::There(child) => child.join(rt).pass,
        PassHolder::Here(pass) => pass,
        PassHolder::Gone => unreachable!(),
    }
}

/// Takes all modules' passes, in order.
pub fn gather<R: Threads>(
    rt: &R,
    hub: &Hub,
    slots: Vec<PassHolder>,
    passes: Vec<ModulePass>,
) -> Vec<ModulePass>
    requires slots { AreSlots hub.now slots.items }
    requires empty { passes.items ≡ [] }
    requires room { length slots.items ≤ vec_capacity passes }
    ensures count { length result.items ≡ length slots.items }
    ensures here { AreHere hub.now result.items }
{
    let mut passes = passes;
    for slot in slots {
        let which = passes.len();
        passes.push_reserved(take_one(rt, hub, slot, which));
    }
    passes
}
