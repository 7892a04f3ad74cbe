//! What is noted of the due operations before the replies, and what they ask of the channels.
ghost use Rattle.std.specs.Prelude.{◌≡◌, ℕ, ◌+◌, ◌*◌, ◌<◌, ◌≤◌, ◌^◌, ◌++◌, ◌∷◌, [], if◌then◌else◌, length, map, filter_map, All};
ghost use Rattle.std.specs.Prelude.{List as Items, None, Some, IfOk, IfSome, OnOk};
ghost use Rattle.std.specs.List.{zip};
ghost use Rattle.flow_design.specs.declared.limits.TheConstants.{LIVE_ITERATIONS, OPERATIONS};
ghost use Rattle.module_code.specs.{Channel as ChannelOf, block_of, passes, temps_of, IsModuleSound, request_for, requests, IsSlotOf};
ghost use Rattle.module_code.specs.{action_request, action_room, IsBlockCodeOf, IsGuardedOf, passing, standing, notes_of, HasCode};
ghost use Rattle.module_code.specs.{IsActionAt, IsStateSound, noted_for, noted_by, listed, AreNotesIn};

use crate::asked::Asked;
use crate::code::{BlockCode, Guarded};
use crate::noted::{Note, Notes};
use crate::running::{Prepared, prepare, temps_of};
use flow_design::{Due, Module, ModuleState};
use flow_expr::variable;
use flow_word::{List, OutOfMemory, Words};

/// A module in one of its states.
#[derive(Clone, Copy)]
struct Situation<'a> {
    of: &'a Module,
    state: &'a ModuleState,
}

/// An operation as a live iteration does it, with the temps of that iteration.
#[derive(Clone, Copy)]
struct Instance<'a> {
    due: Due,
    temps: &'a [u64],
}

/// Notes the due operations, and fills `asked` with the requests of the FIFO operations among them, in commit order. The code is that
/// of the block in which the module stands. What the notes and `asked` held before is lost. `scratch` is memory that is used again:
/// its words mean nothing. After `OutOfMemory` the notes mean nothing, and `asked` may have only some of the requests.
pub fn note<A: Asked>(
    of: &Module,
    code: &BlockCode,
    state: &ModuleState,
    scratch: &mut Words,
    notes: &mut Notes,
    asked: &mut A,
) -> Result<(), OutOfMemory>
    requires sound { IsStateSound of.now state.now }
    requires code { (channels : Items ChannelOf) × HasCode channels of.now state.now code.now }
    requires small { state.now.control.clock < 2 ^ 60 }
    ensures noted { OnOk result (listed code.now notes.new ≡ notes_of of.now state.now) }
    ensures asked { OnOk result ((channels : Items ChannelOf)
        → IsBlockCodeOf channels of.now (block_of of.now state.now) code.now
        → A.requests asked.new ≡ requests channels of.now state.now) }
    ensures notes { OnOk result (AreNotesIn code.now notes.new) }
    ensures few { OnOk result (notes.new.count ≤ LIVE_ITERATIONS * OPERATIONS) }
{
    make_room(scratch, code.room)?;
    let age = state.control.clock - state.control.newest;
    let due = code.schedule.due(age, state.temps.len());
    let actions = &code.actions.as_slice()[due.from..due.to];
    make_places(&mut notes.items, actions.len())?;
    asked.clear();
    let items = notes.items.as_mut_slice();
    let room = scratch.as_mut_slice();
    let on = Situation { of, state };
    let count = note_all(&on, actions, due.oldest, room, items, asked)?;
    notes.from = due.from;
    notes.to = due.to;
    notes.count = count;
    Ok(())
}

/// Makes `scratch` hold at least `room` words.
fn make_room(scratch: &mut Words, room: u64) -> Result<(), OutOfMemory>
    ensures { OnOk result (room ≤ length scratch.new) }
{
    while scratch.len() < room {
        scratch.push(0)?;
    }
    Ok(())
}

/// Makes the list have places for so many notes.
fn make_places(items: &mut List<Note>, places: usize) -> Result<(), OutOfMemory>
    ensures { OnOk result (places ≤ length items.new) }
{
    while items.len() < places as u64 {
        items.push(Note {
            passes: false,
            iteration: 0,
            value: 0,
            address: 0,
        })?;
    }
    Ok(())
}

/// Notes each of these operations, and adds the requests of those that are due. Returns how many are due. The iteration of an
/// operation is its rank less that of the oldest.
#[inline(always)]
fn note_all<A: Asked>(
    on: &Situation<'_>,
    actions: &[Guarded],
    oldest: u64,
    scratch: &mut [u64],
    items: &mut [Note],
    asked: &mut A,
) -> Result<u64, OutOfMemory>
    requires sound { IsStateSound on.now.of.now on.now.state.now }
    requires code { (channels : Items ChannelOf) × (IsModuleSound (length channels) on.now.of.now
        × All (IsGuardedOf channels on.now.of.now (block_of on.now.of.now on.now.state.now) (length scratch.old)) actions.now) }
    requires slots { All (λ g. IsSlotOf (block_of on.now.of.now on.now.state.now) oldest (length on.now.state.now.temps) g.slot)
        actions.now }
    requires few { length on.now.state.now.temps ≤ LIVE_ITERATIONS }
    requires places { length actions.now ≤ length items.old }
    ensures noted { OnOk result (filter_map noted_by (zip actions.now items.new)
        ≡ map (noted_for (block_of on.now.of.now on.now.state.now) on.now.state.now)
        (passing (block_of on.now.of.now on.now.state.now) on.now.state.now (map (standing oldest) actions.now))) }
    ensures places { OnOk result (length items.new ≡ length items.old) }
    ensures count { IfOk result (λ count. count
        ≡ length (passing (block_of on.now.of.now on.now.state.now) on.now.state.now (map (standing oldest) actions.now))) }
    ensures asked { OnOk result ((channels : Items ChannelOf) (room : ℕ)
        → All (IsGuardedOf channels on.now.of.now (block_of on.now.of.now on.now.state.now) room) actions.now
        → A.requests asked.new ≡ A.requests asked.old ++ filter_map (request_for channels on.now.of.now on.now.state.now)
        (passing (block_of on.now.of.now on.now.state.now) on.now.state.now (map (standing oldest) actions.now))) }
{
    let mut iteration = 0u32;
    let mut temps = temps_of(on.state, iteration);
    let mut count = 0u64;
    for (at, guarded) in actions.iter().enumerate() {
        let due = Due {
            iteration: (guarded.slot.rank - oldest) as u32,
            op: guarded.slot.op,
        };
        temps = temps_after(on.state, temps, iteration, due.iteration);
        iteration = due.iteration;
        let instance = Instance { due, temps };
        let passes = note_one(on, guarded, &instance, scratch, &mut items[at], asked)?;
        count += passes as u64;
    }
    Ok(count)
}

/// The temps of a live iteration. `temps` are those of the iteration `before`, which may be the same one.
#[inline(always)]
fn temps_after<'a>(
    state: &'a ModuleState,
    temps: &'a [u64],
    before: u32,
    iteration: u32,
) -> &'a [u64]
    requires { temps.now ≡ temps_of state.now before }
    ensures { result.now ≡ temps_of state.now iteration }
{
    if iteration == before {
        temps
    } else {
        temps_of(state, iteration)
    }
}

/// Whether there is no guard, or one that is not 0.
#[inline(always)]
fn passes(guard: Option<u32>, registers: &[u64], temps: &[u64]) -> bool
    requires { IfSome guard (λ at. at < length registers.now + length temps.now) }
    ensures { result ≡ passes registers.now temps.now guard }
{
    match guard {
        None => true,
        Some(at) => variable(at, registers, temps) != 0,
    }
}

/// Notes an operation, and adds its request if it is due and a FIFO operation. Tells whether it is due.
#[inline(always)]
fn note_one<A: Asked>(
    on: &Situation<'_>,
    guarded: &Guarded,
    instance: &Instance<'_>,
    scratch: &mut [u64],
    note: &mut Note,
    asked: &mut A,
) -> Result<bool, OutOfMemory>
    requires action { IsActionAt on.now.of.now on.now.state.now instance.now.due guarded.now.action }
    requires op { instance.now.due.op ≡ guarded.now.slot.op }
    requires temps { instance.now.temps.now ≡ temps_of on.now.state.now instance.now.due.iteration }
    requires guard { IfSome guarded.now.guard (λ at. at < length on.now.state.now.registers + length instance.now.temps.now) }
    requires room { action_room guarded.now.action ≤ length scratch.old }
    ensures due { IfOk result (λ due. due ≡ passes on.now.state.now.registers instance.now.temps.now guarded.now.guard) }
    ensures noted { IfOk result (λ due. noted_by (guarded.now, note.new)
        ≡ (if due then Some (noted_for (block_of on.now.of.now on.now.state.now) on.now.state.now instance.now.due) else None)) }
    ensures asked { IfOk result (λ due. A.requests asked.new
        ≡ A.requests asked.old ++ filter_map (λ d. action_request on.now.state.now d.iteration guarded.now.action)
        (if due then instance.now.due ∷ [] else [])) }
    ensures room { OnOk result (length scratch.new ≡ length scratch.old) }
{
    let Instance { due, temps } = *instance;
    let passes = passes(guarded.guard, on.state.registers.as_slice(), temps);
    note.passes = passes;
    if passes {
        note.iteration = due.iteration;
        match prepare(&guarded.action, on.state, due.iteration, temps, scratch) {
            Prepared::Writes(value, address) => {
                note.value = value;
                note.address = address;
            }
            Prepared::Asks(request) => {
                note.value = 0;
                note.address = 0;
                asked.ask(request)?;
            }
        }
    }
    Ok(passes)
}
