//! How the control of a module goes on after the commits of a local clock.
ghost use Rattle.std.specs.Prelude.{◌≡◌, ℕ, ◌+◌, ◌-◌, ◌*◌, ◌<◌, ◌≤◌, ◌^◌, length, slice_index, OnOk, OnErr};
ghost use Rattle.std.specs.Int.{from_bool};
ghost use Rattle.module_code.specs.{IsModuleSound, IsNextSound, block_of, interval, again_of, decided, finished, ticked_to, gone_on};

use crate::opening::enter;
use crate::standing::{block_of, live_count};
use block_schedule::interval;
use flow_design::{Block, BlockKind, Module, ModuleState, Next};
use flow_word::OutOfMemory;
use std::alloc::Global;

/// Sets the local clock to a later one, and drops the temps of the iterations that are then no longer live.
#[tactic(auto, using(crate::proofs::Begins::block_sound, crate::proofs::Begins::some_interval, crate::proofs::Begins::span))]
#[inline(always)]
pub fn tick_to(of: &Module, state: &mut ModuleState, clock: u64)
    requires module { (channels : ℕ) × IsModuleSound channels of.now }
    requires there { state.old.control.block < length of.now.blocks }
    requires started { state.old.control.newest ≤ state.old.control.clock }
    requires later { state.old.control.clock ≤ clock }
    requires small { clock ≤ 2 ^ 60 }
    ensures ticked { state.new ≡ ticked_to of.now clock state.old }
{
    let block = block_of(of, state);
    state.control.clock = clock;
    let live = live_count(block, &state.control);
    state.temps.keep_newest(live);
}

/// Lets the loop decide, and the block end, in the local clock that has begun.
///
/// After `OutOfMemory` the call may be made again: it then does what is left to do.
#[tactic(auto, using(crate::proofs::Begins::block_sound, crate::proofs::Begins::some_interval))]
#[inline(always)]
pub fn go_on(alloc: Global, of: &Module, state: &mut ModuleState) -> Result<(), OutOfMemory>
    requires module { (channels : ℕ) × IsModuleSound channels of.now }
    requires there { state.old.control.block < length of.now.blocks }
    requires started { state.old.control.newest ≤ state.old.control.clock }
    requires few { state.old.count < 2 ^ 61 - 2 }
    ensures gone { OnOk result (state.new ≡ gone_on of.now state.old) }
    ensures left { OnErr result (gone_on of.now state.new ≡ gone_on of.now state.old) }
    ensures clock { OnOk result (state.new.control.clock ≤ state.old.control.clock) }
    ensures count { OnOk result (state.new.count ≤ state.old.count + 1) }
    ensures started { OnErr result (state.new.control.newest ≤ state.new.control.clock) }
    ensures block { OnErr result (state.new.control.block ≡ state.old.control.block) }
    ensures few { OnErr result (state.new.count ≤ state.old.count + 1) }
{
    let block = block_of(of, state);
    decide(alloc, block, state)?;
    finish(alloc, of, block, state)?;
    Ok(())
}

/// Lets the loop's register decide whether the next iteration starts, where the newest one has been live for II local clocks.
#[tactic(auto, unfolding(lockstep_defs::specs::Machine::decided))]
#[inline(always)]
fn decide(alloc: Global, block: &Block, state: &mut ModuleState) -> Result<(), OutOfMemory>
    requires started { state.old.control.newest ≤ state.old.control.clock }
    requires few { state.old.count < 2 ^ 61 - 2 }
    ensures decided { OnOk result (state.new ≡ decided block.now state.old) }
    ensures started { OnOk result (state.new.control.newest ≤ state.new.control.clock) }
    ensures clock { OnOk result (state.new.control.clock ≡ state.old.control.clock) }
    ensures count { OnOk result (state.new.count ≤ state.old.count + from_bool state.new.control.looping) }
    ensures block { OnOk result (state.new.control.block ≡ state.old.control.block) }
    ensures unchanged { OnErr result (state.new ≡ state.old) }
{
    let age = state.control.clock - state.control.newest;
    if state.control.looping && age == interval(block) {
        if again(block, state.registers.as_slice()) == 0 {
            state.control.looping = false;
        } else {
            state.temps.start(alloc, block.temps.len())?;
            state.control.newest = state.control.clock;
            state.count += 1;
        }
    }
    Ok(())
}

/// Follows the block's terminator, where the block is over.
#[tactic(auto, unfolding(lockstep_defs::specs::Machine::finished))]
#[inline(always)]
fn finish(
    alloc: Global,
    of: &Module,
    block: &Block,
    state: &mut ModuleState,
) -> Result<(), OutOfMemory>
    requires next { IsNextSound (length of.now.registers) (length of.now.blocks) block.now.next }
    requires started { state.old.control.newest ≤ state.old.control.clock }
    requires few { state.old.count < 2 ^ 61 }
    ensures finished { OnOk result (state.new ≡ finished of.now block.now state.old) }
    ensures clock { OnOk result (state.new.control.clock ≤ state.old.control.clock) }
    ensures count { OnOk result (state.new.count + from_bool state.old.control.looping ≤ state.old.count + 1) }
    ensures unchanged { OnErr result (state.new ≡ state.old) }
{
    if state.control.looping || state.control.clock - state.control.newest < block.len {
        return Ok(());
    }
    match block.next {
        Next::Goto(to) => enter(alloc, of, to, state),
        Next::Branch {
            register,
            first,
            second,
        } => {
            let value = word_at(state.registers.as_slice(), register);
            enter(alloc, of, if value == 0 { second } else { first }, state)
        }
        Next::Stop => {
            state.ended = true;
            Ok(())
        }
    }
}

/// The value of the register that decides whether a loop goes on.
#[inline(always)]
fn again(block: &Block, registers: &[u64]) -> u64
    ensures { result ≡ slice_index registers.now (again_of block.now.kind) }
{
    match block.kind {
        BlockKind::Plain => word_at(registers, 0),
        BlockKind::Loop { ii: _, again } => word_at(registers, again),
    }
}

/// The word at a place, or 0 where there is no such place.
#[inline(always)]
fn word_at(words: &[u64], at: u32) -> u64
    ensures { result ≡ slice_index words.now at }
{
    match words.get(at as usize) {
        Some(word) => *word,
        None => 0,
    }
}
