//! The first state of a module, and how a block begins.
ghost use Rattle.std.specs.Prelude.{◌≡◌, ◌+◌, ℕ, ◌<◌, ◌^◌, IfOk, OnOk, OnErr, length, map, replicate};
ghost use Rattle.module_code.specs.{IsModuleSound, is_loop, opened, entered, IsStateOf};

use flow_design::{BlockKind, Control, LiveTemps, Memory, Module, ModuleState};
use flow_word::{List, OutOfMemory, Words};
use std::alloc::Global;

/// The first state of a module: local clock 0 of its first block, with all registers and memory words 0. `OutOfMemory` where memory ran
/// out.
pub fn open(alloc: Global, of: &Module) -> Result<ModuleState, OutOfMemory>
    requires { (channels : ℕ) × IsModuleSound channels of.now }
    ensures state { IfOk result (λ state. state ≡ opened of.now) }
    ensures sound { IfOk result (λ state. IsStateOf of.now state) }
    ensures clock { IfOk result (λ state. state.control.clock ≡ 0) }
    ensures count { IfOk result (λ state. state.count ≡ 1) }
{
    let state = first_state(alloc, of)?;
    Ok(state)
}

/// The first state of a module. `OutOfMemory` where memory ran out.
#[tactic(auto, unfolding(lockstep_defs::specs::Machine::opened))]
fn first_state(alloc: Global, of: &Module) -> Result<ModuleState, OutOfMemory>
    requires { (channels : ℕ) × IsModuleSound channels of.now }
    ensures { IfOk result (λ state. state ≡ opened of.now) }
{
    let mut state = ModuleState {
        control: Control {
            block: 0,
            clock: 0,
            newest: 0,
            looping: false,
        },
        registers: Words::zeros(alloc, of.registers.len())?,
        memories: zero_memories(alloc, of.memories.as_slice())?,
        temps: LiveTemps::new(alloc),
        count: 0,
        ended: false,
    };
    enter(alloc, of, 0, &mut state)?;
    Ok(state)
}

/// The words of each of these memories, all 0.
fn zero_memories(alloc: Global, memories: &[Memory]) -> Result<List<Words>, OutOfMemory>
    ensures { IfOk result (λ words. words ≡ map (λ memory. replicate memory.len 0) memories.now) }
{
    let mut words = List::with_room(alloc, memories.len() as u64)?;
    for memory in memories {
        words.push(Words::zeros(alloc, memory.len)?)?;
    }
    Ok(words)
}

/// Enters a block, whose first iteration starts. After `OutOfMemory` the state is as it was.
#[tactic(auto, unfolding(lockstep_defs::specs::Machine::entered))]
#[inline(never)]
pub(crate) fn enter(
    alloc: Global,
    of: &Module,
    number: u32,
    state: &mut ModuleState,
) -> Result<(), OutOfMemory>
    requires there { number < length of.now.blocks }
    requires few { state.old.count < 2 ^ 61 }
    ensures entered { OnOk result (state.new ≡ entered of.now number state.old) }
    ensures clock { OnOk result (state.new.control.clock ≡ 0) }
    ensures count { OnOk result (state.new.count ≡ state.old.count + 1) }
    ensures unchanged { OnErr result (state.new ≡ state.old) }
{
    let block = &of.blocks.as_slice()[number as usize];
    state.temps.start(alloc, block.temps.len())?;
    state.temps.keep_newest(1);
    state.control = Control {
        block: number,
        clock: 0,
        newest: 0,
        looping: is_loop(block.kind),
    };
    state.count += 1;
    Ok(())
}

/// Whether a block repeats.
fn is_loop(kind: BlockKind) -> bool
    ensures { result ≡ is_loop kind }
{
    match kind {
        BlockKind::Plain => false,
        BlockKind::Loop { .. } => true,
    }
}
