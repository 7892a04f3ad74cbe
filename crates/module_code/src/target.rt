//! Where operations write: a register or a temp, with the mask of its width.
ghost use Rattle.std.specs.Prelude.{◌≡◌, slice_index};
ghost use Rattle.module_code.specs.{IsMaskOf, IsTargetOf, put_value, put_word};

use flow_design::{Block, Module, ModuleState, put_at, set_at};
use flow_word::Width;

/// Where a value goes. A value is cut by the mask, which has a one for each bit of the width.
#[derive(Clone, Copy, Debug, PartialEq)]
pub enum Target {
    /// A register of the module, and its mask.
    Register(u32, u64),
    /// A temp of the iteration, and its mask.
    Temp(u32, u64),
}

/// The target of a variable of a block: a register of the module, or a temp.
#[tactic(auto, using(crate::proofs::Masking::register_target, crate::proofs::Masking::temp_target))]
pub(crate) fn target_of(of: &Module, block: &Block, variable: u32) -> Target
    ensures { IsTargetOf of.now block.now result variable }
{
    let registers = of.registers.as_slice();
    let count = registers.len();
    if (variable as usize) < count {
        Target::Register(variable, mask_at(registers, variable))
    } else {
        let temp = variable - count as u32;
        Target::Temp(temp, mask_at(block.temps.as_slice(), temp))
    }
}

/// The mask of the width at a place of the list, or 0 where there is no such place.
fn mask_at(widths: &[Width], at: u32) -> u64
    ensures { IsMaskOf (slice_index widths.now at) result }
{
    match widths.get(at as usize) {
        Some(width) => mask_of(*width),
        None => 0,
    }
}

/// The mask of a width: a word with a one for each of its bits.
pub(crate) fn mask_of(width: Width) -> u64
    ensures { IsMaskOf width result }
{
    let bits = width.number();
    if bits == 64 {
        u64::MAX
    } else {
        (1 << bits) - 1
    }
}

/// Puts a value into a target, cut by the target's mask.
#[inline(always)]
pub(crate) fn put(state: &mut ModuleState, iteration: u32, target: Target, value: u64)
    ensures { state.new ≡ put_value state.old iteration target value }
{
    match target {
        Target::Register(register, mask) => {
            set_at(
                state.registers.as_mut_slice(),
                register as u64,
                value & mask,
            );
        }
        Target::Temp(temp, mask) => {
            state.temps.put(iteration, temp as u64, value & mask);
        }
    }
}

/// Puts a word at an address of a memory. Nothing changes where there is no such memory or word.
#[inline(always)]
pub(crate) fn put_word(state: &mut ModuleState, memory: u32, address: u64, word: u64)
    ensures { state.new ≡ put_word state.old memory address word }
{
    put_at(state.memories.as_mut_slice(), memory as u64, address, word);
}
