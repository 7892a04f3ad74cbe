//! The block of a module, its live iterations, and whether it is over.
ghost use Rattle.std.specs.Prelude.{◌≡◌, ◌*◌, ◌<◌, ◌≤◌, length};
ghost use Rattle.flow_design.specs.declared.limits.TheConstants.{LIVE_ITERATIONS};
ghost use Rattle.module_code.specs.{block_of, interval, live_count, is_spent, is_over};

use block_schedule::interval;
use flow_design::{Block, Control, Module, ModuleState};

/// The block in which the module stands.
#[inline(always)]
pub(crate) fn block_of<'a>(of: &'a Module, state: &ModuleState) -> &'a Block
    requires { state.now.control.block < length of.now.blocks }
    ensures { result.now ≡ block_of of.now state.now }
{
    &of.blocks.as_slice()[state.control.block as usize]
}

/// How many iterations are live.
#[tactic(auto, using(crate::proofs::Begins::live_count_is, crate::proofs::Begins::few_live))]
#[inline(always)]
pub(crate) fn live_count(block: &Block, control: &Control) -> u64
    requires some { 1 ≤ interval block.now }
    requires span { block.now.len ≤ LIVE_ITERATIONS * interval block.now }
    requires started { control.now.newest ≤ control.now.clock }
    ensures count { result ≡ live_count block.now control.now }
    ensures few { result ≤ LIVE_ITERATIONS }
{
    let age = control.clock - control.newest;
    if age >= block.len {
        return 0;
    }
    let step = interval(block);
    let most = control.newest.min(block.len - 1 - age);
    if most < step { 1 } else { 1 + most / step }
}

/// Whether a module is spent: it is not ended, and its operation count is at least the limit.
#[inline(always)]
pub fn is_spent(limit: u64, state: &ModuleState) -> bool
    ensures { result ≡ is_spent limit state.now }
{
    !state.ended && limit <= state.count
}

/// Whether a module is over: it is ended or spent, and moves no more.
#[tactic(auto, unfolding(lockstep_defs::specs::Machine::is_over))]
#[inline(always)]
pub fn is_over(limit: u64, state: &ModuleState) -> bool
    ensures { result ≡ is_over limit state.now }
{
    state.ended || is_spent(limit, state)
}
