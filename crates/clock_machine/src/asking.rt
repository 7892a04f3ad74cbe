//! What a module asks of the channels.
ghost use Rattle.std.specs.Prelude.{◌≡◌, ◌<◌, ◌^◌, IfOk, OnOk, true, length, slice_index_or};
ghost use Rattle.clock_machine.specs.{block_of, is_over, nobody, requests, all_ready, module_at, moves, state_at, BlockCode as CodeOf};
ghost use Rattle.clock_machine.specs.{IsBlockCodeOf, AreNotesOf, IsStateSound, AreCodes, code_of_block, IsKnown, IsRemembered, Clocks.Runs};

use crate::channels::any_stalls_ever;
use crate::memo::Memo;
use crate::standing::{AtClock, Compiled};
use flow_design::{CheckedPlan, ClockState, Module, ModuleState, Request};
use flow_word::{List, OutOfMemory, Words};
use module_code::{self, BlockCode, Notes, note};

/// Module i of a plan.
#[inline(always)]
pub fn module_at(plan: &CheckedPlan, i: usize) -> &Module
    requires { i < length plan.now.design.modules }
    ensures { result.now ≡ module_at plan.now i }
{
    &plan.modules()[i]
}

/// Whether a module in this state is over, under the plan's operation limit.
#[inline(always)]
pub fn is_over(plan: &CheckedPlan, state: &ModuleState) -> bool
    ensures { result ≡ is_over plan.now.ops state.now }
{
    module_code::is_over(plan.ops(), state)
}

/// The state of module i.
#[inline(always)]
pub fn state_at(state: &ClockState, i: usize) -> &ModuleState
    requires { i < length state.now.modules }
    ensures { result.now ≡ slice_index_or state.now.modules i nobody }
{
    &state.modules.as_slice()[i]
}

/// The code of the block in which module i stands.
#[inline(always)]
pub fn code_at<'a>(of: &Compiled<'a>, i: usize, state: &ModuleState) -> &'a BlockCode
    requires codes { AreCodes of.now.plan.now of.now.codes.now }
    requires within { i < length of.now.plan.now.design.modules }
    requires block { state.now.control.block < length (module_at of.now.plan.now i).blocks }
    ensures own { IsBlockCodeOf of.now.plan.now.design.channels (module_at of.now.plan.now i)
        (block_of (module_at of.now.plan.now i) state.now) result.now }
    ensures code { (d : CodeOf) → result.now ≡ code_of_block of.now.codes.now (i, state.now) d }
{
    let own = &of.codes[i];
    &own.as_slice()[state.control.block as usize]
}

/// Notes the due operations of module i, in this state, and fills in the requests of the FIFO operations among them. After
/// `OutOfMemory` the notes mean nothing, and the list may have only some of the requests.
#[inline(always)]
pub fn note_one(
    of: &Compiled<'_>,
    i: usize,
    state: &ModuleState,
    words: &mut Words,
    notes: &mut Notes,
    asked: &mut List<Request>,
) -> Result<(), OutOfMemory>
    requires codes { AreCodes of.now.plan.now of.now.codes.now }
    requires within { i < length of.now.plan.now.design.modules }
    requires sound { IsStateSound (module_at of.now.plan.now i) state.now }
    requires small { state.now.control.clock < 2 ^ 60 }
    ensures noted { OnOk result ((d : CodeOf)
        → AreNotesOf (module_at of.now.plan.now i) state.now (code_of_block of.now.codes.now (i, state.now) d) notes.new) }
    ensures asked { OnOk result (asked.new ≡ requests of.now.plan.now.design.channels (module_at of.now.plan.now i) state.now) }
{
    of.plan.fits();
    note(
        module_at(of.plan, i),
        code_at(of, i, state),
        state,
        words,
        notes,
        asked,
    )?;
    Ok(())
}

/// Fills the memo of module i with the notes and requests of what is due, unless it has them already. After `OutOfMemory` the memo may
/// have only some of these.
#[inline(always)]
pub fn fill_memo(
    of: &Compiled<'_>,
    i: usize,
    state: &ModuleState,
    words: &mut Words,
    memo: &mut Memo,
) -> Result<(), OutOfMemory>
    requires codes { AreCodes of.now.plan.now of.now.codes.now }
    requires within { i < length of.now.plan.now.design.modules }
    requires sound { IsStateSound (module_at of.now.plan.now i) state.now }
    requires small { state.now.control.clock < 2 ^ 60 }
    requires known { IsKnown of.now.plan.now of.now.codes.now (i, state.now) memo.old }
    ensures all { OnOk result (memo.new.known ≡ true) }
    ensures known { OnOk result (IsKnown of.now.plan.now of.now.codes.now (i, state.now) memo.new) }
    ensures wakes { memo.new.wakes ≡ memo.old.wakes }
{
    if !memo.known {
        note_one(of, i, state, words, &mut memo.notes, &mut memo.requests)?;
        memo.known = true;
    }
    Ok(())
}

/// Whether module i would move in a clock if every element could be popped. `OutOfMemory` where memory ran out.
pub fn would_move(
    at: &AtClock<'_>,
    i: usize,
    state: &ModuleState,
    memo: &mut Memo,
    words: &mut Words,
) -> Result<bool, OutOfMemory>
    requires runs { Runs at.now.of.now.plan.now at.now.of.now.codes.now at.now.clock at.now.contents.now }
    requires within { i < length at.now.of.now.plan.now.design.modules }
    requires remembered { IsRemembered at.now.of.now.plan.now at.now.of.now.codes.now at.now.clock i state.now memo.old }
    ensures moving { IfOk result (λ moving. moving ≡ moves at.now.of.now.plan.now 0 (all_ready at.now.contents.now)
        (i, state_at at.now.of.now.plan.now at.now.clock i)) }
    ensures remembered { OnOk result (IsRemembered at.now.of.now.plan.now at.now.of.now.codes.now at.now.clock i state.now memo.new) }
{
    if at.clock < memo.wakes {
        return Ok(true);
    }
    if is_over(at.of.plan, state) {
        return Ok(false);
    }
    fill_memo(at.of, i, state, words, memo)?;
    Ok(!any_stalls_ever(at.of.plan, at.contents, memo.requests.as_slice()))
}
