//! The turns of all modules in a clock.
ghost use Rattle.std.specs.Prelude.{◌≡◌, ℕ, ◌+◌, ◌<◌, [], ◌++◌, IfOk, OnOk, length, slice_index_or};
ghost use Rattle.clock_machine.specs.{state, steps_in, outcomes, some_moves, is_settled, AreRemembered, HasDone, step_at, Clocks.Runs};

use crate::asking::would_move;
use crate::memo::{Memo, Round};
use crate::standing::AtClock;
use crate::turn::take_turn;
use flow_design::ModuleState;
use flow_word::{Flags, OutOfMemory, Words};

/// Takes the turns of all modules in a clock, in order. Returns whether a module moves. After `OutOfMemory` some turns may be done,
/// and one in part.
pub fn take_turns(
    at: &AtClock<'_>,
    states: &mut [ModuleState],
    memos: &mut [Memo],
    round: &mut Round,
    answers: &mut [Flags],
) -> Result<bool, OutOfMemory>
    requires runs { Runs at.now.of.now.plan.now at.now.of.now.codes.now at.now.clock at.now.contents.now }
    requires remembered { AreRemembered at.now.of.now.plan.now at.now.of.now.codes.now at.now.clock states.old memos.old }
    requires answers { length answers.old ≡ length at.now.of.now.plan.now.design.modules }
    ensures moving { IfOk result (λ moving. moving
        ≡ some_moves at.now.of.now.plan.now at.now.clock at.now.contents.now (state at.now.of.now.plan.now at.now.clock)) }
    ensures remembered { OnOk result
        (AreRemembered at.now.of.now.plan.now at.now.of.now.codes.now (at.now.clock + 1) states.new memos.new) }
    ensures done { OnOk result (HasDone at.now.keep round.old round.new
        (steps_in at.now.of.now.plan.now at.now.clock (state at.now.of.now.plan.now at.now.clock))) }
    ensures answers { OnOk result ((i : ℕ) → i < length at.now.of.now.plan.now.design.modules
        → slice_index_or answers.new i []
        ≡ slice_index_or answers.old i [] ++ outcomes (step_at at.now.of.now.plan.now at.now.clock i)) }
    ensures count { OnOk result (length answers.new ≡ length answers.old) }
{
    let mut moving = false;
    for (i, state) in states.iter_mut().enumerate() {
        let moves = take_turn(at, i, state, &mut memos[i], round, &mut answers[i])?;
        moving = moving || moves;
    }
    Ok(moving)
}

/// Whether no module moves in a clock, and none would if every element could be popped. `OutOfMemory` where memory ran out.
pub fn is_settled(
    at: &AtClock<'_>,
    states: &[ModuleState],
    memos: &mut [Memo],
    words: &mut Words,
) -> Result<bool, OutOfMemory>
    requires runs { Runs at.now.of.now.plan.now at.now.of.now.codes.now at.now.clock at.now.contents.now }
    requires remembered { AreRemembered at.now.of.now.plan.now at.now.of.now.codes.now at.now.clock states.now memos.old }
    ensures settled { IfOk result (λ settled. settled
        ≡ is_settled at.now.of.now.plan.now at.now.clock (state at.now.of.now.plan.now at.now.clock)) }
    ensures remembered { OnOk result (AreRemembered at.now.of.now.plan.now at.now.of.now.codes.now at.now.clock states.now memos.new) }
{
    for (i, state) in states.iter().enumerate() {
        if would_move(at, i, state, &mut memos[i], words)? {
            return Ok(false);
        }
    }
    Ok(true)
}
