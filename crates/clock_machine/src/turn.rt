//! One module's turn in a clock: its requests, their replies, and its move, all on the contents from before the clock.
ghost use Rattle.std.specs.Prelude.{◌≡◌, ◌+◌, ◌<◌, ◌≤◌, IfOk, OnOk, not, true, false, [], ◌++◌, if◌then◌else◌, length, map};
ghost use Rattle.std.specs.List.{list_any};
ghost use Rattle.clock_machine.specs.{is_over, stalls, reply, answered, outcomes, outcomes_in, popped, pushed, IsRemembered, FallsAsleep};
ghost use Rattle.clock_machine.specs.{HasDone, does_move, step_at, Clocks.Runs};

use crate::asking::{code_at, fill_memo, is_over, module_at};
use crate::channels::{answer_one, stalls};
use crate::memo::{Memo, Round, Traffic};
use crate::standing::AtClock;
use crate::telling::tell_kept_events;
use flow_design::{ModuleState, Reply, Request};
use flow_word::{Flags, List, OutOfMemory};
use module_code::{go_on, make_move, tick_to};

/// Whether the module is known to stall on the same request as before.
#[inline(always)]
fn still_stalls(at: &AtClock<'_>, memo: &Memo) -> bool
    ensures known { result ≡ true → memo.now.known ≡ true }
    ensures stalls { result ≡ true
        → list_any (stalls at.now.of.now.plan.now at.now.clock at.now.contents.now) memo.now.requests ≡ true }
{
    let requests = memo.requests.as_slice();
    let place = memo.place as usize;
    memo.known && place < requests.len() && stalls(at, &requests[place])
}

/// Answers these operations, unless one of them blocks and cannot be done. Returns whether all are answered: then their replies are
/// filled in, and the outcomes of the queries and what they pop and push are added. Otherwise `replies` holds those that could be
/// given.
#[inline(always)]
fn answer(
    at: &AtClock<'_>,
    requests: &[Request],
    replies: &mut List<Reply>,
    outcomes: &mut Flags,
    traffic: &mut Traffic,
) -> Result<bool, OutOfMemory>
    ensures goes { IfOk result (λ goes. goes
        ≡ not (list_any (stalls at.now.of.now.plan.now at.now.clock at.now.contents.now) requests.now)) }
    ensures replies { IfOk result (λ goes. goes ≡ true
        → replies.new ≡ map (reply at.now.of.now.plan.now at.now.clock at.now.contents.now) requests.now) }
    ensures outcomes { IfOk result (λ goes. outcomes.new ≡ outcomes.old
        ++ (if goes then outcomes_in (map (answered at.now.of.now.plan.now at.now.clock at.now.contents.now) requests.now) else [])) }
    ensures pops { IfOk result (λ goes. traffic.new.pops ≡ traffic.old.pops
        ++ (if goes then popped (map (answered at.now.of.now.plan.now at.now.clock at.now.contents.now) requests.now) else [])) }
    ensures pushes { IfOk result (λ goes. traffic.new.pushes ≡ traffic.old.pushes
        ++ (if goes then pushed (map (answered at.now.of.now.plan.now at.now.clock at.now.contents.now) requests.now) else [])) }
{
    let popped_before = traffic.pops.len();
    let pushed_before = traffic.pushes.len();
    let told_before = outcomes.len();
    replies.truncate(0);
    for request in requests {
        match answer_one(at, request, outcomes, traffic)? {
            None => {
                traffic.pops.truncate(popped_before);
                traffic.pushes.truncate(pushed_before);
                outcomes.truncate(told_before);
                return Ok(false);
            }
            Some(reply) => replies.push(reply)?,
        }
    }
    Ok(true)
}

/// Takes the turn of a module that is awake, with the notes and requests of what is due. Returns whether the module moves, which it
/// does where it does not stall.
#[inline(always)]
fn act(
    at: &AtClock<'_>,
    i: usize,
    state: &mut ModuleState,
    memo: &mut Memo,
    round: &mut Round,
    answers: &mut Flags,
) -> Result<bool, OutOfMemory>
    requires runs { Runs at.now.of.now.plan.now at.now.of.now.codes.now at.now.clock at.now.contents.now }
    requires within { i < length at.now.of.now.plan.now.design.modules }
    requires remembered { IsRemembered at.now.of.now.plan.now at.now.of.now.codes.now at.now.clock i state.old memo.old }
    requires awake { memo.old.wakes ≤ at.now.clock }
    requires running { is_over at.now.of.now.plan.now.ops state.old ≡ false }
    requires known { memo.old.known ≡ true }
    ensures moving { IfOk result (λ moving. moving ≡ does_move at.now.of.now.plan.now at.now.clock i) }
    ensures remembered { OnOk result (IsRemembered at.now.of.now.plan.now at.now.of.now.codes.now (at.now.clock + 1) i state.new memo.new) }
    ensures done { OnOk result (HasDone at.now.keep round.old round.new (step_at at.now.of.now.plan.now at.now.clock i)) }
    ensures answers { OnOk result (answers.new ≡ answers.old ++ outcomes (step_at at.now.of.now.plan.now at.now.clock i)) }
{
    let requests = memo.requests.as_slice();
    if !answer(
        at,
        requests,
        &mut round.replies,
        answers,
        &mut round.traffic,
    )? {
        memo.place = round.replies.len();
        return Ok(false);
    }
    tell_kept_events(at, i, requests, &mut round.events)?;
    let code = code_at(at.of, i, state);
    let replies = round.replies.as_slice();
    make_move(
        at.alloc,
        module_at(at.of.plan, i),
        code,
        state,
        &memo.notes,
        replies,
    )?;
    memo.known = false;
    Ok(true)
}

/// Whether a module that is awake is seen at once not to move: it is over, or stalls on the same request as before.
#[inline(always)]
fn surely_stays(at: &AtClock<'_>, i: usize, state: &ModuleState, memo: &Memo) -> bool
    requires runs { Runs at.now.of.now.plan.now at.now.of.now.codes.now at.now.clock at.now.contents.now }
    requires remembered { IsRemembered at.now.of.now.plan.now at.now.of.now.codes.now at.now.clock i state.now memo.now }
    requires awake { memo.now.wakes ≤ at.now.clock }
    ensures stays { result ≡ true → does_move at.now.of.now.plan.now at.now.clock i ≡ false }
    ensures running { result ≡ false → is_over at.now.of.now.plan.now.ops state.now ≡ false }
{
    if is_over(at.of.plan, state) {
        return true;
    }
    still_stalls(at, memo)
}

/// Whether a module that is awake has nothing to do in this clock. Its state is then that of the next clock in which it has.
#[inline(always)]
fn fall_asleep(
    at: &AtClock<'_>,
    i: usize,
    state: &mut ModuleState,
    memo: &mut Memo,
) -> Result<bool, OutOfMemory>
    requires runs { Runs at.now.of.now.plan.now at.now.of.now.codes.now at.now.clock at.now.contents.now }
    requires within { i < length at.now.of.now.plan.now.design.modules }
    requires remembered { IsRemembered at.now.of.now.plan.now at.now.of.now.codes.now at.now.clock i state.old memo.old }
    requires awake { memo.old.wakes ≤ at.now.clock }
    requires running { is_over at.now.of.now.plan.now.ops state.old ≡ false }
    ensures asleep { IfOk result (λ asleep. asleep ≡ true
        → FallsAsleep at.now.of.now.plan.now at.now.of.now.codes.now at.now.clock i state.new memo.new) }
    ensures state { IfOk result (λ asleep. asleep ≡ false → state.new ≡ state.old) }
    ensures memo { IfOk result (λ asleep. asleep ≡ false → memo.new ≡ memo.old) }
{
    if memo.notes.count > 0 {
        return Ok(false);
    }
    let now = state.control.clock;
    let next = code_at(at.of, i, state).schedule.next_due(&state.control);
    if next == now {
        return Ok(false);
    }
    let module = module_at(at.of.plan, i);
    tick_to(module, state, next);
    go_on(at.alloc, module, state)?;
    memo.wakes = at.clock + (next - now);
    memo.known = false;
    Ok(true)
}

/// Takes a module's turn in a clock, and adds what it pops and pushes, its events and its outcomes. Returns whether the module
/// moves: it does not where it is over or stalls. After `OutOfMemory` the turn may be done in part.
pub fn take_turn(
    at: &AtClock<'_>,
    i: usize,
    state: &mut ModuleState,
    memo: &mut Memo,
    round: &mut Round,
    answers: &mut Flags,
) -> Result<bool, OutOfMemory>
    requires runs { Runs at.now.of.now.plan.now at.now.of.now.codes.now at.now.clock at.now.contents.now }
    requires within { i < length at.now.of.now.plan.now.design.modules }
    requires remembered { IsRemembered at.now.of.now.plan.now at.now.of.now.codes.now at.now.clock i state.old memo.old }
    ensures moving { IfOk result (λ moving. moving ≡ does_move at.now.of.now.plan.now at.now.clock i) }
    ensures remembered { OnOk result (IsRemembered at.now.of.now.plan.now at.now.of.now.codes.now (at.now.clock + 1) i state.new memo.new) }
    ensures done { OnOk result (HasDone at.now.keep round.old round.new (step_at at.now.of.now.plan.now at.now.clock i)) }
    ensures answers { OnOk result (answers.new ≡ answers.old ++ outcomes (step_at at.now.of.now.plan.now at.now.clock i)) }
{
    if at.clock < memo.wakes {
        return Ok(true);
    }
    if surely_stays(at, i, state, memo) {
        return Ok(false);
    }
    fill_memo(at.of, i, state, &mut round.words, memo)?;
    if fall_asleep(at, i, state, memo)? {
        return Ok(true);
    }
    act(at, i, state, memo, round, answers)
}
