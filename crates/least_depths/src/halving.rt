//! Lowers depths in a session of edits, by halving.
ghost use Rattle.std.specs.Prelude.{◌≡◌, ◌+◌, ◌<◌, ◌≤◌, true, false, length, IsSome, IfOk, OnOk};
ghost use Rattle.flow_design.specs.declared.limits.TheConstants.{FIFO_DEPTH};
ghost use Rattle.least_depths.specs.{EditFits, is_fifo, kind_at, with_depth, AsksNothing, IsLateBelow, HasDepth, is_done_by, is_in_time};
ghost use Rattle.least_depths.specs.{least_for, lowered, AreKnown, IsAlike};

use crate::bounds::late_below;
use depth_session::{DepthSession, Runner};
use flow_design::{Edit, Verdict};
use flow_word::OutOfMemory;
use path_check::{DepthTarget, Latest};
use std::alloc::Global;
use std::sync::Wait;
use std::thread::Threads;

/// Lowers the depth of each FIFO in turn, in order of declaration, to the one that halving finds with an end by `clock`. Returns
/// how many depths halving tries.
///
/// It edits the plan only to depths of which it does not know already whether they are in time. The latest clocks are those of the
/// plan with its depths from before. It calls the runner at most once for each depth that halving tries, and once more for each
/// channel. After `OutOfMemory` some of the depths are lowered.
pub(crate) fn lower_all<R: Threads + Wait + Sync, U: Runner>(
    rt: &R,
    alloc: Global,
    session: &mut DepthSession,
    latest: &Option<Latest>,
    clock: u64,
    runner: &mut U,
) -> Result<u64, OutOfMemory>
    requires live { session.old.live ≡ true }
    requires few { session.old.count.runs ≤ 1 }
    requires latest { IsSome latest.now → AsksNothing session.old.plan }
    ensures live { OnOk result (session.new.live ≡ true) }
    ensures plan { OnOk result (session.new.plan ≡ (lowered session.old.plan clock (length session.old.plan.design.channels)).plan) }
    ensures tries { IfOk result (λ tries. tries ≡ (lowered session.old.plan clock (length session.old.plan.design.channels)).tries) }
    ensures made { U.made runner.new ≤ U.made runner.old
        + (lowered session.old.plan clock (length session.old.plan.design.channels)).tries + length session.old.plan.design.channels }
    ensures quiet { AsksNothing session.old.plan → U.made runner.new ≡ U.made runner.old }
{
    session.core().agrees();
    let channels = session.plan().design.channels.len();
    let mut tries = 0;
    for channel in 0..channels {
        if is_fifo(session, channel) {
            let target = DepthTarget {
                channel: channel as u32,
                clock,
            };
            tries += lower(rt, alloc, session, &target, latest, runner)?;
        }
    }
    Ok(tries)
}

/// Whether a channel of the session's plan is a FIFO.
fn is_fifo(session: &DepthSession, channel: u64) -> bool
    requires { channel < length session.now.plan.design.channels }
    ensures { result ≡ is_fifo (kind_at session.now.plan channel) }
{
    session.plan().design.channels.as_slice()[channel as usize]
        .kind
        .is_fifo()
}

/// Which depths of a FIFO are known to be too late, and which to be in time, for an end by a clock.
#[derive(Clone, Copy)]
pub(crate) struct KnownDepths {
    pub(crate) clock: u64,
    /// With any depth below this one, the plan ends too late.
    pub(crate) late_below: u64,
    /// With any depth from this one on, but below the FIFO's first one, the plan ends in time.
    pub(crate) timely_from: u64,
}

/// Lowers the depth of one FIFO to the one that halving finds. Returns how many depths halving tries.
///
/// The latest clocks may be those of the plan with deeper FIFOs. After `OutOfMemory` the FIFO may have any depth that was tried.
fn lower<R: Threads + Wait + Sync, U: Runner>(
    rt: &R,
    alloc: Global,
    session: &mut DepthSession,
    target: &DepthTarget,
    latest: &Option<Latest>,
    runner: &mut U,
) -> Result<u64, OutOfMemory>
    requires live { session.old.live ≡ true }
    requires runs { session.old.count.runs + FIFO_DEPTH + 1 < u64.MAX }
    requires depth { HasDepth session.old.plan target.now.channel }
    requires latest { IsSome latest.now → AsksNothing session.old.plan }
    ensures live { OnOk result (session.new.live ≡ true) }
    ensures plan { OnOk result (session.new.plan ≡ with_depth session.old.plan target.now.channel
        (least_for session.old.plan target.now.clock target.now.channel).number) }
    ensures tries { IfOk result (λ tries. tries ≡ (least_for session.old.plan target.now.clock target.now.channel).tries) }
    ensures few { IfOk result (λ tries. tries < FIFO_DEPTH) }
    ensures runs { OnOk result (session.new.count.runs ≤ session.old.count.runs + FIFO_DEPTH + 1) }
    ensures made { U.made runner.new
        ≤ U.made runner.old + (least_for session.old.plan target.now.clock target.now.channel).tries + 1 }
    ensures quiet { AsksNothing session.old.plan → U.made runner.new ≡ U.made runner.old }
{
    session.core().agrees();
    let mut least = 1;
    let mut most = session.plan().depths.as_slice()[target.channel as usize];
    let mut tries = 0;
    let late_below = late_below(alloc, session, latest, target);
    let known = try_bound(rt, alloc, session, target, late_below, runner)?;
    while least < most {
        let depth = (least + most) / 2;
        let edit = Edit {
            channel: target.channel,
            depth,
        };
        if is_timely(rt, alloc, session, &edit, &known, runner)? {
            most = depth;
        } else {
            least = depth + 1;
        }
        tries += 1;
    }
    let edit = Edit {
        channel: target.channel,
        depth: least,
    };
    session.edit(rt, alloc, &edit, runner)?;
    Ok(tries)
}

/// Tries the least depth of a FIFO that is not known to be too late, if a bound is known, and returns what is known then.
///
/// After `OutOfMemory` the FIFO may have the depth that was tried.
fn try_bound<R: Threads + Wait + Sync, U: Runner>(
    rt: &R,
    alloc: Global,
    session: &mut DepthSession,
    target: &DepthTarget,
    late_below: u64,
    runner: &mut U,
) -> Result<KnownDepths, OutOfMemory>
    requires live { session.old.live ≡ true }
    requires runs { session.old.count.runs < u64.MAX }
    requires depth { HasDepth session.old.plan target.now.channel }
    requires late { IsLateBelow session.old.plan target.now.clock target.now.channel late_below }
    requires quiet { 1 < late_below → AsksNothing session.old.plan }
    ensures live { OnOk result (session.new.live ≡ true) }
    ensures alike { OnOk result (IsAlike session.old.plan target.now.channel session.new.plan) }
    ensures runs { OnOk result (session.new.count.runs ≤ session.old.count.runs + 1) }
    ensures clock { IfOk result (λ known. known.clock ≡ target.now.clock) }
    ensures known { IfOk result (λ known. AreKnown session.old.plan target.now.channel known) }
    ensures quiet { U.made runner.new ≡ U.made runner.old }
{
    session.core().agrees();
    let stands = session.plan().depths.as_slice()[target.channel as usize];
    if late_below <= 1 || late_below >= stands {
        return Ok(KnownDepths {
            clock: target.clock,
            late_below,
            timely_from: stands,
        });
    }
    let edit = Edit {
        channel: target.channel,
        depth: late_below,
    };
    if is_in_time(rt, alloc, session, &edit, target.clock, runner)? {
        return Ok(KnownDepths {
            clock: target.clock,
            late_below,
            timely_from: late_below,
        });
    }
    Ok(KnownDepths {
        clock: target.clock,
        late_below: late_below + 1,
        timely_from: stands,
    })
}

/// Whether the plan ends in time with another depth. It edits the plan only where what is known does not tell.
///
/// After `OutOfMemory` the plan has the depth of the edit.
fn is_timely<R: Threads + Wait + Sync, U: Runner>(
    rt: &R,
    alloc: Global,
    session: &mut DepthSession,
    edit: &Edit,
    known: &KnownDepths,
    runner: &mut U,
) -> Result<bool, OutOfMemory>
    requires live { session.old.live ≡ true }
    requires runs { session.old.count.runs < u64.MAX }
    requires fits { EditFits session.old.plan edit.now }
    requires late { edit.now.depth < known.now.late_below
        → is_in_time session.old.plan known.now.clock edit.now.channel edit.now.depth ≡ false }
    requires timely { known.now.timely_from ≤ edit.now.depth
        → is_in_time session.old.plan known.now.clock edit.now.channel edit.now.depth ≡ true }
    ensures live { OnOk result (session.new.live ≡ true) }
    ensures alike { OnOk result (IsAlike session.old.plan edit.now.channel session.new.plan) }
    ensures runs { OnOk result (session.new.count.runs ≤ session.old.count.runs + 1) }
    ensures in_time { IfOk result (λ timely. timely
        ≡ is_in_time session.old.plan known.now.clock edit.now.channel edit.now.depth) }
    ensures made { U.made runner.new ≤ U.made runner.old + 1 }
    ensures quiet { AsksNothing session.old.plan → U.made runner.new ≡ U.made runner.old }
{
    if known.timely_from <= edit.depth {
        return Ok(true);
    }
    if edit.depth < known.late_below {
        return Ok(false);
    }
    is_in_time(rt, alloc, session, edit, known.clock, runner)
}

/// Edits a depth, and returns whether the plan is done in this clock or earlier.
///
/// After `OutOfMemory` the plan has the depth of the edit.
fn is_in_time<R: Threads + Wait + Sync, U: Runner>(
    rt: &R,
    alloc: Global,
    session: &mut DepthSession,
    edit: &Edit,
    clock: u64,
    runner: &mut U,
) -> Result<bool, OutOfMemory>
    requires live { session.old.live ≡ true }
    requires runs { session.old.count.runs < u64.MAX }
    requires fits { EditFits session.old.plan edit.now }
    ensures live { OnOk result (session.new.live ≡ true) }
    ensures plan { OnOk result (session.new.plan ≡ with_depth session.old.plan edit.now.channel edit.now.depth) }
    ensures runs { OnOk result (session.new.count.runs ≤ session.old.count.runs + 1) }
    ensures in_time { IfOk result (λ in_time. in_time ≡ is_in_time session.old.plan clock edit.now.channel edit.now.depth) }
    ensures made { U.made runner.new ≤ U.made runner.old + 1 }
    ensures quiet { AsksNothing session.old.plan → U.made runner.new ≡ U.made runner.old }
{
    session.edit(rt, alloc, edit, runner)?;
    Ok(is_done_by(session.verdict(), clock))
}

/// Whether the verdict says that all modules have ended in this clock or earlier.
pub fn is_done_by(verdict: Verdict, clock: u64) -> bool
    ensures { result ≡ is_done_by clock verdict }
{
    match verdict {
        Verdict::Done(end) => end <= clock,
        Verdict::Deadlock(_) | Verdict::Cycles(_) | Verdict::Ops(_) => false,
    }
}
