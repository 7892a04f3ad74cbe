//! One move of a module.
ghost use Rattle.std.specs.Prelude.{◌≡◌, ◌+◌, ◌<◌, ◌≤◌, ◌*◌, ◌^◌, List as Items, length, OnOk};
ghost use Rattle.flow_design.specs.declared.limits.TheConstants.{LIVE_ITERATIONS, OPERATIONS};
ghost use Rattle.flow_design.specs.declared.design.Module.{Module as ModuleOf};
ghost use Rattle.module_code.specs.{Channel as ChannelOf, move, listed, counted, CanCommit, IsRunnable};

use crate::code::BlockCode;
use crate::commits::commit_all;
use crate::control::{go_on, tick_to};
use crate::noted::Notes;
use crate::replies::{Replies, ReplyList};
use flow_design::{Module, ModuleState, Reply};
use flow_word::OutOfMemory;
use std::alloc::Global;

/// Commits the due operations together, from their notes and on the replies, and counts them. It takes no memory.
#[inline(always)]
pub fn commit<R: Replies>(code: &BlockCode, state: &mut ModuleState, notes: &Notes, replies: &mut R)
    requires can { (channels : Items ChannelOf) × ((m : ModuleOf) × CanCommit channels m state.old code.now notes.now) }
    requires known { R.known replies.old }
    ensures committed { (channels : Items ChannelOf) (m : ModuleOf) → CanCommit channels m state.old code.now notes.now
        → state.new ≡ counted m state.old (R.left replies.old) }
    ensures control { state.new.control ≡ state.old.control }
    ensures count { state.new.count ≡ state.old.count + length (listed code.now notes.now) }
    ensures few { length (listed code.now notes.now) ≤ LIVE_ITERATIONS * OPERATIONS }
{
    let actions = &code.actions.as_slice()[notes.from..notes.to];
    commit_all(actions, notes.items.as_slice(), state, replies);
    state.count += notes.count;
}

/// Makes a move: one local clock on the replies. The due operations commit together, the local clock goes up by one, the loop
/// decides, and the block may end.
///
/// After `OutOfMemory` the state may be anything.
#[inline(always)]
pub fn make_move(
    alloc: Global,
    of: &Module,
    code: &BlockCode,
    state: &mut ModuleState,
    notes: &Notes,
    replies: &[Reply],
) -> Result<(), OutOfMemory>
    requires can { (channels : Items ChannelOf) × CanCommit channels of.now state.old code.now notes.now }
    requires small { state.old.control.clock < 2 ^ 60 }
    ensures moved { OnOk result (state.new ≡ move of.now state.old replies.now) }
    ensures runnable { OnOk result (IsRunnable of.now state.new) }
    ensures clock { OnOk result (state.new.control.clock ≤ state.old.control.clock + 1) }
    ensures count { OnOk result (state.new.count ≤ state.old.count + length (listed code.now notes.now) + 1) }
{
    commit(code, state, notes, &mut ReplyList::new(replies));
    let next = state.control.clock + 1;
    tick_to(of, state, next);
    go_on(alloc, of, state)?;
    Ok(())
}
