//! The writes of the due operations.
ghost use Rattle.std.specs.Prelude.{◌≡◌, ℕ, ◌≤◌, List as Items, fold, filter_map, length, drop, if◌then◌else◌, slice_index_or, All};
ghost use Rattle.std.specs.List.{cons_option, zip};
ghost use Rattle.module_code.specs.{Block as BlockOf, Channel as ChannelOf, stored, Noted as NotedOf, IsGuardedOf, effects_by, noted_by};
ghost use Rattle.module_code.specs.{carried_out, takes_reply};
ghost use Rattle.flow_design.specs.declared.design.Module.{Module as ModuleOf};

use crate::action::OpCode;
use crate::code::Guarded;
use crate::noted::{Note, Noted};
use crate::replies::Replies;
use crate::running::carry_out;
use flow_design::{ModuleState, Reply};

/// Writes what the due ones of these operations write, from their notes and replies, in commit order: the last write to a place
/// wins. Each FIFO operation takes the next reply.
#[inline(always)]
pub(crate) fn commit_all<R: Replies>(
    actions: &[Guarded],
    items: &[Note],
    state: &mut ModuleState,
    replies: &mut R,
)
    requires places { length actions.now ≤ length items.now }
    requires known { R.known replies.old }
    ensures { (channels : Items ChannelOf) (m : ModuleOf) (b : BlockOf) (room : ℕ) → All (IsGuardedOf channels m b room) actions.now
        → state.new ≡ fold (stored m b) state.old (effects_by b (filter_map noted_by (zip actions.now items.now)) (R.left replies.old)) }
{
    for (at, guarded) in actions.iter().enumerate() {
        carry_out_next(guarded, &items[at], state, replies);
    }
}

/// Carries out an operation if it is due, from its note, and on the next reply if it takes one.
#[inline(always)]
fn carry_out_next<R: Replies>(
    guarded: &Guarded,
    note: &Note,
    state: &mut ModuleState,
    replies: &mut R,
)
    requires { R.known replies.old }
    ensures known { R.known replies.new }
    ensures state { (channels : Items ChannelOf) (m : ModuleOf) (b : BlockOf) (room : ℕ) → IsGuardedOf channels m b room guarded.now
        → (rest : Items NotedOf) → fold (stored m b) state.new (effects_by b rest (R.left replies.new))
        ≡ fold (stored m b) state.old (effects_by b (cons_option (noted_by (guarded.now, note.now)) rest) (R.left replies.old)) }
{
    if !note.passes {
        return;
    }
    let noted = Noted {
        op: guarded.slot.op,
        iteration: note.iteration,
        value: note.value,
        address: note.address,
    };
    carry_out_due(&guarded.action, &noted, state, replies);
}

/// Carries out an action from its note, and on the next reply if it takes one. A `write` changes nothing whatever its reply is.
#[tactic(auto, using(crate::proofs::Writing::no_reply))]
#[inline(always)]
fn carry_out_due<R: Replies>(
    action: &OpCode,
    noted: &Noted,
    state: &mut ModuleState,
    replies: &mut R,
)
    requires { R.known replies.old }
    ensures known { R.known replies.new }
    ensures state { state.new ≡ carried_out state.old noted.now (slice_index_or (R.left replies.old) 0 Reply.Done) action.now }
    ensures left { R.left replies.new ≡ (if takes_reply action.now then drop 1 (R.left replies.old) else R.left replies.old) }
{
    if !action.takes_reply() {
        carry_out(action, noted, Reply::Done, state);
    } else if let OpCode::Write(_, _, _) = action {
        replies.skip();
    } else {
        let reply = replies.next();
        carry_out(action, noted, reply, state);
    }
}
