//! The local clocks in which a module asks nothing of the channels.
ghost use Rattle.std.specs.Prelude.{◌≡◌, ◌≢◌, ◌<◌, ◌≤◌, ◌^◌, ◌⊎◌, List as Items, [], true, false, length, All, IfOk, OnOk};
ghost use Rattle.module_interp.specs.{block_of, move, is_over, gone_on, IsNextDue, HasAsked, HasNoted, RequestsNothing, CanAnswer, IsPath};
ghost use Rattle.module_interp.specs.{Channel as ChannelOf, CanCommit, KeepsRest, clock_bound, clocks_to_end, replies_told, IsAtStep};
ghost use Rattle.module_interp.specs.{IsAtEnd};
ghost use Rattle.module_interp.specs.declared.path.Stage.TheVariants.{Begun, Asked, Ticked};

use crate::answers::{Answers, StepReplies};
use crate::path::{Path, Stage};
use flow_design::{Module, ModuleState};
use flow_word::OutOfMemory;
use module_code::{BlockCode, Notes, Replies, ReplyList, commit, go_on, is_over, note, tick_to};

impl Path {
    /// Runs to the next rest: the next local clock with a due FIFO operation, or the end of the run.
    ///
    /// After `OutOfMemory` the path still leads to the same rest.
    #[inline(always)]
    pub fn come_to_rest(&mut self) -> Result<(), OutOfMemory>
        requires path { IsPath self.old }
        requires answered { self.old.stage ≢ Asked }
        ensures kept { KeepsRest self.old self.new }
        ensures rest { OnOk result (IsAtStep self.new ⊎ IsAtEnd self.new) }
        ensures unasked { self.new.stage ≢ Asked }
    {
        let mut rests = false;
        while !rests {
            rests = self.go_a_way()?;
        }
        Ok(())
    }

    /// Does what is left of the move, and one part of the way to the rest. Returns whether the path is at the rest.
    #[inline(always)]
    fn go_a_way(&mut self) -> Result<bool, OutOfMemory>
        requires path { IsPath self.old }
        requires answered { self.old.stage ≢ Asked }
        ensures kept { KeepsRest self.old self.new }
        ensures unasked { self.new.stage ≢ Asked }
        ensures rest { IfOk result (λ rests. rests ≡ true → IsAtStep self.new ⊎ IsAtEnd self.new) }
        ensures nearer { IfOk result (λ rests. rests ≡ false → clocks_to_end self.new < clocks_to_end self.old) }
        ensures no_farther { IfOk result (λ rests. clocks_to_end self.new ≤ clocks_to_end self.old) }
    {
        self.settle()?;
        if is_over(self.limit, &self.state) {
            return Ok(true);
        }
        let rests = self.stands_still()?;
        Ok(rests)
    }

    /// Lets the loop decide and the block end, where the local clock has just gone up.
    #[inline(always)]
    fn settle(&mut self) -> Result<(), OutOfMemory>
        requires path { IsPath self.old }
        requires answered { self.old.stage ≢ Asked }
        ensures kept { KeepsRest self.old self.new }
        ensures unasked { self.new.stage ≢ Asked }
        ensures begun { OnOk result (self.new.stage ≡ Begun) }
        ensures same { clocks_to_end self.new ≡ clocks_to_end self.old }
    {
        match self.stage {
            Stage::Ticked => {
                go_on(self.alloc, &self.of, &mut self.state)?;
                self.stage = Stage::Begun;
                Ok(())
            }
            Stage::Begun | Stage::Asked => Ok(()),
        }
    }

    /// Whether a FIFO operation is due in this local clock. If not, the due operations commit and the local clock goes up, or it
    /// jumps to the next local clock with work.
    #[inline(always)]
    fn stands_still(&mut self) -> Result<bool, OutOfMemory>
        requires path { IsPath self.old }
        requires begun { self.old.stage ≡ Begun }
        requires alive { is_over self.old.limit self.old.state ≡ false }
        ensures kept { KeepsRest self.old self.new }
        ensures unasked { self.new.stage ≢ Asked }
        ensures rest { IfOk result (λ rests. rests ≡ true → IsAtStep self.new) }
        ensures nearer { IfOk result (λ rests. rests ≡ false → clocks_to_end self.new < clocks_to_end self.old) }
        ensures no_farther { IfOk result (λ rests. clocks_to_end self.new ≤ clocks_to_end self.old) }
    {
        self.ask()?;
        if self.asked.len() > 0 {
            return Ok(true);
        }
        self.move_on();
        Ok(false)
    }

    /// Goes on from a local clock in which no FIFO operation is due. It may jump where nothing is due, and else the due operations
    /// commit.
    #[inline(always)]
    fn move_on(&mut self)
        requires path { IsPath self.old }
        requires begun { self.old.stage ≡ Begun }
        requires alive { is_over self.old.limit self.old.state ≡ false }
        requires noted { HasNoted self.old }
        requires none { RequestsNothing self.old }
        ensures kept { KeepsRest self.old self.new }
        ensures unasked { self.new.stage ≢ Asked }
        ensures nearer { clocks_to_end self.new < clocks_to_end self.old }
    {
        if self.notes.count == 0 {
            let code = &self.codes.as_slice()[self.state.control.block as usize];
            let next = code.schedule.next_due(&self.state.control);
            if next > self.state.control.clock {
                self.jump(next);
                return;
            }
        }
        self.pass();
    }

    /// Jumps to a later local clock. Before that clock there is no work.
    #[inline(never)]
    fn jump(&mut self, clock: u64)
        requires path { IsPath self.old }
        requires begun { self.old.stage ≡ Begun }
        requires alive { is_over self.old.limit self.old.state ≡ false }
        requires next { IsNextDue (block_of self.old.of self.old.state) self.old.state.control clock }
        requires later { self.old.state.control.clock < clock }
        ensures kept { KeepsRest self.old self.new }
        ensures ticked { self.new.stage ≡ Ticked }
        ensures nearer { clocks_to_end self.new < clocks_to_end self.old }
    {
        self.since += clock - self.state.control.clock;
        tick_to(&self.of, &mut self.state, clock);
        self.stage = Stage::Ticked;
    }

    /// Notes the due operations and their requests.
    #[inline(always)]
    fn ask(&mut self) -> Result<(), OutOfMemory>
        requires path { IsPath self.old }
        requires begun { self.old.stage ≡ Begun }
        requires alive { is_over self.old.limit self.old.state ≡ false }
        ensures frame { self.new
            ≡ record self.old { notes = self.new.notes; asked = self.new.asked; scratch = self.new.scratch } }
        ensures noted { OnOk result (HasNoted self.new) }
        ensures asked { OnOk result (HasAsked self.new) }
    {
        let code = &self.codes.as_slice()[self.state.control.block as usize];
        note(
            &self.of,
            code,
            &self.state,
            &mut self.scratch,
            &mut self.notes,
            &mut self.asked,
        )?;
        Ok(())
    }

    /// Commits the due operations of a local clock in which no FIFO operation is due.
    #[inline(always)]
    fn pass(&mut self)
        requires path { IsPath self.old }
        requires begun { self.old.stage ≡ Begun }
        requires alive { is_over self.old.limit self.old.state ≡ false }
        requires noted { HasNoted self.old }
        requires none { RequestsNothing self.old }
        ensures kept { KeepsRest self.old self.new }
        ensures unasked { self.new.stage ≢ Asked }
        ensures nearer { clocks_to_end self.new < clocks_to_end self.old }
    {
        self.commit_due(&mut ReplyList::new(&[]));
        self.since += 1;
    }

    /// Commits the due operations on these replies, and lets the local clock go up. It takes no memory.
    #[inline(always)]
    fn commit_due<R: Replies>(&mut self, replies: &mut R)
        requires path { IsPath self.old }
        requires answer { CanAnswer self.old }
        requires known { R.known replies.old }
        ensures frame { self.new ≡ record self.old { state = self.new.state; stage = Ticked } }
        ensures moved { gone_on self.new.of self.new.state ≡ move self.old.of self.old.state (R.left replies.old) }
        ensures block { self.new.state.control.block ≡ self.old.state.control.block }
        ensures started { self.new.state.control.newest ≤ self.new.state.control.clock }
    {
        let code = &self.codes.as_slice()[self.state.control.block as usize];
        commit_on(&self.of, code, &mut self.state, &self.notes, replies);
        self.stage = Stage::Ticked;
    }

    /// Commits the due operations on the replies to the accesses that were asked, and lets the local clock go up. It takes no memory.
    #[inline(always)]
    pub fn commit_asked<A: Answers>(&mut self, answers: &A)
        requires path { IsPath self.old }
        requires answer { CanAnswer self.old }
        requires knows { All (A.knows answers.now) self.old.asked }
        requires few { length self.old.asked < 2 ^ 40 }
        ensures frame { self.new ≡ record self.old { state = self.new.state; stage = Ticked } }
        ensures moved { gone_on self.new.of self.new.state
            ≡ move self.old.of self.old.state (replies_told (A.reply answers.now) 0 0 self.old.asked) }
        ensures block { self.new.state.control.block ≡ self.old.state.control.block }
        ensures started { self.new.state.control.newest ≤ self.new.state.control.clock }
    {
        let code = &self.codes.as_slice()[self.state.control.block as usize];
        let mut replies = StepReplies::new(answers, self.asked.as_slice());
        commit_on(&self.of, code, &mut self.state, &self.notes, &mut replies);
        self.stage = Stage::Ticked;
    }
}

/// Commits the due operations of a module on these replies, and lets the local clock go up. It takes no memory.
#[inline(always)]
fn commit_on<R: Replies>(
    of: &Module,
    code: &BlockCode,
    state: &mut ModuleState,
    notes: &Notes,
    replies: &mut R,
)
    requires can { (channels : Items ChannelOf) × CanCommit channels of.now state.old code.now notes.now }
    requires clock { state.old.control.clock ≤ clock_bound }
    requires known { R.known replies.old }
    ensures moved { gone_on of.now state.new ≡ move of.now state.old (R.left replies.old) }
    ensures block { state.new.control.block ≡ state.old.control.block }
    ensures started { state.new.control.newest ≤ state.new.control.clock }
{
    commit(code, state, notes, replies);
    let next = state.control.clock + 1;
    tick_to(of, state, next);
}
