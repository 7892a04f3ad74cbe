//! The run of a module.
ghost use Rattle.std.specs.Prelude.{◌≡◌, ℕ, ◌<◌, ◌^◌, true, false, if◌then◌else◌, [], length, All, IsFalse, ◌≤◌, ◌↔◌, ◌⊎◌, IfOk, OnErr};
ghost use Rattle.std.specs.Prelude.{OnOk};
ghost use Rattle.flow_word.specs.declared.access.Side.TheVariants.{Pop};
ghost use Rattle.module_interp.specs.{Plan as PlanOf, moved_by, queries, Own, is_over as over_by, done_in, first_rest, next_rest};
ghost use Rattle.module_interp.specs.{accesses_at, mark_at, all_fit, replies_told, IsAtStep, IsAtEnd, waits, is_step, listed_step};
ghost use Rattle.module_interp.specs.{inlets_of, few_accesses, popped_in, IsFew, IsSoundMark, StandsAt};

use crate::answers::{Answers, StepReplies};
use crate::making::{first_path, go_to_start};
use crate::own_channels::OwnChannels;
use crate::path::{Path, Stage};
use crate::tally::Tally;
use flow_design::{Advance, CheckedPlan};
use flow_word::{Access, Accesses, OutOfMemory, Step};
use module_code::is_over;
use std::alloc::Global;

/// One more than the greatest number of 32 bits.
const MOST: u64 = 0x1_0000_0000;

/// The most accesses of a step that is told in place.
const FEW_ACCESSES: u64 = 8;

/// A module's own run, ahead of time: from one local clock with a due FIFO operation to the next, on the replies that it is fed.
///
/// Contracts see the rest at which the run stands, its next step or its end, and whether that step waits for replies. They do not
/// see how much of the way to the rest is done.
pub struct ModuleRun {
    /// The path of the run. It is on the heap, since a run is moved out of its core and back at each turn.
    path: Box<Path>,
    tally: Tally,
}

impl Drop for ModuleRun {
    fn drop(self) {
        let ModuleRun {
            path: _path,
            tally: _tally,
        } = self;
    }
}

impl ModuleRun {
    /// The run of a module of a plan, at the module's first rest. It owns a copy of the module. `OutOfMemory` where memory ran out.
    pub fn new(alloc: Global, plan: &CheckedPlan, number: u32) -> Result<ModuleRun, OutOfMemory>
        requires { number < length plan.now.design.modules }
        ensures stands { IfOk result (λ run. StandsAt plan.now number (first_rest plan.now number) run) }
        ensures waits { IfOk result (λ run. waits run ≡ false) }
    {
        let first = first_path(alloc, plan, number)?;
        let tally = Tally::new(alloc, &first.of)?;
        let path = Box::new(alloc, first)?;
        Ok(ModuleRun { path, tally })
    }

    /// Puts a module's run back to its first rest. Its blocks are not compiled again.
    ///
    /// After `OutOfMemory` the run is lost.
    pub fn again(self, alloc: Global) -> Result<ModuleRun, OutOfMemory>
        requires stands { (p : PlanOf) × ((i : ℕ) × ((o : Own) × StandsAt p i o self)) }
        ensures stands { IfOk result (λ run. (p : PlanOf) (i : ℕ) (o : Own) → StandsAt p i o self
            → StandsAt p i (first_rest p i) run) }
        ensures waits { IfOk result (λ run. waits run ≡ false) }
    {
        let ModuleRun {
            mut path,
            mut tally,
        } = self;
        go_to_start(alloc, path.as_mut())?;
        tally.clear();
        Ok(ModuleRun { path, tally })
    }

    /// Whether a step was given whose replies are not there yet.
    pub fn is_waiting(&self) -> bool
        ensures { result ≡ waits self.now }
    {
        match self.path.stage {
            Stage::Asked => true,
            Stage::Begun | Stage::Ticked => false,
        }
    }

    /// The accesses of the step that waits for replies, in commit order. The slice is empty exactly where no step waits.
    pub fn waiting(&self) -> &[Access]
        ensures accesses { (p : PlanOf) (i : ℕ) (o : Own) → StandsAt p i o self.now
            → result.now ≡ (if waits self.now then accesses_at p i o else []) }
        ensures none { (p : PlanOf) (i : ℕ) (o : Own) → StandsAt p i o self.now → (result.now ≡ []) ↔ IsFalse (waits self.now) }
    {
        match self.path.stage {
            Stage::Asked => self.path.asked.as_slice(),
            Stage::Begun | Stage::Ticked => &[],
        }
    }

    /// The channels that the module of the run pops, in order.
    pub fn inlets(&self) -> &OwnChannels
        ensures { result.now ≡ inlets_of self.now }
    {
        &self.tally.popped.channels
    }

    /// How many elements of a channel the run has popped, in the steps that have their replies.
    pub fn popped(&self, channel: u32) -> u64
        ensures made { (p : PlanOf) (i : ℕ) (o : Own) → StandsAt p i o self.now → result ≡ length (moved_by Pop channel (done_in o.steps)) }
        ensures counted { result ≡ popped_in self.now channel }
    {
        self.tally.popped.of(channel)
    }

    /// How many queries the run has made, in the steps that have their replies.
    pub fn queries(&self) -> u64
        ensures made { (p : PlanOf) (i : ℕ) (o : Own) → StandsAt p i o self.now → result ≡ length (queries (done_in o.steps)) }
        ensures listed { result ≡ (listed_step self.now).first_query }
    {
        self.tally.queries
    }

    /// How many local clocks the step that waits is after the step before it, or after local clock 0.
    #[inline(always)]
    pub fn gap(&self) -> u64
        ensures { result ≡ (listed_step self.now).gap }
    {
        self.path.since
    }

    /// The accesses of the step that was listed last, until the run goes on.
    #[inline(always)]
    pub fn listed(&self) -> &[Access]
        ensures { result.now ≡ (listed_step self.now).accesses }
    {
        self.path.asked.as_slice()
    }

    /// The operation count of the module so far.
    pub fn operations(&self) -> u64 {
        self.path.state.count
    }

    /// Runs to the next rest, and gives its mark. A step then waits for replies. The end of the run is given again by each later
    /// call.
    ///
    /// A step has at most `LIVE_ITERATIONS * OPERATIONS` accesses. The gap of a mark is less than 10^18 local clocks, and at least
    /// 1 after a step.
    ///
    /// After `OutOfMemory` the run is as it was.
    pub fn advance(&mut self) -> Result<Advance, OutOfMemory>
        requires stands { (p : PlanOf) × ((i : ℕ) × ((o : Own) × StandsAt p i o self.old)) }
        requires answered { waits self.old ≡ false }
        ensures stands { (p : PlanOf) (i : ℕ) (o : Own) → StandsAt p i o self.old → StandsAt p i o self.new }
        ensures mark { IfOk result (λ mark. (p : PlanOf) (i : ℕ) (o : Own) → StandsAt p i o self.old → mark ≡ mark_at p i o) }
        ensures waits { IfOk result (λ mark. waits self.new ≡ is_step mark) }
        ensures sound { IfOk result (λ mark. (p : PlanOf) (i : ℕ) (o : Own) → StandsAt p i o self.old → IsSoundMark (length o.steps) mark) }
        ensures as_before { OnErr result (waits self.new ≡ false) }
    {
        self.come()?;
        let mark = self.give()?;
        Ok(mark)
    }

    /// Runs to the next rest, and gives no mark. The answer is whether the rest is a step of one access to eight whose numbers fit 32
    /// bits: that step then waits for replies, and `gap`, `listed` and `queries` tell it. Any other mark is still to be given, by
    /// `give`. `OutOfMemory` where memory ran out.
    #[inline(always)]
    pub fn advance_few(&mut self) -> Result<bool, OutOfMemory>
        requires stands { (p : PlanOf) × ((i : ℕ) × ((o : Own) × StandsAt p i o self.old)) }
        requires answered { waits self.old ≡ false }
        ensures stands { (p : PlanOf) (i : ℕ) (o : Own) → StandsAt p i o self.old → StandsAt p i o self.new }
        ensures waits { IfOk result (λ few. waits self.new ≡ few) }
        ensures few { IfOk result (λ few. few ≡ true → IsFew (listed_step self.new)) }
        ensures mark { IfOk result (λ few. few ≡ true → (p : PlanOf) (i : ℕ) (o : Own) → StandsAt p i o self.old
            → Advance.Step (listed_step self.new) ≡ mark_at p i o) }
        ensures sound { IfOk result (λ few. few ≡ true → (p : PlanOf) (i : ℕ) (o : Own) → StandsAt p i o self.old
            → IsSoundMark (length o.steps) (Advance.Step (listed_step self.new))) }
        ensures rests { IfOk result (λ few. few ≡ false → IsAtStep self.new.path.value ⊎ IsAtEnd self.new.path.value) }
        ensures as_before { OnErr result (waits self.new ≡ false) }
    {
        self.come()?;
        if self.rests_at_few() {
            self.list();
            return Ok(true);
        }
        Ok(false)
    }

    /// Runs to the next rest, a local clock with a due FIFO operation or the end of the run, and gives nothing yet.
    #[inline(always)]
    pub(crate) fn come(&mut self) -> Result<(), OutOfMemory>
        requires stands { (p : PlanOf) × ((i : ℕ) × ((o : Own) × StandsAt p i o self.old)) }
        requires answered { waits self.old ≡ false }
        ensures stands { (p : PlanOf) (i : ℕ) (o : Own) → StandsAt p i o self.old → StandsAt p i o self.new }
        ensures answered { waits self.new ≡ false }
        ensures rests { OnOk result (IsAtStep self.new.path.value ⊎ IsAtEnd self.new.path.value) }
    {
        self.path.as_mut().come_to_rest()?;
        Ok(())
    }

    /// Whether the rest is a step of at most eight accesses whose gap fits 32 bits. The other numbers of a step always fit, by the
    /// operation limit.
    #[inline(always)]
    pub(crate) fn rests_at_few(&self) -> bool
        ensures alive { result ≡ true → over_by self.now.path.value.limit self.now.path.value.state ≡ false }
        ensures most { result ≡ true → length self.now.path.value.asked ≤ few_accesses }
        ensures gap { result ≡ true → self.now.path.value.since < 2 ^ 32 }
    {
        !is_over(self.path.limit, &self.path.state)
            && self.path.asked.len() <= FEW_ACCESSES
            && self.path.since < MOST
    }

    /// How many accesses the step has at which the run rests.
    #[inline(always)]
    pub(crate) fn asked(&self) -> usize
        ensures { result ≡ length self.now.path.value.asked }
    {
        self.path.asked.as_slice().len()
    }

    /// Gives the mark of the rest at which the run stands: a step, which then waits for replies, or the end. `OutOfMemory` where memory
    /// ran out.
    #[inline(never)]
    pub fn give(&mut self) -> Result<Advance, OutOfMemory>
        requires stands { (p : PlanOf) × ((i : ℕ) × ((o : Own) × StandsAt p i o self.old)) }
        requires rests { IsAtStep self.old.path.value ⊎ IsAtEnd self.old.path.value }
        ensures stands { (p : PlanOf) (i : ℕ) (o : Own) → StandsAt p i o self.old → StandsAt p i o self.new }
        ensures mark { IfOk result (λ mark. (p : PlanOf) (i : ℕ) (o : Own) → StandsAt p i o self.old → mark ≡ mark_at p i o) }
        ensures waits { IfOk result (λ mark. waits self.new ≡ is_step mark) }
        ensures sound { IfOk result (λ mark. (p : PlanOf) (i : ℕ) (o : Own) → StandsAt p i o self.old
            → IsSoundMark (length o.steps) mark) }
        ensures as_before { OnErr result (waits self.new ≡ false) }
    {
        let path = self.path.as_mut();
        if path.state.ended {
            return Ok(Advance::Ended(path.since));
        }
        if is_over(path.limit, &path.state) {
            return Ok(Advance::Spent(path.since));
        }
        self.tally.number_all(&mut path.asked);
        let accesses = accesses_of(path.alloc, path.asked.as_slice())?;
        path.stage = Stage::Asked;
        Ok(Advance::Step(Step {
            gap: path.since,
            accesses,
            first_query: self.tally.queries,
        }))
    }

    /// Lists the accesses of the step at which the run rests: gives each its ordinal. The step then waits for replies.
    #[inline(always)]
    pub(crate) fn list(&mut self)
        requires stands { (p : PlanOf) × ((i : ℕ) × ((o : Own) × StandsAt p i o self.old)) }
        requires step { IsAtStep self.old.path.value }
        ensures stands { (p : PlanOf) (i : ℕ) (o : Own) → StandsAt p i o self.old → StandsAt p i o self.new }
        ensures mark { (p : PlanOf) (i : ℕ) (o : Own) → StandsAt p i o self.old → Advance.Step (listed_step self.new) ≡ mark_at p i o }
        ensures waits { waits self.new ≡ true }
        ensures sound { (p : PlanOf) (i : ℕ) (o : Own) → StandsAt p i o self.old
            → IsSoundMark (length o.steps) (Advance.Step (listed_step self.new)) }
        ensures count { length (listed_step self.new).accesses ≡ length self.old.path.value.asked }
        ensures gap { self.new.path.value.since ≡ self.old.path.value.since }
    {
        let path = self.path.as_mut();
        self.tally.number_all(&mut path.asked);
        path.stage = Stage::Asked;
    }

    /// Commits the step that waits, on the replies to its accesses. It takes no memory: the loop's decision and the block's end are
    /// left to the next call that runs on.
    pub fn feed<A: Answers>(&mut self, answers: &A)
        requires stands { (p : PlanOf) × ((i : ℕ) × ((o : Own) × (StandsAt p i o self.old
            × (all_fit (accesses_at p i o) (replies_told (A.reply answers.now) 0 0 (accesses_at p i o)) ≡ true)))) }
        requires knows { All (A.knows answers.now) (listed_step self.old).accesses }
        requires waits { waits self.old ≡ true }
        ensures stands { (p : PlanOf) (i : ℕ) (o : Own) → StandsAt p i o self.old
            → StandsAt p i (next_rest p i o (replies_told (A.reply answers.now) 0 0 (accesses_at p i o))) self.new }
        ensures fed { waits self.new ≡ false }
        ensures listed { (listed_step self.new).accesses ≡ (listed_step self.old).accesses }
    {
        let path = self.path.as_mut();
        let accesses = path.asked.as_slice();
        self.tally
            .count_step(accesses, &mut StepReplies::new(answers, accesses));
        path.commit_asked(answers);
        path.since = 1;
    }
}

/// A copy of these accesses, as those of a step. `OutOfMemory` where memory ran out.
#[inline(always)]
fn accesses_of(alloc: Global, accesses: &[Access]) -> Result<Accesses, OutOfMemory>
    ensures { IfOk result (λ copy. copy ≡ accesses.now) }
{
    let mut copy = Accesses::new(alloc);
    for access in accesses {
        copy.push(*access)?;
    }
    Ok(copy)
}
