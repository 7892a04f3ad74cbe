//! The marks of a burst.
ghost use Rattle.std.specs.Prelude.{◌≡◌, ℕ, ◌+◌, ◌^◌, ◌<◌, ◌≤◌, ◌⊎◌, [], true, false, length, IfOk, OnErr, OnOk};
ghost use Rattle.module_interp.specs.{Plan as PlanOf, Own, IsAtStep, IsAtEnd, IsEmitted, StandsAt, few_accesses, is_step as is_step_of};
ghost use Rattle.module_interp.specs.{AreInParts, marks_of, waits};

use crate::run::ModuleRun;
use flow_design::Advance;
use flow_word::{Access, OutOfMemory};
use smallvec::SmallVec;
use std::alloc::Global;
use std::marker::Model;

/// What is kept of a mark beside the accesses of steps.
#[derive(Clone, Copy, Debug, Default, PartialEq)]
pub enum MarkHead {
    /// A step of one access to eight, whose numbers fit 32 bits. Its accesses are the next ones.
    Few {
        /// How many local clocks the step is after the one before it.
        gap: u64,
        /// How many queries the module made before the step.
        first_query: u64,
        /// How many accesses the step has.
        count: u64,
    },
    /// The next of the marks that are kept whole.
    #[default]
    Whole,
}

/// The marks that a run gave in a burst, in order.
///
/// The accesses of all steps of one access to eight lie in one list. A burst of one such step, with at most two accesses, takes no
/// memory beside its own.
#[derive(Drop)]
pub struct Marks {
    heads: SmallVec<MarkHead, 1>,
    accesses: SmallVec<Access, 2>,
    others: Vec<Advance>,
}

impl Model for Marks {
    ghost use Rattle.std.specs.Prelude.{List};
    ghost use Rattle.flow_design.specs.{Advance as AdvanceOf};
    ghost use Rattle.module_interp.specs.Marks.{AreParts, marks_in};

    ghost Value = { List AdvanceOf };

    ghost view = { λ m. marks_in m.heads.items m.accesses.items m.others.items };

    ghost invariant = { λ m. AreParts m.heads.items m.accesses.items m.others.items };
}

/// A list of marks in its parts.
#[derive(Drop)]
pub struct MarkParts {
    pub heads: SmallVec<MarkHead, 1>,
    /// The accesses of the steps of one access to eight, step by step.
    pub accesses: SmallVec<Access, 2>,
    /// The marks that are kept whole: any other steps, and the end of the run.
    pub others: Vec<Advance>,
}

impl Marks {
    /// A list without marks. It takes no memory.
    pub fn new(alloc: Global) -> Marks
        ensures { result ≡ [] }
    {
        Marks {
            heads: SmallVec::new(alloc),
            accesses: SmallVec::new(alloc),
            others: Vec::new(alloc),
        }
    }

    /// How many marks there are.
    pub fn len(&self) -> u64
        ensures { result ≡ length self.now }
    {
        self.heads.len() as u64
    }

    /// The parts of the list.
    pub fn into_parts(self) -> MarkParts
        ensures marks { marks_of result ≡ self }
        ensures parts { AreInParts result }
    {
        let Marks {
            heads,
            accesses,
            others,
        } = self;
        MarkParts {
            heads,
            accesses,
            others,
        }
    }

    /// Lets a run go on to its next rest, and adds its mark. The answer is whether the mark is a step, which then waits for replies.
    /// Memory is asked for before the mark is given, so that no mark is lost: after `OutOfMemory` the marks are as they were.
    #[inline(always)]
    pub fn add_next(&mut self, run: &mut ModuleRun) -> Result<bool, OutOfMemory>
        requires stands { (p : PlanOf) × ((i : ℕ) × ((o : Own) × StandsAt p i o run.old)) }
        requires answered { waits run.old ≡ false }
        ensures stands { (p : PlanOf) (i : ℕ) (o : Own) → StandsAt p i o run.old → StandsAt p i o run.new }
        ensures emitted { IfOk result (λ step. IsEmitted run.old run.new self.old self.new step) }
        ensures err { OnErr result (self.new ≡ self.old) }
        ensures goes { OnErr result (waits run.new ≡ false) }
    {
        run.come()?;
        if run.rests_at_few() {
            self.add_few(run)?;
            return Ok(true);
        }
        self.add_whole(run)
    }

    /// Adds the step of one access to eight at which a run rests.
    #[inline(always)]
    fn add_few(&mut self, run: &mut ModuleRun) -> Result<(), OutOfMemory>
        requires stands { (p : PlanOf) × ((i : ℕ) × ((o : Own) × StandsAt p i o run.old)) }
        requires step { IsAtStep run.old.path.value }
        requires most { length run.old.path.value.asked ≤ few_accesses }
        requires gap { run.old.path.value.since < 2 ^ 32 }
        ensures stands { (p : PlanOf) (i : ℕ) (o : Own) → StandsAt p i o run.old → StandsAt p i o run.new }
        ensures emitted { OnOk result (IsEmitted run.old run.new self.old self.new true) }
        ensures err { OnErr result (self.new ≡ self.old) }
        ensures goes { OnErr result (waits run.new ≡ false) }
    {
        self.heads.reserve(1)?;
        self.accesses.reserve(run.asked())?;
        run.list();
        let accesses = run.listed();
        self.heads.push_reserved(MarkHead::Few {
            gap: run.gap(),
            first_query: run.queries(),
            count: accesses.len() as u64,
        });
        // There is room for the accesses.
        let _ = self.accesses.extend_from_slice(accesses);
        Ok(())
    }

    /// Adds the mark of the rest at which a run is: a step of any length, or the end.
    #[inline(never)]
    fn add_whole(&mut self, run: &mut ModuleRun) -> Result<bool, OutOfMemory>
        requires stands { (p : PlanOf) × ((i : ℕ) × ((o : Own) × StandsAt p i o run.old)) }
        requires answered { waits run.old ≡ false }
        requires rests { IsAtStep run.old.path.value ⊎ IsAtEnd run.old.path.value }
        ensures stands { (p : PlanOf) (i : ℕ) (o : Own) → StandsAt p i o run.old → StandsAt p i o run.new }
        ensures emitted { IfOk result (λ step. IsEmitted run.old run.new self.old self.new step) }
        ensures err { OnErr result (self.new ≡ self.old) }
        ensures goes { OnErr result (waits run.new ≡ false) }
    {
        self.heads.reserve(1)?;
        self.others.reserve(1)?;
        let mark = run.give()?;
        let step = is_step(&mark);
        self.heads.push_reserved(MarkHead::Whole);
        self.others.push_reserved(mark);
        Ok(step)
    }
}

/// Whether a mark is a step.
fn is_step(mark: &Advance) -> bool
    ensures { result ≡ is_step_of mark.now }
{
    match mark {
        Advance::Step(_) => true,
        Advance::Ended(_) | Advance::Spent(_) => false,
    }
}
