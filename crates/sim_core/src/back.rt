//! Emitting the marks of a run.
ghost use Rattle.std.specs.Prelude.{◌≡◌, ℕ, ◌+◌, ◌<◌, ◌≤◌, ◌⊎◌, ◌∷◌, List as Items, Some, length, drop, slice_index, slice_get, slice_set};
ghost use Rattle.sim_core.specs.{Side as SideOf, MarkHead as HeadOf, AreInParts, AreParts, marks_in, marks_of, IsAtStep, IsAtEnd, room_of};
ghost use Rattle.sim_core.specs.{Task as TaskOf, ForSomeCore, ForEachCore, taken_at, CanEmitNext, IsFewMark, next_mark, IsNextMark};
ghost use Rattle.sim_core.specs.{HasDoneRun, HasEmittedNext, AreReturned, HasReturned};

use engine_view::Engine;
use event_graph::{NewStep, StepView};
use flow_design::Advance;
use flow_word::{Access, OutOfMemory};
use module_interp::{MarkHead, MarkParts, ModuleRun};

/// A mark that is to be emitted.
pub(crate) enum NextMark<'a> {
    /// A step of one access to eight, whose numbers fit 32 bits.
    Few(StepView<'a>),
    /// Any mark.
    Whole(Advance),
}

/// Emits a module's next mark. There must be room for it.
#[inline(always)]
pub(crate) fn record_mark(engine: &mut Engine, owner: u32, mark: NextMark<'_>)
    requires owner { owner < length engine.old.graph.lanes }
    requires few { IsFewMark mark }
    requires next { ForSomeCore (λ p runs. IsNextMark p engine.old runs owner (next_mark mark)) }
    ensures emits { ForEachCore (λ p runs. IsNextMark p engine.old runs owner (next_mark mark.entry))
        (λ p runs. HasDoneRun p engine.old engine.new runs owner) }
    ensures log { engine.new.log ≡ engine.old.log }
    ensures credit { slice_index engine.old.credits.items owner ≤ slice_index engine.new.credits.items owner + 2 }
    ensures places { slice_index engine.old.graph.rooms owner ≤ slice_index engine.new.graph.rooms owner + 1 }
    ensures ports { (side : SideOf) (c : ℕ) → room_of engine.old.fifos side c
        ≤ room_of engine.new.fifos side c + taken_at side c (next_mark mark.entry) }
    ensures lanes { length engine.new.graph.lanes ≡ length engine.old.graph.lanes }
{
    match mark {
        NextMark::Few(step) => engine.emit_step(owner, NewStep::Few(step)),
        NextMark::Whole(mark) => record_whole(engine, owner, mark),
    }
}

/// Emits a module's next mark, which is kept whole. There must be room for it.
#[inline(never)]
fn record_whole(engine: &mut Engine, owner: u32, mark: Advance)
    requires owner { owner < length engine.old.graph.lanes }
    requires next { ForSomeCore (λ p runs. IsNextMark p engine.old runs owner mark) }
    ensures emits { ForEachCore (λ p runs. IsNextMark p engine.old runs owner mark)
        (λ p runs. HasDoneRun p engine.old engine.new runs owner) }
    ensures log { engine.new.log ≡ engine.old.log }
    ensures credit { slice_index engine.old.credits.items owner ≤ slice_index engine.new.credits.items owner + 2 }
    ensures places { slice_index engine.old.graph.rooms owner ≤ slice_index engine.new.graph.rooms owner + 1 }
    ensures ports { (side : SideOf) (c : ℕ) → room_of engine.old.fifos side c ≤ room_of engine.new.fifos side c + taken_at side c mark }
    ensures lanes { length engine.new.graph.lanes ≡ length engine.old.graph.lanes }
{
    match mark {
        Advance::Step(step) => engine.emit_step(owner, NewStep::Whole(step)),
        end => engine.emit_end(owner, end),
    }
}

/// Brings a module's run, which waits for no replies, to its next mark, and emits the mark. There must be room for it.
///
/// After `OutOfMemory` the run stands where it stood, and nothing else has changed.
#[inline(always)]
pub(crate) fn emit_mark(
    engine: &mut Engine,
    owner: u32,
    run: &mut ModuleRun,
) -> Result<(), OutOfMemory>
    requires { CanEmitNext engine.old owner run.old }
    ensures { HasEmittedNext engine.old engine.new owner run.old run.new result }
{
    if run.advance_few()? {
        let step = StepView {
            gap: run.gap(),
            accesses: run.listed(),
            first_query: run.queries(),
        };
        record_mark(engine, owner, NextMark::Few(step));
        return Ok(());
    }
    emit_given(engine, owner, run)
}

/// Emits the mark at which a module's run stands: its end, or a step that `advance_few` does not list. There must be room for it.
///
/// After `OutOfMemory` the run stands where it stood, and nothing else has changed.
#[inline(never)]
fn emit_given(engine: &mut Engine, owner: u32, run: &mut ModuleRun) -> Result<(), OutOfMemory>
    requires ready { CanEmitNext engine.old owner run.old }
    requires rests { IsAtStep run.old.path.value ⊎ IsAtEnd run.old.path.value }
    ensures { HasEmittedNext engine.old engine.new owner run.old run.new result }
{
    let mark = run.give()?;
    record_mark(engine, owner, NextMark::Whole(mark));
    Ok(())
}

/// Emits a module's next marks, in order. There must be room for them.
pub(crate) fn record_all(engine: &mut Engine, owner: u32, marks: MarkParts)
    requires owner { owner < length engine.old.graph.lanes }
    requires parts { AreInParts marks }
    requires returned { (last : TaskOf) × ForSomeCore (λ p runs. AreReturned p engine.old runs owner (marks_of marks) last) }
    ensures returned { (last : TaskOf) → ForEachCore (λ p runs. AreReturned p engine.old runs owner (marks_of marks) last)
        (λ p runs. HasReturned p engine.old engine.new runs owner (length (marks_of marks)) last) }
    ensures lanes { length engine.new.graph.lanes ≡ length engine.old.graph.lanes }
{
    let MarkParts {
        heads,
        accesses,
        mut others,
    } = marks;
    let mut accesses = accesses.as_slice();
    let mut taken = 0;
    for head in heads.as_slice() {
        let mark = take_mark(head, &mut accesses, &mut others, &mut taken);
        record_mark(engine, owner, mark);
    }
}

/// Takes the mark with this number out of the list, and leaves another in its place.
fn take_whole(marks: &mut Vec<Advance>, at: usize) -> Advance
    requires { at < length marks.old.items }
    ensures mark { slice_get marks.old.items at ≡ Some result }
    ensures marks { marks.new.items ≡ slice_set marks.old.items at (Advance.Ended 0) }
{
    std::mem::replace(&mut marks.as_mut_slice()[at], Advance::Ended(0))
}

/// The mark of this head: a step with the accesses that come next, or the next of the other marks, of which so many were taken.
#[inline(always)]
fn take_mark<'a>(
    head: &MarkHead,
    accesses: &mut &'a [Access],
    others: &mut Vec<Advance>,
    taken: &mut usize,
) -> NextMark<'a>
    requires { (heads : Items HeadOf) × AreParts (head.now ∷ heads) accesses.old.now (drop taken.old others.old.items) }
    ensures few { IsFewMark result }
    ensures parts { (heads : Items HeadOf) → AreParts (head.now ∷ heads) accesses.old.now (drop taken.old others.old.items)
        → AreParts heads accesses.new.now (drop taken.new others.new.items) }
    ensures marks { (heads : Items HeadOf) → AreParts (head.now ∷ heads) accesses.old.now (drop taken.old others.old.items)
        → marks_in (head.now ∷ heads) accesses.old.now (drop taken.old others.old.items)
        ≡ next_mark result ∷ marks_in heads accesses.new.now (drop taken.new others.new.items) }
{
    match *head {
        MarkHead::Few {
            gap,
            first_query,
            count,
        } => {
            let (now, rest) = accesses.split_at(count as usize);
            *accesses = rest;
            NextMark::Few(StepView {
                gap,
                accesses: now,
                first_query,
            })
        }
        MarkHead::Whole => {
            let mark = take_whole(others, *taken);
            *taken += 1;
            NextMark::Whole(mark)
        }
    }
}
