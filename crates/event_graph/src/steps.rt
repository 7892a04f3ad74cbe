//! The steps of a lane, each in as few bytes as it needs.
ghost use Rattle.std.specs.Prelude.{◌≡◌, ℕ, ◌+◌, ◌<◌, ◌≤◌, ◌^◌, [], ◌∷◌, ◌++◌, if◌then◌else◌, true, length, drop, slice_index, slice_get};
ghost use Rattle.std.specs.Prelude.{Some, IsOk, OnOk, OnErr};
ghost use Rattle.flow_word.specs.{Roomed as RoomedOf};
ghost use Rattle.event_graph.specs.{Step as StepOf, new_step, in_lane, IsFewIfCopied, IsStepUpTo, words_for, step_of_form, store_with};
ghost use Rattle.event_graph.specs.{unpacked_step as unpacked, IsStepThere, IsStepKept, fit_head, step_head, head_words, count_words};
ghost use Rattle.event_graph.specs.{CanPack, places_for, wide_accesses, shown_form};

use crate::shapes::{ShapeList, ShapeView};
use crate::view::{LaneAccesses, LaneStep, NewStep};
use crate::words::{MOST_ACCESSES, WIDE_ACCESSES, all_fit, push_accesses};
use flow_word::{Access, OutOfMemory, RoomyList, Step};
use std::alloc::Global;
use std::marker::Model;

/// The most steps that a lane takes.
const MOST_STEPS: u64 = 0x3fff_ffff;

/// The most shapes that a lane takes.
const MOST_SHAPES: u64 = 0x1fff_ffff;

/// The most words that a step of one access to eight takes: its shape, its gap, a number of queries, and three for each access.
const MOST_WORDS: u64 = 27;

/// The greatest number that is a word.
const MOST: u64 = 0xffff_ffff;

/// In place of the number of a shape: the step is kept whole.
const WHOLE: u16 = 0xfffe;

/// In place of the number of a shape: the number and the gap are words.
const LONG: u16 = 0xffff;

/// The greatest gap that a head can have.
const MOST_GAP: u32 = 0xffff;

/// The head of a step.
#[derive(Clone, Copy)]
pub struct Head {
    /// The gap, where it and the number of the shape fit.
    pub gap: u16,
    /// The number of the shape, or `WHOLE` or `LONG`.
    pub shape: u16,
    /// The place of the step's first word. For a step that is kept whole, its number among these.
    pub at: u32,
}

/// A list of steps. A step with one access to 64, whose numbers fit 32 bits and whose channels fit a slot, is kept as a head, a shape
/// that it may share with others, and words. Room for a step is room for eight accesses: a step with more asks for the memory that it
/// needs beyond that. Where this is refused, the step is kept whole in a list of its own, and so is any other step.
#[derive(Drop)]
pub struct StepList {
    heads: RoomyList<Head>,
    words: RoomyList<u32>,
    shapes: ShapeList,
    others: RoomyList<Step>,
    room: u64,
}

impl Model for StepList {
    ghost use Rattle.std.specs.Prelude.{map};
    ghost use Rattle.flow_word.specs.{Step, Roomed};
    ghost use Rattle.event_graph.specs.Packed.{unpacked_step, store_with, IsPacked};

    ghost Value = { Roomed Step };

    ghost view = { λ l. record { items = map (unpacked_step (store_with l.words l.shapes l.others)) l.heads.items; room = l.room } };

    ghost invariant = { λ l. IsPacked l.heads l.words l.shapes l.others l.room };
}

impl StepList {
    /// A list without a step. It takes no memory.
    pub fn new(alloc: Global) -> StepList
        ensures { result.items ≡ [] }
    {
        StepList {
            heads: RoomyList::new(alloc),
            words: RoomyList::new(alloc),
            shapes: ShapeList::new(alloc),
            others: RoomyList::new(alloc),
            room: 0,
        }
    }

    /// How many steps there are.
    pub fn len(&self) -> u64
        ensures count { result ≡ length self.now.items }
        ensures few { result < 2 ^ 30 }
    {
        self.heads.len()
    }

    /// The step with this number, counted from 0. Each of its accesses is unpacked only when it is asked for.
    #[inline(always)]
    pub fn look(&self, at: u64) -> LaneStep<'_>
        requires { at < length self.now.items }
        ensures { slice_get self.now.items at ≡ Some (in_lane result) }
    {
        let head = &self.heads.as_slice()[at as usize];
        look_under(head, &self.words, &self.shapes, &self.others)
    }

    /// Reserves room for `more` further steps. The room never falls. The steps stay. It succeeds where there is that much room already.
    /// `OutOfMemory` where memory ran out.
    #[inline(always)]
    pub fn reserve(&mut self, more: u64) -> Result<(), OutOfMemory>
        ensures items { self.new.items ≡ self.old.items }
        ensures room { OnOk result (more ≤ self.new.room) }
        ensures kept { self.old.room ≤ self.new.room }
        ensures succeeds { more ≤ self.old.room → IsOk result }
    {
        if more <= self.room {
            return Ok(());
        }
        self.make_room(more)
    }

    /// As `reserve`, where there is less room.
    #[cold]
    fn make_room(&mut self, more: u64) -> Result<(), OutOfMemory>
        requires { self.old.room < more }
        ensures items { self.new.items ≡ self.old.items }
        ensures room { OnOk result (more ≤ self.new.room) }
        ensures kept { self.old.room ≤ self.new.room }
    {
        if more > MOST_STEPS - self.heads.len() {
            return Err(OutOfMemory);
        }
        reserve_packed(&mut self.words, &mut self.shapes, more)?;
        self.shapes.add_hints()?;
        self.others.reserve(more)?;
        self.heads.reserve(more)?;
        self.room = more;
        Ok(())
    }

    /// Adds a step at the end. It succeeds where there is room, and then uses one place of it. After `OutOfMemory` the steps are as
    /// they were.
    #[inline(always)]
    pub fn push(&mut self, step: NewStep<'_>) -> Result<(), OutOfMemory>
        requires few { IsFewIfCopied step }
        ensures ok { OnOk result (self.new.items ≡ self.old.items ++ new_step step.entry ∷ []) }
        ensures err { OnErr result (self.new.items ≡ self.old.items) }
        ensures succeeds { 0 < self.old.room → IsOk result }
        ensures room { self.old.room ≤ self.new.room + 1 }
    {
        self.reserve(1)?;
        let left = self.room - 1;
        let head = keep(
            &mut self.words,
            &mut self.shapes,
            &mut self.others,
            step,
            left,
        );
        self.heads.push_reserved(head);
        self.room = left;
        Ok(())
    }
}

/// The step with this head. Each of its accesses is unpacked only when it is asked for.
#[inline(always)]
fn look_under<'a>(
    head: &Head,
    words: &'a RoomyList<u32>,
    shapes: &'a ShapeList,
    others: &'a RoomyList<Step>,
) -> LaneStep<'a>
    requires { IsStepThere (store_with words.now shapes.now others.now) head.now }
    ensures { in_lane result ≡ unpacked (store_with words.now shapes.now others.now) head.now }
{
    let number = head.shape;
    let at = head.at as usize;
    if number < WHOLE {
        return look_packed(
            shapes.get(number as u32),
            head.gap as u64,
            &words.as_slice()[at..],
        );
    }
    if number == WHOLE {
        return look_whole(&others.as_slice()[at]);
    }
    let words = words.as_slice();
    look_packed(
        shapes.get(words[at]),
        words[at + 1] as u64,
        &words[at + 2..],
    )
}

/// A view of a step that is kept whole. Each of its accesses is read only when it is asked for.
fn look_whole(step: &Step) -> LaneStep<'_>
    ensures { in_lane result ≡ step.now }
{
    LaneStep {
        gap: step.gap,
        accesses: LaneAccesses::of_slice(step.accesses.as_slice()),
        first_query: step.first_query,
    }
}

/// A view of a step of this shape and gap, where the words begin with its own. Each of its accesses is unpacked only when it is asked
/// for.
#[inline(always)]
fn look_packed<'a>(shape: ShapeView<'a>, gap: u64, words: &'a [u32]) -> LaneStep<'a>
    requires { words_for (shown_form shape) ≤ length words.now }
    ensures { in_lane result ≡ step_of_form (shown_form shape.entry) gap words.now }
{
    if shape.counted {
        return LaneStep {
            gap,
            accesses: LaneAccesses::packed(shape.slots, &words[1..]),
            first_query: words[0] as u64,
        };
    }
    LaneStep {
        gap,
        accesses: LaneAccesses::packed(shape.slots, words),
        first_query: 0,
    }
}

/// Reserves room for the words and the shapes of `more` further steps of one access to eight. No room falls. The words and the shapes
/// stay. `OutOfMemory` where memory ran out, or the number of a word or a shape would not fit its bits.
fn reserve_packed(
    words: &mut RoomyList<u32>,
    shapes: &mut ShapeList,
    more: u64,
) -> Result<(), OutOfMemory>
    ensures words { words.new.items ≡ words.old.items }
    ensures shapes { shapes.new.items ≡ shapes.old.items }
    ensures room { OnOk result (CanPack words.new shapes.new more) }
    ensures words_room { words.old.room ≤ words.new.room }
    ensures shapes_room { shapes.old.room ≤ shapes.new.room }
{
    if more > MOST / MOST_WORDS || words.len() > MOST - MOST_WORDS * more {
        return Err(OutOfMemory);
    }
    if shapes.len() > MOST_SHAPES - more {
        return Err(OutOfMemory);
    }
    words.reserve(MOST_WORDS * more)?;
    shapes.reserve(more)
}

/// Keeps a step beside the earlier ones, and answers its head. There must be room for it, and `left` places stay for further steps.
#[inline(always)]
fn keep(
    words: &mut RoomyList<u32>,
    shapes: &mut ShapeList,
    others: &mut RoomyList<Step>,
    step: NewStep<'_>,
    left: u64,
) -> Head
    requires few { IsFewIfCopied step }
    requires room { CanPack words.old shapes.old (1 + left) }
    requires others_room { 1 ≤ others.old.room }
    requires others_few { length others.old.items < 2 ^ 32 }
    ensures kept { IsStepKept (store_with words.old shapes.old others.old) (store_with words.new shapes.new others.new)
        (new_step step.entry) result }
    ensures room { CanPack words.new shapes.new left }
    ensures others_more { length others.new.items ≤ length others.old.items + 1 }
    ensures others_room { others.old.room ≤ others.new.room + 1 }
{
    match step {
        NewStep::Few(view) => {
            keep_packed(words, shapes, view.gap, view.first_query, view.accesses)
        }
        NewStep::Whole(step) => keep_owned(words, shapes, others, step, left),
    }
}

/// As `keep`, for a step that is not copied.
fn keep_owned(
    words: &mut RoomyList<u32>,
    shapes: &mut ShapeList,
    others: &mut RoomyList<Step>,
    step: Step,
    left: u64,
) -> Head
    requires room { CanPack words.old shapes.old (1 + left) }
    requires others_room { 1 ≤ others.old.room }
    requires others_few { length others.old.items < 2 ^ 32 }
    ensures kept { IsStepKept (store_with words.old shapes.old others.old) (store_with words.new shapes.new others.new) step result }
    ensures room { CanPack words.new shapes.new left }
    ensures others_more { length others.new.items ≤ length others.old.items + 1 }
    ensures others_room { others.old.room ≤ others.new.room + 1 }
{
    if can_pack(words, shapes, &step, left) {
        return keep_packed(
            words,
            shapes,
            step.gap,
            step.first_query,
            step.accesses.as_slice(),
        );
    }
    let at = others.len() as u32;
    others.push_reserved(step);
    Head {
        gap: 0,
        shape: WHOLE,
        at,
    }
}

/// Whether a step can be kept as words, with `left` places beside it for further steps. A step of more than eight accesses asks for the
/// memory that its own place lacks.
#[inline(always)]
fn can_pack(words: &mut RoomyList<u32>, shapes: &mut ShapeList, step: &Step, left: u64) -> bool
    requires { CanPack words.old shapes.old (1 + left) }
    ensures words { words.new.items ≡ words.old.items }
    ensures shapes { shapes.new.items ≡ shapes.old.items }
    ensures fits { result ≡ true → IsStepUpTo wide_accesses step.now }
    ensures room { result ≡ true → CanPack words.new shapes.new (places_for (length step.now.accesses) + left) }
    ensures kept { CanPack words.new shapes.new (1 + left) }
{
    if is_up_to(step, MOST_ACCESSES) {
        return true;
    }
    can_pack_wide(words, shapes, step, left)
}

/// As `can_pack`, for a step that does not fit one place of the room.
#[inline(never)]
fn can_pack_wide(words: &mut RoomyList<u32>, shapes: &mut ShapeList, step: &Step, left: u64) -> bool
    requires { CanPack words.old shapes.old (1 + left) }
    ensures words { words.new.items ≡ words.old.items }
    ensures shapes { shapes.new.items ≡ shapes.old.items }
    ensures fits { result ≡ true → IsStepUpTo wide_accesses step.now }
    ensures room { result ≡ true → CanPack words.new shapes.new (places_for (length step.now.accesses) + left) }
    ensures kept { CanPack words.new shapes.new (1 + left) }
{
    if !is_up_to(step, WIDE_ACCESSES) {
        return false;
    }
    let places = step.accesses.len().div_ceil(MOST_ACCESSES as u64);
    reserve_packed(words, shapes, places + left).is_ok()
}

/// Keeps a step of one access to 64, whose numbers fit 32 bits, beside the earlier ones, and answers its head. There must be room for
/// its words and its shape. What room there was beyond that stays.
#[inline(always)]
fn keep_packed(
    words: &mut RoomyList<u32>,
    shapes: &mut ShapeList,
    gap: u64,
    first_query: u64,
    accesses: &[Access],
) -> Head
    requires fits { IsStepUpTo wide_accesses (record { gap = gap; accesses = accesses.now; first_query = first_query }) }
    requires room { CanPack words.old shapes.old (places_for (length accesses.now)) }
    ensures kept { (others : RoomedOf StepOf) → IsStepKept (store_with words.old shapes.old others) (store_with words.new shapes.new others)
        (record { gap = gap; accesses = accesses.now; first_query = first_query }) result }
    ensures room { (left : ℕ) → CanPack words.old shapes.old (places_for (length accesses.now) + left) → CanPack words.new shapes.new left }
{
    let shape = shapes.number_of(accesses, first_query != 0);
    let head = push_head(words, shape, gap as u32);
    push_count(words, first_query as u32);
    push_accesses(words, accesses);
    head
}

/// The head of a step of this shape and gap, whose words come next. Adds the words of what does not fit the head.
#[inline(always)]
fn push_head(words: &mut RoomyList<u32>, shape: u32, gap: u32) -> Head
    requires room { 2 ≤ words.old.room }
    requires few { length words.old.items < 2 ^ 32 }
    ensures head { result ≡ step_head shape gap (length words.old.items) }
    ensures items { words.new.items ≡ words.old.items ++ head_words shape gap }
    ensures room { words.old.room ≤ words.new.room + 2 }
{
    let at = words.len() as u32;
    if fits_head(shape, gap) {
        return Head {
            gap: gap as u16,
            shape: shape as u16,
            at,
        };
    }
    words.push_reserved(shape);
    words.push_reserved(gap);
    Head {
        gap: 0,
        shape: LONG,
        at,
    }
}

/// Whether a head can have this shape and gap.
#[inline(always)]
fn fits_head(shape: u32, gap: u32) -> bool
    ensures { result ≡ fit_head shape gap }
{
    shape < WHOLE as u32 && gap <= MOST_GAP
}

/// Adds the number of queries before a step, where it is not 0.
#[inline(always)]
fn push_count(words: &mut RoomyList<u32>, first_query: u32)
    requires { 1 ≤ words.old.room }
    ensures items { words.new.items ≡ words.old.items ++ count_words first_query }
    ensures room { words.old.room ≤ words.new.room + 1 }
{
    if first_query != 0 {
        words.push_reserved(first_query);
    }
}

/// Whether a step has one access to `most`, its numbers fit 32 bits, and its accesses fit a word each.
#[inline(always)]
fn is_up_to(step: &Step, most: usize) -> bool
    ensures { result ≡ true → IsStepUpTo most step.now }
{
    let accesses = step.accesses.as_slice();
    accesses.len() >= 1
        && accesses.len() <= most
        && step.gap <= MOST
        && step.first_query <= MOST
        && all_fit(accesses)
}
