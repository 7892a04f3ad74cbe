//! The shapes of a lane's steps: what steps have in common that differ in their numbers alone.
ghost use Rattle.std.specs.Prelude.{◌≡◌, ◌+◌, ◌<◌, ◌≤◌, ◌^◌, [], true, length, All, IfSome, OnOk};
ghost use Rattle.event_graph.specs.{shown_form, form_at, step_form, form_in as form_by, IsShapeIn as IsShapeBy, IsNumbered, Fits};
ghost use Rattle.event_graph.specs.{places_for};

use crate::hints::{MOST_LOOKS, ShapeHints, hash_more};
use crate::words::{MOST_ACCESSES, are_slots_of, push_slots, slot_of};
use flow_word::{Access, OutOfMemory, RoomyList};
use std::alloc::Global;
use std::marker::Model;

/// How many followers are kept.
const FOLLOWERS: usize = 64;

/// How many slots have a number of 32 bits.
const SLOTS: u64 = 0x1_0000_0000;

/// The shape of some steps, which has its slots among those of all shapes.
#[derive(Clone, Copy)]
pub struct Shape {
    /// The place of the first slot.
    pub at: u32,
    /// How many slots there are: one for each access.
    pub count: u16,
    /// Whether a word says how many queries came before the step. Otherwise there were none.
    pub counted: bool,
}

/// A view of a shape.
#[derive(Clone, Copy)]
pub struct ShapeView<'a> {
    /// A slot for each access.
    pub slots: &'a [u32],
    /// Whether a word says how many queries came before the step. Otherwise there were none.
    pub counted: bool,
}

/// A list of shapes. A shape keeps its number.
#[derive(Drop)]
pub struct ShapeList {
    shapes: RoomyList<Shape>,
    slots: RoomyList<u32>,
    hints: ShapeHints,
    /// The number of the shape that was asked for last.
    newest: u32,
    /// The number of the shape that came after a shape last time, at the remainder of that shape's number by their count. Each is a
    /// hint too.
    followers: [u32; FOLLOWERS],
}

impl Model for ShapeList {
    ghost use Rattle.std.specs.Prelude.{map, All};
    ghost use Rattle.flow_word.specs.{Roomed};
    ghost use Rattle.event_graph.specs.Shapes.{Form, form_in, room_in, IsShapeIn};

    ghost Value = { Roomed Form };

    ghost view = { λ l. record { items = map (form_in l.slots.items) l.shapes.items; room = room_in l.shapes l.slots } };

    ghost invariant = { λ l. All (IsShapeIn l.slots.items) l.shapes.items };
}

impl ShapeList {
    /// A list without a shape. It takes no memory.
    pub fn new(alloc: Global) -> ShapeList
        ensures { result.items ≡ [] }
    {
        ShapeList {
            shapes: RoomyList::new(alloc),
            slots: RoomyList::new(alloc),
            hints: ShapeHints::new(alloc),
            newest: 0,
            followers: [0; FOLLOWERS],
        }
    }

    /// How many shapes there are.
    pub fn len(&self) -> u64
        ensures { result ≡ length self.now.items }
    {
        self.shapes.len()
    }

    /// The shape with this number, counted from 0.
    #[inline(always)]
    pub fn get(&self, number: u32) -> ShapeView<'_>
        requires { number < length self.now.items }
        ensures { shown_form result ≡ form_at self.now.items number }
    {
        view_in(
            self.slots.as_slice(),
            &self.shapes.as_slice()[number as usize],
        )
    }

    /// Reserves room for `more` further shapes of at most eight slots. The room never falls. The shapes stay. `OutOfMemory` where
    /// memory ran out, or the slots would not have a number of 32 bits each.
    pub fn reserve(&mut self, more: u64) -> Result<(), OutOfMemory>
        requires { more < 2 ^ 29 }
        ensures items { self.new.items ≡ self.old.items }
        ensures room { OnOk result (more ≤ self.new.room) }
        ensures kept { self.old.room ≤ self.new.room }
    {
        let slots = MOST_ACCESSES as u64 * more;
        if self.slots.len() > SLOTS - slots {
            return Err(OutOfMemory);
        }
        self.shapes.reserve(more)?;
        self.slots.reserve(slots)?;
        Ok(())
    }

    /// Doubles the places for hints, where they are few for so many shapes. The shapes and the room stay. `OutOfMemory` where memory
    /// ran out.
    pub fn add_hints(&mut self) -> Result<(), OutOfMemory>
        ensures { self.new ≡ self.old }
    {
        if self.hints.is_small(self.shapes.len()) {
            self.hints.double()?;
            hint_all(
                &mut self.hints,
                self.shapes.as_slice(),
                self.slots.as_slice(),
            );
        }
        Ok(())
    }

    /// The number of the shape of a step with these accesses. Where the list does not have the shape, it is added at the end; there
    /// must be room for it.
    #[inline(always)]
    pub fn number_of(&mut self, accesses: &[Access], counted: bool) -> u32
        requires few { length accesses.now < 2 ^ 16 }
        requires fit { All Fits accesses.now }
        requires room { places_for (length accesses.now) ≤ self.old.room }
        requires shapes_few { length self.old.items < 2 ^ 29 }
        ensures number { IsNumbered self.old.items self.new.items (step_form accesses.now counted) result }
        ensures room { self.old.room ≤ self.new.room + places_for (length accesses.now) }
    {
        let number = self.followers[self.newest as usize % FOLLOWERS];
        if self.is_form(number, accesses, counted) {
            self.newest = number;
            return number;
        }
        self.find_or_add(accesses, counted)
    }

    /// As `number_of`, where the follower of the newest shape is not the shape.
    #[inline(never)]
    fn find_or_add(&mut self, accesses: &[Access], counted: bool) -> u32
        requires few { length accesses.now < 2 ^ 16 }
        requires fit { All Fits accesses.now }
        requires room { places_for (length accesses.now) ≤ self.old.room }
        requires shapes_few { length self.old.items < 2 ^ 29 }
        ensures number { IsNumbered self.old.items self.new.items (step_form accesses.now counted) result }
        ensures room { self.old.room ≤ self.new.room + places_for (length accesses.now) }
    {
        let hash = hash_of(accesses);
        let number = match self.find(hash, accesses, counted) {
            Some(number) => number,
            None => self.add(hash, accesses, counted),
        };
        self.followers[self.newest as usize % FOLLOWERS] = number;
        self.newest = number;
        number
    }

    /// Whether there is a shape with this number, and it is that of a step with these accesses.
    #[inline(always)]
    fn is_form(&self, number: u32, accesses: &[Access], counted: bool) -> bool
        requires { All Fits accesses.now }
        ensures there { result ≡ true → number < length self.now.items }
        ensures form { result ≡ true → form_at self.now.items number ≡ step_form accesses.now counted }
    {
        if number as u64 >= self.shapes.len() {
            return false;
        }
        let view = self.get(number);
        view.counted == counted && are_slots_of(view.slots, accesses)
    }

    /// The number of the shape of a step with these accesses, where a hint tells it.
    fn find(&self, hash: u32, accesses: &[Access], counted: bool) -> Option<u32>
        requires { All Fits accesses.now }
        ensures there { IfSome result (λ number. number < length self.now.items) }
        ensures form { IfSome result (λ number. form_at self.now.items number ≡ step_form accesses.now counted) }
    {
        for look in 0..MOST_LOOKS {
            let number = self.hints.get(hash, look)?;
            if self.is_form(number, accesses, counted) {
                return Some(number);
            }
        }
        None
    }

    /// Adds the shape of a step with these accesses, and answers its number. There must be room for it.
    fn add(&mut self, hash: u32, accesses: &[Access], counted: bool) -> u32
        requires few { length accesses.now < 2 ^ 16 }
        requires fit { All Fits accesses.now }
        requires room { places_for (length accesses.now) ≤ self.old.room }
        requires shapes_few { length self.old.items < 2 ^ 29 }
        ensures number { IsNumbered self.old.items self.new.items (step_form accesses.now counted) result }
        ensures room { self.old.room ≤ self.new.room + places_for (length accesses.now) }
    {
        let number = self.shapes.len() as u32;
        let shape = Shape {
            at: self.slots.len() as u32,
            count: accesses.len() as u16,
            counted,
        };
        push_slots(&mut self.slots, accesses);
        self.shapes.push_reserved(shape);
        self.hints.put(hash, number);
        number
    }
}

/// A view of a shape that has its place among these slots.
#[inline(always)]
fn view_in<'a>(slots: &'a [u32], shape: &Shape) -> ShapeView<'a>
    requires { IsShapeBy slots.now shape.now }
    ensures { shown_form result ≡ form_by slots.now shape.now }
{
    let at = shape.at as usize;
    ShapeView {
        slots: &slots[at..at + shape.count as usize],
        counted: shape.counted,
    }
}

/// The hash of the slots of these accesses.
fn hash_of(accesses: &[Access]) -> u32
    requires { All Fits accesses.now }
{
    let mut hash = 0;
    for access in accesses {
        hash = hash_more(hash, slot_of(*access));
    }
    hash
}

/// The hash of the slots of a shape that has its place among these slots.
fn hash_in(slots: &[u32], shape: &Shape) -> u32
    requires { IsShapeBy slots.now shape.now }
{
    let mut hash = 0;
    for slot in view_in(slots, shape).slots {
        hash = hash_more(hash, *slot);
    }
    hash
}

/// Puts the number of each shape into the table.
fn hint_all(hints: &mut ShapeHints, shapes: &[Shape], slots: &[u32])
    requires { All (IsShapeBy slots.now) shapes.now }
{
    let mut number = 0u32;
    for shape in shapes {
        hints.put(hash_in(slots, shape), number);
        number = number.wrapping_add(1);
    }
}
