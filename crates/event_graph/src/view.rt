//! Views of a step: of one to be added to a lane, and of one in it.
ghost use Rattle.std.specs.{Prelude.◌≡◌, Prelude.◌≤◌, Prelude.length, Iterator.YieldsFirst, Iterator.item_count};
ghost use Rattle.event_graph.specs.{slot_sizes, accesses_in, new_step};

use crate::words::{after_access, read_access};
use flow_word::{Access, Step};
use std::marker::Model;

/// A step whose accesses are a slice.
#[derive(Drop)]
pub struct StepView<'a> {
    /// How many local clocks the step comes after the module's previous step, or after its local clock 0 where it is the first.
    pub gap: u64,
    /// The accesses, in commit order.
    pub accesses: &'a [Access],
    /// How many queries the module made before this step.
    pub first_query: u64,
}

/// A step that is to be added to a lane.
#[derive(Drop)]
pub enum NewStep<'a> {
    /// A step of one access to eight, whose numbers fit 32 bits and whose channels fit a slot. It is copied.
    Few(StepView<'a>),
    /// Any step.
    Whole(Step),
}

impl<'a> NewStep<'a> {
    /// The accesses, in commit order.
    #[inline(always)]
    pub fn accesses(&self) -> &[Access]
        ensures { result.now ≡ (new_step self.now).accesses }
    {
        match self {
            NewStep::Few(view) => view.accesses,
            NewStep::Whole(step) => step.accesses.as_slice(),
        }
    }

    /// How many queries the module made before this step.
    #[inline(always)]
    pub fn first_query(&self) -> u64
        ensures { result ≡ (new_step self.now).first_query }
    {
        match self {
            NewStep::Few(view) => view.first_query,
            NewStep::Whole(step) => step.first_query,
        }
    }
}

/// The accesses that are unpacked one by one: slots and words of a lane, or a slice.
#[derive(Clone, Copy)]
enum Listed<'a> {
    Packed { slots: &'a [u32], words: &'a [u32] },
    Slice(&'a [Access]),
}

/// The accesses of a step that are left, in commit order. It has no copy of them: each is unpacked when it comes.
#[derive(Drop)]
pub struct LaneAccesses<'a> {
    listed: Listed<'a>,
}

impl<'a> Model for LaneAccesses<'a> {
    ghost use Rattle.std.specs.Prelude.{List};
    ghost use Rattle.flow_word.specs.{Access};
    ghost use Rattle.event_graph.specs.Listed.{listed_in, HoldsAccesses};

    ghost Value = { List Access };

    ghost view = { λ accesses. listed_in accesses.listed };

    ghost invariant = { λ accesses. HoldsAccesses accesses.listed };
}

impl<'a> LaneAccesses<'a> {
    /// A view of the accesses with these slots, where the words begin with theirs.
    #[inline(always)]
    pub(crate) fn packed(slots: &'a [u32], words: &'a [u32]) -> LaneAccesses<'a>
        requires { slot_sizes slots.now ≤ length words.now }
        ensures { result ≡ accesses_in slots.now words.now }
    {
        LaneAccesses {
            listed: Listed::Packed { slots, words },
        }
    }

    /// A view of these accesses.
    #[inline(always)]
    pub fn of_slice(items: &'a [Access]) -> LaneAccesses<'a>
        ensures { result ≡ items.now }
    {
        LaneAccesses {
            listed: Listed::Slice(items),
        }
    }

    /// How many accesses there are. None is unpacked.
    #[inline(always)]
    pub fn len(&self) -> u64
        ensures { result ≡ length self.now }
    {
        match self.listed {
            Listed::Packed { slots, .. } => slots.len() as u64,
            Listed::Slice(items) => items.len() as u64,
        }
    }

    /// Another view of these accesses, to go over them once more.
    #[inline(always)]
    pub fn iter(&self) -> LaneAccesses<'a>
        ensures { result ≡ self.now }
    {
        LaneAccesses {
            listed: self.listed,
        }
    }
}

impl<'a> Iterator for LaneAccesses<'a> {
    type Item = Access;

    ghost next_gives = { YieldsFirst (λ rest. rest) };

    ghost remaining = { item_count (λ rest. rest) };

    #[inline(always)]
    fn next(&mut self) -> Option<Access> {
        match self.listed {
            Listed::Packed { slots, words } => {
                let (slot, rest) = slots.split_first()?;
                self.listed = Listed::Packed {
                    slots: rest,
                    words: after_access(*slot, words),
                };
                Some(read_access(*slot, words))
            }
            Listed::Slice(items) => {
                let (first, rest) = items.split_first()?;
                self.listed = Listed::Slice(rest);
                Some(*first)
            }
        }
    }
}

/// A view of a step in its lane. Each of its accesses is unpacked only when it is asked for.
#[derive(Drop)]
pub struct LaneStep<'a> {
    /// How many local clocks the step comes after the module's previous step, or after its local clock 0 where it is the first.
    pub gap: u64,
    /// The accesses, in commit order.
    pub accesses: LaneAccesses<'a>,
    /// How many queries the module made before this step.
    pub first_query: u64,
}
