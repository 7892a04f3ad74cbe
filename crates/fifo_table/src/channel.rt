//! A channel with its pushes and pops.
ghost use Rattle.std.specs.Prelude.{◌≡◌, ◌≤◌, slice_get, OnOk};
ghost use Rattle.fifo_table.specs.{unused, lag_of, free_of, deepened, places_of, channel_of};

use crate::places::Places;
use crate::pushes::Pushes;
use flow_word::{OutOfMemory, Place, Side, Words};
use std::alloc::Global;

/// The kind of a channel, with all that the table needs of it.
#[derive(Debug, Drop)]
pub enum TableChannel {
    /// A preloaded input stream: its values, each cut to the channel's width.
    Source(Words),
    /// An output stream, which is never full.
    Sink,
    /// A queue of this depth, in elements, and this delay, in clocks, both within the limits of the language. An element can be
    /// popped this many clocks after its push.
    Fifo { depth: u64, delay: u64 },
}

/// A push: the step that made it, and its value.
#[derive(Clone, Copy, Debug, PartialEq, Eq)]
pub struct Pushed {
    pub at: Place,
    pub value: u64,
}

/// A channel with its pushes and pops, and with room for further ones.
#[derive(Drop)]
pub struct RoomyChannel {
    pub kind: TableChannel,
    pub pushes: Pushes,
    pub pops: Places,
}

impl RoomyChannel {
    /// A channel of this kind without any push or pop. It takes no memory.
    pub fn new(alloc: Global, kind: TableChannel) -> RoomyChannel
        ensures { channel_of result ≡ unused kind }
    {
        RoomyChannel {
            kind,
            pushes: Pushes::new(alloc),
            pops: Places::new(alloc),
        }
    }

    /// Reserves room for `pushes` further pushes and `pops` further pops. Neither room falls. The pushes and pops stay.
    /// `OutOfMemory` where memory ran out.
    pub fn reserve(&mut self, pushes: u64, pops: u64) -> Result<(), OutOfMemory>
        ensures channel { channel_of self.new ≡ channel_of self.old }
        ensures push_room { OnOk result (pushes ≤ self.new.pushes.room) }
        ensures pop_room { OnOk result (pops ≤ self.new.pops.room) }
        ensures pushes_kept { self.old.pushes.room ≤ self.new.pushes.room }
        ensures pops_kept { self.old.pops.room ≤ self.new.pops.room }
    {
        self.pushes.reserve(pushes)?;
        self.pops.reserve(pops)
    }

    /// The lag of a side, in clocks: a pop, or a push, is possible this many clocks after the event that it waits for.
    pub fn lag(&self, side: Side) -> u64
        ensures { result ≡ lag_of self.now.kind side }
    {
        match (&self.kind, side) {
            (TableChannel::Fifo { delay, .. }, Side::Pop) => *delay,
            (TableChannel::Fifo { .. }, Side::Push) => 1,
            (TableChannel::Source(_) | TableChannel::Sink, _) => 1,
        }
    }

    /// How many pops, or pushes, wait for no event: the pops of a source's inputs, and the pushes on a FIFO's first places.
    pub fn free(&self, side: Side) -> u64
        ensures { result ≡ free_of self.now.kind side }
    {
        match (&self.kind, side) {
            (TableChannel::Source(inputs), Side::Pop) => inputs.len(),
            (TableChannel::Fifo { depth, .. }, Side::Push) => *depth,
            (TableChannel::Source(_), Side::Push) => 0,
            (TableChannel::Fifo { .. }, Side::Pop) => 0,
            (TableChannel::Sink, _) => 0,
        }
    }

    /// The step of the pop, or of the push, that comes after `before` others. `None` where there is none.
    pub fn place(&self, side: Side, before: u64) -> Option<Place>
        ensures { result ≡ slice_get (places_of side (channel_of self.now)) before }
    {
        match side {
            Side::Pop => self.pop(before),
            Side::Push => self.pushes.place(before),
        }
    }

    /// The step of the pop that comes after `before` other pops. `None` where there is none.
    pub fn pop(&self, before: u64) -> Option<Place>
        ensures { result ≡ slice_get (channel_of self.now).pops before }
    {
        self.pops.get(before)
    }

    /// The push that comes after `before` other pushes. `None` where there is none.
    pub fn push(&self, before: u64) -> Option<Pushed>
        ensures { result ≡ slice_get (channel_of self.now).pushes before }
    {
        self.pushes.get(before)
    }

    /// Sets the depth of a FIFO, in elements. Any other channel stays as it is.
    pub fn set_depth(&mut self, depth: u64)
        ensures { self.new ≡ record self.old { kind = deepened self.old.kind depth } }
    {
        if let TableChannel::Fifo { depth: current, .. } = &mut self.kind {
            *current = depth;
        }
    }
}
