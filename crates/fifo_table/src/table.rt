//! The table of all channels.
ghost use Rattle.std.specs.Prelude.{◌≡◌, ◌≢◌, ◌↔◌, true, ℕ, ◌<◌, ◌≤◌, ◌^◌, length, map, slice_get, slice_index, All, IsOk, IfOk, OnOk};
ghost use Rattle.std.specs.Prelude.{OnErr};
ghost use Rattle.fifo_table.specs.{UsesPlace, IsSoundKind, IsSource, IsSink, IsFifo, HasSide, depth_of, lag_of, free_of, unused};
ghost use Rattle.fifo_table.specs.{channel_at, nth, places_of, first_module, AreAllOf, values_of, with_push, with_pop, deepened_channels};
ghost use Rattle.fifo_table.specs.{enabler_of, event_at};
ghost use Rattle.flow_design.specs.declared.limits.TheConstants.{FIFO_DEPTH, FIFO_DELAY};

use crate::channel::{Pushed, RoomyChannel, TableChannel};
use crate::enabler::Enabler;
use flow_word::{OutOfMemory, Place, Side};
use std::alloc::Global;
use std::marker::Model;

/// The pushes and pops of each channel, in order, in the steps that were emitted so far.
///
/// Ordinals count from 1. Contracts see the channels, and two rooms of each: how many further pushes, and how many further pops, it
/// takes without asking for memory.
pub struct FifoTable {
    channels: Vec<RoomyChannel>,
}

impl Drop for FifoTable {
    fn drop(self) {
        let FifoTable {
            channels: _channels,
        } = self;
    }
}

impl Model for FifoTable {
    ghost use Rattle.std.specs.Prelude.{◌<◌, ◌^◌, length, All};
    ghost use Rattle.fifo_table.specs.Channels.{IsSoundKind};
    ghost use Rattle.fifo_table.specs.Roomed.{RoomedChannels, bare_channels, push_rooms_of, pop_rooms_of};

    ghost Value = { RoomedChannels };

    ghost view = { λ t. record {
      channels = bare_channels t.channels.items;
      push_rooms = push_rooms_of t.channels.items;
      pop_rooms =
          pop_rooms_of t.channels.items;
    } };

    ghost invariant = { λ t. All (λ c. IsSoundKind c.kind) (bare_channels t.channels.items) × (length t.channels.items < 2 ^ 32) };
}

impl FifoTable {
    /// A table of these channels without any push or pop. `OutOfMemory` where memory ran out.
    pub fn new(alloc: Global, channels: Vec<TableChannel>) -> Result<FifoTable, OutOfMemory>
        requires count { length channels.items < 2 ^ 32 }
        requires kinds { All IsSoundKind channels.items }
        ensures { IfOk result (λ table. table.channels ≡ map unused channels.items) }
    {
        let mut made = Vec::with_capacity(alloc, channels.len())?;
        for kind in channels {
            made.push(RoomyChannel::new(alloc, kind))?;
        }
        Ok(FifoTable { channels: made })
    }

    /// Reserves room for `pushes` further pushes and `pops` further pops of a channel.
    ///
    /// The channels stay as they are and no room falls, after `OutOfMemory` either.
    pub fn reserve(&mut self, channel: u32, pushes: u64, pops: u64) -> Result<(), OutOfMemory>
        requires { channel < length self.old.channels }
        ensures channels { self.new.channels ≡ self.old.channels }
        ensures push_room { OnOk result (pushes ≤ slice_index self.new.push_rooms channel) }
        ensures pop_room { OnOk result (pops ≤ slice_index self.new.pop_rooms channel) }
        ensures pushes_kept { (k : ℕ) → slice_index self.old.push_rooms k ≤ slice_index self.new.push_rooms k }
        ensures pops_kept { (k : ℕ) → slice_index self.old.pop_rooms k ≤ slice_index self.new.pop_rooms k }
    {
        self.channels[channel as usize].reserve(pushes, pops)
    }

    /// Adds the next push of a channel. All pushes of a channel are of one module.
    ///
    /// It succeeds where the channel has room for a push, and then uses one place of it. After `OutOfMemory` the channels are as
    /// they were.
    pub fn add_push(&mut self, channel: u32, at: Place, value: u64) -> Result<(), OutOfMemory>
        requires channel { channel < length self.old.channels }
        requires no_source { ¬ IsSource (channel_at self.old.channels channel).kind }
        requires own { AreAllOf at.module (places_of Side.Push (channel_at self.old.channels channel)) }
        requires step { at.step < 2 ^ 32 }
        ensures ok { OnOk result (self.new.channels ≡ with_push self.old.channels channel at value) }
        ensures err { OnErr result (self.new.channels ≡ self.old.channels) }
        ensures succeeds { 0 < slice_index self.old.push_rooms channel → IsOk result }
        ensures push_rooms { UsesPlace channel self.old.push_rooms self.new.push_rooms }
        ensures pop_rooms { self.new.pop_rooms ≡ self.old.pop_rooms }
    {
        self.channels[channel as usize].pushes.push(at, value)
    }

    /// Adds the next pop of a channel. All pops of a channel are of one module.
    ///
    /// It succeeds where the channel has room for a pop, and then uses one place of it. After `OutOfMemory` the channels are as
    /// they were.
    pub fn add_pop(&mut self, channel: u32, at: Place) -> Result<(), OutOfMemory>
        requires channel { channel < length self.old.channels }
        requires no_sink { ¬ IsSink (channel_at self.old.channels channel).kind }
        requires own { AreAllOf at.module (places_of Side.Pop (channel_at self.old.channels channel)) }
        requires step { at.step < 2 ^ 32 }
        ensures ok { OnOk result (self.new.channels ≡ with_pop self.old.channels channel at) }
        ensures err { OnErr result (self.new.channels ≡ self.old.channels) }
        ensures succeeds { 0 < slice_index self.old.pop_rooms channel → IsOk result }
        ensures pop_rooms { UsesPlace channel self.old.pop_rooms self.new.pop_rooms }
        ensures push_rooms { self.new.push_rooms ≡ self.old.push_rooms }
    {
        self.channels[channel as usize].pops.push(at)
    }

    /// Whether a channel is a FIFO, and no source or sink.
    pub fn is_fifo(&self, channel: u32) -> bool
        requires { channel < length self.now.channels }
        ensures { (result ≡ true) ↔ IsFifo (channel_at self.now.channels channel).kind }
    {
        match &self.channels[channel as usize].kind {
            TableChannel::Fifo { .. } => true,
            TableChannel::Source(_) | TableChannel::Sink => false,
        }
    }

    /// The step of a channel's pop, or push, that comes after `before` others. `None` where there is none.
    pub fn place(&self, channel: u32, side: Side, before: u64) -> Option<Place>
        requires { channel < length self.now.channels }
        ensures { result ≡ slice_get (places_of side (channel_at self.now.channels channel)) before }
    {
        self.channels[channel as usize].place(side, before)
    }

    /// How many pops, or pushes, of a channel wait for no event: the pops of a source's inputs, and the pushes on a FIFO's first
    /// places. Each later one waits for an event of the other side: the one whose ordinal is less by this number.
    pub fn free(&self, channel: u32, side: Side) -> u64
        requires { channel < length self.now.channels }
        ensures { result ≡ free_of (channel_at self.now.channels channel).kind side }
    {
        self.channels[channel as usize].free(side)
    }

    /// The value of a channel's n-th input or push. `None` where there is none.
    pub fn value(&self, channel: u32, n: u64) -> Option<u64>
        requires channel { channel < length self.now.channels }
        requires from_one { 1 ≤ n }
        ensures { result ≡ nth (values_of (channel_at self.now.channels channel).kind (channel_at self.now.channels channel).pushes) n }
    {
        let channel = &self.channels[channel as usize];
        match &channel.kind {
            TableChannel::Source(inputs) => inputs.as_slice().get((n - 1) as usize).copied(),
            TableChannel::Sink | TableChannel::Fifo { .. } => channel.pushes.value(n - 1),
        }
    }

    /// How many channels there are.
    pub fn len(&self) -> u32
        ensures { result ≡ length self.now.channels }
    {
        self.channels.len() as u32
    }

    /// How many pops of a channel were added.
    pub fn pops(&self, channel: u32) -> u64
        requires { channel < length self.now.channels }
        ensures { result ≡ length (places_of Side.Pop (channel_at self.now.channels channel)) }
    {
        self.channels[channel as usize].pops.len()
    }

    /// How many pushes of a channel were added.
    pub fn pushes(&self, channel: u32) -> u64
        requires { channel < length self.now.channels }
        ensures { result ≡ length (places_of Side.Push (channel_at self.now.channels channel)) }
    {
        self.channels[channel as usize].pushes.len()
    }

    /// The push of a channel that comes after `before` others. `None` where there is none.
    pub fn pushed(&self, channel: u32, before: u64) -> Option<Pushed>
        requires { channel < length self.now.channels }
        ensures { result ≡ slice_get (channel_at self.now.channels channel).pushes before }
    {
        self.channels[channel as usize].push(before)
    }

    /// The module that pops a channel. `None` where there is no pop yet.
    pub fn popper(&self, channel: u32) -> Option<u32>
        requires { channel < length self.now.channels }
        ensures { result ≡ first_module (places_of Side.Pop (channel_at self.now.channels channel)) }
    {
        self.channels[channel as usize].pops.module()
    }

    /// The module that pushes a channel. `None` where there is no push yet.
    pub fn pusher(&self, channel: u32) -> Option<u32>
        requires { channel < length self.now.channels }
        ensures { result ≡ first_module (places_of Side.Push (channel_at self.now.channels channel)) }
    {
        self.channels[channel as usize].pushes.module()
    }

    /// The enabler of a channel's n-th pop, or n-th push. `Never` comes only from a source.
    pub fn enabler(&self, channel: u32, side: Side, n: u64) -> Enabler
        requires channel { channel < length self.now.channels }
        requires from_one { 1 ≤ n }
        requires side { HasSide (channel_at self.now.channels channel).kind side }
        ensures enabler { result ≡ enabler_of (channel_at self.now.channels channel) side n }
        ensures never { result ≡ Enabler.Never → IsSource (channel_at self.now.channels channel).kind }
    {
        match side {
            Side::Pop => self.enabler_of_read(channel, n),
            Side::Push => self.enabler_of_write(channel, n),
        }
    }

    /// The enabler of a channel's n-th pop. `Never` comes only from a source.
    pub fn enabler_of_read(&self, channel: u32, n: u64) -> Enabler
        requires channel { channel < length self.now.channels }
        requires from_one { 1 ≤ n }
        requires no_sink { ¬ IsSink (channel_at self.now.channels channel).kind }
        ensures enabler { result ≡ enabler_of (channel_at self.now.channels channel) Side.Pop n }
        ensures never { result ≡ Enabler.Never → IsSource (channel_at self.now.channels channel).kind }
    {
        let channel = &self.channels[channel as usize];
        match &channel.kind {
            TableChannel::Source(inputs) if n <= inputs.len() => Enabler::Free,
            TableChannel::Source(_) => Enabler::Never,
            TableChannel::Sink => Enabler::Missing,
            TableChannel::Fifo { .. } => emitted(channel.pushes.place(n - 1)),
        }
    }

    /// The enabler of a channel's n-th push.
    pub fn enabler_of_write(&self, channel: u32, n: u64) -> Enabler
        requires channel { channel < length self.now.channels }
        requires from_one { 1 ≤ n }
        requires no_source { ¬ IsSource (channel_at self.now.channels channel).kind }
        ensures enabler { result ≡ enabler_of (channel_at self.now.channels channel) Side.Push n }
        ensures never { result ≢ Enabler.Never }
    {
        let channel = &self.channels[channel as usize];
        match &channel.kind {
            TableChannel::Source(_) => Enabler::Missing,
            TableChannel::Sink => Enabler::Free,
            TableChannel::Fifo { depth, .. } if n <= *depth => Enabler::Free,
            TableChannel::Fifo { depth, .. } => emitted(channel.pop(n - *depth - 1)),
        }
    }

    /// The depth of a FIFO, in elements.
    pub fn depth(&self, channel: u32) -> u64
        requires channel { channel < length self.now.channels }
        requires fifo { IsFifo (channel_at self.now.channels channel).kind }
        ensures depth { result ≡ depth_of (channel_at self.now.channels channel).kind }
        ensures least { 1 ≤ result }
        ensures most { result ≤ FIFO_DEPTH }
    {
        match &self.channels[channel as usize].kind {
            TableChannel::Fifo { depth, .. } => *depth,
            TableChannel::Source(_) | TableChannel::Sink => 0,
        }
    }

    /// The lag of a side of a channel, in clocks: a pop, or a push, is possible this many clocks after the event that it waits for.
    /// It is the delay for a pop of a FIFO, and otherwise 1. It takes no memory.
    pub fn lag(&self, channel: u32, side: Side) -> u64
        requires { channel < length self.now.channels }
        ensures lag { result ≡ lag_of (channel_at self.now.channels channel).kind side }
        ensures least { 1 ≤ result }
        ensures most { result ≤ FIFO_DELAY }
    {
        self.channels[channel as usize].lag(side)
    }

    /// Sets the depth of a FIFO, in elements. All else stays, its delay too.
    pub fn set_depth(&mut self, channel: u32, depth: u64)
        requires channel { channel < length self.old.channels }
        requires fifo { IsFifo (channel_at self.old.channels channel).kind }
        requires least { 1 ≤ depth }
        requires most { depth ≤ FIFO_DEPTH }
        ensures channels { self.new.channels ≡ deepened_channels self.old.channels channel depth }
        ensures push_rooms { self.new.push_rooms ≡ self.old.push_rooms }
        ensures pop_rooms { self.new.pop_rooms ≡ self.old.pop_rooms }
    {
        self.channels[channel as usize].set_depth(depth);
    }
}

/// The event of the step at this place, or `Missing` where there is none.
fn emitted(at: Option<Place>) -> Enabler
    ensures enabler { result ≡ event_at at }
    ensures never { result ≢ Enabler.Never }
{
    match at {
        Some(at) => Enabler::Event(at),
        None => Enabler::Missing,
    }
}
