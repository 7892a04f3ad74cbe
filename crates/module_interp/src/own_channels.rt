//! The channels of a module.
ghost use Rattle.std.specs.Prelude.{◌≡◌, ℕ, ◌<◌, [], true, false, length, slice_index, All, Contains, IfOk, OnErr, OnOk};
ghost use Rattle.std.specs.List.Sorted.{IsStrictlyIncreasing};
ghost use Rattle.module_interp.specs.{uses, IsGathered, IsPlaceOf, place_in};

use flow_design::{Module, Op, Timed};
use flow_word::{OutOfMemory, Side};
use std::alloc::Global;
use std::marker::Model;

/// Channels of a module, in order, so that one of them is soon found.
#[derive(Drop)]
pub struct OwnChannels {
    items: Vec<u32>,
}

impl Model for OwnChannels {
    ghost use Rattle.std.specs.{Prelude.List, Prelude.ℕ, List.Sorted.IsStrictlyIncreasing};

    ghost Value = { List ℕ };

    ghost view = { λ channels. channels.items.items };

    ghost invariant = { λ channels. IsStrictlyIncreasing channels.items.items };
}

impl OwnChannels {
    /// A list without channels. It takes no memory.
    pub fn none(alloc: Global) -> OwnChannels
        ensures { result ≡ [] }
    {
        OwnChannels {
            items: Vec::new(alloc),
        }
    }

    /// The channels that a module pops, or pushes. `OutOfMemory` where memory ran out.
    pub fn new(alloc: Global, of: &Module, side: Side) -> Result<OwnChannels, OutOfMemory>
        ensures { IfOk result (λ channels. (f : ℕ) → uses (record { side = side; channel = f }) of.now ≡ true
            → place_in channels f < length channels) }
    {
        let mut items = Vec::new(alloc);
        for block in of.blocks.as_slice() {
            gather(block.ops.as_slice(), side, &mut items)?;
        }
        items.sort()?;
        items.dedup();
        Ok(OwnChannels { items })
    }

    /// The channels, in order.
    #[inline(always)]
    pub fn as_slice(&self) -> &[u32]
        ensures items { result.now ≡ self.now }
        ensures rise { IsStrictlyIncreasing self.now }
    {
        self.items.as_slice()
    }

    /// Becomes a copy of the other list. After `OutOfMemory` it has no channel.
    pub fn copy_from(&mut self, others: &OwnChannels) -> Result<(), OutOfMemory>
        ensures copy { OnOk result (self.new ≡ others.now) }
        ensures none { OnErr result (self.new ≡ []) }
    {
        self.items.truncate(0);
        self.items.extend_from_slice(others.items.as_slice())?;
        Ok(())
    }

    /// The place of a channel in the list, or the length of the list where the channel is not there.
    #[inline(always)]
    pub fn place(&self, channel: u32) -> usize
        ensures { result ≡ place_in self.now channel }
    {
        let place = place_of(self.items.as_slice(), channel);
        if stands_at(self.items.as_slice(), channel, place) {
            place
        } else {
            self.items.len()
        }
    }
}

/// Adds the channel that an operation pops, or pushes.
fn gather_one(op: &Op<u32>, side: Side, channels: &mut Vec<u32>) -> Result<(), OutOfMemory>
    ensures kept { OnOk result ((f : ℕ) → Contains channels.old.items f → Contains channels.new.items f) }
    ensures gathered { OnOk result (IsGathered side channels.new.items op.now) }
{
    match op.used_port() {
        Some(port) if port.side == side => channels.push(port.channel)?,
        Some(_) | None => {}
    }
    Ok(())
}

/// Adds the channels that these operations pop, or push.
fn gather(ops: &[Timed], side: Side, channels: &mut Vec<u32>) -> Result<(), OutOfMemory>
    ensures kept { OnOk result ((f : ℕ) → Contains channels.old.items f → Contains channels.new.items f) }
    ensures gathered { OnOk result (All (λ timed. IsGathered side channels.new.items timed.op) ops.now) }
{
    for timed in ops {
        gather_one(&timed.op, side, channels)?;
    }
    Ok(())
}

/// Whether the channel stands at this place of the list.
#[inline(always)]
fn stands_at(channels: &[u32], channel: u32, place: usize) -> bool
    ensures inside { result ≡ true → place < length channels.now }
    ensures there { result ≡ true → slice_index channels.now place ≡ channel }
    ensures none { result ≡ false → place < length channels.now → slice_index channels.now place ≡ channel → ⊥ }
{
    channels.get(place) == Some(&channel)
}

/// The place of a channel in a list in order. Where the channel is not there, the place means nothing.
#[inline(always)]
fn place_of(channels: &[u32], channel: u32) -> usize
    requires rise { IsStrictlyIncreasing channels.now }
    ensures { IsPlaceOf channels.now channel result }
{
    let mut from = 0usize;
    let mut after = channels.len();
    while after > from + 1 {
        let middle = from + (after - from) / 2;
        if channels[middle] <= channel {
            from = middle;
        } else {
            after = middle;
        }
    }
    from
}
