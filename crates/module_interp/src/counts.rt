//! Counts of what went through the channels of a module.
ghost use Rattle.std.specs.Prelude.{◌≡◌, ℕ, ◌+◌, ◌<◌, ◌^◌, true, length, slice_index, slice_set, IfOk};
ghost use Rattle.module_interp.specs.{uses, place_in, AreCounts, HasCount, count_at};

use crate::own_channels::OwnChannels;
use flow_design::Module;
use flow_word::{OutOfMemory, Side, Words};
use std::alloc::Global;

/// For some channels of a module, how many elements were counted at each.
#[derive(Drop)]
pub struct Counts {
    pub channels: OwnChannels,
    /// The count of each channel, in the order of the channels.
    pub counts: Words,
}

impl Counts {
    /// The count 0 for each channel that a module pops, or pushes. `OutOfMemory` where memory ran out.
    pub fn new(alloc: Global, of: &Module, side: Side) -> Result<Counts, OutOfMemory>
        ensures sound { IfOk result (λ counts. AreCounts counts) }
        ensures own { IfOk result (λ counts. (f : ℕ) → uses (record { side = side; channel = f }) of.now ≡ true → HasCount counts f) }
        ensures none { IfOk result (λ counts. (f : ℕ) → count_at counts f ≡ 0) }
    {
        let channels = OwnChannels::new(alloc, of, side)?;
        let counts = Words::zeros(alloc, channels.as_slice().len() as u64)?;
        Ok(Counts { channels, counts })
    }

    /// Sets each count to 0. The channels stay.
    pub fn clear(&mut self)
        ensures same { self.new.channels ≡ self.old.channels }
        ensures sound { AreCounts self.old → AreCounts self.new }
        ensures none { (f : ℕ) → count_at self.new f ≡ 0 }
    {
        self.counts.as_mut_slice().fill(0);
    }

    /// The count of a channel; 0 where the channel is not counted.
    #[inline(always)]
    pub fn of(&self, channel: u32) -> u64
        ensures { result ≡ count_at self.now channel }
    {
        match self.counts.as_slice().get(self.channels.place(channel)) {
            Some(count) => *count,
            None => 0,
        }
    }

    /// Adds to the count of a channel, which must be counted.
    #[inline(always)]
    pub fn add(&mut self, channel: u32, more: u64)
        requires sound { AreCounts self.old }
        requires there { HasCount self.old channel }
        requires small { count_at self.old channel + more < 2 ^ 64 }
        ensures same { self.new.channels ≡ self.old.channels }
        ensures counts { self.new.counts
            ≡ slice_set self.old.counts (place_in self.old.channels channel) (count_at self.old channel + more) }
    {
        let place = self.channels.place(channel);
        add_at(&mut self.counts, place, more);
    }
}

/// Adds to the count at a place.
#[inline(always)]
fn add_at(counts: &mut Words, at: usize, more: u64)
    requires there { at < length counts.old }
    requires small { slice_index counts.old at + more < 2 ^ 64 }
    ensures { counts.new ≡ slice_set counts.old at (slice_index counts.old at + more) }
{
    counts.as_mut_slice()[at] += more;
}
