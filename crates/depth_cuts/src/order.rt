//! Which of two lists of depths is the better.
ghost use Rattle.std.specs.Prelude.{◌≡◌, ℕ, ◌*◌, ◌≤◌, ◌⊎◌, true, false, length, slice_index, All, List as Items, IfOk};
ghost use Rattle.flow_design.specs.declared.limits.TheConstants.{CHANNELS, FIFO_DEPTH};
ghost use Rattle.depth_cuts.specs.{bits_of, ComesBefore, IsEarlier, IsNoWorse};

use flow_word::{List, OutOfMemory, Words};
use std::alloc::Global;

/// Depths, and how many bits FIFOs of these depths take.
pub(crate) struct Choice {
    /// One entry per channel, in elements.
    pub(crate) depths: Words,
    pub(crate) bits: u64,
}

impl Drop for Choice {
    fn drop(self) {
        let Choice {
            depths: _depths,
            bits: _bits,
        } = self;
    }
}

impl Choice {
    /// The depths of the choice, without their bits.
    pub(crate) fn into_depths(self) -> Words
        ensures { result ≡ self.depths }
    {
        let Choice {
            depths,
            bits: _bits,
        } = self;
        depths
    }

    /// A copy of the choice. `OutOfMemory` where memory ran out.
    pub(crate) fn copied(&self, alloc: Global) -> Result<Choice, OutOfMemory>
        ensures { IfOk result (λ copy. copy ≡ self.now) }
    {
        Ok(Choice {
            depths: List::from_slice(alloc, self.depths.as_slice())?,
            bits: self.bits,
        })
    }
}

/// How many bits FIFOs of these widths, in bits, and these depths, in elements, take in all.
pub fn bits_of(widths: &[u64], depths: &[u64]) -> u64
    requires count { length widths.now ≡ length depths.now }
    requires few { length depths.now ≤ CHANNELS }
    requires narrow { All (λ w. w ≤ 64) widths.now }
    requires most { (f : ℕ) → slice_index depths.now f ≤ FIFO_DEPTH }
    ensures { result ≡ bits_of widths.now depths.now }
{
    let mut bits = 0;
    for channel in 0..widths.len() {
        bits += widths[channel] * depths[channel];
    }
    bits
}

/// Whether the first choice takes fewer bits than the other, or as many and its depths are the same or lexicographically earlier.
pub(crate) fn is_no_worse(first: &Choice, other: &Choice) -> bool
    requires { length first.now.depths ≡ length other.now.depths }
    ensures yes { (widths : Items ℕ) → first.now.bits ≡ bits_of widths first.now.depths
        → other.now.bits ≡ bits_of widths other.now.depths → result ≡ true
        → IsNoWorse widths first.now.depths other.now.depths }
    ensures no { (widths : Items ℕ) → first.now.bits ≡ bits_of widths first.now.depths
        → other.now.bits ≡ bits_of widths other.now.depths → result ≡ false
        → ComesBefore widths other.now.depths first.now.depths }
{
    if first.bits == other.bits {
        return is_no_later(first.depths.as_slice(), other.depths.as_slice());
    }
    first.bits < other.bits
}

/// Whether two lists are the same, or the first has the lesser item at the first place where they differ.
fn is_no_later(first: &[u64], other: &[u64]) -> bool
    requires { length first.now ≡ length other.now }
    ensures yes { result ≡ true → (first.now ≡ other.now) ⊎ IsEarlier first.now other.now }
    ensures no { result ≡ false → IsEarlier other.now first.now }
{
    for place in 0..first.len() {
        if first[place] != other[place] {
            return first[place] < other[place];
        }
    }
    true
}
