//! Cuts: lists of needs, and the demands on the depths of channels.
ghost use Rattle.std.specs.Prelude.{◌≡◌, ◌<◌, ◌≤◌, true, false, length, All};
ghost use Rattle.depth_cuts.specs.{IsMet, IsUnmet, MeetsBetween, cut_at};

use flow_word::{List, Words};

/// The need that a channel is at least so deep.
#[derive(Clone, Copy, Debug, PartialEq, Eq)]
pub struct Need {
    /// The number of the channel.
    pub channel: u32,
    /// The least depth that meets the need, in elements.
    pub depth: u64,
}

/// Needs, at least one of which must be met.
pub struct Cut {
    pub needs: List<Need>,
}

impl Drop for Cut {
    fn drop(self) {
        let Cut { needs: _needs } = self;
    }
}

/// What the depths of some channels must meet, and what each element of depth costs.
pub struct Demands {
    /// One entry per channel: the bits of an element.
    pub widths: Words,
    /// One entry per channel: the least depth, in elements.
    pub floors: Words,
    pub cuts: List<Cut>,
}

impl Drop for Demands {
    fn drop(self) {
        let Demands {
            widths: _widths,
            floors: _floors,
            cuts: _cuts,
        } = self;
    }
}

/// Whether the depths meet a cut: some channel is as deep as one of the cut's needs asks.
pub(crate) fn is_met(cut: &Cut, depths: &[u64]) -> bool
    requires { All (λ n. n.channel < length depths.now) cut.now.needs }
    ensures met { result ≡ true → IsMet cut.now depths.now }
    ensures unmet { result ≡ false → IsUnmet cut.now depths.now }
{
    let needs = cut.needs.as_slice();
    for place in 0..needs.len() {
        if needs[place].depth <= depths[needs[place].channel as usize] {
            return true;
        }
    }
    false
}

/// The place of the first cut, from `from` on, that the depths do not meet; the number of cuts where they meet all of these.
pub(crate) fn first_unmet(cuts: &[Cut], from: usize, depths: &[u64]) -> usize
    requires from { from ≤ length cuts.now }
    requires needs { All (λ cut. All (λ n. n.channel < length depths.now) cut.needs) cuts.now }
    ensures least { from ≤ result }
    ensures most { result ≤ length cuts.now }
    ensures met { MeetsBetween cuts.now from result depths.now }
    ensures unmet { result < length cuts.now → IsUnmet (cut_at cuts.now result) depths.now }
{
    for place in from..cuts.len() {
        if !is_met(&cuts[place], depths) {
            return place;
        }
    }
    cuts.len()
}
