//! The cheapest depths that meet cuts.
ghost use Rattle.std.specs.Prelude.{IfOk};
ghost use Rattle.depth_cuts.specs.{bits_of, AreCheapest, AreDemands};

use crate::cuts::Demands;
use crate::order::{Choice, bits_of};
use crate::search::search;
use flow_word::{List, OutOfMemory, Words};
use std::alloc::Global;

/// The depths that are at least the floors, meet all cuts, and take the fewest bits; of several such, the first in lexicographic
/// order. `None` where no depths meet the cuts.
///
/// It tries the needs of one cut after the other, as long as fewer bits may be found: in the worst case as often as there are ways
/// to choose a need of each cut. It takes memory for a few numbers of each channel. `OutOfMemory` where memory ran out.
pub fn cheapest(alloc: Global, demands: &Demands) -> Result<Option<Words>, OutOfMemory>
    requires { AreDemands demands.now }
    ensures { IfOk result (λ found. AreCheapest demands.now found) }
{
    let mut at = Choice {
        depths: List::from_slice(alloc, demands.floors.as_slice())?,
        bits: bits_of(demands.widths.as_slice(), demands.floors.as_slice()),
    };
    let mut best = None;
    search(alloc, demands, 0, &mut at, &mut best)?;
    match best {
        Some(found) => Ok(Some(found.into_depths())),
        None => Ok(None),
    }
}
