//! How many lists a grid has, and which list has which number.
ghost use Rattle.std.specs.Prelude.{◌≡◌, ◌<◌, ◌≤◌, ◌^◌, [], length, slice_index_or, IfOk, SomeIff};
ghost use Rattle.depth_sweep.specs.{grid, IsShape};

use flow_word::{List, OutOfMemory, Words};
use std::alloc::Global;

/// The most lists that a grid may have.
const MOST_POINTS: u64 = 4096;

/// The grid of all lists of `fifos` depths, each at least `lo` and at most `hi`, and how many lists that is.
#[derive(Clone, Copy, Debug)]
pub(crate) struct GridShape {
    pub lo: u64,
    pub hi: u64,
    pub fifos: u64,
    pub lists: u64,
}

/// The shape of a grid. `None` where it has more lists than a grid may have.
pub(crate) fn shape_of(lo: u64, hi: u64, fifos: u64) -> Option<GridShape>
    requires least { 1 ≤ lo }
    requires ordered { lo ≤ hi }
    requires most { hi ≤ 64 }
    ensures { SomeIff result (length (grid lo hi fifos) ≤ MOST_POINTS)
        (record { lo = lo; hi = hi; fifos = fifos; lists = length (grid lo hi fifos) }) }
{
    let lists = power(hi - lo + 1, fifos)?;
    Some(GridShape {
        lo,
        hi,
        fifos,
        lists,
    })
}

/// A power. `None` where it is greater than `MOST_POINTS`; it stops multiplying as soon as the product is.
fn power(base: u64, exponent: u64) -> Option<u64>
    requires least { 1 ≤ base }
    requires most { base ≤ 64 }
    ensures { SomeIff result (base ^ exponent ≤ MOST_POINTS) (base ^ exponent) }
{
    let mut product = 1;
    for _factor in 0..exponent {
        product *= base;
        if product > MOST_POINTS {
            return None;
        }
    }
    Some(product)
}

/// The list of a grid with this number. The digits of the number, the most significant first, tell how far each depth lies above
/// the least. `OutOfMemory` where memory ran out.
pub(crate) fn depths_at(alloc: Global, shape: &GridShape, number: u64) -> Result<Words, OutOfMemory>
    requires shape { IsShape shape.now }
    requires number { number < shape.now.lists }
    ensures { IfOk result (λ depths. depths ≡ slice_index_or (grid shape.now.lo shape.now.hi shape.now.fifos) number []) }
{
    let width = shape.hi - shape.lo + 1;
    let mut depths = List::with_room(alloc, shape.fifos)?;
    let mut unit = shape.lists;
    let mut rest = number;
    for _fifo in 0..shape.fifos {
        unit /= width;
        depths.push(shape.lo + rest / unit)?;
        rest %= unit;
    }
    Ok(depths)
}
