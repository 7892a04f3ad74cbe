//! Depths with which a plan ends late, and what must be deeper. The ends were worked out for each choice of depths.

use depth_cuts::{Need, find_cut};
use flow_design::Edit;
use flow_word::Place;
use path_check::{DepthTarget, asks_nothing, ends_after, find_latest, late_depth, never_ends};
use sim_core::{FinalCore, run_alone};
use std::process::Abort;
use std::test::Fail;
use worked_sessions::{TWO_LEAST_QUERIES, plan_of, read_plan};

/// The greatest depth of a FIFO, in elements.
const DEEPEST: u64 = 1_000_000;

/// Four values go through two FIFOs, from a module that ends last. The plan is done in clock 28 with depths of one, in 27 where
/// only the second FIFO is deeper, in 25 with a depth of two for the first, and in 24 from a depth of three on.
const TWO_FIFOS: &[u8] = b"\
flow 1
fifo first 8 1000000
fifo second 8 1000000
module P
block b 24
at 0 write first 1
at 1 write first 2
at 2 write first 3
at 3 write first 4
stop
module Q
reg x 8
block b 8
at 0 read first x
at 1 write second x
at 2 read first x
at 3 write second x
at 4 read first x
at 5 write second x
at 6 read first x
at 7 write second x
stop
module R
reg x 8
block b 23
at 4 read second x
at 10 read second x
at 16 read second x
at 22 read second x
stop
end
";

/// The last of four values is pushed before what their reader waits for. The plan is never done with a depth below four.
const LAST_FIRST: &[u8] = b"\
flow 1
fifo values 8 1000000
fifo go 8 1000000
module P
block b 5
at 0 write values 1
at 1 write values 2
at 2 write values 3
at 3 write values 4
at 4 write go 1
stop
module Q
reg x 8
block b 5
at 0 read go x
at 1 read values x
at 2 read values x
at 3 read values x
at 4 read values x
stop
end
";

/// Asserts that the cut found for these depths and a clock is the expected one.
fn compare_cut<R: AllocGlobal + Abort>(
    rt: &R,
    core: &FinalCore<'_>,
    depths: &[u64],
    clock: u64,
    expected: &[Need],
) -> Result<(), Fail> {
    match find_cut(rt.alloc(), core.engine(), depths, clock)? {
        Some(cut) => assert_eq!(rt; cut.needs.as_slice(), expected),
        None => panic!(rt; "no cut is found"),
    }
    Ok(())
}

/// The need that a channel has at least this depth.
fn need(channel: u32, depth: u64) -> Need {
    Need { channel, depth }
}

#[test]
fn finds_cuts(rt: HostRuntime) -> Result<(), Fail> {
    let run = run_alone(rt.alloc(), read_plan(rt.alloc(), TWO_FIFOS)?)?;
    let core = FinalCore::new(&run);
    let second = [need(0, 2), need(1, 2)];
    compare_cut(&rt, &core, &[1, 1], 27, second.as_slice())?;
    compare_cut(&rt, &core, &[1, 1], 26, [need(0, 2)].as_slice())?;
    compare_cut(&rt, &core, &[1, 4], 24, [need(0, 3)].as_slice())?;
    compare_cut(&rt, &core, &[4, 4], 23, &[])?;
    let found = find_cut(rt.alloc(), core.engine(), &[2, 1], 25)?;
    assert!(&rt; found.is_none());
    let held = run_alone(rt.alloc(), read_plan(rt.alloc(), LAST_FIRST)?)?;
    compare_cut(
        &rt,
        &FinalCore::new(&held),
        &[1, 1],
        1_000,
        [need(0, 4)].as_slice(),
    )
}

#[test]
fn checks_paths(rt: HostRuntime) -> Result<(), Fail> {
    let run = run_alone(rt.alloc(), read_plan(rt.alloc(), TWO_FIFOS)?)?;
    let core = FinalCore::new(&run);
    let pop = Place { module: 1, step: 2 };
    let push = Place { module: 0, step: 3 };
    let depths = [DEEPEST, DEEPEST];
    for (depth, clock, late) in [(2, 24, true), (2, 25, false), (3, 24, false)] {
        let edit = Some(Edit { channel: 0, depth });
        let shown = ends_after(core.engine(), &depths, edit, &[pop, push], clock);
        assert_eq!(&rt; shown, late);
        let listed = [depth, 1];
        let shown = ends_after(core.engine(), &listed, None, &[pop, push], clock);
        assert_eq!(&rt; shown, late);
    }
    assert!(&rt; !never_ends(core.engine(), &[1, 1], None, &[pop]));
    Ok(())
}

#[test]
fn bounds_depths(rt: HostRuntime) -> Result<(), Fail> {
    let run = run_alone(rt.alloc(), read_plan(rt.alloc(), TWO_FIFOS)?)?;
    let core = FinalCore::new(&run);
    let latest = find_latest(rt.alloc(), core.engine(), 24)?;
    for (channel, expected) in [(0, 3), (1, 1)] {
        let target = DepthTarget { channel, clock: 24 };
        let depth = late_depth(
            rt.alloc(),
            core.engine(),
            core.plan().depths.as_slice(),
            &latest,
            &target,
        )?;
        assert_eq!(&rt; depth, expected);
    }
    Ok(())
}

#[test]
fn finds_queries(rt: HostRuntime) -> Result<(), Fail> {
    let plain = read_plan(rt.alloc(), TWO_FIFOS)?;
    assert!(&rt; asks_nothing(plain.plan()));
    let asking = plan_of(rt.alloc(), TWO_LEAST_QUERIES)?;
    assert!(&rt; !asks_nothing(asking.plan()));
    Ok(())
}
