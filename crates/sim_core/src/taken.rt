//! How often marks take at the ports of their module.
ghost use Rattle.std.specs.Prelude.{◌≡◌, ℕ, ◌+◌, ◌<◌, ◌≤◌, cond, length, map, slice_get, slice_index, slice_index_or, slice_set, Some};
ghost use Rattle.std.specs.Prelude.{IfOk, IfSome, OnOk};
ghost use Rattle.sim_core.specs.{AreInParts, marks_of, takers, takes_at, seen, rank_of, taken_at, AreAdded, ArePortsInOrder};
ghost use Rattle.sim_core.specs.{AreTakenByMarks};

use flow_design::Advance;
use flow_word::{Access, OutOfMemory, Port, Side, Words};
use module_interp::MarkParts;
use std::alloc::Global;

/// The place of a port in the order of a module's ports: by channel, and of one channel the pops first.
fn rank(port: Port) -> u64
    ensures { result ≡ rank_of port }
{
    let side = match port.side {
        Side::Pop => 0,
        Side::Push => 1,
    };
    2 * u64::from(port.channel) + side
}

/// The number of the first of these ports whose rank is not below this one. They are in order.
fn first_from(ports: &[Port], least: u64) -> usize
    requires { ArePortsInOrder ports.now }
    ensures bound { result ≤ length ports.now }
    ensures below { (k : ℕ) (d : Port) → k < result → rank_of (slice_index_or ports.now k d) < least }
    ensures rest { (k : ℕ) (d : Port) → result ≤ k → k < length ports.now → least ≤ rank_of (slice_index_or ports.now k d) }
{
    ports.partition_point(|port| rank(*port) < least)
}

/// The number of a port among ports in order, if it is one of them.
fn place_of(ports: &[Port], port: Port) -> Option<usize>
    requires { ArePortsInOrder ports.now }
    ensures there { IfSome result (λ at. slice_get ports.now at ≡ Some port) }
    ensures only { (i : ℕ) → slice_get ports.now i ≡ Some port → result ≡ Some i }
{
    let least = rank(port);
    let at = first_from(ports, least);
    match ports.get(at) {
        Some(found) if rank(*found) == least => Some(at),
        Some(_) | None => None,
    }
}

/// Adds one to a number. `OutOfMemory` where it has no room for that.
fn add_one(numbers: &mut Words, at: usize) -> Result<(), OutOfMemory>
    requires { at < length numbers.old }
    ensures { OnOk result (numbers.new ≡ slice_set numbers.old at (slice_index numbers.old at + 1)) }
{
    let number = &mut numbers.as_mut_slice()[at];
    *number = number.checked_add(1).ok_or(OutOfMemory)?;
    Ok(())
}

/// Counts an access at its port, if it takes there.
fn count_access(ports: &[Port], access: &Access, taken: &mut Words) -> Result<(), OutOfMemory>
    requires in_order { ArePortsInOrder ports.now }
    requires count { length taken.old ≡ length ports.now }
    ensures { OnOk result (AreAdded ports.now (λ port. cond (takes_at port.side port.channel (seen access.now)) 1 0) taken.old taken.new) }
{
    if !access.kind.takes() {
        return Ok(());
    }
    let port = Port {
        side: access.kind.side(),
        channel: access.channel,
    };
    match place_of(ports, port) {
        Some(at) => add_one(taken, at),
        None => Ok(()),
    }
}

/// Counts the accesses of a step, each at its port, if it takes there.
fn count_accesses(ports: &[Port], accesses: &[Access], taken: &mut Words) -> Result<(), OutOfMemory>
    requires in_order { ArePortsInOrder ports.now }
    requires count { length taken.old ≡ length ports.now }
    ensures { OnOk result (AreAdded ports.now (λ port. takers port.side port.channel (map seen accesses.now)) taken.old taken.new) }
{
    for access in accesses {
        count_access(ports, access, taken)?;
    }
    Ok(())
}

/// Counts what a mark takes at each port.
fn count_mark(ports: &[Port], mark: &Advance, taken: &mut Words) -> Result<(), OutOfMemory>
    requires in_order { ArePortsInOrder ports.now }
    requires count { length taken.old ≡ length ports.now }
    ensures { OnOk result (AreAdded ports.now (λ port. taken_at port.side port.channel mark.now) taken.old taken.new) }
{
    match mark {
        Advance::Step(step) => count_accesses(ports, step.accesses.as_slice(), taken),
        Advance::Ended(_) | Advance::Spent(_) => Ok(()),
    }
}

/// How often these marks take at each of the ports, which are in order.
pub(crate) fn count_taken(
    alloc: Global,
    ports: &[Port],
    marks: &MarkParts,
) -> Result<Words, OutOfMemory>
    requires ports { ArePortsInOrder ports.now }
    requires parts { AreInParts marks.now }
    ensures { IfOk result (λ taken. AreTakenByMarks ports.now (marks_of marks.now) taken) }
{
    let mut taken = Words::zeros(alloc, ports.len() as u64)?;
    count_accesses(ports, marks.accesses.as_slice(), &mut taken)?;
    for mark in marks.others.as_slice() {
        count_mark(ports, mark, &mut taken)?;
    }
    Ok(taken)
}
