//! The rules of serial modules: each function finds the first breach of one of them.
ghost use Rattle.std.specs.Prelude.{◌≡◌, ◌<◌, ◌^◌, length, find};
ghost use Rattle.serial_order.specs.{is_query, head, numbers_where, writes_late, first_use, last_use, is_written_at, is_wide, things};

use crate::order::Used;
use crate::uses::{is_use, writes};
use flow_design::{Op, Timed};

/// Whether an operation is a query.
fn is_query(op: &Op<u32>) -> bool
    ensures { result ≡ is_query op.now }
{
    match op.access() {
        Some((kind, _)) => !kind.is_blocking(),
        None => false,
    }
}

/// The number of the first query operation of a body, counted from 0 in text order. `None` where it has no query.
pub(crate) fn first_query(ops: &[Timed]) -> Option<u32>
    requires { length ops.now < 2 ^ 32 }
    ensures { result ≡ head (numbers_where (λ t. is_query t.op) ops.now) }
{
    for (at, timed) in ops.iter().enumerate() {
        if is_query(&timed.op) {
            return Some(at as u32);
        }
    }
    None
}

/// Whether an operation writes the loop's register at an offset of II or more.
fn is_late(timed: &Timed, ii: u64, again: u32) -> bool
    ensures { result ≡ writes_late ii again timed.now }
{
    ii <= timed.offset && writes(&timed.op, Used::Register(again))
}

/// The number of the first operation of a loop that writes the loop's register at an offset of II or more. `None` where none does.
pub(crate) fn first_late(ops: &[Timed], ii: u64, again: u32) -> Option<u32>
    requires { length ops.now < 2 ^ 32 }
    ensures { result ≡ head (numbers_where (writes_late ii again) ops.now) }
{
    for (at, timed) in ops.iter().enumerate() {
        if is_late(timed, ii, again) {
            return Some(at as u32);
        }
    }
    None
}

/// The first and the last offset, in clocks, at which a body uses a thing.
struct Span {
    first: u64,
    last: u64,
}

/// The first and the last offset at which a body uses a thing. Where the body does not use it, the first offset is greater than the
/// last.
fn span_of(ops: &[Timed], used: Used) -> Span
    ensures first { result.first ≡ first_use used ops.now }
    ensures last { result.last ≡ last_use used ops.now }
{
    let mut first = u64::MAX;
    let mut last = 0;
    for timed in ops {
        if is_use(timed, used) {
            first = first.min(timed.offset);
            last = last.max(timed.offset);
        }
    }
    Span { first, last }
}

/// Whether an operation at this offset writes the thing.
fn is_written_at(ops: &[Timed], used: Used, offset: u64) -> bool
    ensures { result ≡ is_written_at offset used ops.now }
{
    ops.iter()
        .any(|timed| timed.offset == offset && writes(&timed.op, used))
}

/// Whether the last use of a thing is more than II clocks after its first, or exactly II after it with a write at the last offset.
fn is_wide(ops: &[Timed], ii: u64, used: Used) -> bool
    ensures { result ≡ is_wide ii ops.now used }
{
    let Span { first, last } = span_of(ops, used);
    let reach = last.saturating_sub(first);
    ii < reach || reach == ii && is_written_at(ops, used, last)
}

/// The first thing whose uses lie too far apart for this II, among this many registers, memories and channels. `None` where no
/// thing's uses do.
pub(crate) fn first_wide(
    ops: &[Timed],
    ii: u64,
    registers: u32,
    memories: u32,
    channels: u32,
) -> Option<Used>
    ensures { result ≡ find (is_wide ii ops.now) (things registers memories channels) }
{
    (0..registers)
        .map(Used::Register)
        .chain((0..memories).map(Used::Memory))
        .chain((0..channels).map(Used::Reading))
        .chain((0..channels).map(Used::Writing))
        .find(|used| is_wide(ops, ii, *used))
}
