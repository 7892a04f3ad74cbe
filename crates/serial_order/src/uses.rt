//! What an operation uses, and what it writes.
ghost use Rattle.std.specs.Prelude.{◌≡◌};
ghost use Rattle.serial_order.specs.{places_written, expressions_of, memory_used, used_port, is_port, names, is_named, is_listed, is_this};
ghost use Rattle.serial_order.specs.{stored_in, writes, is_use};

use crate::order::Used;
use flow_design::{Expr, Op, Timed};
use flow_word::{Port, Side};

/// Whether an expression names this register or temp.
#[tactic(auto, using(crate::proofs::Naming::the_names))]
fn names(expr: &Expr<u32>, variable: u32) -> bool
    ensures { result ≡ names variable expr.now }
{
    match expr {
        Expr::Number(_) => false,
        Expr::Var(at) => *at == variable,
        Expr::Unary(_, a) | Expr::Sext(_, a) => names(a.get(), variable),
        Expr::Binary(_, a, b) => names(a.get(), variable) || names(b.get(), variable),
        Expr::Pick(a, b, c) => {
            names(a.get(), variable) || names(b.get(), variable) || names(c.get(), variable)
        }
    }
}

/// Whether one of an operation's expressions names this register or temp.
fn is_named(op: &Op<u32>, variable: u32) -> bool
    ensures { result ≡ is_named variable (expressions_of op.now) }
{
    match op {
        Op::Set(_, a)
        | Op::Load { address: a, .. }
        | Op::Write(_, a)
        | Op::TryWrite { value: a, .. } => { names(a, variable) }
        Op::Store { address, value, .. } => names(address, variable) || names(value, variable),
        Op::Read { .. } | Op::TryRead { .. } | Op::Empty { .. } | Op::Full { .. } => false,
    }
}

/// Whether an operation writes this register or temp.
fn is_place(op: &Op<u32>, variable: u32) -> bool
    ensures { result ≡ is_listed variable (places_written op.now) }
{
    match op {
        Op::Set(x, _)
        | Op::Load { target: x, .. }
        | Op::Read { target: x, .. }
        | Op::TryWrite { outcome: x, .. }
        | Op::Empty { target: x, .. }
        | Op::Full { target: x, .. } => *x == variable,
        Op::TryRead {
            target,
            outcome,
            ..
        } => *target == variable || *outcome == variable,
        Op::Store { .. } | Op::Write(_, _) => false,
    }
}

/// The memory that an operation reads or writes. `None` where it uses no memory.
fn memory_of(op: &Op<u32>) -> Option<u32>
    ensures { result ≡ memory_used op.now }
{
    match op {
        Op::Load { memory, .. } | Op::Store { memory, .. } => Some(*memory),
        Op::Set(_, _)
        | Op::Read { .. }
        | Op::Write(_, _)
        | Op::TryRead { .. }
        | Op::TryWrite { .. }
        | Op::Empty { .. }
        | Op::Full { .. } => None,
    }
}

/// The memory that an operation writes. `None` where it writes no memory.
fn stored_in(op: &Op<u32>) -> Option<u32>
    ensures { result ≡ stored_in op.now }
{
    match op {
        Op::Store { memory, .. } => Some(*memory),
        _ => None,
    }
}

/// Whether a port is there, and is this side of this channel.
fn is_end(port: Option<Port>, side: Side, channel: u32) -> bool
    ensures { result ≡ is_port (record { side = side; channel = channel }) port }
{
    port == Some(Port { side, channel })
}

/// Whether a number is there, and is the wanted one.
fn is_this(number: Option<u32>, wanted: u32) -> bool
    ensures { result ≡ is_this wanted number }
{
    number == Some(wanted)
}

/// Whether an operation writes a thing. A pop writes the reading end of its channel, and a push the writing end.
pub(crate) fn writes(op: &Op<u32>, used: Used) -> bool
    ensures { result ≡ writes used op.now }
{
    match used {
        Used::Register(register) => is_place(op, register),
        Used::Memory(memory) => is_this(stored_in(op), memory),
        Used::Reading(channel) => is_end(op.used_port(), Side::Pop, channel),
        Used::Writing(channel) => is_end(op.used_port(), Side::Push, channel),
    }
}

/// Whether a scheduled operation reads a thing, writes it, or has it as its guard.
pub(crate) fn is_use(timed: &Timed, used: Used) -> bool
    ensures { result ≡ is_use used timed.now }
{
    let op = &timed.op;
    match used {
        Used::Register(register) => {
            is_this(timed.guard, register) || is_named(op, register) || is_place(op, register)
        }
        Used::Memory(memory) => is_this(memory_of(op), memory),
        Used::Reading(channel) => is_end(op.port(), Side::Pop, channel),
        Used::Writing(channel) => is_end(op.port(), Side::Push, channel),
    }
}
