//! The operators of expressions, and the variables.
#![tactic(auto)]

ghost use Rattle.std.specs.Prelude.{◌≡◌, ◌+◌, ◌%◌, ◌^◌, ◌<◌, length};
ghost use Rattle.flow_design.specs.{variable, binary, extended};

use flow_design::BinOp;
use flow_word::{Width, cut};

/// The value of a register or temp: the temps of a body are numbered after the module's registers. It takes no memory.
#[inline(always)]
pub fn variable(at: u32, registers: &[u64], temps: &[u64]) -> u64
    requires { at < length registers.now + length temps.now }
    ensures { result ≡ variable registers.now temps.now at }
{
    let at = at as usize;
    if at < registers.len() {
        registers[at]
    } else {
        temps[at - registers.len()]
    }
}

/// The value of an operator on two words.
#[inline(always)]
pub fn binary(op: BinOp, a: u64, b: u64) -> u64
    ensures { result ≡ binary op a b }
{
    match op {
        BinOp::Add => a.wrapping_add(b),
        BinOp::Sub => a.wrapping_sub(b),
        BinOp::Mul => a.wrapping_mul(b),
        BinOp::And => a & b,
        BinOp::Or => a | b,
        BinOp::Xor => a ^ b,
        BinOp::Shl => shifted_left(a, b),
        BinOp::Shr => if b < 64 { a >> b } else { 0 },
        BinOp::Eq => (a == b) as u64,
        BinOp::Ne => (a != b) as u64,
        BinOp::LtU => (a < b) as u64,
        BinOp::LtS => (a.cast_signed() < b.cast_signed()) as u64,
        BinOp::Div => if b == 0 { u64::MAX } else { a / b },
        BinOp::Rem => if b == 0 { a } else { a % b },
    }
}

/// A word shifted to the left by a number of bits: 0 from 64 bits on.
#[inline(always)]
fn shifted_left(a: u64, b: u64) -> u64
    ensures { result ≡ binary BinOp.Shl a b }
{
    if b < 64 { a.wrapping_shl(b as u32) } else { 0 }
}

/// The low bits of a word, read in two's complement of that width.
pub fn sign_extended(width: Width, a: u64) -> u64
    ensures { result ≡ extended width (a % 2 ^ width) }
{
    let low = cut(a, width);
    let bits = width.number();
    if bits == 64 || low < 1 << (bits - 1) {
        low
    } else {
        low + (u64::MAX - ((1 << bits) - 1))
    }
}
