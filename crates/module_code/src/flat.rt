//! Expressions as flat code.
ghost use Rattle.std.specs.Prelude.{◌≡◌, ℕ, ◌+◌, ◌<◌, ◌≤◌, ◌++◌, [], List as Items, length, take, true, ◌∷◌, IfOk, IfSome, OnOk};
ghost use Rattle.flow_design.specs.declared.expr.Expr.{Binary as BinaryOf};
ghost use Rattle.module_code.specs.{binary, Instruction as InstructionOf, argument_value, result_of, ran, IsArgumentSound};
ghost use Rattle.module_code.specs.{IsInstructionSound, AreSound, IsCodeOf, declared.flat.Argument.TheVariants.Result as ResultAt};

use flow_design::{BinOp, Expr, UnOp};
use flow_expr::{binary, sign_extended, variable};
use flow_word::{List, OutOfMemory, Width};

/// What an instruction works on: a number, a register or temp, an operator on two of these, or the result of an earlier
/// instruction, which is named by its number.
#[derive(Clone, Copy, Debug, PartialEq)]
pub enum Argument {
    Number(u64),
    Var(u32),
    /// An operator on a register or temp and a number.
    VarNumber(BinOp, u32, u64),
    /// An operator on two registers or temps.
    VarVar(BinOp, u32, u32),
    Result(u64),
}

/// An instruction: one operator on its arguments.
#[derive(Clone, Copy, Debug, PartialEq)]
pub enum Instruction {
    Unary(UnOp, Argument),
    Binary(BinOp, Argument, Argument),
    Sext(Width, Argument),
    /// The second argument where the first is not 0, else the third.
    Pick(Argument, Argument, Argument),
}

/// The value of an argument, from the registers, the temps and the results of the earlier instructions.
#[inline(always)]
pub(crate) fn argument_value(
    arg: Argument,
    registers: &[u64],
    temps: &[u64],
    results: &[u64],
) -> u64
    requires { IsArgumentSound (length registers.now + length temps.now) (length results.now) arg }
    ensures { result ≡ argument_value registers.now temps.now results.now arg }
{
    match arg {
        Argument::Number(number) => number,
        Argument::Var(at) => variable(at, registers, temps),
        Argument::VarNumber(op, at, number) => binary(op, variable(at, registers, temps), number),
        Argument::VarVar(op, at, other) => binary(
            op,
            variable(at, registers, temps),
            variable(other, registers, temps),
        ),
        Argument::Result(at) => results[at as usize],
    }
}

/// The result of an instruction, from the registers, the temps and the results of the earlier instructions.
#[inline(always)]
pub(crate) fn result_of(
    instruction: &Instruction,
    registers: &[u64],
    temps: &[u64],
    results: &[u64],
) -> u64
    requires { IsInstructionSound (length registers.now + length temps.now) (length results.now) instruction.now }
    ensures { result ≡ result_of registers.now temps.now results.now instruction.now }
{
    match instruction {
        Instruction::Unary(UnOp::Not, a) => !argument_value(*a, registers, temps, results),
        Instruction::Binary(op, a, b) => binary(
            *op,
            argument_value(*a, registers, temps, results),
            argument_value(*b, registers, temps, results),
        ),
        Instruction::Sext(width, a) => sign_extended(
            *width,
            argument_value(*a, registers, temps, results),
        ),
        Instruction::Pick(a, b, c) => {
            if argument_value(*a, registers, temps, results) != 0 {
                argument_value(*b, registers, temps, results)
            } else {
                argument_value(*c, registers, temps, results)
            }
        }
    }
}

/// Runs code: its results are written from the beginning of `scratch` on, in order. It takes no memory.
#[inline(always)]
pub(crate) fn run(code: &[Instruction], registers: &[u64], temps: &[u64], scratch: &mut [u64])
    requires sound { AreSound (length registers.now + length temps.now) 0 code.now }
    requires room { length code.now ≤ length scratch.old }
    ensures results { take (length code.now) scratch.new ≡ ran registers.now temps.now [] code.now }
    ensures room { length scratch.new ≡ length scratch.old }
{
    for (at, instruction) in code.iter().enumerate() {
        let word = result_of(instruction, registers, temps, &scratch[..at]);
        scratch[at] = word;
    }
}

/// Adds an instruction to the code, and answers the argument that stands for its result.
fn add(instruction: Instruction, code: &mut List<Instruction>) -> Result<Argument, OutOfMemory>
    ensures grown { OnOk result (code.new ≡ code.old ++ instruction ∷ []) }
    ensures arg { IfOk result (λ arg. arg ≡ ResultAt (length code.old)) }
{
    let at = code.len();
    code.push(instruction)?;
    Ok(Argument::Result(at))
}

/// Whether an operator is known to give the same for two words in either order: a sum, a product, or one on bits.
#[tactic(auto, using(crate::proofs::Trees::the_commuting))]
fn commutes(op: BinOp) -> bool
    ensures { result ≡ true → (a b : ℕ) → binary op a b ≡ binary op b a }
{
    match op {
        BinOp::Add | BinOp::Mul | BinOp::And | BinOp::Or | BinOp::Xor => true,
        BinOp::Sub | BinOp::Shl | BinOp::Shr | BinOp::Div | BinOp::Rem => false,
        BinOp::Eq | BinOp::Ne | BinOp::LtU | BinOp::LtS => false,
    }
}

/// A binary operator as one argument. `None` unless its parts are two registers or temps, or one of them and a number in a
/// permitted order.
#[tactic(auto, using(crate::proofs::Trees::the_pairs))]
fn pair(op: BinOp, a: &Expr<u32>, b: &Expr<u32>) -> Option<Argument>
    ensures { IfSome result (λ arg. (code : Items InstructionOf) → IsCodeOf code code arg (BinaryOf op a.now b.now)) }
{
    match a {
        Expr::Var(at) => match b {
            Expr::Number(number) => Some(Argument::VarNumber(op, *at, *number)),
            Expr::Var(other) => Some(Argument::VarVar(op, *at, *other)),
            _ => None,
        },
        Expr::Number(number) => match b {
            Expr::Var(at) if commutes(op) => Some(Argument::VarNumber(op, *at, *number)),
            _ => None,
        },
        _ => None,
    }
}

/// Adds the code of an expression, and answers the argument that stands for its value.
#[tactic(auto, using(crate::proofs::Trees::the_code))]
pub(crate) fn flatten(
    expr: &Expr<u32>,
    code: &mut List<Instruction>,
) -> Result<Argument, OutOfMemory>
    ensures { IfOk result (λ arg. IsCodeOf code.old code.new arg expr.now) }
{
    match expr {
        Expr::Number(number) => Ok(Argument::Number(*number)),
        Expr::Var(at) => Ok(Argument::Var(*at)),
        Expr::Unary(op, a) => {
            let a = flatten(a.get(), code)?;
            let arg = add(Instruction::Unary(*op, a), code)?;
            Ok(arg)
        }
        Expr::Binary(op, a, b) => {
            if let Some(arg) = pair(*op, a.get(), b.get()) {
                return Ok(arg);
            }
            let a = flatten(a.get(), code)?;
            let b = flatten(b.get(), code)?;
            let arg = add(Instruction::Binary(*op, a, b), code)?;
            Ok(arg)
        }
        Expr::Sext(width, a) => {
            let a = flatten(a.get(), code)?;
            let arg = add(Instruction::Sext(*width, a), code)?;
            Ok(arg)
        }
        Expr::Pick(a, b, c) => {
            let a = flatten(a.get(), code)?;
            let b = flatten(b.get(), code)?;
            let c = flatten(c.get(), code)?;
            let arg = add(Instruction::Pick(a, b, c), code)?;
            Ok(arg)
        }
    }
}
