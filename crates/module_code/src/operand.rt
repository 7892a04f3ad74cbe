//! The operands of actions: expressions, of which short ones need no list of instructions.
ghost use Rattle.std.specs.Prelude.{◌≡◌, ℕ, ◌+◌, ◌≤◌, [], length, IfOk};
ghost use Rattle.module_code.specs.{Expr as ExprOf, value, IsCodeOf, IsInstructionSound, result_of, operand_value, IsOperandSound};
ghost use Rattle.module_code.specs.{operand_room, IsOperandOf};

use crate::flat::{Argument, Instruction, argument_value, flatten, result_of, run};
use flow_design::{BinOp, Expr};
use flow_expr::{binary, variable};
use flow_word::{List, OutOfMemory};
use std::alloc::Global;

/// An expression as an action holds it.
#[derive(Debug)]
pub enum Operand {
    Number(u64),
    Var(u32),
    /// An operator on a register or temp and a number.
    VarNumber(BinOp, u32, u64),
    /// An operator on two registers or temps.
    VarVar(BinOp, u32, u32),
    /// One instruction, which needs no result of another.
    Single(Instruction),
    /// Code, and the argument that stands for the value.
    Long(List<Instruction>, Argument),
}

impl Drop for Operand {
    fn drop(self) {
        match self {
            Operand::Number(_a) => {}
            Operand::Var(_a) => {}
            Operand::VarNumber(_a, _b, _c) => {}
            Operand::VarVar(_a, _b, _c) => {}
            Operand::Single(_a) => {}
            Operand::Long(_a, _b) => {}
        }
    }
}

impl Operand {
    /// How many words of `scratch` the operand needs for the results of its instructions.
    pub(crate) fn room(&self) -> u64
        ensures { result ≡ operand_room self.now }
    {
        match self {
            Operand::Number(_) | Operand::Var(_) | Operand::Single(_) => 0,
            Operand::VarNumber(_, _, _) | Operand::VarVar(_, _, _) => 0,
            Operand::Long(code, _) => code.len(),
        }
    }
}

/// The value of an operand. It takes no memory: the results of its instructions go to `scratch`.
#[inline(always)]
pub(crate) fn evaluate(
    operand: &Operand,
    registers: &[u64],
    temps: &[u64],
    scratch: &mut [u64],
) -> u64
    requires sound { IsOperandSound (length registers.now + length temps.now) operand.now }
    requires room { operand_room operand.now ≤ length scratch.old }
    ensures value { result ≡ operand_value registers.now temps.now operand.now }
    ensures room { length scratch.new ≡ length scratch.old }
{
    match operand {
        Operand::Number(number) => *number,
        Operand::Var(at) => variable(*at, registers, temps),
        Operand::VarNumber(op, at, number) => {
            binary(*op, variable(*at, registers, temps), *number)
        }
        Operand::VarVar(op, at, other) => binary(
            *op,
            variable(*at, registers, temps),
            variable(*other, registers, temps),
        ),
        Operand::Single(instruction) => single_result(instruction, registers, temps),
        Operand::Long(code, arg) => long_value(code.as_slice(), *arg, registers, temps, scratch),
    }
}

/// The value of an argument after the code before it has run. It is a call of its own, so that `evaluate` is small enough to be inlined
/// wherever an action has an operand.
#[inline(never)]
fn long_value(
    code: &[Instruction],
    arg: Argument,
    registers: &[u64],
    temps: &[u64],
    scratch: &mut [u64],
) -> u64
    requires sound { IsOperandSound (length registers.now + length temps.now) (Operand.Long code.now arg) }
    requires room { length code.now ≤ length scratch.old }
    ensures value { result ≡ operand_value registers.now temps.now (Operand.Long code.now arg) }
    ensures room { length scratch.new ≡ length scratch.old }
{
    run(code, registers, temps, scratch);
    argument_value(arg, registers, temps, &scratch[..code.len()])
}

/// The result of an instruction that needs no other result.
#[inline(never)]
fn single_result(instruction: &Instruction, registers: &[u64], temps: &[u64]) -> u64
    requires { IsInstructionSound (length registers.now + length temps.now) 0 instruction.now }
    ensures { result ≡ result_of registers.now temps.now [] instruction.now }
{
    result_of(instruction, registers, temps, &[])
}

/// Code and the argument for its value as an operand, in the shortest form.
#[tactic(auto, using(crate::proofs::Forms::the_forms))]
fn operand_by(code: List<Instruction>, arg: Argument) -> Operand
    ensures { (e : ExprOf ℕ) → IsCodeOf [] code arg e → IsOperandOf result e }
{
    match arg {
        Argument::Result(0) if code.len() == 1 => Operand::Single(code.as_slice()[0]),
        Argument::Result(_) => Operand::Long(code, arg),
        Argument::Number(number) => Operand::Number(number),
        Argument::Var(at) => Operand::Var(at),
        Argument::VarNumber(op, at, number) => Operand::VarNumber(op, at, number),
        Argument::VarVar(op, at, other) => Operand::VarVar(op, at, other),
    }
}

/// Compiles an expression into an operand.
pub(crate) fn operand_of(alloc: Global, expr: &Expr<u32>) -> Result<Operand, OutOfMemory>
    ensures { IfOk result (λ operand. IsOperandOf operand expr.now) }
{
    let mut code = List::new(alloc);
    let arg = flatten(expr, &mut code)?;
    Ok(operand_by(code, arg))
}
