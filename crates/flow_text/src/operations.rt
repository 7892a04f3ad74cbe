//! Reading operations.
ghost use Rattle.std.specs.Prelude.{◌≡◌, map, ◌&&◌};
ghost use Rattle.flow_text.specs.{token_is_name, is_among, trees_of, LineGives, only_if, set_of, load_of, store_of, write_of, two_names};
ghost use Rattle.flow_text.specs.{try_read_of, try_write_of, tree_reading, trees_reading, op_reading, tree_kept, trees_kept, op_of_names};
ghost use Rattle.flow_text.specs.{is_variable};
ghost use Rattle.flow_design.specs.declared.expr.Op.TheVariants as op;

use crate::ensure::{Judged, Parsed, syntax};
use crate::tables::Tables;
use flow_design::{Expr, Name, Op};
use flow_grammar::{
    Code, KnownNames, LineFail, ParsedOperand, earlier_test, is_identifier, one_operand,
    two_operands,
};
use std::alloc::Global;

/// The expression of an operand, or the first test that fails. `known` tells whether the names beside the expression are known.
fn tree_of(known: bool, operand: ParsedOperand) -> Judged<Expr<Name>>
    ensures { result ≡ tree_kept known operand }
{
    match operand {
        ParsedOperand::Faulty(Code::BadNumber) => Err(Code::BadNumber),
        ParsedOperand::Faulty(code) => {
            if known {
                Err(code)
            } else {
                Err(Code::UnknownName)
            }
        }
        ParsedOperand::Whole { tree, .. } => {
            if known {
                Ok(tree)
            } else {
                Err(Code::UnknownName)
            }
        }
    }
}

/// Both expressions, or the first test that one of them fails.
fn both(first: Judged<Expr<Name>>, second: Judged<Expr<Name>>) -> Judged<(Expr<Name>, Expr<Name>)>
    ensures { result ≡ trees_kept first second }
{
    match first {
        Ok(a) => match second {
            Ok(b) => Ok((a, b)),
            Err(code) => Err(code),
        },
        Err(code) => match second {
            Ok(_) => Err(code),
            Err(other) => Err(earlier_test(code, other)),
        },
    }
}

/// The expression that tokens write, or the first test that fails. `known` tells whether the names beside it are known.
#[tactic(auto, using(crate::proofs::OperationLaws::tree_of_operand))]
fn tree(
    alloc: Global,
    tables: &Tables<'_>,
    known: bool,
    tokens: &[&[u8]],
) -> Parsed<Judged<Expr<Name>>>
    ensures { LineGives (λ r. r) result (tree_reading tables.now known (trees_of (map (λ t. t.now) tokens.now))) }
{
    let operand = one_operand(alloc, tables, tokens)?;
    Ok(tree_of(known, operand))
}

/// The two expressions that tokens write, or the first test that fails. `known` tells whether the name beside them is known.
#[tactic(auto, using(crate::proofs::OperationLaws::trees_of_operands))]
fn trees(
    alloc: Global,
    tables: &Tables<'_>,
    known: bool,
    tokens: &[&[u8]],
) -> Parsed<Judged<(Expr<Name>, Expr<Name>)>>
    ensures { LineGives (λ r. r) result (trees_reading tables.now known (trees_of (map (λ t. t.now) tokens.now))) }
{
    let (first, second) = two_operands(alloc, tables, tokens)?;
    Ok(both(tree_of(known, first), tree_of(true, second)))
}

/// `set R E`, after its verb.
pub fn set(alloc: Global, tables: &Tables<'_>, tokens: &[&[u8]]) -> Parsed<Judged<Op<Name>>>
    ensures { LineGives (λ o. o) result (op_reading tables.now (set_of (map (λ t. t.now) tokens.now))) }
{
    let [register, expression @ ..] = tokens else {
        return Err(LineFail::Fault(Code::Syntax));
    };
    syntax(is_identifier(register))?;
    let known = tables.is_known(register);
    let register = Name::new(alloc, *register)?;
    let tree = tree(alloc, tables, known, expression)?;
    Ok(tree.map(|tree| Op::Set(register, tree)))
}

/// Whether the first name is a variable, and the second a memory.
fn knows_load(tables: &Tables<'_>, register: &[u8], memory: &[u8]) -> bool
    ensures { result ≡ (is_variable tables.now register.now && is_among tables.now.memories memory.now) }
{
    tables.is_known(register) && tables.memories.has(memory)
}

/// `load R M E`, after its verb.
pub fn load(alloc: Global, tables: &Tables<'_>, tokens: &[&[u8]]) -> Parsed<Judged<Op<Name>>>
    ensures { LineGives (λ o. o) result (op_reading tables.now (load_of (map (λ t. t.now) tokens.now))) }
{
    let [register, memory, expression @ ..] = tokens else {
        return Err(LineFail::Fault(Code::Syntax));
    };
    syntax(is_identifier(register) && is_identifier(memory))?;
    let known = knows_load(tables, register, memory);
    let target = Name::new(alloc, *register)?;
    let memory = Name::new(alloc, *memory)?;
    let tree = tree(alloc, tables, known, expression)?;
    Ok(tree.map(|address| Op::Load {
        target,
        memory,
        address,
    }))
}

/// `store M E E`, after its verb.
pub fn store(alloc: Global, tables: &Tables<'_>, tokens: &[&[u8]]) -> Parsed<Judged<Op<Name>>>
    ensures { LineGives (λ o. o) result (op_reading tables.now (store_of (map (λ t. t.now) tokens.now))) }
{
    let [memory, expressions @ ..] = tokens else {
        return Err(LineFail::Fault(Code::Syntax));
    };
    syntax(is_identifier(memory))?;
    let known = tables.memories.has(memory);
    let memory = Name::new(alloc, *memory)?;
    let trees = trees(alloc, tables, known, expressions)?;
    Ok(trees.map(|(address, value)| Op::Store {
        memory,
        address,
        value,
    }))
}

/// `write F E`, after its verb.
pub fn write(alloc: Global, tables: &Tables<'_>, tokens: &[&[u8]]) -> Parsed<Judged<Op<Name>>>
    ensures { LineGives (λ o. o) result (op_reading tables.now (write_of (map (λ t. t.now) tokens.now))) }
{
    let [channel, expression @ ..] = tokens else {
        return Err(LineFail::Fault(Code::Syntax));
    };
    syntax(is_identifier(channel))?;
    let known = tables.channels.has(channel);
    let channel = Name::new(alloc, *channel)?;
    let tree = tree(alloc, tables, known, expression)?;
    Ok(tree.map(|tree| Op::Write(channel, tree)))
}

/// Whether the first name is a channel, and the second a variable.
fn knows_outcome(tables: &Tables<'_>, channel: &[u8], outcome: &[u8]) -> bool
    ensures { result ≡ (is_among tables.now.channels channel.now && is_variable tables.now outcome.now) }
{
    tables.channels.has(channel) && tables.is_known(outcome)
}

/// `trywrite F OK E`, after its verb.
pub fn try_write(alloc: Global, tables: &Tables<'_>, tokens: &[&[u8]]) -> Parsed<Judged<Op<Name>>>
    ensures { LineGives (λ o. o) result (op_reading tables.now (try_write_of (map (λ t. t.now) tokens.now))) }
{
    let [channel, outcome, expression @ ..] = tokens else {
        return Err(LineFail::Fault(Code::Syntax));
    };
    syntax(is_identifier(channel) && is_identifier(outcome))?;
    let known = knows_outcome(tables, channel, outcome);
    let channel = Name::new(alloc, *channel)?;
    let outcome = Name::new(alloc, *outcome)?;
    let tree = tree(alloc, tables, known, expression)?;
    Ok(tree.map(|value| Op::TryWrite {
        channel,
        outcome,
        value,
    }))
}

/// The operations that have only a channel and a variable.
#[derive(Clone, Copy)]
pub enum TwoNames {
    Read,
    Empty,
    Full,
}

/// The operation of this kind on a channel and a variable.
fn op_of_names(which: TwoNames, channel: Name, target: Name) -> Op<Name>
    ensures { result ≡ op_of_names which channel target }
{
    match which {
        TwoNames::Read => Op::Read { channel, target },
        TwoNames::Empty => Op::Empty { channel, target },
        TwoNames::Full => Op::Full { channel, target },
    }
}

/// The operation of this kind on a channel and a variable, or the first test that it fails.
#[tactic(auto, using(crate::proofs::OperationLaws::two_names_is))]
fn new_two_names(
    alloc: Global,
    tables: &Tables<'_>,
    which: TwoNames,
    channel: &[u8],
    register: &[u8],
) -> Parsed<Judged<Op<Name>>>
    ensures { LineGives (λ o. o) result
        (op_reading tables.now
        (only_if (token_is_name channel.now && token_is_name register.now) (op_of_names which channel.now register.now))) }
{
    syntax(is_identifier(channel) && is_identifier(register))?;
    if !knows_outcome(tables, channel, register) {
        return Ok(Err(Code::UnknownName));
    }
    let channel = Name::new(alloc, channel)?;
    Ok(Ok(op_of_names(which, channel, Name::new(alloc, register)?)))
}

/// `read F R`, `empty F R` or `full F R`, after its verb.
pub fn two_names(
    alloc: Global,
    tables: &Tables<'_>,
    which: TwoNames,
    tokens: &[&[u8]],
) -> Parsed<Judged<Op<Name>>>
    ensures { LineGives (λ o. o) result (op_reading tables.now (two_names (op_of_names which) (map (λ t. t.now) tokens.now))) }
{
    match tokens {
        [channel, register] => new_two_names(alloc, tables, which, *channel, *register),
        _ => Err(LineFail::Fault(Code::Syntax)),
    }
}

/// A `tryread` of a channel, with a variable for the value and one for the outcome.
#[tactic(auto, using(crate::proofs::OperationLaws::try_read_is))]
fn new_try_read(
    alloc: Global,
    tables: &Tables<'_>,
    channel: &[u8],
    register: &[u8],
    outcome: &[u8],
) -> Parsed<Judged<Op<Name>>>
    ensures { LineGives (λ o. o) result
        (op_reading tables.now
        (only_if (token_is_name channel.now && (token_is_name register.now && token_is_name outcome.now))
        (op.TryRead channel.now register.now outcome.now))) }
{
    syntax(is_identifier(channel) && is_identifier(register) && is_identifier(outcome))?;
    let known = tables.channels.has(channel)
        && tables.is_known(register)
        && tables.is_known(outcome);
    if !known {
        return Ok(Err(Code::UnknownName));
    }
    let channel = Name::new(alloc, channel)?;
    let target = Name::new(alloc, register)?;
    let outcome = Name::new(alloc, outcome)?;
    Ok(Ok(Op::TryRead {
        channel,
        target,
        outcome,
    }))
}

/// `tryread F R OK`, after its verb.
pub fn try_read(alloc: Global, tables: &Tables<'_>, tokens: &[&[u8]]) -> Parsed<Judged<Op<Name>>>
    ensures { LineGives (λ o. o) result (op_reading tables.now (try_read_of (map (λ t. t.now) tokens.now))) }
{
    match tokens {
        [channel, register, outcome] => new_try_read(alloc, tables, *channel, *register, *outcome),
        _ => Err(LineFail::Fault(Code::Syntax)),
    }
}
