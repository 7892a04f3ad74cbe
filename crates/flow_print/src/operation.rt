//! Writing operations and their guards, after the offset.
ghost use Rattle.std.specs.Prelude.{◌≡◌, ◌∷◌, ◌++◌, OnOk};
ghost use Rattle.flow_print.specs.{expr_parts, guard_parts, op_parts, spaced_parts};

use crate::expression::print_expression;
use flow_design::{Expr, Name, Op};
use flow_grammar::Verb;
use flow_word::{List, OutOfMemory};
use report_text::push_token;

/// Adds `if R` for a guard, and nothing where there is none. After `OutOfMemory` the text may have part of it.
#[tactic(auto, unfolding(crate::specs::Canonical::spaced_parts))]
pub fn print_guard(text: &mut List<u8>, guard: &Option<Name>) -> Result<(), OutOfMemory>
    ensures { OnOk result (text.new ≡ text.old ++ spaced_parts (guard_parts guard.now)) }
{
    match guard {
        None => Ok(()),
        Some(place) => push_two(text, b"if", place),
    }
}

/// Adds an operation, as it is written after its offset and guard. After `OutOfMemory` the text may have part of it.
#[tactic(auto, using(crate::proofs::Printed::spaced_append), unfolding(crate::specs::Canonical::spaced_parts))]
pub fn print_operation(text: &mut List<u8>, op: &Op<Name>) -> Result<(), OutOfMemory>
    ensures { OnOk result (text.new ≡ text.old ++ spaced_parts (op_parts op.now)) }
{
    match op {
        Op::Set(target, value) => push_two_and(text, Verb::Set.word(), target, value),
        Op::Load {
            target,
            memory,
            address,
        } => push_three_and(text, Verb::Load.word(), target, memory, address),
        Op::Store {
            memory,
            address,
            value,
        } => {
            push_two_and(text, Verb::Store.word(), memory, address)?;
            print_expression(text, value)
        }
        Op::Read { channel, target } => push_three(text, Verb::Read.word(), channel, target),
        Op::Write(channel, value) => push_two_and(text, Verb::Write.word(), channel, value),
        Op::TryRead {
            channel,
            target,
            outcome,
        } => {
            push_three(text, Verb::TryRead.word(), channel, target)?;
            push_token(text, outcome.bytes())
        }
        Op::TryWrite {
            channel,
            outcome,
            value,
        } => push_three_and(text, Verb::TryWrite.word(), channel, outcome, value),
        Op::Empty { channel, target } => push_three(text, Verb::Empty.word(), channel, target),
        Op::Full { channel, target } => push_three(text, Verb::Full.word(), channel, target),
    }
}

/// Adds a word and a name.
fn push_two(text: &mut List<u8>, word: &[u8], name: &Name) -> Result<(), OutOfMemory>
    ensures { OnOk result (text.new ≡ text.old ++ 32 ∷ word.now ++ 32 ∷ name.now) }
{
    push_token(text, word)?;
    push_token(text, name.bytes())
}

/// Adds a word and two names.
fn push_three(
    text: &mut List<u8>,
    word: &[u8],
    first: &Name,
    second: &Name,
) -> Result<(), OutOfMemory>
    ensures { OnOk result (text.new ≡ text.old ++ 32 ∷ word.now ++ 32 ∷ first.now ++ 32 ∷ second.now) }
{
    push_two(text, word, first)?;
    push_token(text, second.bytes())
}

/// Adds a word, a name and an expression.
fn push_two_and(
    text: &mut List<u8>,
    word: &[u8],
    name: &Name,
    expr: &Expr<Name>,
) -> Result<(), OutOfMemory>
    ensures { OnOk result (text.new ≡ text.old ++ 32 ∷ word.now ++ 32 ∷ name.now ++ spaced_parts (expr_parts expr.now)) }
{
    push_two(text, word, name)?;
    print_expression(text, expr)
}

/// Adds a word, two names and an expression.
fn push_three_and(
    text: &mut List<u8>,
    word: &[u8],
    first: &Name,
    second: &Name,
    expr: &Expr<Name>,
) -> Result<(), OutOfMemory>
    ensures { OnOk result (text.new
        ≡ text.old ++ 32 ∷ word.now ++ 32 ∷ first.now ++ 32 ∷ second.now ++ spaced_parts (expr_parts expr.now)) }
{
    push_three(text, word, first, second)?;
    print_expression(text, expr)
}
