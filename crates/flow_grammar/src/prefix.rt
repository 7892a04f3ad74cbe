//! Expressions in prefix form.
ghost use Rattle.std.specs.Prelude.{◌≡◌, ℕ, Bool, true, List, map, option_map, IfOk};
ghost use Rattle.flow_grammar.specs.{is_number, number_of, trees_of, LineGives, only_operand, both_operands, operand_of_number};
ghost use Rattle.flow_grammar.specs.{operand_of_name, take_token, apply, Takes, operand_seen, operand_kept};

use crate::fault::{Code, LineFail};
use crate::operand::{ParsedOperand, apply_choose, apply_extend, apply_one, apply_two};
use crate::operator::{Operator, operator_in};
use crate::stack::Stack;
use crate::words::{is_identifier, is_numeral};
use flow_design::{BinOp, Expr, Name, UnOp};
use flow_word::{OutOfMemory, read_number};
use std::alloc::Global;

/// Tells which names are known as variables.
pub trait KnownNames {
    ghost knows: { Self → List ℕ → Bool };

    /// Whether the name is known as a variable.
    fn is_known(&self, name: &[u8]) -> bool
        ensures { result ≡ knows self.now name.now };
}

/// The operand that a number is.
#[tactic(auto, using(crate::proofs::Numbers::number_read))]
fn number_operand(token: &[u8]) -> ParsedOperand
    requires { is_number token.now ≡ true }
    ensures { result ≡ operand_of_number (number_of token.now) }
{
    match read_number(token) {
        Ok(value) => ParsedOperand::Whole {
            tree: Expr::Number(value),
            nodes: 1,
            depth: 1,
        },
        Err(_) => ParsedOperand::Faulty(Code::BadNumber),
    }
}

/// The operand that a name is.
fn name_operand<K: KnownNames>(
    alloc: Global,
    known: &K,
    token: &[u8],
) -> Result<ParsedOperand, OutOfMemory>
    ensures { IfOk result (λ operand. operand ≡ operand_of_name (K.knows known.now) token.now) }
{
    if known.is_known(token) {
        Ok(ParsedOperand::Whole {
            tree: Expr::Var(Name::new(alloc, token)?),
            nodes: 1,
            depth: 1,
        })
    } else {
        Ok(ParsedOperand::Faulty(Code::UnknownName))
    }
}

/// Applies an operator to the operand on top of the stack. Returns whether there is one.
fn take_one(
    alloc: Global,
    op: UnOp,
    after: &[&[u8]],
    stack: &mut Stack<ParsedOperand>,
) -> Result<bool, OutOfMemory>
    ensures { IfOk result (λ taken. Takes taken stack.new (apply (Operator.One op) (map (λ t. t.now) after.now) stack.old)) }
{
    match stack.pop() {
        None => Ok(false),
        Some(a) => {
            stack.push(apply_one(alloc, op, a)?)?;
            Ok(true)
        }
    }
}

/// Applies an operator to the two operands on top of the stack. Returns whether there are two.
fn take_two(
    alloc: Global,
    op: BinOp,
    after: &[&[u8]],
    stack: &mut Stack<ParsedOperand>,
) -> Result<bool, OutOfMemory>
    ensures { IfOk result (λ taken. Takes taken stack.new (apply (Operator.Two op) (map (λ t. t.now) after.now) stack.old)) }
{
    match stack.pop() {
        None => Ok(false),
        Some(a) => match stack.pop() {
            None => Ok(false),
            Some(b) => {
                stack.push(apply_two(alloc, op, a, b)?)?;
                Ok(true)
            }
        },
    }
}

/// Applies `?:` to the three operands on top of the stack. Returns whether there are three.
fn take_three(
    alloc: Global,
    after: &[&[u8]],
    stack: &mut Stack<ParsedOperand>,
) -> Result<bool, OutOfMemory>
    ensures { IfOk result (λ taken. Takes taken stack.new (apply Operator.Choose (map (λ t. t.now) after.now) stack.old)) }
{
    match stack.pop() {
        None => Ok(false),
        Some(a) => match stack.pop() {
            None => Ok(false),
            Some(b) => match stack.pop() {
                None => Ok(false),
                Some(c) => {
                    stack.push(apply_choose(alloc, a, b, c)?)?;
                    Ok(true)
                }
            },
        },
    }
}

/// Applies `sext` to the operand on top of the stack. The token after it is the number of bits. Returns whether there are both.
fn take_extend(
    alloc: Global,
    after: &[&[u8]],
    stack: &mut Stack<ParsedOperand>,
) -> Result<bool, OutOfMemory>
    ensures { IfOk result (λ taken. Takes taken stack.new (apply Operator.Extend (map (λ t. t.now) after.now) stack.old)) }
{
    match after {
        [] => Ok(false),
        [bits, ..] => match stack.pop() {
            None => Ok(false),
            Some(_) => match stack.pop() {
                None => Ok(false),
                Some(a) => {
                    if !is_numeral(bits) {
                        return Ok(false);
                    }
                    stack.push(apply_extend(alloc, bits, a)?)?;
                    Ok(true)
                }
            },
        },
    }
}

/// Takes one more token, which stands before those that were taken. Returns whether the tokens still write expressions.
#[tactic(auto, unfolding(crate::specs::Operands::take_token))]
fn take<K: KnownNames>(
    alloc: Global,
    known: &K,
    token: &[u8],
    after: &[&[u8]],
    stack: &mut Stack<ParsedOperand>,
) -> Result<bool, OutOfMemory>
    ensures { IfOk result
        (λ taken. Takes taken stack.new (take_token (K.knows known.now) token.now (map (λ t. t.now) after.now) stack.old)) }
{
    if is_numeral(token) {
        stack.push(number_operand(token))?;
        return Ok(true);
    }
    if is_identifier(token) {
        stack.push(name_operand(alloc, known, token)?)?;
        return Ok(true);
    }
    match operator_in(token) {
        None => Ok(false),
        Some(Operator::One(op)) => take_one(alloc, op, after, stack),
        Some(Operator::Two(op)) => take_two(alloc, op, after, stack),
        Some(Operator::Extend) => take_extend(alloc, after, stack),
        Some(Operator::Choose) => take_three(alloc, after, stack),
    }
}

/// The expressions that tokens write one after the other, the first one on top of the stack. The tokens are taken from the last to
/// the first. `None` where they write no expressions.
fn read_back<K: KnownNames>(
    alloc: Global,
    known: &K,
    tokens: &[&[u8]],
) -> Result<Option<Stack<ParsedOperand>>, OutOfMemory>
    ensures { IfOk result (λ found. found ≡ option_map (map (operand_seen (K.knows known.now))) (trees_of (map (λ t. t.now) tokens.now))) }
{
    let mut stack = Stack::new(alloc);
    let mut at = tokens.len();
    while at > 0 {
        at -= 1;
        let (_, rest) = tokens.split_at(at);
        let (_, after) = rest.split_at(1);
        if !take(alloc, known, rest[0], after, &mut stack)? {
            return Ok(None);
        }
    }
    Ok(Some(stack))
}

/// The expressions that tokens write one after the other, the first one on top of the stack. Each is whole, or is the first test that
/// it fails. `None` where the tokens write no expressions. `OutOfMemory` where memory ran out.
#[tactic(auto, using(crate::proofs::Kept::kept_all))]
pub fn operands<K: KnownNames>(
    alloc: Global,
    known: &K,
    tokens: &[&[u8]],
) -> Result<Option<Stack<ParsedOperand>>, OutOfMemory>
    ensures { IfOk result (λ found. found ≡ option_map (map (operand_kept (K.knows known.now))) (trees_of (map (λ t. t.now) tokens.now))) }
{
    let found = read_back(alloc, known, tokens)?;
    Ok(found)
}

/// The expression that tokens write. The error is `Syntax` where they do not write exactly one.
pub fn one_operand<K: KnownNames>(
    alloc: Global,
    known: &K,
    tokens: &[&[u8]],
) -> Result<ParsedOperand, LineFail>
    ensures { LineGives (λ o. o) result
        (only_operand (option_map (map (operand_kept (K.knows known.now))) (trees_of (map (λ t. t.now) tokens.now)))) }
{
    let found = operands(alloc, known, tokens)?;
    let mut stack = found.ok_or(LineFail::Fault(Code::Syntax))?;
    let operand = stack.pop().ok_or(LineFail::Fault(Code::Syntax))?;
    match stack.pop() {
        None => Ok(operand),
        Some(_) => Err(LineFail::Fault(Code::Syntax)),
    }
}

/// The two expressions that tokens write. The error is `Syntax` where they do not write exactly two.
pub fn two_operands<K: KnownNames>(
    alloc: Global,
    known: &K,
    tokens: &[&[u8]],
) -> Result<(ParsedOperand, ParsedOperand), LineFail>
    ensures { LineGives (λ o. o) result
        (both_operands (option_map (map (operand_kept (K.knows known.now))) (trees_of (map (λ t. t.now) tokens.now)))) }
{
    let found = operands(alloc, known, tokens)?;
    let mut stack = found.ok_or(LineFail::Fault(Code::Syntax))?;
    let first = stack.pop().ok_or(LineFail::Fault(Code::Syntax))?;
    let second = stack.pop().ok_or(LineFail::Fault(Code::Syntax))?;
    match stack.pop() {
        None => Ok((first, second)),
        Some(_) => Err(LineFail::Fault(Code::Syntax)),
    }
}
