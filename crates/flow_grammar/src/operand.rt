//! Expressions while they are read.
ghost use Rattle.std.specs.Prelude.{◌≡◌, true, IfOk};
ghost use Rattle.flow_grammar.specs.{sized_operand, one, two, earlier, earlier_of, extend, widened, choose, is_number, number_of};

use crate::fault::Code;
use crate::words::width_of;
use flow_design::limits::{EXPRESSION_DEPTH, EXPRESSION_NODES};
use flow_design::{BinOp, Expr, Name, UnOp};
use flow_word::{Boxed, OutOfMemory, Width};
use std::alloc::Global;

/// An expression with its size, or the first test that it fails.
#[derive(Debug, Drop)]
pub enum ParsedOperand {
    Whole {
        tree: Expr<Name>,
        nodes: u32,
        depth: u32,
    },
    Faulty(Code),
}

/// The earlier of two tests that expressions may fail, in the order in which they are tried.
#[tactic(auto, unfolding(crate::specs::Operands::earlier))]
pub fn earlier_test(a: Code, b: Code) -> Code
    ensures { result ≡ earlier a b }
{
    match (a, b) {
        (Code::BadNumber, _) => Code::BadNumber,
        (Code::UnknownName, Code::BadNumber) => Code::BadNumber,
        (Code::UnknownName, _) => Code::UnknownName,
        _ => b,
    }
}

/// An expression with this many nodes and levels; where one of these numbers is above its limit, the code for that.
fn sized(tree: Expr<Name>, nodes: u64, depth: u64) -> ParsedOperand
    ensures { result ≡ sized_operand tree nodes depth }
{
    if nodes <= EXPRESSION_NODES && depth <= EXPRESSION_DEPTH {
        return ParsedOperand::Whole {
            tree,
            nodes: nodes as u32,
            depth: depth as u32,
        };
    }
    // The drop is a call, since one at the end of the block is proved field by field, which takes much longer.
    drop(tree);
    ParsedOperand::Faulty(Code::TooMany)
}

/// An operator on one operand. `OutOfMemory` where memory ran out.
#[tactic(auto, unfolding(crate::specs::Operands::one))]
pub fn apply_one(alloc: Global, op: UnOp, a: ParsedOperand) -> Result<ParsedOperand, OutOfMemory>
    ensures { IfOk result (λ operand. operand ≡ one op a) }
{
    match a {
        ParsedOperand::Faulty(code) => Ok(ParsedOperand::Faulty(code)),
        ParsedOperand::Whole { tree, nodes, depth } => {
            let tree = Expr::Unary(op, Boxed::new(alloc, tree)?);
            Ok(sized(tree, nodes as u64 + 1, depth as u64 + 1))
        }
    }
}

/// The earlier of a test and the test that an operand fails, if it fails one.
#[tactic(auto, unfolding(crate::specs::Operands::earlier_of))]
fn earlier_of(code: Code, operand: &ParsedOperand) -> Code
    ensures { result ≡ earlier_of code operand.now }
{
    match operand {
        ParsedOperand::Whole { .. } => code,
        ParsedOperand::Faulty(other) => earlier_test(code, *other),
    }
}

/// An operator on two operands. `OutOfMemory` where memory ran out.
#[tactic(auto, unfolding(crate::specs::Operands::two))]
pub fn apply_two(
    alloc: Global,
    op: BinOp,
    a: ParsedOperand,
    b: ParsedOperand,
) -> Result<ParsedOperand, OutOfMemory>
    ensures { IfOk result (λ operand. operand ≡ two op a b) }
{
    match a {
        ParsedOperand::Faulty(code) => {
            let code = earlier_of(code, &b);
            // The drop is a call, since one at the end of the block is proved field by field, which takes much longer.
            drop(b);
            Ok(ParsedOperand::Faulty(code))
        }
        ParsedOperand::Whole {
            tree: a,
            nodes: n,
            depth: d,
        } => match b {
            ParsedOperand::Faulty(code) => {
                drop(a);
                Ok(ParsedOperand::Faulty(code))
            }
            ParsedOperand::Whole {
                tree: b,
                nodes: m,
                depth: e,
            } => {
                let tree = Expr::Binary(op, Boxed::new(alloc, a)?, Boxed::new(alloc, b)?);
                let nodes = n as u64 + m as u64 + 1;
                Ok(sized(tree, nodes, d.max(e) as u64 + 1))
            }
        },
    }
}

/// `sext` on an operand, with a token for the number of bits. `OutOfMemory` where memory ran out.
#[tactic(auto, unfolding(crate::specs::Operands::extend), using(crate::proofs::Numbers::number_read))]
pub fn apply_extend(
    alloc: Global,
    bits: &[u8],
    a: ParsedOperand,
) -> Result<ParsedOperand, OutOfMemory>
    requires { is_number bits.now ≡ true }
    ensures { IfOk result (λ operand. operand ≡ extend (number_of bits.now) a) }
{
    match width_of(bits) {
        None => Ok(ParsedOperand::Faulty(Code::BadNumber)),
        Some(width) => widen(alloc, width, a),
    }
}

/// `sext` on an operand, with a width.
fn widen(alloc: Global, width: Width, a: ParsedOperand) -> Result<ParsedOperand, OutOfMemory>
    ensures { IfOk result (λ operand. operand ≡ widened width a) }
{
    match a {
        ParsedOperand::Faulty(code) => Ok(ParsedOperand::Faulty(code)),
        ParsedOperand::Whole { tree, nodes, depth } => {
            let tree = Expr::Sext(width, Boxed::new(alloc, tree)?);
            Ok(sized(tree, nodes as u64 + 1, depth as u64 + 1))
        }
    }
}

/// `?:` on three operands. `OutOfMemory` where memory ran out.
#[tactic(auto, unfolding(crate::specs::Operands::choose))]
pub fn apply_choose(
    alloc: Global,
    a: ParsedOperand,
    b: ParsedOperand,
    c: ParsedOperand,
) -> Result<ParsedOperand, OutOfMemory>
    ensures { IfOk result (λ operand. operand ≡ choose a b c) }
{
    match a {
        ParsedOperand::Faulty(code) => {
            let code = earlier_of(earlier_of(code, &b), &c);
            // The drops are calls, since one at the end of the block is proved field by field, which takes much longer.
            drop(b);
            drop(c);
            Ok(ParsedOperand::Faulty(code))
        }
        ParsedOperand::Whole {
            tree: a,
            nodes: n,
            depth: d,
        } => choose_of(alloc, a, n, d, b, c),
    }
}

/// `?:` on an expression, with its nodes and levels, and two operands.
#[tactic(auto, unfolding(crate::specs::Operands::choose))]
fn choose_of(
    alloc: Global,
    a: Expr<Name>,
    n: u32,
    d: u32,
    b: ParsedOperand,
    c: ParsedOperand,
) -> Result<ParsedOperand, OutOfMemory>
    ensures { IfOk result (λ operand. operand ≡ choose (ParsedOperand.Whole a n d) b c) }
{
    match b {
        ParsedOperand::Faulty(code) => {
            let code = earlier_of(code, &c);
            drop(a);
            drop(c);
            Ok(ParsedOperand::Faulty(code))
        }
        ParsedOperand::Whole {
            tree: b,
            nodes: m,
            depth: e,
        } => match c {
            ParsedOperand::Faulty(code) => {
                drop(a);
                drop(b);
                Ok(ParsedOperand::Faulty(code))
            }
            ParsedOperand::Whole {
                tree: c,
                nodes: l,
                depth: f,
            } => {
                let (a, b) = (Boxed::new(alloc, a)?, Boxed::new(alloc, b)?);
                let tree = Expr::Pick(a, b, Boxed::new(alloc, c)?);
                let nodes = n as u64 + m as u64 + l as u64 + 1;
                Ok(sized(tree, nodes, d.max(e.max(f)) as u64 + 1))
            }
        },
    }
}
