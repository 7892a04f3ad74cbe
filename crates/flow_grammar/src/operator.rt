//! The operators of expressions.
ghost use Rattle.std.specs.Prelude.{◌≡◌};
ghost use Rattle.flow_grammar.specs.{operator_of, operator_word, binary_word};

use crate::words::is_word;
use flow_design::{BinOp, UnOp};

/// An operator token, by what it does with the expressions that follow.
#[derive(Clone, Copy, Debug, PartialEq, Eq)]
pub enum Operator {
    /// An operator on one expression.
    One(UnOp),
    /// An operator on two expressions.
    Two(BinOp),
    /// `sext`, with its number of bits, on one expression.
    Extend,
    /// `?:`, on three expressions.
    Choose,
}

impl Operator {
    /// The operator's token.
    pub fn word(self) -> &'static [u8]
        ensures { result.now ≡ operator_word self }
    {
        match self {
            Operator::One(UnOp::Not) => b"~",
            Operator::Two(op) => binary_word(op),
            Operator::Extend => b"sext",
            Operator::Choose => b"?:",
        }
    }
}

/// The token of an operator on two words.
fn binary_word(op: BinOp) -> &'static [u8]
    ensures { result.now ≡ binary_word op }
{
    match op {
        BinOp::Add => b"+",
        BinOp::Sub => b"-",
        BinOp::Mul => b"*",
        BinOp::And => b"&",
        BinOp::Or => b"|",
        BinOp::Xor => b"^",
        BinOp::Shl => b"<<",
        BinOp::Shr => b">>",
        BinOp::Eq => b"==",
        BinOp::Ne => b"!=",
        BinOp::LtU => b"<u",
        BinOp::LtS => b"<s",
        BinOp::Div => b"/",
        BinOp::Rem => b"%",
    }
}

/// The operator that a token is. `None` where it is none.
#[tactic(auto, unfolding(crate::specs::Operators::operator_of))]
pub fn operator_in(token: &[u8]) -> Option<Operator>
    ensures { result ≡ operator_of token.now }
{
    let operators = [
        Operator::One(UnOp::Not),
        Operator::Two(BinOp::Add),
        Operator::Two(BinOp::Sub),
        Operator::Two(BinOp::Mul),
        Operator::Two(BinOp::And),
        Operator::Two(BinOp::Or),
        Operator::Two(BinOp::Xor),
        Operator::Two(BinOp::Shl),
        Operator::Two(BinOp::Shr),
        Operator::Two(BinOp::Eq),
        Operator::Two(BinOp::Ne),
        Operator::Two(BinOp::LtU),
        Operator::Two(BinOp::LtS),
        Operator::Two(BinOp::Div),
        Operator::Two(BinOp::Rem),
        Operator::Extend,
        Operator::Choose,
    ];
    operators
        .iter()
        .copied()
        .find(|operator| is_word(token, operator.word()))
}
