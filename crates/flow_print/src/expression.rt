//! Writing expressions in prefix form.
ghost use Rattle.std.specs.Prelude.{◌≡◌, ◌++◌, OnOk};
ghost use Rattle.flow_print.specs.{expr_parts, spaced_parts};

use flow_design::{Expr, Name, UnOp};
use flow_grammar::Operator;
use flow_word::{List, OutOfMemory};
use report_text::{push_token, push_value};

/// Adds an expression: each operator comes before its operands. After `OutOfMemory` the text may have part of it.
#[tactic(auto, using(crate::proofs::Printed::spaced_expressions), unfolding(crate::specs::Canonical::spaced_parts))]
pub fn print_expression(text: &mut List<u8>, expr: &Expr<Name>) -> Result<(), OutOfMemory>
    ensures { OnOk result (text.new ≡ text.old ++ spaced_parts (expr_parts expr.now)) }
{
    match expr {
        Expr::Number(value) => push_value(text, *value),
        Expr::Var(name) => push_token(text, name.bytes()),
        Expr::Unary(UnOp::Not, a) => {
            push_token(text, Operator::One(UnOp::Not).word())?;
            print_expression(text, a.get())
        }
        Expr::Binary(op, a, b) => {
            push_token(text, Operator::Two(*op).word())?;
            print_expression(text, a.get())?;
            print_expression(text, b.get())
        }
        Expr::Sext(width, a) => {
            push_token(text, Operator::Extend.word())?;
            push_value(text, width.number())?;
            print_expression(text, a.get())
        }
        Expr::Pick(a, b, c) => {
            push_token(text, Operator::Choose.word())?;
            print_expression(text, a.get())?;
            print_expression(text, b.get())?;
            print_expression(text, c.get())
        }
    }
}
