use flow_grammar::{
    KnownNames, ParsedOperand, is_numeral, number_in, one_operand, operator_in, tokens_in,
    two_operands,
};
use std::alloc::Global;
use std::test::Fail;

/// Names of which only `x` is known.
struct OneName;

impl KnownNames for OneName {
    ghost use Rattle.std.specs.Prelude.{codes};
    ghost use Rattle.flow_grammar.specs.{is_word};

    ghost knows = { λ _ name. is_word name (codes "x") };

    fn is_known(&self, name: &[u8]) -> bool {
        name == b"x".as_slice()
    }
}

/// How many nodes the only expression of a line has; 0 where the line breaks a rule.
fn size(alloc: Global, line: &[u8]) -> Result<u32, Fail> {
    let tokens = tokens_in(alloc, line)?;
    match one_operand(alloc, &OneName, tokens.as_slice())? {
        ParsedOperand::Whole { nodes, .. } => Ok(nodes),
        ParsedOperand::Faulty(_) => Ok(0),
    }
}

/// The number from 1 to 40 that a token stands for. `None` where it stands for no such number.
fn number(token: &[u8]) -> Option<u64> {
    if is_numeral(token) {
        number_in(token, 1, 40)
    } else {
        None
    }
}

#[test]
fn tokens_of_a_line(rt: HostRuntime) -> Result<(), Fail> {
    let tokens = tokens_in(rt.alloc(), b"\r fifo a#b\t8 #c d")?;
    assert_eq!(rt;
        tokens.as_slice(),
        [b"fifo".as_slice(), b"a#b", b"8"].as_slice()
    );
    assert_eq!(rt; number(b"0040"), Some(40));
    assert_eq!(rt; operator_in(b"<s").is_some(), true);
    Ok(())
}

#[test]
fn one_expression(rt: HostRuntime) -> Result<(), Fail> {
    assert_eq!(rt; size(rt.alloc(), b"+ x sext 8 1")?, 4);
    assert_eq!(rt; size(rt.alloc(), b"& y x")?, 0);
    Ok(())
}

#[test]
fn two_expressions(rt: HostRuntime) -> Result<(), Fail> {
    let tokens = tokens_in(rt.alloc(), b"7 ~ x")?;
    assert_eq!(rt;
        two_operands(rt.alloc(), &OneName, tokens.as_slice()).is_ok(),
        true
    );
    Ok(())
}
