//! Simulations of which the test gives each turn and its expected answer.
use crate::passes::{TurnAnswer, closes_with, module_turns, open, perf_turn};
use std::process::Abort;
use std::sync::Wait;
use std::test::Fail;
use worked_sessions::{SessionParts, TWO_LEAST_QUERIES, TWO_MODULES};

/// Which pass takes the next turns.
#[derive(Clone, Copy, Debug, PartialEq, Eq)]
enum Next {
    Module(usize),
    Perf,
}

/// Asserts that the passes are answered so, one after the other, and that all is over then.
fn is_driven<R: AllocGlobal + Wait + Abort>(
    rt: &R,
    text: SessionParts,
    turns: &[(Next, TurnAnswer)],
) -> Result<(), Fail> {
    let (hub, passes, report) = open(rt, text)?;
    let mut passes = passes;
    for (next, expected) in turns {
        let (back, answer) = match *next {
            Next::Module(which) => module_turns(rt, &hub, passes, which)?,
            Next::Perf => perf_turn(rt, &hub, passes),
        };
        assert_eq!(rt; answer, *expected);
        passes = back;
    }
    closes_with(rt, hub, passes, report)
}

#[test]
fn visibility_one_clock_later(rt: HostRuntime) -> Result<(), Fail> {
    is_driven(
        &rt,
        TWO_MODULES,
        &[
            (Next::Module(1), TurnAnswer::Made(1)),
            (Next::Module(1), TurnAnswer::Waits(3)),
            (Next::Perf, TurnAnswer::Waits(3)),
            (Next::Module(0), TurnAnswer::Made(3)),
            (Next::Perf, TurnAnswer::Did(3)),
            (Next::Module(1), TurnAnswer::Made(2)),
            (Next::Perf, TurnAnswer::Did(1)),
            (Next::Module(0), TurnAnswer::Over),
            (Next::Module(1), TurnAnswer::Over),
            (Next::Perf, TurnAnswer::Over),
        ],
    )
}

#[test]
fn two_least_queries(rt: HostRuntime) -> Result<(), Fail> {
    is_driven(
        &rt,
        TWO_LEAST_QUERIES,
        &[
            (Next::Module(0), TurnAnswer::Made(1)),
            (Next::Module(1), TurnAnswer::Made(1)),
            (Next::Perf, TurnAnswer::Did(1)),
            (Next::Module(0), TurnAnswer::Made(2)),
            (Next::Module(1), TurnAnswer::Waits(8)),
            (Next::Perf, TurnAnswer::Did(4)),
            (Next::Module(1), TurnAnswer::Made(2)),
            (Next::Perf, TurnAnswer::Did(1)),
            (Next::Module(0), TurnAnswer::Over),
            (Next::Module(1), TurnAnswer::Over),
            (Next::Perf, TurnAnswer::Over),
        ],
    )
}
