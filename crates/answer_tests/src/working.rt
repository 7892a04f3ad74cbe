//! Each worked session under each command that simulates.
use crate::asking::{COMMANDS, answer, words_of};
use std::process::Abort;
use std::sync::Wait;
use std::test::Fail;
use std::thread::Threads;
use worked_sessions::{DEADLOCKS, DELAYS, DESIGNS, EDITS, LIMITS, QUERIES, Worked, joined};

/// Asserts that the program answers each of these sessions under this command as it was worked out.
fn are_answered<R: Threads + Wait + Sync + AllocGlobal + Abort>(
    rt: &R,
    command: &str,
    table: &[Worked],
) -> Result<(), Fail> {
    for worked in table {
        let words = words_of(rt, command, worked.options)?;
        let text = joined(rt.alloc(), worked.text)?;
        let (status, sink) = answer(rt, words.as_slice(), text.as_slice(), &[], &[])?;
        assert_eq!(rt; sink.held(), worked.told);
        assert_eq!(rt; status.number(), worked.status);
    }
    Ok(())
}

#[test]
fn worked_sessions(rt: HostRuntime) -> Result<(), Fail> {
    for command in COMMANDS {
        are_answered(&rt, command, DESIGNS)?;
        are_answered(&rt, command, QUERIES)?;
        are_answered(&rt, command, LIMITS)?;
        are_answered(&rt, command, DEADLOCKS)?;
        are_answered(&rt, command, EDITS)?;
        are_answered(&rt, command, DELAYS)?;
    }
    Ok(())
}
