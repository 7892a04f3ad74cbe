//! Command lines, and the commands that they are read as.
use cli_words::{Command, ScaledTask, read_words};
use std::alloc::Global;
use std::test::Fail;

/// Lines that are accepted, and their commands.
const ACCEPTED: [(&str, &str); 24] = [
    (
        "run --cycles=3",
        "Standard Simulate(Threads, Options { events: false, polls: false, cycles: Some(3), ops: None })",
    ),
    (
        "--cycles 003 -- alone",
        "Standard Simulate(Alone, Options { events: false, polls: false, cycles: Some(3), ops: None })",
    ),
    (
        "--ops 200000 clock --events --cycles=1000000000000000",
        "Standard Simulate(Clock, Options { events: true, polls: false, cycles: Some(1000000000000000), ops: Some(200000) })",
    ),
    ("check", "Standard Check"),
    (
        "advise",
        "Standard Advise(Options { events: false, polls: false, cycles: None, ops: None })",
    ),
    (
        "wave --cycles 3",
        "Standard Show(Wave, Options { events: false, polls: false, cycles: Some(3), ops: None })",
    ),
    (
        "log",
        "Standard Show(Log, Options { events: false, polls: false, cycles: None, ops: None })",
    ),
    (
        "stalls",
        "Standard Show(Stalls, Options { events: false, polls: false, cycles: None, ops: None })",
    ),
    (
        "--polls stalls --cycles 3",
        "Standard Show(Stalls, Options { events: false, polls: true, cycles: Some(3), ops: None })",
    ),
    (
        "path --events --ops=200000 --cycles 1000000000000000",
        "Standard Show(Path, Options { events: true, polls: false, cycles: Some(1000000000000000), ops: Some(200000) })",
    ),
    (
        "trace",
        "Standard Show(Trace, Options { events: false, polls: false, cycles: None, ops: None })",
    ),
    (
        "size --cycles 3",
        "Standard Size { slack: 0, options: Options { events: false, polls: false, cycles: Some(3), ops: None } }",
    ),
    (
        "size --slack 0 --cycles=3",
        "Standard Size { slack: 0, options: Options { events: false, polls: false, cycles: Some(3), ops: None } }",
    ),
    (
        "size --cycles 3 --slack=1000000000000000",
        "Standard Size { slack: 1000000000000000, options: Options { events: false, polls: false, cycles: Some(3), ops: None } }",
    ),
    (
        "least --ops=200000",
        "Standard Least { slack: 0, options: Options { events: false, polls: false, cycles: None, ops: Some(200000) } }",
    ),
    (
        "--slack=4 least",
        "Standard Least { slack: 4, options: Options { events: false, polls: false, cycles: None, ops: None } }",
    ),
    ("order", "Standard Order"),
    (
        "sweep 01 --cycles=3 64",
        "Standard Sweep { lo: 1, hi: 64, options: Options { events: false, polls: false, cycles: Some(3), ops: None } }",
    ),
    ("check --", "Standard Check"),
    ("check --large", "Large Check"),
    ("--large order", "Large Order"),
    (
        "--ops=1000000000 alone --large",
        "Large Simulate(Alone, Options { events: false, polls: false, cycles: None, ops: Some(1000000000) })",
    ),
    ("gen 0 2", "Gen { seed: 0, modules: 2 }"),
    ("-- gen 065535 64", "Gen { seed: 65535, modules: 64 }"),
];

/// Lines that are refused.
const REFUSED: [&str; 60] = [
    "",
    "--",
    "-",
    "walk",
    "run run",
    "run --events=1",
    "run --events --events",
    "run --ops=3 --ops 3",
    "run --cycles 0",
    "run --cycles=1000000000000001",
    "run --cycles=18446744073709551617",
    "run --ops 200001",
    "run --ops 1000000001 --large",
    "run --large --large",
    "run --large=1",
    "gen 1 1 --large",
    "run --ops -1",
    "run --ops -",
    "run --ops",
    "run --ops=",
    "run --ops=+3",
    "run -- --events",
    "run --help",
    "run -e",
    "stalls --polls --polls",
    "stalls --polls=1",
    "stalls --polls --events",
    "run --polls",
    "trace --polls",
    "size --polls",
    "gen 1 1 --polls",
    "check --polls",
    "check --events",
    "log --events",
    "size 3",
    "size --slack",
    "size --slack=-1",
    "size --slack 1000000000000001",
    "size --slack 1 --slack=1",
    "size --slack 1 2",
    "least 1",
    "least --events",
    "run --slack 0",
    "sweep 1 2 --slack 0",
    "check --slack 0",
    "gen 0",
    "gen 0 0",
    "gen 1 65",
    "gen 65536 1",
    "gen 0 1 2",
    "gen 0 1 --ops=3",
    "advise 1",
    "advise --events",
    "wave --events",
    "order --ops=3",
    "sweep 1",
    "sweep 0 1",
    "sweep 3 2",
    "sweep 1 65",
    "sweep 1 2 --events",
];

/// What a line is read as. Its words are separated by single spaces.
fn told(alloc: Global, line: &str) -> Result<String, Fail> {
    let mut words = Vec::new(alloc);
    for word in line.split(' ') {
        words.push(String::from_str(alloc, word)?)?;
    }
    match read_words(alloc, words.as_slice()) {
        Ok(Command::Of(ScaledTask { scale, task })) => Ok(format!(in alloc; "{scale:?} {task:?}")?),
        Ok(command) => Ok(format!(in alloc; "{command:?}")?),
        Err(fault) => Ok(format!(in alloc; "{fault:?}")?),
    }
}

#[test]
fn accepted(rt: HostRuntime) -> Result<(), Fail> {
    for (line, wanted) in ACCEPTED {
        let text = told(rt.alloc(), line)?;
        assert_eq!(rt; text.as_str(), wanted);
    }
    Ok(())
}

#[test]
fn refused(rt: HostRuntime) -> Result<(), Fail> {
    for line in REFUSED {
        let text = told(rt.alloc(), line)?;
        assert_eq!(rt; text.as_str(), "Refused", "{line}");
    }
    Ok(())
}
