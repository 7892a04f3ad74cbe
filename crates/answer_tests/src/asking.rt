//! Asks the program, with sources and sinks in memory.
use sim_io::{MemSink, MemSource};
use std::process::Abort;
use std::sync::Wait;
use std::test::Fail;
use std::thread::Threads;
use whole_answer::{FreeGate, Status, omnisim};

/// The commands that simulate.
pub const COMMANDS: [&str; 3] = ["run", "alone", "clock"];

/// The command and its options as strings.
pub fn words_of<R: AllocGlobal>(
    rt: &R,
    command: &str,
    options: &[&str],
) -> Result<Vec<String>, Fail> {
    let mut words = Vec::new(rt.alloc());
    words.push(String::from_str(rt.alloc(), command)?)?;
    for option in options {
        words.push(String::from_str(rt.alloc(), option)?)?;
    }
    Ok(words)
}

/// What the program answers to these words and a text. The source fails in the calls `takes`, and the sink in the calls `puts`,
/// counted from 0.
pub fn answer<R: Threads + Wait + Sync + AllocGlobal>(
    rt: &R,
    words: &[String],
    text: &[u8],
    takes: &[u64],
    puts: &[u64],
) -> Result<(Status, MemSink), Fail> {
    let alloc = rt.alloc();
    let mut source = MemSource::new(alloc, text, 64, takes)?;
    let mut sink = MemSink::new(alloc, 131_072, 4, puts)?;
    let status = omnisim(rt, alloc, words, &mut source, &mut sink, &FreeGate);
    Ok((status, sink))
}

/// Asserts that the program answers a command with some options by this text and status.
pub fn answers<R: Threads + Wait + Sync + AllocGlobal + Abort>(
    rt: &R,
    command: &str,
    options: &[&str],
    text: &[u8],
    told: &[u8],
    wanted: Status,
) -> Result<(), Fail> {
    let words = words_of(rt, command, options)?;
    let (status, sink) = answer(rt, words.as_slice(), text, &[], &[])?;
    assert_eq!(rt; sink.held(), told);
    assert_eq!(rt; status, wanted);
    Ok(())
}
