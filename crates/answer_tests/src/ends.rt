//! Sources and sinks that fail.
use crate::asking::{COMMANDS, words_of};
use sim_io::{MemSink, MemSource, PIECE};
use std::process::Abort;
use std::sync::Wait;
use std::test::Fail;
use std::thread::Threads;
use whole_answer::{FreeGate, Status, omnisim};
use worked_sessions::{PLAIN_ANSWER, PLAIN_CASE};

/// What a command answers to the plain case. The source and the sink move one byte a call and fail in these calls, and the sink has
/// this room.
fn answer_bytewise<R: Threads + Wait + Sync + AllocGlobal>(
    rt: &R,
    words: &[String],
    takes: &[u64],
    puts: &[u64],
    room: u64,
) -> Result<(Status, MemSink), Fail> {
    let alloc = rt.alloc();
    let mut source = MemSource::new(alloc, PLAIN_CASE, 1, takes)?;
    let mut sink = MemSink::new(alloc, room, 1, puts)?;
    let status = omnisim(rt, alloc, words, &mut source, &mut sink, &FreeGate);
    Ok((status, sink))
}

/// Asserts that `run`, `alone` and `clock` answer the plain case so. The source and the sink move one byte a call and fail in these
/// calls.
fn answers_bytewise<R: Threads + Wait + Sync + AllocGlobal + Abort>(
    rt: &R,
    takes: &[u64],
    puts: &[u64],
    room: u64,
    told: &[u8],
    wanted: Status,
) -> Result<(), Fail> {
    for command in COMMANDS {
        let words = words_of(rt, command, &[])?;
        let (status, sink) = answer_bytewise(rt, words.as_slice(), takes, puts, room)?;
        assert_eq!(rt; sink.held(), told);
        assert_eq!(rt; status, wanted);
    }
    Ok(())
}

#[test]
fn a_source_that_fails(rt: HostRuntime) -> Result<(), Fail> {
    // the call after the last byte tells the end
    for call in 0..107 {
        answers_bytewise(&rt, &[call], &[], 64, b"", Status::ReadFault)?;
    }
    answers_bytewise(&rt, &[107], &[], 64, PLAIN_ANSWER, Status::Done)
}

#[test]
fn a_sink_that_fails(rt: HostRuntime) -> Result<(), Fail> {
    for call in 0..39 {
        let told = PLAIN_ANSWER.get(..call).unwrap_or(PLAIN_ANSWER);
        answers_bytewise(&rt, &[], &[call as u64], 64, told, Status::WriteFault)?;
    }
    // the last call finishes
    answers_bytewise(&rt, &[], &[39], 64, PLAIN_ANSWER, Status::WriteFault)?;
    let told = PLAIN_ANSWER.get(..38).unwrap_or(PLAIN_ANSWER);
    answers_bytewise(&rt, &[], &[], 38, told, Status::WriteFault)?;
    let (status, sink) = answer_bytewise(&rt, &[], &[], &[0], 64)?;
    assert_eq!(rt; sink.held(), b"".as_slice());
    assert_eq!(rt; status, Status::WriteFault);
    Ok(())
}

/// A FIFO with one element, and an edit of its depth.
const EDITED: &[u8] = b"\
flow 1
fifo b 8
module P
block k 1
at 0 write b 7
stop
module Q
reg x 8
block k 1
at 0 read b x
stop
depth b 3
end
";

/// The answer to `EDITED` as far as it is written after 0, 1, 2 and 3 calls, where the sink takes all bytes of a call, and its next
/// call fails.
const EDITED_PARTS: [&[u8]; 4] = [
    b"",
    b"report 0\nverdict done 2\n",
    b"report 0\nverdict done 2\nreport 1\nverdict done 2\n",
    b"report 0\nverdict done 2\nreport 1\nverdict done 2\nruns 1\n",
];

/// What the program answers to these words and a text, with a sink that takes all bytes of a call, and fails in the calls `puts`.
fn answer_in_pieces<R: Threads + Wait + Sync + AllocGlobal>(
    rt: &R,
    words: &[String],
    text: &[u8],
    puts: &[u64],
) -> Result<(Status, MemSink), Fail> {
    let alloc = rt.alloc();
    let mut source = MemSource::new(alloc, text, 64, &[])?;
    let mut sink = MemSink::new(alloc, 2 << 20, 2 << 20, puts)?;
    let status = omnisim(rt, alloc, words, &mut source, &mut sink, &FreeGate);
    Ok((status, sink))
}

#[test]
fn each_report_is_one_write(rt: HostRuntime) -> Result<(), Fail> {
    for command in COMMANDS {
        let words = words_of(&rt, command, &[])?;
        for (call, told) in EDITED_PARTS.iter().enumerate() {
            let puts = [call as u64];
            let (status, sink) = answer_in_pieces(&rt, words.as_slice(), EDITED, &puts)?;
            assert_eq!(rt; sink.held(), *told);
            assert_eq!(rt; status, Status::WriteFault);
        }
    }
    Ok(())
}

/// A module that writes 7,000 values. A line of its log has about 150 bytes, since the names are as long as they may be.
const LONG_LOG: &[u8] = b"\
flow 1
sink values_yyyyyyyyyyyyyyyyyyyyyyyyyyyyyyyyyyyyyyyyyyyyyyyyyyyyyyyyy 8
module writer_mmmmmmmmmmmmmmmmmmmmmmmmmmmmmmmmmmmmmmmmmmmmmmmmmmmmmmmmm
reg n 16
reg more 1
loop l 1 1 while more
at 0 write values_yyyyyyyyyyyyyyyyyyyyyyyyyyyyyyyyyyyyyyyyyyyyyyyyyyyyyyyyy n
at 0 set n + n 1
at 0 set more <u n 6999
stop
end
";

#[test]
fn a_log_is_written_in_pieces(rt: HostRuntime) -> Result<(), Fail> {
    let words = words_of(&rt, "log", &[])?;
    let (status, whole) = answer_in_pieces(&rt, words.as_slice(), LONG_LOG, &[])?;
    assert_eq!(rt; status, Status::Done);
    // the second write fails after one piece was written, which exceeds `PIECE` by less than its last line
    let (status, sink) = answer_in_pieces(&rt, words.as_slice(), LONG_LOG, &[1])?;
    assert_eq!(rt; status, Status::WriteFault);
    let piece = sink.held();
    assert!(rt; piece.len() as u64 >= PIECE && (piece.len() as u64) < PIECE + 160);
    assert!(rt; whole.held().starts_with(piece));
    Ok(())
}
