//! What `check` prints and `gen` sums up, and which words are refused.
use crate::asking::{answer, answers};
use std::process::Abort;
use std::sync::Wait;
use std::test::Fail;
use std::thread::Threads;
use whole_answer::Status;
use worked_sessions::{PLAIN_CASE, REALISTIC_LINE, joined};

#[test]
fn canonical_forms(rt: HostRuntime) -> Result<(), Fail> {
    let deepest =
        b"flow 1\nmodule m\nreg x 8\nblock k 1\nat 0 set x ~ ~ ~ ~ ~ ~ ~ ~ ~ ~ ~ ~ ~ ~ ~ ~ ~ ~ ~ ~ ~ ~ ~ ~ ~ ~ ~ ~ ~ ~ ~ 1\nstop\nend\n";
    let line = joined(rt.alloc(), REALISTIC_LINE)?;
    let rows = [
        (PLAIN_CASE, PLAIN_CASE),
        (
            b"# note\nflow  01\n\nlimits 5 007 # small\nend\n".as_slice(),
            b"flow 1\nlimits 5 7\nend\n".as_slice(),
        ),
        (line.as_slice(), line.as_slice()),
        (deepest.as_slice(), deepest.as_slice()),
    ];
    for (text, told) in rows {
        answers(&rt, "check", &[], text, told, Status::Done)?;
    }
    Ok(())
}

#[test]
fn generated_sessions(rt: HostRuntime) -> Result<(), Fail> {
    let one = b"gen 0 1\nverdict done 3001\nsum 1000 747500\nruns 1\n";
    let two = b"gen 0 2\nverdict done 3002\nsum 1000 980500\nruns 1\n";
    let many = b"gen 1 64\nverdict done 3183\nsum 1000 9828517\nruns 1\n";
    answers(&rt, "gen", &["0", "1"], b"", one, Status::Done)?;
    answers(&rt, "gen", &["0", "2"], b"", two, Status::Done)?;
    // it is the same at each run, whatever the threads do
    answers(&rt, "gen", &["1", "64"], b"", many, Status::Done)?;
    answers(&rt, "gen", &["1", "64"], b"", many, Status::Done)
}

/// Asserts that the program refuses these words.
fn refuses_words<R: Threads + Wait + Sync + AllocGlobal + Abort>(
    rt: &R,
    command: &str,
    options: &[&str],
) -> Result<(), Fail> {
    let told = b"refused words\n";
    answers(rt, command, options, PLAIN_CASE, told, Status::Words)
}

#[test]
fn refused_words(rt: HostRuntime) -> Result<(), Fail> {
    refuses_words(&rt, "run", &["--events=1"])?;
    refuses_words(&rt, "run", &["--cycles", "0"])?;
    refuses_words(&rt, "run", &["--ops", "5", "--ops", "5"])?;
    refuses_words(&rt, "run", &["--ops", "200001"])?;
    refuses_words(&rt, "run", &["further"])?;
    refuses_words(&rt, "check", &["--events"])?;
    refuses_words(&rt, "gen", &["1", "65"])?;
    refuses_words(&rt, "alone", &["further"])?;
    refuses_words(&rt, "advise", &["further"])?;
    refuses_words(&rt, "wave", &["--events"])?;
    refuses_words(&rt, "order", &["--ops", "5"])?;
    refuses_words(&rt, "sweep", &["3", "2"])?;
    refuses_words(&rt, "log", &["--events"])?;
    refuses_words(&rt, "stalls", &["further"])?;
    refuses_words(&rt, "path", &["--events", "--events"])?;
    refuses_words(&rt, "trace", &["--cycles"])?;
    refuses_words(&rt, "size", &["--events"])?;
    let (status, sink) = answer(&rt, &[], PLAIN_CASE, &[], &[])?;
    assert_eq!(rt; sink.held(), b"refused words\n".as_slice());
    assert_eq!(rt; status, Status::Words);
    Ok(())
}
