//! Texts that are refused.
use crate::asking::{COMMANDS, answer, answers, words_of};
use std::process::Abort;
use std::sync::Wait;
use std::test::Fail;
use std::thread::Threads;
use whole_answer::Status;
use worked_sessions::{PLAIN_ANSWER, PLAIN_CASE};

/// Asserts that the program refuses each of these texts so under `check`, `run`, `alone` and `clock`.
fn refuses<R: Threads + Wait + Sync + AllocGlobal + Abort>(
    rt: &R,
    rows: &[(&[u8], &[u8])],
) -> Result<(), Fail> {
    for (text, told) in rows {
        answers(rt, "check", &[], text, told, Status::Text)?;
        for command in COMMANDS {
            answers(rt, command, &[], text, told, Status::Text)?;
        }
    }
    Ok(())
}

#[test]
fn texts_that_are_misread(rt: HostRuntime) -> Result<(), Fail> {
    let rows = [
        (
            b"flow 1\n\xc8\nend\n".as_slice(),
            b"refused 2 2\n".as_slice(),
        ),
        (
            b"flow 1\nfifo b\nend\n".as_slice(),
            b"refused 2 3\n".as_slice(),
        ),
        (
            b"flow 1\nend\nend\n".as_slice(),
            b"refused 3 3\n".as_slice(),
        ),
        (
            b"flow 1\nfifo b 8 0\nend\n".as_slice(),
            b"refused 2 4\n".as_slice(),
        ),
        (
            b"flow 1\nfifo b 8 2 5\nend\n".as_slice(),
            b"refused 2 3\n".as_slice(),
        ),
        (
            b"flow 2\nfifo b 8 2 1001\nend\n".as_slice(),
            b"refused 2 4\n".as_slice(),
        ),
        (b"flow 3\nend\n".as_slice(), b"refused 1 4\n".as_slice()),
        (
            b"flow 1\nsink y 8\nsink y 8\nend\n".as_slice(),
            b"refused 3 5\n".as_slice(),
        ),
        (
            b"flow 1\ndepth b 3\nend\n".as_slice(),
            b"refused 2 6\n".as_slice(),
        ),
        (b"flow 1\n".as_slice(), b"refused 2 12\n".as_slice()),
        (b"".as_slice(), b"refused 1 12\n".as_slice()),
        (
            b"flow 1\nmodule m\nreg x 8\nblock k 1\nat 0 set x ~ ~ ~ ~ ~ ~ ~ ~ ~ ~ ~ ~ ~ ~ ~ ~ ~ ~ ~ ~ ~ ~ ~ ~ ~ ~ ~ ~ ~ ~ ~ ~ 1\nstop\nend\n".as_slice(),
            b"refused 5 13\n".as_slice(),
        ),
    ];
    refuses(&rt, rows.as_slice())
}

#[test]
fn sessions_that_break_a_rule(rt: HostRuntime) -> Result<(), Fail> {
    let rows = [
        (
            b"flow 1\nmodule m\nblock k 1\ngoto z\nend\n".as_slice(),
            b"refused 4 6\n".as_slice(),
        ),
        (
            b"flow 1\nlimits 0 5\nend\n".as_slice(),
            b"refused 2 7\n".as_slice(),
        ),
        (
            b"flow 1\nfifo b 8\nmodule p\nblock k 1\nat 0 write b 1\nstop\nmodule q\nreg x 8\nblock k 1\nat 0 write b 2\nat 0 read b x\nstop\nend\n".as_slice(),
            b"refused 2 8\n".as_slice(),
        ),
        (
            b"flow 1\nsource a 8\nmodule m\nreg x 8\nreg g 1\nloop l 2 4 while g\nat 1 read a x\nat 3 read a x\nstop\nend\n".as_slice(),
            b"refused 8 9\n".as_slice(),
        ),
        (
            b"flow 1\nmodule m\nreg g 1\nloop l 1 65 while g\nstop\nend\n".as_slice(),
            b"refused 4 10\n".as_slice(),
        ),
        (
            b"flow 1\nmodule m\nreg x 8\nblock k 1\nat 1 set x 1\nstop\nend\n".as_slice(),
            b"refused 5 11\n".as_slice(),
        ),
        (
            b"flow 1\nfifo b 8\nmodule p\nreg e 1\nblock k 1\nat 0 write b 1\nat 0 empty b e\nstop\nmodule q\nreg x 8\nblock k 1\nat 0 read b x\nstop\nend\n".as_slice(),
            b"refused 7 14\n".as_slice(),
        ),
    ];
    refuses(&rt, rows.as_slice())
}

#[test]
fn a_text_that_is_too_long(rt: HostRuntime) -> Result<(), Fail> {
    let longest = vec![in rt.alloc(); b' '; 4_194_304]?;
    let longer = vec![in rt.alloc(); b' '; 4_194_305]?;
    let rows = [
        (longest.as_slice(), b"refused 1 12\n".as_slice()),
        (longer.as_slice(), b"refused 0 1\n".as_slice()),
    ];
    refuses(&rt, rows.as_slice())
}

#[test]
fn truncated_texts(rt: HostRuntime) -> Result<(), Fail> {
    let rows = [
        (0, b"refused 1 12\n".as_slice()),
        (1, b"refused 1 3\n".as_slice()),
        (5, b"refused 1 3\n".as_slice()),
        (6, b"refused 1 12\n".as_slice()),
        (7, b"refused 2 12\n".as_slice()),
        (85, b"refused 8 3\n".as_slice()),
        (98, b"refused 10 3\n".as_slice()),
        (99, b"refused 10 12\n".as_slice()),
        (101, b"refused 10 12\n".as_slice()),
        (102, b"refused 11 12\n".as_slice()),
        (103, b"refused 11 3\n".as_slice()),
        (104, b"refused 11 3\n".as_slice()),
    ];
    for (len, told) in rows {
        let text = PLAIN_CASE.get(..len).unwrap_or(PLAIN_CASE);
        refuses(&rt, &[(text, told)])?;
    }
    let words = words_of(&rt, "run", &[])?;
    for len in 0..105 {
        let (status, _) = answer(&rt, words.as_slice(), &PLAIN_CASE[..len], &[], &[])?;
        assert_eq!(rt; status, Status::Text);
    }
    for command in COMMANDS {
        answers(
            &rt,
            command,
            &[],
            &PLAIN_CASE[..105],
            PLAIN_ANSWER,
            Status::Done,
        )?;
    }
    Ok(())
}
