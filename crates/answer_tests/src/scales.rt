//! Sessions with and without the larger limits.
use crate::asking::{COMMANDS, answers};
use std::process::Abort;
use std::sync::Wait;
use std::test::Fail;
use std::thread::Threads;
use whole_answer::Status;

/// A text, its answer without `--large`, and its answer with it; both are the same under all commands that simulate.
type Row<'a> = (&'a [u8], (&'a [u8], Status), (&'a [u8], Status));

fn both<R: Threads + Wait + Sync + AllocGlobal + Abort>(rt: &R, row: &Row<'_>) -> Result<(), Fail> {
    let (text, standard, large) = row;
    for command in COMMANDS {
        answers(rt, command, &[], text, standard.0, standard.1)?;
        answers(rt, command, &["--large"], text, large.0, large.1)?;
    }
    Ok(())
}

#[test]
fn what_is_within_one_scale_alone(rt: HostRuntime) -> Result<(), Fail> {
    let rows = [
        (
            b"flow 1\nmodule m\nblock b 1\nstop\nlimits 5 200001\nend\n".as_slice(),
            (b"refused 5 7\n".as_slice(), Status::Text),
            (
                b"report 0\nverdict done 1\nruns 1\n".as_slice(),
                Status::Done,
            ),
        ),
        (
            b"flow 1\nfifo f 8 1000001\nmodule m\nreg x 8\nblock b 2\nat 0 write f 1\nat 1 read f x\nstop\nend\n".as_slice(),
            (b"refused 2 4\n".as_slice(), Status::Text),
            (
                b"report 0\nverdict done 2\nruns 1\n".as_slice(),
                Status::Done,
            ),
        ),
        (
            b"flow 1\nsink y 32\nmodule m\nreg n 32\nreg g 1\nloop l 1 65 while g\ntemp v 32\nat 0 set v n\nat 0 set n + n 1\nat 0 set g <u n 4\nat 64 write y v\nstop\nend\n".as_slice(),
            (b"refused 6 10\n".as_slice(), Status::Text),
            (
                b"report 0\nverdict done 69\nout y 0 1 2 3 4\nruns 1\n".as_slice(),
                Status::Done,
            ),
        ),
        (
            b"flow 1\nsink y 8\nmodule m\nblock b 100000001\nat 0 write y 1\nstop\nlimits 9 5\nend\n".as_slice(),
            (
                b"report 0\nverdict cycles 9\nout y 1\nruns 1\n".as_slice(),
                Status::Cycles,
            ),
            (b"refused 4 4\n".as_slice(), Status::Text),
        ),
    ];
    for row in rows.iter() {
        both(&rt, row)?;
    }
    Ok(())
}

#[test]
fn a_sixty_fifth_module(rt: HostRuntime) -> Result<(), Fail> {
    let mut text = Vec::from_slice(rt.alloc(), b"flow 1\n")?;
    for module in 0..65 {
        text.extend_from_slice(format!(in rt.alloc();
            "module m{module}\nblock b 1\nstop\n"
        )?.as_bytes())?;
    }
    text.extend_from_slice(b"end\n")?;
    both(
        &rt,
        &(
            text.as_slice(),
            (b"refused 194 13\n".as_slice(), Status::Text),
            (
                b"report 0\nverdict done 1\nruns 1\n".as_slice(),
                Status::Done,
            ),
        ),
    )
}
