//! Worked sessions under the commands that do more than simulate.
use crate::asking::answers;
use crate::further::FILLS_OF_TWO_MODULES;
use crate::waves::wave_of;
use std::test::Fail;
use whole_answer::Status;
use worked_sessions::{
    DEADLOCK_AT_ONCE, EMPTY_DESIGN, LATE_CHANNEL, LATER_STALL, LONG_BLOCK, REALISTIC_LINE,
    SessionParts, THREE_VALUES, TWO_MODULES, joined,
};

/// A question about a session, and the answer, which was worked out by hand from the machine's rules.
struct Asked {
    command: &'static str,
    options: &'static [&'static str],
    text: SessionParts,
    told: &'static [u8],
    status: Status,
}

/// The beginning of a loop whose iterations start one clock apart. It reads a source into a register.
const READING_LOOP: &[u8] = b"\
flow 1
source a 8
sink y 8
module m
reg x 8
reg g 1
loop l 1 3 while g
at 0 read a x
";

/// A loop that reads a register in the iteration that writes it, but after the next iteration has started.
const WIDE_REGISTER: SessionParts = &[READING_LOOP, b"at 2 write y x\nstop\nend\n"];

/// A loop that reads such a register, and that also learns too late whether there is another iteration.
const LATE_DECISION: SessionParts = &[READING_LOOP, b"at 1 set g 0\nat 2 write y x\nstop\nend\n"];

const ADVISED: &[Asked] = &[
    // three values through depth two
    Asked {
        command: "advise",
        options: &[],
        text: THREE_VALUES,
        told: b"\
advise
verdict done 4
depth b 2
",
        status: Status::Done,
    },
    // deadlocked record goes on
    Asked {
        command: "advise",
        options: &[],
        text: LATE_CHANNEL,
        told: b"\
advise
verdict done 9
depth b 4
depth c 2
",
        status: Status::Done,
    },
    // deadlock at once
    Asked {
        command: "advise",
        options: &[],
        text: DEADLOCK_AT_ONCE,
        told: b"\
advise
verdict deadlock 0
depth ab 1
depth ba 1
",
        status: Status::Deadlock,
    },
];

const ORDERED: &[Asked] = &[
    // realistic line
    Asked {
        command: "order",
        options: &[],
        text: REALISTIC_LINE,
        told: b"\
order reader serial
order filter serial
order decimator query 0 0
order writer serial
",
        status: Status::Done,
    },
    // later stall delays earlier query
    Asked {
        command: "order",
        options: &[],
        text: LATER_STALL,
        told: b"\
order R query 0 2
order S serial
",
        status: Status::Done,
    },
    Asked {
        command: "order",
        options: &[],
        text: WIDE_REGISTER,
        told: b"\
order m wide 0 register 0
",
        status: Status::Done,
    },
    Asked {
        command: "order",
        options: &[],
        text: LATE_DECISION,
        told: b"\
order m late 0 1
",
        status: Status::Done,
    },
];

const SWEPT: &[Asked] = &[
    // three values through depth two
    Asked {
        command: "sweep",
        options: &["1", "3"],
        text: THREE_VALUES,
        told: b"\
point 1 done 6
point 2 done 4
point 3 done 4
best 2
",
        status: Status::Done,
    },
    // deadlocked record goes on
    Asked {
        command: "sweep",
        options: &["2", "3"],
        text: LATE_CHANNEL,
        told: b"\
point 2 2 deadlock 2
point 2 3 deadlock 2
point 3 2 done 9
point 3 3 done 9
best 3 2
",
        status: Status::Done,
    },
    // deadlock at once
    Asked {
        command: "sweep",
        options: &["1", "1"],
        text: DEADLOCK_AT_ONCE,
        told: b"\
point 1 1 deadlock 0
best none
",
        status: Status::Deadlock,
    },
    // empty design
    Asked {
        command: "sweep",
        options: &["1", "1"],
        text: EMPTY_DESIGN,
        told: b"\
point done 0
best
",
        status: Status::Done,
    },
];

/// A simulator that goes through all clocks of the long block does not come to its end.
const LONG_BLOCKS: &[Asked] = &[
    Asked {
        command: "log",
        options: &[],
        text: LONG_BLOCK,
        told: b"\
log
verdict done 1000000000000
access m write y 999999999999 1 1
",
        status: Status::Done,
    },
    Asked {
        command: "stalls",
        options: &[],
        text: LONG_BLOCK,
        told: b"\
stalls
verdict done 1000000000000
module m 1000000000000 0
port m push y 1 999999999999 999999999999
",
        status: Status::Done,
    },
    Asked {
        command: "path",
        options: &["--events"],
        text: LONG_BLOCK,
        told: b"\
path
verdict done 1000000000000
spend m 1000000000000
link m 0 999999999999
",
        status: Status::Done,
    },
    Asked {
        command: "trace",
        options: &[],
        text: LONG_BLOCK,
        told: b"\
{\"displayTimeUnit\":\"ns\",\"traceEvents\":[
{\"ph\":\"M\",\"pid\":0,\"tid\":0,\"name\":\"thread_name\",\"args\":{\"name\":\"m\"}},
{\"ph\":\"X\",\"pid\":0,\"tid\":0,\"ts\":0,\"dur\":1000000000000,\"name\":\"moves\"}
]}
",
        status: Status::Done,
    },
    Asked {
        command: "size",
        options: &[],
        text: LONG_BLOCK,
        told: b"\
size
verdict done 1000000000000
",
        status: Status::Done,
    },
    Asked {
        command: "advise",
        options: &[],
        text: LONG_BLOCK,
        told: b"\
advise
verdict done 1000000000000
",
        status: Status::Done,
    },
    Asked {
        command: "sweep",
        options: &["1", "1"],
        text: LONG_BLOCK,
        told: b"\
point done 1000000000000
best
",
        status: Status::Done,
    },
];

/// A push in clock 4. The poll in that clock is too early for it, and the next one, in clock 6, finds it.
const POLLED_TWICE: &[u8] = b"\
flow 1
fifo q 8
sink tries 1
module producer
block late 5
at 4 write q 9
stop
module poller
reg v 8
reg ok 1
reg n 8
reg go 1
loop poll 2 2 while go
at 0 tryread q v ok
at 0 set n + n 1
at 0 set go <u n 3
at 1 write tries ok
stop
end
";

const POLLED: &[Asked] = &[Asked {
    command: "path",
    options: &["--polls", "--events"],
    text: &[POLLED_TWICE],
    told: b"\
path
verdict done 8
spend producer 5
spend poller 2
poll empty q 1 1
link producer 0 4
link poller 6 7
",
    status: Status::Done,
}];

#[test]
fn worked_sessions_explored(rt: HostRuntime) -> Result<(), Fail> {
    for table in [ADVISED, ORDERED, SWEPT, LONG_BLOCKS, POLLED] {
        for asked in table {
            let Asked {
                command,
                options,
                text,
                told,
                status,
            } = asked;
            let text = joined(rt.alloc(), text)?;
            answers(&rt, command, options, text.as_slice(), told, *status)?;
        }
    }
    Ok(())
}

/// A session, the FIFOs that its wave names, the fills that it shows from clock 0 on, and the status.
type Waved = (SessionParts, &'static [&'static str], &'static [u8], Status);

const WAVES: &[Waved] = &[
    // visibility one clock later
    (TWO_MODULES, &["b"], FILLS_OF_TWO_MODULES, Status::Done),
    // deadlock at once
    (
        DEADLOCK_AT_ONCE,
        &["ab", "ba"],
        b"#0\nb0 f0\nb0 f1\n",
        Status::Deadlock,
    ),
    (LONG_BLOCK, &[], b"#0\n#1000000000000\n", Status::Done),
];

#[test]
fn waves_of_worked_sessions(rt: HostRuntime) -> Result<(), Fail> {
    for (text, fifos, fills, status) in WAVES {
        let text = joined(rt.alloc(), text)?;
        let told = wave_of(rt.alloc(), fifos, fills)?;
        answers(&rt, "wave", &[], text.as_slice(), told.as_slice(), *status)?;
    }
    Ok(())
}
