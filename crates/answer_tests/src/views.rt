//! What `log`, `stalls`, `path`, `trace` and `size` answer.
use crate::asking::answers;
use crate::further::THREE_FIFOS;
use std::test::Fail;
use whole_answer::Status;
use worked_sessions::{
    BOTH_ENDS_IN_ONE_MODULE, EMPTY_DESIGN, LATE_CHANNEL, LATER_STALL, POLLING_LOOP, SessionParts,
    THREE_PUSHES_AND_POPS, TWO_MODULES, joined,
};

/// A session, what each view shows of it, and the answer to `size`.
struct Viewed {
    text: SessionParts,
    log: &'static [u8],
    stalls: &'static [u8],
    /// The answer to `path` with its links.
    path: &'static [u8],
    trace: &'static [u8],
    /// The status of the views.
    shown: Status,
    size: &'static [u8],
    /// The status of `size`.
    sized: Status,
}

const VIEWED: &[Viewed] = &[
    // No module and no channel.
    Viewed {
        text: EMPTY_DESIGN,
        log: b"\
log
verdict done 0
",
        stalls: b"\
stalls
verdict done 0
",
        path: b"\
path
verdict done 0
",
        trace: b"\
{\"displayTimeUnit\":\"ns\",\"traceEvents\":[
]}
",
        shown: Status::Done,
        size: b"\
size
verdict done 0
",
        sized: Status::Done,
    },
    // A value goes through one FIFO.
    Viewed {
        text: TWO_MODULES,
        log: b"\
log
verdict done 4
access p read a 0 1 5
access p write b 1 1 5
access q read b 2 1 5
access q write y 3 1 5
",
        stalls: b"\
stalls
verdict done 4
module p 2 0
port p pop a 1 0 0
port p push b 1 1 1
module q 2 2
stall q empty b 2
port q pop b 1 2 2
port q push y 1 3 3
fifo b 1 3 0
",
        path: b"\
path
verdict done 4
spend p 2
spend q 2
cross empty b 1
link p 0 1
link q 2 3
",
        trace: b"\
{\"displayTimeUnit\":\"ns\",\"traceEvents\":[
{\"ph\":\"M\",\"pid\":0,\"tid\":0,\"name\":\"thread_name\",\"args\":{\"name\":\"p\"}},
{\"ph\":\"M\",\"pid\":0,\"tid\":1,\"name\":\"thread_name\",\"args\":{\"name\":\"q\"}},
{\"ph\":\"X\",\"pid\":0,\"tid\":0,\"ts\":0,\"dur\":2,\"name\":\"moves\"},
{\"ph\":\"X\",\"pid\":0,\"tid\":1,\"ts\":0,\"dur\":2,\"name\":\"empty b\"},
{\"ph\":\"X\",\"pid\":0,\"tid\":1,\"ts\":2,\"dur\":2,\"name\":\"moves\"},
{\"ph\":\"C\",\"pid\":0,\"ts\":0,\"name\":\"b\",\"args\":{\"fill\":0}},
{\"ph\":\"C\",\"pid\":0,\"ts\":2,\"name\":\"b\",\"args\":{\"fill\":1}},
{\"ph\":\"C\",\"pid\":0,\"ts\":3,\"name\":\"b\",\"args\":{\"fill\":0}}
]}
",
        shown: Status::Done,
        size: b"\
size
verdict done 4
depth b 1
",
        sized: Status::Done,
    },
    // A FIFO of depth two, whose elements are in flight for five clocks.
    Viewed {
        text: &[b"flow 2\nfifo b 8 2 5\n", THREE_PUSHES_AND_POPS, b"end\n"],
        log: b"\
log
verdict done 12
access P write b 0 1 0
access P write b 1 1 1
access Q read b 5 1 0
access P write b 6 1 2
access Q read b 6 1 1
access Q read b 11 1 2
",
        stalls: b"\
stalls
verdict done 12
module P 3 4
stall P full b 4
port P push b 3 0 6
module Q 3 9
stall Q empty b 9
port Q pop b 3 5 11
fifo b 2 9 4
",
        path: b"\
path
verdict done 12
spend P 2
spend Q 2
cross empty b 2
cross full b 1
link P 0 0
link Q 5 5
link P 6 6
link Q 11 11
",
        trace: b"\
{\"displayTimeUnit\":\"ns\",\"traceEvents\":[
{\"ph\":\"M\",\"pid\":0,\"tid\":0,\"name\":\"thread_name\",\"args\":{\"name\":\"P\"}},
{\"ph\":\"M\",\"pid\":0,\"tid\":1,\"name\":\"thread_name\",\"args\":{\"name\":\"Q\"}},
{\"ph\":\"X\",\"pid\":0,\"tid\":0,\"ts\":0,\"dur\":2,\"name\":\"moves\"},
{\"ph\":\"X\",\"pid\":0,\"tid\":0,\"ts\":2,\"dur\":4,\"name\":\"full b\"},
{\"ph\":\"X\",\"pid\":0,\"tid\":0,\"ts\":6,\"dur\":1,\"name\":\"moves\"},
{\"ph\":\"X\",\"pid\":0,\"tid\":1,\"ts\":0,\"dur\":5,\"name\":\"empty b\"},
{\"ph\":\"X\",\"pid\":0,\"tid\":1,\"ts\":5,\"dur\":2,\"name\":\"moves\"},
{\"ph\":\"X\",\"pid\":0,\"tid\":1,\"ts\":7,\"dur\":4,\"name\":\"empty b\"},
{\"ph\":\"X\",\"pid\":0,\"tid\":1,\"ts\":11,\"dur\":1,\"name\":\"moves\"},
{\"ph\":\"C\",\"pid\":0,\"ts\":0,\"name\":\"b\",\"args\":{\"fill\":0}},
{\"ph\":\"C\",\"pid\":0,\"ts\":1,\"name\":\"b\",\"args\":{\"fill\":1}},
{\"ph\":\"C\",\"pid\":0,\"ts\":2,\"name\":\"b\",\"args\":{\"fill\":2}},
{\"ph\":\"C\",\"pid\":0,\"ts\":6,\"name\":\"b\",\"args\":{\"fill\":1}},
{\"ph\":\"C\",\"pid\":0,\"ts\":12,\"name\":\"b\",\"args\":{\"fill\":0}}
]}
",
        shown: Status::Done,
        size: b"\
size
verdict done 8
depth b 3
",
        sized: Status::Done,
    },
    // Three values for a FIFO of depth two, all pushed before the value in another FIFO that their reader waits for.
    Viewed {
        text: LATE_CHANNEL,
        log: b"\
log
verdict deadlock 2
access P write b 0 1 1
access P write b 1 1 2
",
        stalls: b"\
stalls
verdict deadlock 2
module P 2 0
port P push b 2 0 1
module Q 0 2
stall Q empty c 2
fifo b 2 1 0
fifo c 0 2 0
",
        path: b"\
path
verdict deadlock 2
spend P 2
link P 0 1
",
        trace: b"\
{\"displayTimeUnit\":\"ns\",\"traceEvents\":[
{\"ph\":\"M\",\"pid\":0,\"tid\":0,\"name\":\"thread_name\",\"args\":{\"name\":\"P\"}},
{\"ph\":\"M\",\"pid\":0,\"tid\":1,\"name\":\"thread_name\",\"args\":{\"name\":\"Q\"}},
{\"ph\":\"X\",\"pid\":0,\"tid\":0,\"ts\":0,\"dur\":2,\"name\":\"moves\"},
{\"ph\":\"X\",\"pid\":0,\"tid\":1,\"ts\":0,\"dur\":2,\"name\":\"empty c\"},
{\"ph\":\"C\",\"pid\":0,\"ts\":0,\"name\":\"b\",\"args\":{\"fill\":0}},
{\"ph\":\"C\",\"pid\":0,\"ts\":1,\"name\":\"b\",\"args\":{\"fill\":1}},
{\"ph\":\"C\",\"pid\":0,\"ts\":2,\"name\":\"b\",\"args\":{\"fill\":2}},
{\"ph\":\"C\",\"pid\":0,\"ts\":0,\"name\":\"c\",\"args\":{\"fill\":0}}
]}
",
        shown: Status::Deadlock,
        size: b"\
size
verdict done 9
depth b 3
depth c 1
",
        sized: Status::Done,
    },
    // A module at both ends of one FIFO, whose first try comes too early.
    Viewed {
        text: BOTH_ENDS_IN_ONE_MODULE,
        log: b"\
log
verdict done 3
access m write b 0 1 5
access m tryread b 0 0
access m tryread b 1 1 5
access m write y 2 1 2
",
        stalls: b"\
stalls
verdict done 3
module m 3 0
port m pop b 1 1 1
port m push b 1 0 0
port m push y 1 2 2
fifo b 1 2 0
",
        path: b"\
path
verdict done 3
spend m 3
link m 0 2
",
        trace: b"\
{\"displayTimeUnit\":\"ns\",\"traceEvents\":[
{\"ph\":\"M\",\"pid\":0,\"tid\":0,\"name\":\"thread_name\",\"args\":{\"name\":\"m\"}},
{\"ph\":\"X\",\"pid\":0,\"tid\":0,\"ts\":0,\"dur\":3,\"name\":\"moves\"},
{\"ph\":\"C\",\"pid\":0,\"ts\":0,\"name\":\"b\",\"args\":{\"fill\":0}},
{\"ph\":\"C\",\"pid\":0,\"ts\":1,\"name\":\"b\",\"args\":{\"fill\":1}},
{\"ph\":\"C\",\"pid\":0,\"ts\":2,\"name\":\"b\",\"args\":{\"fill\":0}}
]}
",
        shown: Status::Done,
        size: b"\
size
verdict done 3
depth b 1
",
        sized: Status::Done,
    },
    // A module that polls until its operations are used up, and one without a step.
    Viewed {
        text: POLLING_LOOP,
        log: b"\
log
verdict ops 3
access P tryread b 0 0
access P tryread b 1 0
access P tryread b 2 0
",
        stalls: b"\
stalls
verdict ops 3
module P 3 0
module W 1 0
fifo b 0 3 0
",
        path: b"\
path
verdict ops 3
spend P 3
link P 0 2
",
        trace: b"\
{\"displayTimeUnit\":\"ns\",\"traceEvents\":[
{\"ph\":\"M\",\"pid\":0,\"tid\":0,\"name\":\"thread_name\",\"args\":{\"name\":\"P\"}},
{\"ph\":\"M\",\"pid\":0,\"tid\":1,\"name\":\"thread_name\",\"args\":{\"name\":\"W\"}},
{\"ph\":\"X\",\"pid\":0,\"tid\":0,\"ts\":0,\"dur\":3,\"name\":\"moves\"},
{\"ph\":\"X\",\"pid\":0,\"tid\":1,\"ts\":0,\"dur\":1,\"name\":\"moves\"},
{\"ph\":\"C\",\"pid\":0,\"ts\":0,\"name\":\"b\",\"args\":{\"fill\":0}}
]}
",
        shown: Status::Ops,
        size: b"\
size
verdict ops 3
depth b 1
",
        sized: Status::Ops,
    },
    // A push that is seen nine clocks later.
    Viewed {
        text: &[
            b"\
flow 2
fifo b 8 1 9
module m
block k 1
at 0 write b 1
stop
module q
reg x 8
block k 1
at 0 read b x
stop
end
",
        ],
        log: b"\
log
verdict done 10
access m write b 0 1 1
access q read b 9 1 1
",
        stalls: b"\
stalls
verdict done 10
module m 1 0
port m push b 1 0 0
module q 1 9
stall q empty b 9
port q pop b 1 9 9
fifo b 1 9 9
",
        path: b"\
path
verdict done 10
spend m 1
spend q 1
cross empty b 1
link m 0 0
link q 9 9
",
        trace: b"\
{\"displayTimeUnit\":\"ns\",\"traceEvents\":[
{\"ph\":\"M\",\"pid\":0,\"tid\":0,\"name\":\"thread_name\",\"args\":{\"name\":\"m\"}},
{\"ph\":\"M\",\"pid\":0,\"tid\":1,\"name\":\"thread_name\",\"args\":{\"name\":\"q\"}},
{\"ph\":\"X\",\"pid\":0,\"tid\":0,\"ts\":0,\"dur\":1,\"name\":\"moves\"},
{\"ph\":\"X\",\"pid\":0,\"tid\":1,\"ts\":0,\"dur\":9,\"name\":\"empty b\"},
{\"ph\":\"X\",\"pid\":0,\"tid\":1,\"ts\":9,\"dur\":1,\"name\":\"moves\"},
{\"ph\":\"C\",\"pid\":0,\"ts\":0,\"name\":\"b\",\"args\":{\"fill\":0}},
{\"ph\":\"C\",\"pid\":0,\"ts\":1,\"name\":\"b\",\"args\":{\"fill\":1}},
{\"ph\":\"C\",\"pid\":0,\"ts\":10,\"name\":\"b\",\"args\":{\"fill\":0}}
]}
",
        shown: Status::Done,
        size: b"\
size
verdict done 10
depth b 1
",
        sized: Status::Done,
    },
    // A module that reads one FIFO and tests another.
    Viewed {
        text: LATER_STALL,
        log: b"\
log
verdict done 14
access S write b 0 1 1
access R read b 1 1 1
access S write b 9 1 2
access R read b 10 1 2
access S write c 10 1 1
access R empty c 11 0
access R write y 12 1 0
access R empty c 12 0
access R write y 13 1 0
",
        stalls: b"\
stalls
verdict done 14
module R 5 9
stall R empty b 9
port R pop b 2 1 10
port R push y 2 12 13
module S 11 0
port S push b 2 0 9
port S push c 1 10 10
fifo b 1 12 0
fifo c 1 11 0
",
        path: b"\
path
verdict done 14
spend R 4
spend S 10
cross empty b 1
link S 0 9
link R 10 13
",
        trace: b"\
{\"displayTimeUnit\":\"ns\",\"traceEvents\":[
{\"ph\":\"M\",\"pid\":0,\"tid\":0,\"name\":\"thread_name\",\"args\":{\"name\":\"R\"}},
{\"ph\":\"M\",\"pid\":0,\"tid\":1,\"name\":\"thread_name\",\"args\":{\"name\":\"S\"}},
{\"ph\":\"X\",\"pid\":0,\"tid\":0,\"ts\":0,\"dur\":1,\"name\":\"empty b\"},
{\"ph\":\"X\",\"pid\":0,\"tid\":0,\"ts\":1,\"dur\":1,\"name\":\"moves\"},
{\"ph\":\"X\",\"pid\":0,\"tid\":0,\"ts\":2,\"dur\":8,\"name\":\"empty b\"},
{\"ph\":\"X\",\"pid\":0,\"tid\":0,\"ts\":10,\"dur\":4,\"name\":\"moves\"},
{\"ph\":\"X\",\"pid\":0,\"tid\":1,\"ts\":0,\"dur\":11,\"name\":\"moves\"},
{\"ph\":\"C\",\"pid\":0,\"ts\":0,\"name\":\"b\",\"args\":{\"fill\":0}},
{\"ph\":\"C\",\"pid\":0,\"ts\":1,\"name\":\"b\",\"args\":{\"fill\":1}},
{\"ph\":\"C\",\"pid\":0,\"ts\":2,\"name\":\"b\",\"args\":{\"fill\":0}},
{\"ph\":\"C\",\"pid\":0,\"ts\":10,\"name\":\"b\",\"args\":{\"fill\":1}},
{\"ph\":\"C\",\"pid\":0,\"ts\":11,\"name\":\"b\",\"args\":{\"fill\":0}},
{\"ph\":\"C\",\"pid\":0,\"ts\":0,\"name\":\"c\",\"args\":{\"fill\":0}},
{\"ph\":\"C\",\"pid\":0,\"ts\":11,\"name\":\"c\",\"args\":{\"fill\":1}}
]}
",
        shown: Status::Done,
        size: b"\
size
verdict done 14
depth b 1
depth c 1
",
        sized: Status::Done,
    },
    // A stall whose cause changes: first there is no element in one FIFO, then no place in another.
    Viewed {
        text: &[
            b"\
flow 1
fifo b 8
fifo c 8 1
module p
block k 4
at 3 write b 1
stop
module q
reg x 8
block k 2
at 0 write c 5
at 1 read b x
at 1 write c 6
stop
module r
reg y 8
block k 8
at 5 read c y
at 7 read c y
stop
end
",
        ],
        log: b"\
log
verdict done 8
access q write c 0 1 5
access p write b 3 1 1
access r read c 5 1 5
access q read b 6 1 1
access q write c 6 1 6
access r read c 7 1 6
",
        stalls: b"\
stalls
verdict done 8
module p 4 0
port p push b 1 3 3
module q 2 5
stall q empty b 3
stall q full c 2
port q pop b 1 6 6
port q push c 2 0 6
module r 8 0
port r pop c 2 5 7
fifo b 1 5 0
fifo c 1 2 6
",
        path: b"\
path
verdict done 8
spend r 8
link r 0 7
",
        trace: b"\
{\"displayTimeUnit\":\"ns\",\"traceEvents\":[
{\"ph\":\"M\",\"pid\":0,\"tid\":0,\"name\":\"thread_name\",\"args\":{\"name\":\"p\"}},
{\"ph\":\"M\",\"pid\":0,\"tid\":1,\"name\":\"thread_name\",\"args\":{\"name\":\"q\"}},
{\"ph\":\"M\",\"pid\":0,\"tid\":2,\"name\":\"thread_name\",\"args\":{\"name\":\"r\"}},
{\"ph\":\"X\",\"pid\":0,\"tid\":0,\"ts\":0,\"dur\":4,\"name\":\"moves\"},
{\"ph\":\"X\",\"pid\":0,\"tid\":1,\"ts\":0,\"dur\":1,\"name\":\"moves\"},
{\"ph\":\"X\",\"pid\":0,\"tid\":1,\"ts\":1,\"dur\":3,\"name\":\"empty b\"},
{\"ph\":\"X\",\"pid\":0,\"tid\":1,\"ts\":4,\"dur\":2,\"name\":\"full c\"},
{\"ph\":\"X\",\"pid\":0,\"tid\":1,\"ts\":6,\"dur\":1,\"name\":\"moves\"},
{\"ph\":\"X\",\"pid\":0,\"tid\":2,\"ts\":0,\"dur\":8,\"name\":\"moves\"},
{\"ph\":\"C\",\"pid\":0,\"ts\":0,\"name\":\"b\",\"args\":{\"fill\":0}},
{\"ph\":\"C\",\"pid\":0,\"ts\":4,\"name\":\"b\",\"args\":{\"fill\":1}},
{\"ph\":\"C\",\"pid\":0,\"ts\":7,\"name\":\"b\",\"args\":{\"fill\":0}},
{\"ph\":\"C\",\"pid\":0,\"ts\":0,\"name\":\"c\",\"args\":{\"fill\":0}},
{\"ph\":\"C\",\"pid\":0,\"ts\":1,\"name\":\"c\",\"args\":{\"fill\":1}},
{\"ph\":\"C\",\"pid\":0,\"ts\":6,\"name\":\"c\",\"args\":{\"fill\":0}},
{\"ph\":\"C\",\"pid\":0,\"ts\":7,\"name\":\"c\",\"args\":{\"fill\":1}},
{\"ph\":\"C\",\"pid\":0,\"ts\":8,\"name\":\"c\",\"args\":{\"fill\":0}}
]}
",
        shown: Status::Done,
        size: b"\
size
verdict done 8
depth b 1
depth c 1
",
        sized: Status::Done,
    },
    // Three FIFOs, two of them with a delay.
    Viewed {
        text: &[THREE_FIFOS],
        log: b"\
log
verdict done 10
access P write b 0 1 5
access P write c 1 1 2
access Q read b 3 1 5
access Q read c 3 1 2
access Q write d 4 1 7
access R read d 8 1 7
access R write y 9 1 7
",
        stalls: b"\
stalls
verdict done 10
module P 2 0
port P push b 1 0 0
port P push c 1 1 1
module Q 2 3
stall Q empty b 3
port Q pop b 1 3 3
port Q pop c 1 3 3
port Q push d 1 4 4
module R 2 8
stall R empty d 8
port R pop d 1 8 8
port R push y 1 9 9
fifo b 1 9 0
fifo c 1 8 2
fifo d 1 9 4
",
        path: b"\
path
verdict done 10
spend P 1
spend Q 2
spend R 2
cross empty b 1
cross empty d 1
link P 0 0
link Q 3 4
link R 8 9
",
        trace: b"\
{\"displayTimeUnit\":\"ns\",\"traceEvents\":[
{\"ph\":\"M\",\"pid\":0,\"tid\":0,\"name\":\"thread_name\",\"args\":{\"name\":\"P\"}},
{\"ph\":\"M\",\"pid\":0,\"tid\":1,\"name\":\"thread_name\",\"args\":{\"name\":\"Q\"}},
{\"ph\":\"M\",\"pid\":0,\"tid\":2,\"name\":\"thread_name\",\"args\":{\"name\":\"R\"}},
{\"ph\":\"X\",\"pid\":0,\"tid\":0,\"ts\":0,\"dur\":2,\"name\":\"moves\"},
{\"ph\":\"X\",\"pid\":0,\"tid\":1,\"ts\":0,\"dur\":3,\"name\":\"empty b\"},
{\"ph\":\"X\",\"pid\":0,\"tid\":1,\"ts\":3,\"dur\":2,\"name\":\"moves\"},
{\"ph\":\"X\",\"pid\":0,\"tid\":2,\"ts\":0,\"dur\":8,\"name\":\"empty d\"},
{\"ph\":\"X\",\"pid\":0,\"tid\":2,\"ts\":8,\"dur\":2,\"name\":\"moves\"},
{\"ph\":\"C\",\"pid\":0,\"ts\":0,\"name\":\"b\",\"args\":{\"fill\":0}},
{\"ph\":\"C\",\"pid\":0,\"ts\":1,\"name\":\"b\",\"args\":{\"fill\":1}},
{\"ph\":\"C\",\"pid\":0,\"ts\":4,\"name\":\"b\",\"args\":{\"fill\":0}},
{\"ph\":\"C\",\"pid\":0,\"ts\":0,\"name\":\"c\",\"args\":{\"fill\":0}},
{\"ph\":\"C\",\"pid\":0,\"ts\":2,\"name\":\"c\",\"args\":{\"fill\":1}},
{\"ph\":\"C\",\"pid\":0,\"ts\":4,\"name\":\"c\",\"args\":{\"fill\":0}},
{\"ph\":\"C\",\"pid\":0,\"ts\":0,\"name\":\"d\",\"args\":{\"fill\":0}},
{\"ph\":\"C\",\"pid\":0,\"ts\":5,\"name\":\"d\",\"args\":{\"fill\":1}},
{\"ph\":\"C\",\"pid\":0,\"ts\":9,\"name\":\"d\",\"args\":{\"fill\":0}}
]}
",
        shown: Status::Done,
        size: b"\
size
verdict done 10
depth b 1
depth c 1
depth d 1
",
        sized: Status::Done,
    },
];

#[test]
fn views(rt: HostRuntime) -> Result<(), Fail> {
    for viewed in VIEWED {
        let text = joined(rt.alloc(), viewed.text)?;
        let text = text.as_slice();
        let links = &["--events"];
        answers(&rt, "log", &[], text, viewed.log, viewed.shown)?;
        answers(&rt, "stalls", &[], text, viewed.stalls, viewed.shown)?;
        answers(&rt, "path", links, text, viewed.path, viewed.shown)?;
        answers(&rt, "trace", &[], text, viewed.trace, viewed.shown)?;
        answers(&rt, "size", &[], text, viewed.size, viewed.sized)?;
    }
    Ok(())
}
