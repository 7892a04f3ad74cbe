//! Limits on the command line, which take the place of the session's.
use crate::asking::answers;
use crate::further::POLLING;
use crate::waves::wave_of;
use std::test::Fail;
use whole_answer::Status;

/// A command with its options, its answer for the module that polls, and the status.
type Limited = (&'static str, &'static [&'static str], &'static [u8], Status);

const LIMITED: &[Limited] = &[
    (
        "advise",
        &["--cycles", "4"],
        b"\
advise
verdict cycles 4
depth b 1
depth tries 1
",
        Status::Cycles,
    ),
    (
        "advise",
        &["--ops", "2"],
        b"\
advise
verdict ops 1
depth b 1
depth tries 1
",
        Status::Ops,
    ),
    (
        "sweep",
        &["1", "2", "--cycles", "4"],
        b"\
point 1 1 cycles 4
point 1 2 cycles 4
point 2 1 cycles 4
point 2 2 cycles 4
best none
",
        Status::Cycles,
    ),
    (
        "sweep",
        &["1", "2", "--ops", "2"],
        b"\
point 1 1 ops 1
point 1 2 ops 1
point 2 1 ops 1
point 2 2 ops 1
best none
",
        Status::Ops,
    ),
    (
        "log",
        &["--cycles", "4"],
        b"\
log
verdict cycles 4
access P tryread b 3 0
",
        Status::Cycles,
    ),
    (
        "log",
        &["--ops", "2"],
        b"\
log
verdict ops 1
",
        Status::Ops,
    ),
    (
        "stalls",
        &["--cycles", "4"],
        b"\
stalls
verdict cycles 4
module P 4 0
module Q 4 0
fifo b 0 4 0
fifo tries 0 4 0
",
        Status::Cycles,
    ),
    (
        "stalls",
        &["--ops", "2"],
        b"\
stalls
verdict ops 1
module P 1 0
module Q 1 0
fifo b 0 1 0
fifo tries 0 1 0
",
        Status::Ops,
    ),
    (
        "path",
        &["--cycles", "4"],
        b"\
path
verdict cycles 4
spend P 4
",
        Status::Cycles,
    ),
    (
        "path",
        &["--ops", "2"],
        b"\
path
verdict ops 1
spend P 1
",
        Status::Ops,
    ),
    (
        "trace",
        &["--cycles", "4"],
        b"\
{\"displayTimeUnit\":\"ns\",\"traceEvents\":[
{\"ph\":\"M\",\"pid\":0,\"tid\":0,\"name\":\"thread_name\",\"args\":{\"name\":\"P\"}},
{\"ph\":\"M\",\"pid\":0,\"tid\":1,\"name\":\"thread_name\",\"args\":{\"name\":\"Q\"}},
{\"ph\":\"X\",\"pid\":0,\"tid\":0,\"ts\":0,\"dur\":4,\"name\":\"moves\"},
{\"ph\":\"X\",\"pid\":0,\"tid\":1,\"ts\":0,\"dur\":4,\"name\":\"moves\"},
{\"ph\":\"C\",\"pid\":0,\"ts\":0,\"name\":\"b\",\"args\":{\"fill\":0}},
{\"ph\":\"C\",\"pid\":0,\"ts\":0,\"name\":\"tries\",\"args\":{\"fill\":0}}
]}
",
        Status::Cycles,
    ),
    (
        "trace",
        &["--ops", "2"],
        b"\
{\"displayTimeUnit\":\"ns\",\"traceEvents\":[
{\"ph\":\"M\",\"pid\":0,\"tid\":0,\"name\":\"thread_name\",\"args\":{\"name\":\"P\"}},
{\"ph\":\"M\",\"pid\":0,\"tid\":1,\"name\":\"thread_name\",\"args\":{\"name\":\"Q\"}},
{\"ph\":\"X\",\"pid\":0,\"tid\":0,\"ts\":0,\"dur\":1,\"name\":\"moves\"},
{\"ph\":\"X\",\"pid\":0,\"tid\":1,\"ts\":0,\"dur\":1,\"name\":\"moves\"},
{\"ph\":\"C\",\"pid\":0,\"ts\":0,\"name\":\"b\",\"args\":{\"fill\":0}},
{\"ph\":\"C\",\"pid\":0,\"ts\":0,\"name\":\"tries\",\"args\":{\"fill\":0}}
]}
",
        Status::Ops,
    ),
    (
        "size",
        &["--cycles", "4"],
        b"\
size
verdict cycles 4
depth b 1
depth tries 1
",
        Status::Cycles,
    ),
    (
        "size",
        &["--ops", "2"],
        b"\
size
verdict ops 1
depth b 1
depth tries 1
",
        Status::Ops,
    ),
];

#[test]
fn commands_up_to_a_limit(rt: HostRuntime) -> Result<(), Fail> {
    for (command, options, told, status) in LIMITED {
        answers(&rt, command, options, POLLING, told, *status)?;
    }
    Ok(())
}

/// Limits, the fills of the wave of the polling session up to them, and the status.
type LimitedWave = (&'static [&'static str], &'static [u8], Status);

const LIMITED_WAVES: &[LimitedWave] = &[
    (
        &["--cycles", "4"],
        b"#0\nb0 f0\nb0 f1\n#4\n",
        Status::Cycles,
    ),
    (&["--ops", "2"], b"#0\nb0 f0\nb0 f1\n#1\n", Status::Ops),
];

#[test]
fn waves_up_to_a_limit(rt: HostRuntime) -> Result<(), Fail> {
    for (options, fills, status) in LIMITED_WAVES {
        let told = wave_of(rt.alloc(), &["b", "tries"], fills)?;
        answers(&rt, "wave", options, POLLING, told.as_slice(), *status)?;
    }
    Ok(())
}

/// Bursts of four values, and a reader that takes one value in two clocks.
const BURSTS: &[u8] = b"\
flow 1
fifo burst 8 1
sink y 8
module producer
reg n 8
reg v 8
reg go 1
loop bursts 12 12 while go
at 0 write burst v
at 0 set n + n 1
at 0 set go <u n 3
at 1 write burst + v 1
at 2 write burst + v 2
at 3 write burst + v 3
at 4 set v + v 4
stop
module consumer
reg x 8
reg n 8
reg go 1
loop take 2 3 while go
at 0 read burst x
at 0 set n + n 1
at 0 set go <u n 15
at 2 write y x
stop
end
";

const BURSTS_FOR_17_CLOCKS: &[u8] = b"\
stalls
verdict cycles 17
module producer 13 4
stall producer full burst 4
port producer push burst 5 0 15
module consumer 9 8
stall consumer empty burst 8
port consumer pop burst 5 1 16
port consumer push y 4 3 16
fifo burst 1 12 5
";

const BURSTS_FOR_20_CLOCKS: &[u8] = b"\
path
verdict cycles 20
spend producer 12
spend consumer 8
cross empty burst 2
cross full burst 2
link producer 0 0
link consumer 1 5
link producer 6 15
link consumer 16 18
link producer 19 19
";

#[test]
fn views_up_to_a_limit(rt: HostRuntime) -> Result<(), Fail> {
    let stalls = BURSTS_FOR_17_CLOCKS;
    let path = BURSTS_FOR_20_CLOCKS;
    let sized = b"size\nverdict done 48\ndepth burst 3\n";
    answers(
        &rt,
        "stalls",
        &["--cycles=17"],
        BURSTS,
        stalls,
        Status::Cycles,
    )?;
    answers(
        &rt,
        "path",
        &["--cycles", "20", "--events"],
        BURSTS,
        path,
        Status::Cycles,
    )?;
    answers(
        &rt,
        "size",
        &["--cycles", "50"],
        BURSTS,
        sized,
        Status::Done,
    )?;
    let later = b"size\nverdict done 52\ndepth burst 2\n";
    answers(&rt, "size", &["--slack", "4"], BURSTS, later, Status::Done)
}

#[test]
fn fewest_bits(rt: HostRuntime) -> Result<(), Fail> {
    let least = b"least\nverdict done 48\nbits 24\ndepth burst 3\n";
    let later = b"least\nverdict done 52\nbits 16\ndepth burst 2\n";
    let refused = b"refused 0 22\n";
    answers(&rt, "least", &[], BURSTS, least, Status::Done)?;
    answers(&rt, "least", &["--slack=4"], BURSTS, later, Status::Done)?;
    answers(&rt, "least", &[], POLLING, refused, Status::Text)
}
