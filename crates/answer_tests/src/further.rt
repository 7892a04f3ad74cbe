//! What `advise`, `wave`, `order` and `sweep` answer.
use crate::asking::{answer, answers, words_of};
use crate::waves::wave_of;
use std::test::Fail;
use vcd_wave::wave_fill;
use whole_answer::Status;
use worked_sessions::{
    EMPTY_DESIGN, LATE_CHANNEL, REALISTIC_LINE, SessionParts, TWO_MODULES, joined,
};

/// A session, and what `advise`, `wave`, `order` and `sweep` answer to it.
struct Explored {
    text: SessionParts,
    advised: &'static [u8],
    advice: Status,
    /// The FIFOs that the wave names.
    fifos: &'static [&'static str],
    /// The fills that the wave shows from clock 0 on.
    fills: &'static [u8],
    /// The status of the wave.
    waved: Status,
    order: &'static [u8],
    /// The answer to `sweep`, with a point for each choice of depths from 1 to 2.
    swept: &'static [u8],
    sweep: Status,
}

/// Three FIFOs, two of them with a delay.
pub const THREE_FIFOS: &[u8] = b"\
flow 2
fifo b 8 2 3
fifo c 8 1
fifo d 8 1 4
sink y 8
module P
block k 2
at 0 write b 5
at 1 write c 2
stop
module Q
reg x 8
reg z 8
block k 2
at 0 read b x
at 0 read c z
at 1 write d + x z
stop
module R
reg x 8
block k 2
at 0 read d x
at 1 write y x
stop
end
";

/// A module that polls until its operations are used up.
pub const POLLING: &[u8] = b"\
flow 1
fifo b 8
fifo tries 8 2
module P
reg g 1
reg x 8
reg go 1
block k 3
at 0 set go 1
goto l
loop l 2 2 while go
at 0 tryread b x g
at 1 write tries g
stop
module Q
reg x 8
reg go 1
block k 9
at 7 write b 4
at 0 set go 1
goto t
loop t 1 1 while go
at 0 read tries x
stop
limits 100 9
end
";

/// The fills that the wave of `TWO_MODULES` shows.
pub const FILLS_OF_TWO_MODULES: &[u8] = b"\
#0
b0 f0
#2
b1 f0
#3
b0 f0
#4
";

const EXPLORED: &[Explored] = &[
    // No module and no channel.
    Explored {
        text: EMPTY_DESIGN,
        advised: b"\
advise
verdict done 0
",
        advice: Status::Done,
        fifos: &[],
        fills: b"\
#0
",
        waved: Status::Done,
        order: b"\
",
        swept: b"\
point done 0
best
",
        sweep: Status::Done,
    },
    // A value goes through one FIFO.
    Explored {
        text: TWO_MODULES,
        advised: b"\
advise
verdict done 4
depth b 2
",
        advice: Status::Done,
        fifos: &["b"],
        fills: FILLS_OF_TWO_MODULES,
        waved: Status::Done,
        order: b"\
order p serial
order q serial
",
        swept: b"\
point 1 done 4
point 2 done 4
best 1
",
        sweep: Status::Done,
    },
    // Three values wait in one FIFO until the other has one; an edit deepens the first.
    Explored {
        text: LATE_CHANNEL,
        advised: b"\
advise
verdict done 9
depth b 4
depth c 2
",
        advice: Status::Done,
        fifos: &["b", "c"],
        fills: b"\
#0
b0 f0
b0 f1
#1
b1 f0
#2
b10 f0
",
        waved: Status::Deadlock,
        order: b"\
order P serial
order Q serial
",
        swept: b"\
point 1 1 deadlock 1
point 1 2 deadlock 1
point 2 1 deadlock 2
point 2 2 deadlock 2
best none
",
        sweep: Status::Deadlock,
    },
    // Three FIFOs, two of them with a delay.
    Explored {
        text: &[THREE_FIFOS],
        advised: b"\
advise
verdict done 10
depth b 2
depth c 2
depth d 2
",
        advice: Status::Done,
        fifos: &["b", "c", "d"],
        fills: b"\
#0
b0 f0
b0 f1
b0 f2
#1
b1 f0
#2
b1 f1
#4
b0 f0
b0 f1
#5
b1 f2
#9
b0 f2
#10
",
        waved: Status::Done,
        order: b"\
order P serial
order Q serial
order R serial
",
        swept: b"\
point 1 1 1 done 10
point 1 1 2 done 10
point 1 2 1 done 10
point 1 2 2 done 10
point 2 1 1 done 10
point 2 1 2 done 10
point 2 2 1 done 10
point 2 2 2 done 10
best 1 1 1
",
        sweep: Status::Done,
    },
    // A module that polls until its operations are used up.
    Explored {
        text: &[POLLING],
        advised: b"\
advise
verdict ops 11
depth b 2
depth tries 3
",
        advice: Status::Ops,
        fifos: &["b", "tries"],
        fills: b"\
#0
b0 f0
b0 f1
#5
b1 f1
#7
b10 f1
#8
b1 f0
#10
b1 f1
#11
b0 f1
",
        waved: Status::Ops,
        order: b"\
order P query 1 0
order Q serial
",
        swept: b"\
point 1 1 ops 12
point 1 2 ops 11
point 2 1 ops 12
point 2 2 ops 11
best none
",
        sweep: Status::Ops,
    },
    // For each rule of serial modules, a module whose loop breaks it, and one whose loop keeps it.
    Explored {
        text: &[
            b"\
flow 1
source a 8
source b 8
sink y 8
sink z 8
fifo c 8
module plain
reg g 1
loop l 1 3 while g
temp t 8
at 0 read a t
at 2 write y t
stop
module register
reg x 8
reg g 1
block k 1
goto l
loop l 1 3 while g
at 0 set x + x 1
at 2 write c x
stop
module memory
reg x 8
reg g 1
mem m 8 4
loop l 1 3 while g
at 0 load x m 1
at 2 store m 1 0
stop
module reading
reg x 8
reg v 8
reg g 1
loop l 2 4 while g
at 0 read b x
at 3 read b v
stop
module writing
reg g 1
loop l 2 4 while g
at 0 write z 1
at 3 write z 2
stop
module late
reg g 1
loop l 1 3 while g
at 2 set g 1
stop
module query
reg e 1
reg x 8
block k 1
at 0 empty c e
goto l
block l 2
at 0 read c x
stop
end
",
        ],
        advised: b"\
advise
verdict deadlock 6
depth c 2
",
        advice: Status::Deadlock,
        fifos: &["c"],
        fills: b"\
#0
b0 f0
#4
b1 f0
#5
b0 f0
#6
",
        waved: Status::Deadlock,
        order: b"\
order plain serial
order register wide 1 register 0
order memory wide 0 memory 0
order reading wide 0 reading 1
order writing wide 0 writing 3
order late late 0 0
order query query 0 0
",
        swept: b"\
point 1 deadlock 6
point 2 deadlock 6
best none
",
        sweep: Status::Deadlock,
    },
    // Two values, 10^12 clocks apart.
    Explored {
        text: &[
            b"\
flow 1
fifo b 8
module p
block k 1000000000000
at 0 write b 1
at 999999999999 write b 2
stop
module q
reg x 8
block k 1
at 0 read b x
goto l
block l 1
at 0 read b x
stop
limits 1000000000000 5
end
",
        ],
        advised: b"\
advise
verdict cycles 1000000000000
depth b 2
",
        advice: Status::Cycles,
        fifos: &["b"],
        fills: b"\
#0
b0 f0
#1
b1 f0
#2
b0 f0
#1000000000000
b1 f0
",
        waved: Status::Cycles,
        order: b"\
order p serial
order q serial
",
        swept: b"\
point 1 cycles 1000000000000
point 2 cycles 1000000000000
best none
",
        sweep: Status::Cycles,
    },
];

#[test]
fn further_commands(rt: HostRuntime) -> Result<(), Fail> {
    for explored in EXPLORED {
        let text = joined(rt.alloc(), explored.text)?;
        let text = text.as_slice();
        answers(&rt, "advise", &[], text, explored.advised, explored.advice)?;
        let wave = wave_of(rt.alloc(), explored.fifos, explored.fills)?;
        answers(&rt, "wave", &[], text, wave.as_slice(), explored.waved)?;
        answers(&rt, "order", &[], text, explored.order, Status::Done)?;
        answers(
            &rt,
            "sweep",
            &["1", "2"],
            text,
            explored.swept,
            explored.sweep,
        )?;
    }
    Ok(())
}

#[test]
fn the_largest_grid(rt: HostRuntime) -> Result<(), Fail> {
    let words = words_of(&rt, "sweep", &["1", "16"])?;
    let (status, sink) = answer(&rt, words.as_slice(), THREE_FIFOS, &[], &[])?;
    assert_eq!(rt; status, Status::Done);
    assert_eq!(rt; sink.held().len(), 87_307);
    assert!(rt;
        sink.held()
            .starts_with(b"point 1 1 1 done 10\npoint 1 1 2 done 10\n")
    );
    assert!(rt;
        sink.held()
            .ends_with(b"point 16 16 16 done 10\nbest 1 1 1\n")
    );
    let line = joined(rt.alloc(), REALISTIC_LINE)?;
    let told = b"refused 0 21\n";
    answers(&rt, "sweep", &["1", "17"], THREE_FIFOS, told, Status::Text)?;
    answers(
        &rt,
        "sweep",
        &["1", "64"],
        line.as_slice(),
        told,
        Status::Text,
    )
}

/// The number of a FIFO, a clock, and what the wave of two modules says that the FIFO holds then.
const FILLS_AT_CLOCKS: &[(u32, u64, Option<u64>)] = &[
    (0, 0, Some(0)),
    (0, 2, Some(1)),
    (0, 4, Some(0)),
    (0, 5, None),
    (1, 2, None),
];

#[test]
fn a_wave_says_its_fills(rt: HostRuntime) -> Result<(), Fail> {
    let wave = wave_of(rt.alloc(), &["b"], FILLS_OF_TWO_MODULES)?;
    for (fifo, clock, fill) in FILLS_AT_CLOCKS {
        assert_eq!(rt; wave_fill(wave.as_slice(), *fifo, *clock), *fill);
    }
    Ok(())
}
