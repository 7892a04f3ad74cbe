//! Designs that reach a limit, and designs that just do not.
use crate::designs::{PLAIN_ANSWER, PLAIN_CASE};
use crate::text::SessionParts;
use crate::worked::Worked;

/// A loop without end that tries a read in each local clock, with an operation limit of 10.
pub const POLLING_LOOP: SessionParts = &[
    b"\
flow 1
fifo b 8
module P
reg x 8
reg ok 1
reg one 1
loop l 1 1 while one
at 0 tryread b x ok
at 0 set one 1
stop
module W
reg z 1
block k 1
at 0 if z write b 1
stop
limits 1000 10
end
",
];

/// Designs that reach a limit, and designs that just do not.
pub const LIMITS: &[Worked] = &[
    // polling loop
    Worked {
        options: &[],
        text: POLLING_LOOP,
        told: b"\
report 0
verdict ops 3
runs 1
",
        status: 5,
    },
    // exact end, one clock less
    Worked {
        options: &["--cycles", "2"],
        text: &[PLAIN_CASE],
        told: b"\
report 0
verdict cycles 2
out y
runs 1
",
        status: 4,
    },
    // exact end
    Worked {
        options: &["--cycles", "3"],
        text: &[PLAIN_CASE],
        told: PLAIN_ANSWER,
        status: 0,
    },
    // exact end, its value in the same word
    Worked {
        options: &["--cycles=3"],
        text: &[PLAIN_CASE],
        told: PLAIN_ANSWER,
        status: 0,
    },
    // exact operation limit, one less
    Worked {
        options: &["--ops", "2"],
        text: &[PLAIN_CASE],
        told: b"\
report 0
verdict ops 1
out y
runs 1
",
        status: 5,
    },
    // exact operation limit
    Worked {
        options: &["--ops", "3"],
        text: &[PLAIN_CASE],
        told: PLAIN_ANSWER,
        status: 0,
    },
];
