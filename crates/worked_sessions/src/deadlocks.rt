//! Designs whose modules wait for ever.
use crate::modules::MUTUAL_WAIT;
use crate::text::SessionParts;
use crate::worked::Worked;

/// Two modules, each of which begins with a wait for the other.
pub const DEADLOCK_AT_ONCE: SessionParts = &[
    b"flow 1\nfifo ab 8\nfifo ba 8\n",
    MUTUAL_WAIT,
    b"end\n",
];

/// Designs whose modules wait for ever.
pub const DEADLOCKS: &[Worked] = &[
    // deadlock at once
    Worked {
        options: &[],
        text: DEADLOCK_AT_ONCE,
        told: b"\
report 0
verdict deadlock 0
held A empty ba
held B empty ab
runs 1
",
        status: 3,
    },
    // run ahead past a full FIFO
    Worked {
        options: &[],
        text: &[
            b"\
flow 1
fifo b 8
module P
reg one 1
loop l 1 1 while one
at 0 write b 7
at 0 set one 1
stop
module Q
reg x 8
reg z 1
block k 1
at 0 if z read b x
stop
end
",
        ],
        told: b"\
report 0
verdict deadlock 2
held P full b
runs 1
",
        status: 3,
    },
    // exhausted source
    Worked {
        options: &[],
        text: &[
            b"\
flow 1
source a 8
sink y 8
module m
reg x 8
block k 3
at 0 read a x
at 2 write y + x 1
stop
end
",
        ],
        told: b"\
report 0
verdict deadlock 0
out y
held m empty a
runs 1
",
        status: 3,
    },
];
