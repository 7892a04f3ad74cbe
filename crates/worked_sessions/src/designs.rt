//! Designs whose modules all end.
use crate::modules::{RELAY, THREE_PUSHES_AND_POPS};
use crate::text::SessionParts;
use crate::worked::Worked;

/// A design without modules and channels.
pub const EMPTY_DESIGN: SessionParts = &[b"flow 1\nend\n"];

/// A design with one source, one sink, and one module that adds one.
pub const PLAIN_CASE: &[u8] = b"\
flow 1
source a 8
sink y 8
module m
reg x 8
block k 3
at 0 read a x
at 2 write y + x 1
stop
input a 7
end
";

/// The answer to `PLAIN_CASE`.
pub const PLAIN_ANSWER: &[u8] = b"\
report 0
verdict done 3
out y 8
runs 1
";

/// A design of two modules with a FIFO between them, whose element is seen one clock after its push.
pub const TWO_MODULES: SessionParts = &[
    b"flow 1\nsource a 8\nfifo b 8\nsink y 8\n",
    RELAY,
    b"input a 5\nend\n",
];

/// The answer to `TWO_MODULES`.
pub const TWO_MODULES_ANSWER: &[u8] = b"\
report 0
verdict done 4
out y 5
runs 1
";

/// A design in which three values go through a FIFO of depth two.
pub const THREE_VALUES: SessionParts = &[b"flow 1\nfifo b 8\n", THREE_PUSHES_AND_POPS, b"end\n"];

/// A module with one operation, in the last local clock of a block of 10^12 clocks, which is as long as a block can be.
pub const LONG_BLOCK: SessionParts = &[
    b"\
flow 1
sink y 8
module m
block k 1000000000000
at 999999999999 write y 1
stop
limits 1000000000000000 100000
end
",
];

/// Designs whose modules all end.
pub const DESIGNS: &[Worked] = &[
    // plain case
    Worked {
        options: &[],
        text: &[PLAIN_CASE],
        told: PLAIN_ANSWER,
        status: 0,
    },
    // visibility one clock later
    Worked {
        options: &[],
        text: TWO_MODULES,
        told: TWO_MODULES_ANSWER,
        status: 0,
    },
    // three values through depth two
    Worked {
        options: &[],
        text: THREE_VALUES,
        told: b"\
report 0
verdict done 4
runs 1
",
        status: 0,
    },
    // three values through depth two, with their events
    Worked {
        options: &["--events"],
        text: THREE_VALUES,
        told: b"\
report 0
verdict done 4
event P write b 0
event P write b 1
event Q read b 1
event P write b 2
event Q read b 2
event Q read b 3
runs 1
",
        status: 0,
    },
    // empty design
    Worked {
        options: &[],
        text: EMPTY_DESIGN,
        told: b"\
report 0
verdict done 0
runs 1
",
        status: 0,
    },
    // word arithmetic
    Worked {
        options: &[],
        text: &[
            b"\
flow 1
sink y 64
module m
block k 9
at 0 write y / 7 0
at 1 write y % 7 0
at 2 write y << 1 64
at 3 write y sext 8 128
at 4 write y <s sext 1 1 0
at 5 write y - 0 1
at 6 write y ?: 0 5 6
at 7 write y >> 256 4
at 8 write y <u 18446744073709551615 1
stop
end
",
        ],
        told: b"\
report 0
verdict done 9
out y 18446744073709551615 7 0 18446744073709551488 1 18446744073709551615 6 16 0
runs 1
",
        status: 0,
    },
    // commit order
    Worked {
        options: &[],
        text: &[
            b"\
flow 1
sink y 8
module m
reg x 8
block k 2
at 0 set x 1
at 0 set x 2
at 1 write y x
stop
end
",
        ],
        told: b"\
report 0
verdict done 2
out y 2
runs 1
",
        status: 0,
    },
];
