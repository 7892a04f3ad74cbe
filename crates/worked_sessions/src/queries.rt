//! Designs whose modules ask whether an access is possible.
use crate::modules::{PUSH_IN_CLOCK_5, TRY_BEFORE_PUSH, TRY_IN_CLOCK_6};
use crate::text::SessionParts;
use crate::worked::Worked;

/// A pop that is tried in the clock after the push.
pub const TIE_ONE_LATER: SessionParts = &[
    b"flow 1\nfifo b 8\nsink y 8\n",
    PUSH_IN_CLOCK_5,
    TRY_IN_CLOCK_6,
    b"end\n",
];

/// Two modules, each with a query in clock 0 that waits for the other's push.
pub const TWO_LEAST_QUERIES: SessionParts = &[
    TRY_BEFORE_PUSH,
    b"\
module B
reg x 8
reg ok 1
block k 2
at 0 tryread ab x ok
at 1 write ba 1
at 1 write z ok
stop
end
",
];

/// Two iterations that overlap. Each has a read, a test two local clocks later, and a write one local clock after that.
pub const LATER_STALL: SessionParts = &[
    b"\
flow 1
fifo b 8
fifo c 8
sink y 8
module R
reg x 8
reg e 1
reg g 1
reg z 1
loop l 1 4 while g
at 0 read b x
at 0 set g ^ g 1
at 2 empty c e
at 3 write y e
at 3 if z read c x
stop
module S
block k 11
at 0 write b 1
at 9 write b 2
at 10 write c 1
stop
end
",
];

/// One module pushes into a FIFO and tries to pop from it.
pub const BOTH_ENDS_IN_ONE_MODULE: SessionParts = &[
    b"\
flow 1
fifo b 8
sink y 8
module m
reg x 8
reg o 1
reg p 1
block k 3
at 0 write b 5
at 0 tryread b x o
at 1 tryread b x p
at 2 write y | << p 1 o
stop
end
",
];

/// Designs whose modules ask whether an access is possible.
pub const QUERIES: &[Worked] = &[
    // tie in the clock
    Worked {
        options: &[],
        text: &[
            b"flow 1\nfifo b 8\nsink y 8\n",
            PUSH_IN_CLOCK_5,
            b"\
module q
reg x 8
reg ok 1
block k 7
at 5 tryread b x ok
at 6 write y ok
stop
end
",
        ],
        told: b"\
report 0
verdict done 7
out y 0
runs 1
",
        status: 0,
    },
    // tie in the clock, one later
    Worked {
        options: &[],
        text: TIE_ONE_LATER,
        told: b"\
report 0
verdict done 8
out y 1
runs 1
",
        status: 0,
    },
    // two least queries
    Worked {
        options: &[],
        text: TWO_LEAST_QUERIES,
        told: b"\
report 0
verdict done 2
out y 0
out z 0
runs 1
",
        status: 0,
    },
    // later stall delays earlier query
    Worked {
        options: &[],
        text: LATER_STALL,
        told: b"\
report 0
verdict done 14
out y 0 0
runs 1
",
        status: 0,
    },
    // both ends in one module
    Worked {
        options: &[],
        text: BOTH_ENDS_IN_ONE_MODULE,
        told: b"\
report 0
verdict done 3
out y 2
runs 1
",
        status: 0,
    },
    // nine accesses in one local clock, a query among them
    Worked {
        options: &[],
        text: &[
            b"\
flow 1
sink a 8
sink b 8
sink c 8
sink d 8
sink e 8
sink f 8
sink g 8
sink h 8
sink i 8
module m
reg ok 1
block k 2
at 0 write a 1
at 0 write b 2
at 0 write c 3
at 0 write d 4
at 0 write e 5
at 0 write f 6
at 0 write g 7
at 0 write h 8
at 0 trywrite i ok 9
at 1 write a ok
stop
end
",
        ],
        told: b"\
report 0
verdict done 2
out a 1 1
out b 2
out c 3
out d 4
out e 5
out f 6
out g 7
out h 8
out i 9
runs 1
",
        status: 0,
    },
];
