//! Designs with FIFOs that show an element later than in the next clock.
use crate::modules::{MUTUAL_WAIT, PUSH_IN_CLOCK_5, RELAY, THREE_PUSHES_AND_POPS, TRY_IN_CLOCK_6};
use crate::worked::Worked;

/// Designs with FIFOs that show an element later than in the next clock.
pub const DELAYS: &[Worked] = &[
    // visibility five clocks later
    Worked {
        options: &[],
        text: &[
            b"flow 2\nsource a 8\nfifo b 8 2 5\nsink y 8\n",
            RELAY,
            b"input a 5\nend\n",
        ],
        told: b"\
report 0
verdict done 8
out y 5
runs 1
",
        status: 0,
    },
    // three values through depth two, on their way for five clocks, and an edit
    Worked {
        options: &[],
        text: &[
            b"flow 2\nfifo b 8 2 5\n",
            THREE_PUSHES_AND_POPS,
            b"depth b 3\nend\n",
        ],
        told: b"\
report 0
verdict done 12
report 1
verdict done 8
runs 1
",
        status: 0,
    },
    // tie in the clock, one later, with a delay of two
    Worked {
        options: &[],
        text: &[
            b"flow 2\nfifo b 8 2 2\nsink y 8\n",
            PUSH_IN_CLOCK_5,
            TRY_IN_CLOCK_6,
            b"end\n",
        ],
        told: b"\
report 0
verdict done 8
out y 0
runs 1
",
        status: 0,
    },
    // deadlock at once, with a delay
    Worked {
        options: &[],
        text: &[b"flow 2\nfifo ab 8 2 9\nfifo ba 8\n", MUTUAL_WAIT, b"end\n"],
        told: b"\
report 0
verdict deadlock 0
held A empty ba
held B empty ab
runs 1
",
        status: 3,
    },
];
