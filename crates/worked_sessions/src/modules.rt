//! Modules that several sessions share.

/// Two modules: P pushes 0, 1 and 2 into the FIFO b, and Q pops three values from it, each at most one in a clock.
pub const THREE_PUSHES_AND_POPS: &[u8] = b"\
module P
reg i 8
reg g 1
loop l 1 1 while g
at 0 write b i
at 0 set i + i 1
at 0 set g <u i 2
stop
module Q
reg x 8
reg i 8
reg g 1
loop l 1 1 while g
at 0 read b x
at 0 set i + i 1
at 0 set g <u i 2
stop
";

/// Two modules: p reads a value of the source a and pushes it into the FIFO b one clock later, and q pops it and writes it to the
/// sink y one clock later.
pub const RELAY: &[u8] = b"\
module p
reg x 8
block k 2
at 0 read a x
at 1 write b x
stop
module q
reg z 8
block k 2
at 0 read b z
at 1 write y z
stop
";

/// Two modules, each of which begins with a wait for the other: A for an element in the FIFO ba, and B for one in the FIFO ab.
pub const MUTUAL_WAIT: &[u8] = b"\
module A
reg x 8
block k 2
at 0 read ba x
at 1 write ab 1
stop
module B
reg x 8
block k 2
at 0 read ab x
at 1 write ba 1
stop
";

/// A module that pushes 3 into the FIFO b in clock 5.
pub const PUSH_IN_CLOCK_5: &[u8] = b"\
module p
block k 6
at 5 write b 3
stop
";

/// A module that tries to pop from the FIFO b in clock 6, and writes the outcome to the sink y one clock later.
pub const TRY_IN_CLOCK_6: &[u8] = b"\
module q
reg x 8
reg ok 1
block k 8
at 6 tryread b x ok
at 7 write y ok
stop
";

/// The channels of two modules A and B, and the module A. It tries to pop from the FIFO ba in clock 0; one clock later it pushes
/// into the FIFO ab and writes the outcome to the sink y.
pub const TRY_BEFORE_PUSH: &[u8] = b"\
flow 1
fifo ab 8
fifo ba 8
sink y 8
sink z 8
module A
reg x 8
reg ok 1
block k 2
at 0 tryread ba x ok
at 1 write ab 1
at 1 write y ok
stop
";
