//! The first lines and statements of generated texts.
use flow_gen::generate;
use std::test::Fail;

/// How many bytes a text has from `input a` on: the numbers 0 to 999, each after a space, and `end`.
const END: u64 = 7 + (10 * 2 + 90 * 3 + 900 * 4) + 5;

const ONE_MODULE: &[u8] = b"flow 1
source a 32
sink y 32
module m0
reg x 32
reg n 32
reg g 1
reg e 1
loop l 3 4 while g
at 0 read a x
at 0 full y e
at 0 set n + n 1
at 0 set g <u n 999
at 1 write y + x + 248 e
stop
input a 0 1 2 3 4 5 6 7 8 9 10 11 ";

const TWO_MODULES: &[u8] = b"flow 1
source a 32
sink y 32
fifo f1 32 1
module m0
reg x 32
reg n 32
reg g 1
reg e 1
loop l 3 4 while g
at 0 read a x
at 0 full f1 e
at 0 set n + n 1
at 0 set g <u n 999
at 1 write f1 + x + 248 e
stop
module m1
reg x 32
reg n 32
reg g 1
reg e 1
loop l 2 3 while g
at 0 read f1 x
at 0 full y e
at 0 set n + n 1
at 0 set g <u n 999
at 1 write y + x + 233 e
stop
input a 0 1 2 3 4 5 6 7 8 9 10 11 ";

/// How many bytes of the input line, from `input a` on, the two texts above show.
const SHOWN: u64 = 34;

#[test]
fn one_and_two_modules(rt: HostRuntime) -> Result<(), Fail> {
    let alloc = rt.alloc();
    let one = generate(alloc, 0, 1)?;
    assert!(rt; one.as_slice().starts_with(ONE_MODULE));
    assert!(rt; one.as_slice().ends_with(b" 998 999\nend\n"));
    assert_eq!(rt; one.len(), ONE_MODULE.len() as u64 - SHOWN + END);
    let two = generate(alloc, 0, 2)?;
    assert!(rt; two.as_slice().starts_with(TWO_MODULES));
    assert!(rt; two.as_slice().ends_with(b" 998 999\nend\n"));
    assert_eq!(rt; two.len(), TWO_MODULES.len() as u64 - SHOWN + END);
    Ok(())
}
