//! Names: which tokens are names, which names are taken already, and which are declared before they are used.
use super::fault_of;
use std::test::Fail;

/// A name of 64 bytes.
const LONG: &str = "n123456789_123456789_123456789_123456789_123456789_123456789_123";

#[test]
fn long_names(rt: HostRuntime) -> Result<(), Fail> {
    let longest = format!(in rt.alloc(); "fifo {LONG} 8")?;
    assert_eq!(rt; fault_of(rt.alloc(), longest.as_str())?, (0, 0));
    let longer = format!(in rt.alloc(); "fifo {LONG}4 8")?;
    assert_eq!(rt; fault_of(rt.alloc(), longer.as_str())?, (2, 3));
    Ok(())
}

#[test]
fn names_of_channels(rt: HostRuntime) -> Result<(), Fail> {
    let rows = [
        ("fifo sext 8", (2, 3)),
        ("fifo Sext 8\nfifo sext_ 8\nfifo fifo 8", (0, 0)),
        ("fifo _8 8", (0, 0)),
        ("fifo 8_ 8", (2, 3)),
        ("sink a#b 8", (2, 3)),
        ("fifo b 8\nsource B 8\nsink b 8", (4, 5)),
        ("source a 8\nsource b 8\ninput b\ninput a 1", (0, 0)),
        ("source a 8\nsource b 8\ninput b\ninput b 1", (5, 5)),
        ("sink y 8\ninput y 1", (3, 6)),
        ("fifo b 8\ninput b 1", (3, 6)),
        ("fifo b 8\ndepth b 3", (0, 0)),
        ("depth b 3\nfifo b 8", (2, 6)),
        ("source a 8\ndepth a 3", (3, 6)),
    ];
    for (lines, wanted) in rows {
        assert_eq!(rt; fault_of(rt.alloc(), lines)?, wanted, "{lines}");
    }
    Ok(())
}

/// Tests names of a module that are new where they are declared, and some that are taken already.
#[test]
fn new_names_of_a_module(rt: HostRuntime) -> Result<(), Fail> {
    let rows = [
        ("reg x 8\nmem x 8 1", (4, 5)),
        ("mem x 8 1\nreg x 8", (4, 5)),
        ("reg x 8\nblock k 1\ntemp x 8", (5, 5)),
        ("mem x 8 1\nblock k 1\ntemp x 8", (5, 5)),
        ("block k 1\ntemp t 8\ntemp t 8", (5, 5)),
        (
            "block k 1\ntemp t 8\nstop\nblock l 1\ntemp t 8\nstop",
            (0, 0),
        ),
        ("reg x 8\nblock x 1\ntemp m 8\nstop", (0, 0)),
        ("block k 1\nstop\nblock k 1", (5, 5)),
        ("block k 1\nstop\nmodule n\nblock k 1\nstop", (0, 0)),
        ("block k 1\nstop\nmodule m", (5, 5)),
    ];
    for (lines, wanted) in rows {
        let lines = format!(in rt.alloc(); "module m\n{lines}")?;
        assert_eq!(rt; fault_of(rt.alloc(), lines.as_str())?, wanted, "{lines}");
    }
    Ok(())
}

/// Tests names that are declared before they are used, and of the wanted sort, and some that are not.
#[test]
fn known_names_of_a_module(rt: HostRuntime) -> Result<(), Fail> {
    let rows = [
        ("reg x 8\nblock k 1\nat 0 set x 1\nstop", (0, 0)),
        ("block k 1\nat 0 set x 1\nstop", (4, 6)),
        (
            "reg x 8\nblock k 1\nstop\nmodule n\nblock k 1\nat 0 set x 1",
            (8, 6),
        ),
        ("block k 1\ntemp t 8\nat 0 set t t\nstop", (0, 0)),
        ("block k 1\ntemp t 8\nstop\nblock l 1\nat 0 set t 1", (7, 6)),
        ("reg x 8\nloop l 1 1 while x\nbranch x z l", (0, 0)),
        ("loop l 1 1 while x", (3, 6)),
        ("mem a 8 1\nloop l 1 1 while a", (4, 6)),
        ("block k 1\ntemp t 8\nstop\nloop l 1 1 while t", (6, 6)),
        ("block k 1\ntemp t 8\nbranch t k k", (5, 6)),
        ("mem a 8 1\nblock k 1\nat 0 store a 0 1\nstop", (0, 0)),
        ("mem a 8 1\nblock k 1\nat 0 set a 1\nstop", (5, 6)),
        ("mem a 8 1\nblock k 1\nat 0 store a a 1\nstop", (5, 6)),
        ("reg x 8\nblock k 1\nat 0 store x 0 1\nstop", (5, 6)),
        ("reg x 8\nblock k 1\nat 0 if k set x 1\nstop", (5, 6)),
        ("reg x 8\nblock k 1\nat 0 read m x\nstop", (5, 6)),
    ];
    for (lines, wanted) in rows {
        let lines = format!(in rt.alloc(); "module m\n{lines}")?;
        assert_eq!(rt; fault_of(rt.alloc(), lines.as_str())?, wanted, "{lines}");
    }
    Ok(())
}
