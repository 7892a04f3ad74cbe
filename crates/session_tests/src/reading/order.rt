//! Lines that break two rules: the fault is the one that is tested first.
use super::fault_of;
use super::limits::fault_repeated;
use std::test::Fail;

/// Bytes are tested first, then syntax, ranges, new names, and names that are used.
#[test]
fn two_tests_at_once(rt: HostRuntime) -> Result<(), Fail> {
    let rows = [
        ("fifo b\x0b", (2, 2)),
        ("fifo b 65 8 8", (2, 3)),
        ("reg x 65", (2, 3)),
        ("limits 1 1\nlimits 1 18446744073709551616", (3, 3)),
        ("sink y 8\nsink y 8 8", (3, 3)),
        ("depth b", (2, 3)),
        ("sink y 8\nsink y 65", (3, 4)),
        ("source a 8\ninput a\ninput a 18446744073709551616", (4, 4)),
        ("depth b 0", (2, 4)),
        ("module m\nblock l 1\nstop\nloop l 1 0 while z", (5, 4)),
        ("module m\nblock l 1\nstop\nloop l 1 1 while z", (5, 5)),
    ];
    for (lines, wanted) in rows {
        assert_eq!(rt; fault_of(rt.alloc(), lines)?, wanted, "{lines}");
    }
    Ok(())
}

/// An operation that breaks two rules: the fault is the one that is tested first.
#[test]
fn two_tests_of_an_operation(rt: HostRuntime) -> Result<(), Fail> {
    let rows = [
        ("at 0 set z + x", 3),
        ("at 18446744073709551616 set x", 3),
        ("at 18446744073709551616 set z 1", 4),
        ("at 0 if z set x 18446744073709551616", 4),
        ("at 0 set x + z sext 65 x", 4),
        ("at 0 set z sext 0 x", 4),
        ("at 0 write z 18446744073709551616", 4),
    ];
    for (operation, code) in rows {
        let lines = format!(in rt.alloc(); "module m\nreg x 8\nblock k 1\n{operation}")?;
        assert_eq!(rt;
            fault_of(rt.alloc(), lines.as_str())?,
            (5, code),
            "{operation}"
        );
    }
    Ok(())
}

/// Counts of lines are tested last.
#[test]
fn counts_last(rt: HostRuntime) -> Result<(), Fail> {
    let fifos = ("fifo b", " 8\n");
    let edits = ("depth b ", "\n");
    let values = (" ", "");
    let inputs = "source a 8\nsource b 8\ninput a";
    let rows = [
        ("", fifos, 256, "fifo b1", (258, 3)),
        ("", fifos, 256, "fifo b1 65", (258, 4)),
        ("", fifos, 256, "fifo b1 64", (258, 5)),
        ("", fifos, 256, "fifo b 64", (258, 13)),
        ("fifo b 8\n", edits, 1000, "depth c 1", (1003, 6)),
        (inputs, values, 100_000, "\ninput a 1", (5, 5)),
        (inputs, values, 100_000, "\ninput c 1", (5, 6)),
        (inputs, values, 100_000, "\ninput b 1", (5, 13)),
    ];
    for (front, line, count, tail, wanted) in rows {
        assert_eq!(rt;
            fault_repeated(rt.alloc(), front, line, count, tail)?,
            wanted,
            "{tail}"
        );
    }
    Ok(())
}

/// In operations sizes are tested last: one operation too many, and an expression that is too deep.
#[test]
fn sizes_of_operations_last(rt: HostRuntime) -> Result<(), Fail> {
    let body = "module m\nreg x 8\nblock k 1\n";
    let operations = ("at ", " set x 1\n");
    let deep = "module m\nreg x 8\nblock k 1\nat 0 set x";
    let operators = (" + ", "");
    let rows = [
        (body, operations, 1024, "at 0 set x +", (1029, 3)),
        (body, operations, 1024, "at 0 set x sext 0 x", (1029, 4)),
        (body, operations, 1024, "at 0 if z set x 1", (1029, 6)),
        (deep, operators, 32, "", (5, 3)),
        (deep, operators, 32, " 18446744073709551616", (5, 4)),
        (deep, operators, 32, " z", (5, 6)),
        (deep, operators, 32, " x", (5, 13)),
    ];
    for (front, part, count, tail, wanted) in rows {
        assert_eq!(rt;
            fault_repeated(rt.alloc(), front, part, count, tail)?,
            wanted,
            "{tail}"
        );
    }
    Ok(())
}
