//! At each limit, the greatest that is read and the least that is refused.
use super::{fault, fault_of};
use std::alloc::Global;
use std::test::Fail;

/// What comes before an operation in line 6.
const BODY: &str = "module m\nreg x 8\nmem a 8 1\nblock k 1\nat 0 ";

/// The fault of a text with these lines, after each `@` in them is replaced by a number.
fn fault_with(alloc: Global, lines: &str, number: &str) -> Result<(u64, u64), Fail> {
    let lines = lines.replace(alloc, "@", number)?;
    fault_of(alloc, lines.as_str())
}

/// The faults of the same lines with each of four numbers for `@`.
fn faults_with(
    alloc: Global,
    lines: &str,
    [first, second, third, fourth]: [&str; 4],
) -> Result<[(u64, u64); 4], Fail> {
    Ok([
        fault_with(alloc, lines, first)?,
        fault_with(alloc, lines, second)?,
        fault_with(alloc, lines, third)?,
        fault_with(alloc, lines, fourth)?,
    ])
}

/// The fault of a text in which a line, or a part of one, is repeated `count` times, each time with its number, from 1 on.
pub fn fault_repeated(
    alloc: Global,
    front: &str,
    (before, after): (&str, &str),
    count: u64,
    tail: &str,
) -> Result<(u64, u64), Fail> {
    let mut lines = String::from_str(alloc, front)?;
    for number in 1..=count {
        write!(lines, "{before}{number}{after}")?;
    }
    lines.push_str(tail)?;
    fault_of(alloc, lines.as_str())
}

/// The faults of two texts, in which a line is repeated the first and the second number of times.
fn faults_repeated(
    alloc: Global,
    front: &str,
    line: (&str, &str),
    [first, second]: [u64; 2],
    tail: &str,
) -> Result<[(u64, u64); 2], Fail> {
    Ok([
        fault_repeated(alloc, front, line, first, tail)?,
        fault_repeated(alloc, front, line, second, tail)?,
    ])
}

/// Tests a text of as many bytes as a text may have, and one of one more.
#[test]
fn length_of_a_text(rt: HostRuntime) -> Result<(), Fail> {
    for (length, wanted) in [(4_194_304, (1, 12)), (4_194_305, (0, 1))] {
        let text = vec![in rt.alloc(); b' '; length]?;
        assert_eq!(rt; fault(rt.alloc(), text.as_slice())?, wanted, "{length}");
    }
    Ok(())
}

/// Tests numbers just below their range, at its two ends, and just above it.
#[test]
fn ranges_of_numbers(rt: HostRuntime) -> Result<(), Fail> {
    let widths = ["0", "1", "64", "65"];
    let depths = ["0", "1", "1000000", "1000001"];
    let lengths = ["0", "1", "4096", "4097"];
    let clocks = ["0", "1", "1000000000000", "1000000000001"];
    let rows = [
        ("source a @", widths, 2),
        ("sink y @", widths, 2),
        ("fifo b @", widths, 2),
        ("fifo b 8 @", depths, 2),
        ("fifo b 8\ndepth b @", depths, 3),
        ("module m\nreg x @\nblock k 1\nstop", widths, 3),
        ("module m\nmem a @ 1\nblock k 1\nstop", widths, 3),
        ("module m\nmem a 8 @\nblock k 1\nstop", lengths, 3),
        ("module m\nblock k @\nstop", clocks, 3),
        ("module m\nreg g 1\nloop l @ 1 while g\nstop", clocks, 4),
        ("module m\nreg g 1\nloop l 1 @ while g\nstop", clocks, 4),
        ("module m\nblock k 1\ntemp t @\nstop", widths, 4),
        (
            "module m\nreg x 8\nblock k 1\nat 0 set x sext @ x\nstop",
            widths,
            5,
        ),
    ];
    for (lines, numbers, line) in rows {
        let wanted = [(line, 4), (0, 0), (0, 0), (line, 4)];
        assert_eq!(rt; faults_with(rt.alloc(), lines, numbers)?, wanted, "{lines}");
    }
    Ok(())
}

/// Tests numbers that have no other range, which are below 2^64. They may begin with zeros.
#[test]
fn words(rt: HostRuntime) -> Result<(), Fail> {
    let most = "18446744073709551615";
    let padded = "000018446744073709551615";
    let above = "18446744073709551616";
    let rows = [
        ("source a 8\ninput a 1 @ 1", 3),
        ("limits @ 1", 2),
        ("limits 1 @", 2),
        ("module m\nreg x 8\nblock k 1\nat @ set x 1\nstop", 5),
        ("module m\nreg x 8\nblock k 1\nat 0 set x @\nstop", 5),
    ];
    for (lines, line) in rows {
        let found = faults_with(rt.alloc(), lines, ["0", most, padded, above])?;
        let wanted = [(0, 0), (0, 0), (0, 0), (line, 4)];
        assert_eq!(rt; found, wanted, "{lines}");
    }
    Ok(())
}

/// Tests as many lines of each kind, and as many input values, as a text may have, and one more.
#[test]
fn counts(rt: HostRuntime) -> Result<(), Fail> {
    let body = "module m\nreg x 8\nblock k 1\n";
    let loops = "module m\nreg g 1\nblock k 1\nstop\n";
    let inputs = "source a 8\nsource b 8\ninput b 0\ninput a";
    let stop = "block k 1\nstop";
    let rows = [
        ("", ("module m", "\nblock k 1\nstop\n"), [64, 65], "", 194),
        ("", ("fifo b", " 8\n"), [256, 257], "", 258),
        (
            "fifo a 8\nsource b 8\n",
            ("sink c", " 8\n"),
            [254, 255],
            "",
            258,
        ),
        ("module m\n", ("reg r", " 8\n"), [256, 257], stop, 259),
        ("module m\n", ("mem m", " 8 1\n"), [16, 17], stop, 19),
        ("module m\n", ("block k", " 1\nstop\n"), [256, 257], "", 515),
        (
            loops,
            ("loop l", " 1 1 while g\nstop\n"),
            [255, 256],
            "",
            516,
        ),
        (
            "module m\nblock k 1\n",
            ("temp t", " 8\n"),
            [64, 65],
            "stop",
            68,
        ),
        (body, ("at ", " set x 1\n"), [1024, 1025], "stop", 1029),
        ("source a 8\ninput a", (" ", ""), [100_000, 100_001], "", 3),
        (inputs, (" ", ""), [99_999, 100_000], "", 5),
        ("fifo b 8\n", ("depth b ", "\n"), [1000, 1001], "", 1003),
    ];
    for (front, line, counts, tail, at) in rows {
        let found = faults_repeated(rt.alloc(), front, line, counts, tail)?;
        assert_eq!(rt; found, [(0, 0), (at, 13)], "{at}");
    }
    Ok(())
}

/// Tests operators within operators as deep as they may be, and one deeper.
#[test]
fn depth_of_an_expression(rt: HostRuntime) -> Result<(), Fail> {
    let rows = [
        ("set x", (" + ", ""), " 0\nstop"),
        ("set x", (" sext ", ""), " 0\nstop"),
        ("set x", (" ?: 0 ", ""), " 0\nstop"),
        ("store a", (" + ", ""), " 0 - 0 0\nstop"),
        ("store a - 0 0", (" + ", ""), " 0\nstop"),
    ];
    for (front, operator, tail) in rows {
        let front = format!(in rt.alloc(); "{BODY}{front}")?;
        let found = faults_repeated(rt.alloc(), front.as_str(), operator, [31, 32], tail)?;
        assert_eq!(rt; found, [(0, 0), (6, 13)], "{front}");
    }
    Ok(())
}

/// Tests an expression of as many nodes as it may have, and of one more. Each of two expressions is counted by itself.
#[test]
fn nodes_of_an_expression(rt: HostRuntime) -> Result<(), Fail> {
    let alloc = rt.alloc();
    let nodes_15 = "+ + + 0 0 + 0 0 + + 0 0 + 0 0";
    let nodes_63 = format!(in alloc; "+ + {nodes_15} {nodes_15} + {nodes_15} {nodes_15}")?;
    let nodes_255 = format!(in alloc; "+ + {nodes_63} {nodes_63} + {nodes_63} {nodes_63}")?;
    let rows = [
        ("set x ~ @", (0, 0)),
        ("set x ~ ~ @", (6, 13)),
        ("store a ~ @ - 0 0", (0, 0)),
        ("store a ~ ~ @ 0", (6, 13)),
        ("store a - 0 0 ~ @", (0, 0)),
        ("store a 0 ~ ~ @", (6, 13)),
    ];
    for (operation, wanted) in rows {
        let lines = format!(in alloc; "{BODY}{operation}\nstop")?;
        let found = fault_with(alloc, lines.as_str(), nodes_255.as_str())?;
        assert_eq!(rt; found, wanted, "{operation}");
    }
    Ok(())
}
