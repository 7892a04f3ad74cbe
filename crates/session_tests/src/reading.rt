mod limits;
mod names;
mod order;

use flow_design::Statement;
use flow_design::limits::Scale;
use flow_text::{ReadFail, TextFault, read_session};
use std::alloc::Global;
use std::test::Fail;

/// The line of a text's fault and the number of its code; two zeros where the text has no fault.
fn fault(alloc: Global, text: &[u8]) -> Result<(u64, u64), ReadFail> {
    match read_session(alloc, Scale::Standard, text) {
        Ok(_) => Ok((0, 0)),
        Err(ReadFail::Text(TextFault { line, code })) => Ok((line, code as u64)),
        Err(fail) => Err(fail),
    }
}

/// The fault of a text that has these lines between its first and its last.
fn fault_of(alloc: Global, lines: &str) -> Result<(u64, u64), Fail> {
    let text = format!(in alloc; "flow 1\n{lines}\nend")?;
    Ok(fault(alloc, text.as_bytes())?)
}

#[test]
fn plain_case(rt: HostRuntime) -> Result<(), Fail> {
    let text = b" flow\t01\r\n\n# note\nfifo b 064 # small\ndepth b 3\nend";
    let (session, lines) = read_session(rt.alloc(), Scale::Standard, text)?;
    assert_eq!(rt; lines.as_slice(), [1, 4, 5, 6].as_slice());
    let short = matches!(
        session.statements.as_slice(),
        [
            _,
            Statement::Fifo {
                depth: 2,
                delay: 1,
                ..
            },
            _,
            _
        ]
    );
    assert_eq!(rt; short, true);
    Ok(())
}

/// Tests of the first line and the last.
#[test]
fn ends_of_texts(rt: HostRuntime) -> Result<(), Fail> {
    let rows = [
        ("", (1, 12)),
        ("\n", (2, 12)),
        ("flow 0\nend", (1, 4)),
        ("flow 2\nend", (0, 0)),
        ("flow 3\nend", (1, 4)),
        ("flow 1", (1, 12)),
        ("flow 1\n", (2, 12)),
        ("flow 1\n\n# end", (3, 12)),
        ("flow 1\nend", (0, 0)),
        ("flow 1\nend\n", (0, 0)),
        ("flow 1\nend\n\n# end\n", (0, 0)),
        ("flow 1\nend\nend", (3, 3)),
        ("flow 1\nend\n# \x0b", (3, 2)),
    ];
    for (text, wanted) in rows {
        assert_eq!(rt; fault(rt.alloc(), text.as_bytes())?, wanted, "{text}");
    }
    Ok(())
}

/// Tests of delays, which FIFOs have only in version 2.
#[test]
fn delays_of_fifos(rt: HostRuntime) -> Result<(), Fail> {
    let rows = [
        ("flow 1\nfifo b 8 2 1\nend", (2, 3)),
        ("flow 2\nfifo b 8 2 0\nend", (2, 4)),
        ("flow 2\nfifo b 8 2 1000\nend", (0, 0)),
        ("flow 2\nfifo b 8 2 1001\nend", (2, 4)),
        ("flow 2\nfifo b 8 2 1 1\nend", (2, 3)),
    ];
    for (text, wanted) in rows {
        assert_eq!(rt; fault(rt.alloc(), text.as_bytes())?, wanted, "{text}");
    }
    Ok(())
}

/// Tests the bytes that may stand in a line, here in a comment, and those just outside their range.
#[test]
fn bytes_of_a_line(rt: HostRuntime) -> Result<(), Fail> {
    let rows = [
        (8, (2, 2)),
        (9, (0, 0)),
        (10, (0, 0)),
        (11, (2, 2)),
        (12, (2, 2)),
        (13, (0, 0)),
        (14, (2, 2)),
        (31, (2, 2)),
        (32, (0, 0)),
        (126, (0, 0)),
        (127, (2, 2)),
    ];
    for (byte, wanted) in rows {
        let mut text = b"flow 1\n#".to_vec(rt.alloc())?;
        text.push(byte)?;
        text.extend_from_slice(b"\nend")?;
        assert_eq!(rt; fault(rt.alloc(), text.as_slice())?, wanted, "{byte}");
    }
    Ok(())
}
