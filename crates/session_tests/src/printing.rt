//! Prints a small session.
use flow_design::{Name, Session, Statement};
use flow_print::print_session;
use flow_word::{List, OutOfMemory, Width};
use std::alloc::Global;
use std::test::Fail;

/// The canonical text of a session of this version with one FIFO.
fn with_fifo(alloc: Global, version: u64, width: Width) -> Result<List<u8>, OutOfMemory> {
    let mut statements = List::new(alloc);
    statements.push(Statement::Flow(version))?;
    statements.push(Statement::Fifo {
        name: Name::new(alloc, b"b")?,
        width,
        depth: 2,
        delay: 1,
    })?;
    statements.push(Statement::End)?;
    print_session(alloc, &Session { statements })
}

#[test]
fn depths_and_delays_are_written_out(rt: HostRuntime) -> Result<(), Fail> {
    let alloc = rt.alloc();
    let Some(width) = Width::new(8) else {
        return Ok(());
    };
    let first = with_fifo(alloc, 1, width)?;
    assert_eq!(rt; first.as_slice(), b"flow 1\nfifo b 8 2\nend\n".as_slice());
    let second = with_fifo(alloc, 2, width)?;
    assert_eq!(rt;
        second.as_slice(),
        b"flow 2\nfifo b 8 2 1\nend\n".as_slice()
    );
    Ok(())
}
