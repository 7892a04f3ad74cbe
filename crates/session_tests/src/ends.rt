//! Sources and sinks, in memory and over std, and the functions that read and write all.
use sim_io::{
    Failed, MemSink, MemSource, PutFault, Sink, StdSink, StdSource, TakeFault, read_all,
    write_all_of,
};
use std::io::{self, Read, Write};
use std::test::Fail;

#[test]
fn reads_piece_after_piece(rt: HostRuntime) -> Result<(), Fail> {
    let alloc = rt.alloc();
    let mut whole = MemSource::new(alloc, b"a text", 4, &[])?;
    assert!(rt;
        read_all(alloc, &mut whole, 6).is_ok_and(|bytes| bytes.as_slice() == b"a text".as_slice())
    );
    let mut long = MemSource::new(alloc, b"a text", 4, &[])?;
    assert!(rt; read_all(alloc, &mut long, 5).is_err_and(|fault| fault == TakeFault::TooLong));
    Ok(())
}

#[test]
fn writes_piece_after_piece(rt: HostRuntime) -> Result<(), Fail> {
    let mut sink = MemSink::new(rt.alloc(), 8, 3, &[])?;
    assert_eq!(rt; write_all_of(&mut sink, b"a text"), Ok(()));
    assert_eq!(rt; sink.held(), b"a text".as_slice());
    Ok(())
}

/// A line that is broken: it gives no bytes, takes none, and cannot be flushed.
#[derive(Drop)]
struct Broken;

impl Read for Broken {
    fn read(&mut self, _: &mut [u8]) -> io::Result<usize> {
        Err(io::Error::from(io::ErrorKind::ConnectionReset))
    }
}

impl Write for Broken {
    fn write(&mut self, _: &[u8]) -> io::Result<usize> {
        Err(io::Error::from(io::ErrorKind::ConnectionReset))
    }

    fn flush(&mut self) -> io::Result<()> {
        Err(io::Error::from(io::ErrorKind::ConnectionReset))
    }
}

#[test]
fn reads_what_a_reader_gives(rt: HostRuntime) -> Result<(), Fail> {
    let mut source = StdSource::new(b"a text".as_slice());
    let bytes = read_all(rt.alloc(), &mut source, 6);
    assert!(rt; bytes.is_ok_and(|bytes| bytes.as_slice() == b"a text".as_slice()));
    Ok(())
}

#[test]
fn writes_what_a_writer_takes(rt: HostRuntime) -> Result<(), Fail> {
    let mut room = [b'.'; 8];
    let mut sink = StdSink::new(room.as_mut_slice());
    assert_eq!(rt; write_all_of(&mut sink, b"a text"), Ok(()));
    assert_eq!(rt; sink.finish(), Ok(()));
    assert_eq!(rt; write_all_of(&mut sink, b"!!!"), Err(PutFault::WriteFault));
    assert_eq!(rt; &room, b"a text!!");
    Ok(())
}

#[test]
fn a_line_that_has_broken_off_is_a_fault(rt: HostRuntime) {
    let read = read_all(rt.alloc(), &mut StdSource::new(Broken), 6);
    assert!(rt; read.is_err_and(|fault| fault == TakeFault::ReadFault));
    let mut sink = StdSink::new(Broken);
    assert_eq!(rt;
        write_all_of(&mut sink, b"a text"),
        Err(PutFault::WriteFault)
    );
    assert_eq!(rt; sink.finish(), Err(Failed));
}
