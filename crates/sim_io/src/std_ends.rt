//! The trusted edge: std's readers and writers as sources and sinks.
ghost use Rattle.std.specs.Prelude.{◌≡◌, true, false};

use crate::traits::{Failed, Sink, Source};
use std::io::{Read, Write};

/// A reader as a source. What is left is what the reader tells of itself: nothing, for a file or standard input.
#[derive(Drop)]
pub struct StdSource<R> {
    reader: R,
    faults: u64,
}

impl<R: Read> StdSource<R> {
    ghost use Rattle.sim_io.specs.StdEnds.{reader_of, take_faults};

    /// A source that has not failed yet.
    pub fn new(reader: R) -> StdSource<R>
        ensures reader { reader_of result ≡ reader }
        ensures faults { take_faults result ≡ 0 }
    {
        StdSource { reader, faults: 0 }
    }
}

impl<R: Read> Source for StdSource<R> {
    ghost use Rattle.sim_io.specs.StdEnds.{reader_of, take_faults};

    ghost left = { λ source. R.remaining (reader_of source) };

    ghost faults = { take_faults };

    fn take(&mut self, into: &mut [u8]) -> Result<usize, Failed> {
        match self.reader.read(into) {
            Ok(count) => Ok(count),
            Err(_) => {
                self.faults = self.faults.saturating_add(1);
                Err(Failed)
            }
        }
    }
}

/// A writer as a sink. What it holds is what the writer tells of itself: nothing, for a file or standard output. To
/// finish is to flush.
#[derive(Drop)]
pub struct StdSink<W> {
    writer: W,
    faults: u64,
    finished: bool,
}

impl<W: Write> StdSink<W> {
    ghost use Rattle.sim_io.specs.StdEnds.{writer_of, put_faults, is_flushed};

    /// A sink that has not failed yet, and is not finished.
    pub fn new(writer: W) -> StdSink<W>
        ensures writer { writer_of result ≡ writer }
        ensures faults { put_faults result ≡ 0 }
        ensures unfinished { is_flushed result ≡ false }
    {
        StdSink {
            writer,
            faults: 0,
            finished: false,
        }
    }
}

impl<W: Write> Sink for StdSink<W> {
    ghost use Rattle.sim_io.specs.StdEnds.{writer_of, put_faults, is_flushed};

    ghost held = { λ sink. W.contents (writer_of sink) };

    ghost faults = { put_faults };

    ghost is_finished = { is_flushed };

    fn put(&mut self, piece: &[u8]) -> Result<usize, Failed> {
        self.finished = false;
        match self.writer.write(piece) {
            Ok(count) if count > 0 || piece.is_empty() => Ok(count),
            _ => {
                self.faults = self.faults.saturating_add(1);
                Err(Failed)
            }
        }
    }

    fn finish(&mut self) -> Result<(), Failed> {
        match self.writer.flush() {
            Ok(()) => {
                self.finished = true;
                Ok(())
            }
            Err(_) => {
                self.faults = self.faults.saturating_add(1);
                Err(Failed)
            }
        }
    }
}
