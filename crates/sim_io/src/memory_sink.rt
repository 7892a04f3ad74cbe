//! A sink in memory.
ghost use Rattle.std.specs.Prelude.{◌≡◌, ◌≤◌, ◌<◌, ◌+◌, ◌↔◌, ◌++◌, true, false, IfOk, IsErr, OnOk, OnErr, Contains, Some, length, take};
ghost use Rattle.std.specs.{Io.WritesAtMost, Io.KnownBytes.WriteAppends, Io.KnownBytes.Keeps};
ghost use Rattle.sim_io.specs.{HasCause, opened_sink, bytes_taken, after_put, after_failed_put, after_finish, after_failed_finish};
ghost use Rattle.sim_io.specs.{FailsPut};

use crate::traits::{Failed, Sink};
use flow_word::{List, OutOfMemory, Words};
use std::alloc::Global;
use std::marker::Model;

/// A sink in memory. It has room for a given number of bytes, takes them in pieces, and fails in chosen calls. The
/// calls of `put` and `finish` are numbered together, from 0.
#[derive(Drop)]
pub struct MemSink {
    buffer: Vec<u8>,
    len: usize,
    piece: u64,
    fails: Words,
    calls: u64,
    faults: u64,
    finished: bool,
}

impl Model for MemSink {
    ghost use Rattle.std.specs.Prelude.{◌≤◌, ◌-◌, vec_len, take};
    ghost use Rattle.sim_io.specs.Ends.{Taken};

    ghost Value = { Taken };

    ghost view = { λ k. record {
      held = take k.len k.buffer.items;
      room = vec_len k.buffer - k.len;
      piece = k.piece;
      fails = k.fails;
      calls = k.calls;
      faults = k.faults;
      finished = k.finished;
    } };

    ghost invariant = { λ k. (1 ≤ k.piece) × (k.len ≤ vec_len k.buffer) };
}

impl MemSink {
    /// A sink that holds nothing yet, with room for `room` bytes, of which a call takes at most `piece`, and which fails in the calls
    /// of these numbers. `OutOfMemory` where memory ran out.
    pub fn new(alloc: Global, room: u64, piece: u64, fails: &[u64]) -> Result<MemSink, OutOfMemory>
        requires { 1 ≤ piece }
        ensures { IfOk result (λ sink. sink ≡ opened_sink room piece fails.now) }
    {
        Ok(MemSink {
            buffer: vec![in alloc; 0u8; room as usize]?,
            len: 0,
            piece,
            fails: List::from_slice(alloc, fails)?,
            calls: 0,
            faults: 0,
            finished: false,
        })
    }

    /// The bytes that the sink holds.
    pub fn held(&self) -> &[u8]
        ensures { result.now ≡ self.now.held }
    {
        &self.buffer[..self.len]
    }
}

impl Sink for MemSink {
    ghost held = { λ k. Some k.held };

    ghost faults = { λ k. k.faults };

    ghost is_finished = { λ k. k.finished };

    fn put(&mut self, piece: &[u8]) -> Result<usize, Failed>
        ensures bound { WritesAtMost result piece.now }
        ensures some { IfOk result (λ n. 0 < length piece.now → 0 < n) }
        ensures bytes { WriteAppends (Some self.old.held) (Some self.new.held) result piece.now }
        ensures unfinished { self.new.finished ≡ false }
        ensures cause { HasCause self.old.faults self.new.faults result }

        ensures fails { IsErr result ↔ FailsPut self.old piece.now }
        ensures count { IfOk result (λ n. n ≡ bytes_taken self.old (length piece.now)) }
        ensures ok { IfOk result (λ n. self.new ≡ after_put self.old (take n piece.now)) }
        ensures err { OnErr result (self.new ≡ after_failed_put self.old) }
    {
        let call = self.calls;
        self.calls = call.saturating_add(1);
        self.finished = false;
        let free = self.buffer.len() - self.len;
        if self.fails.as_slice().contains(&call) || (!piece.is_empty() && free == 0) {
            self.faults = self.faults.saturating_add(1);
            return Err(Failed);
        }
        let count = (self.piece.min(free as u64) as usize).min(piece.len());
        store(self.buffer.as_mut_slice(), self.len, &piece[..count]);
        self.len += count;
        Ok(count)
    }

    fn finish(&mut self) -> Result<(), Failed>
        ensures finished { OnOk result (self.new.finished ≡ true) }
        ensures bytes { Keeps (Some self.old.held) (Some self.new.held) }
        ensures cause { HasCause self.old.faults self.new.faults result }

        ensures fails { IsErr result ↔ Contains self.old.fails self.old.calls }
        ensures ok { OnOk result (self.new ≡ after_finish self.old) }
        ensures err { OnErr result (self.new ≡ after_failed_finish self.old) }
    {
        let call = self.calls;
        self.calls = call.saturating_add(1);
        if self.fails.as_slice().contains(&call) {
            self.faults = self.faults.saturating_add(1);
            return Err(Failed);
        }
        self.finished = true;
        Ok(())
    }
}

/// Writes a piece at a place.
fn store(buffer: &mut [u8], at: usize, piece: &[u8])
    requires { at + length piece.now ≤ length buffer.old }
    ensures { take (at + length piece.now) buffer.new ≡ take at buffer.old ++ piece.now }
{
    buffer[at..at + piece.len()].copy_from_slice(piece);
}
