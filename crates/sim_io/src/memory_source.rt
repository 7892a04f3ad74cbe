//! A source in memory.
ghost use Rattle.std.specs.Prelude.{◌≡◌, ◌≤◌, ◌↔◌, IfOk, IsErr, OnErr, Contains, Some, length, take, drop};
ghost use Rattle.std.specs.{Io.ReadsAtMost, Io.KnownBytes.ReadConsumes};
ghost use Rattle.sim_io.specs.{HasCause, opened_source, handed, after_take, after_failed_take};

use crate::traits::{Failed, Source};
use flow_word::{List, OutOfMemory, Words};
use std::alloc::Global;
use std::marker::Model;

/// A source in memory. It hands out its bytes in pieces, and fails in chosen calls, which are numbered from 0.
#[derive(Drop)]
pub struct MemSource {
    bytes: List<u8>,
    at: usize,
    piece: u64,
    fails: Words,
    calls: u64,
    faults: u64,
}

impl Model for MemSource {
    ghost use Rattle.std.specs.Prelude.{◌≤◌, length, drop};
    ghost use Rattle.sim_io.specs.Ends.{Given};

    ghost Value = { Given };

    ghost view = { λ s. record { left = drop s.at s.bytes; piece = s.piece; fails = s.fails; calls = s.calls; faults = s.faults } };

    ghost invariant = { λ s. (s.at ≤ length s.bytes) × (1 ≤ s.piece) };
}

impl MemSource {
    /// A source of these bytes, of which a call hands out at most `piece`, and which fails in the calls of these numbers. `OutOfMemory`
    /// where memory ran out.
    pub fn new(
        alloc: Global,
        bytes: &[u8],
        piece: u64,
        fails: &[u64],
    ) -> Result<MemSource, OutOfMemory>
        requires { 1 ≤ piece }
        ensures { IfOk result (λ source. source ≡ opened_source bytes.now piece fails.now) }
    {
        Ok(MemSource {
            bytes: List::from_slice(alloc, bytes)?,
            at: 0,
            piece,
            fails: List::from_slice(alloc, fails)?,
            calls: 0,
            faults: 0,
        })
    }
}

impl Source for MemSource {
    ghost left = { λ s. Some s.left };

    ghost faults = { λ s. s.faults };

    fn take(&mut self, into: &mut [u8]) -> Result<usize, Failed>
        ensures bound { ReadsAtMost result into.new }
        ensures bytes { ReadConsumes (Some self.old.left) (Some self.new.left) result into.new }
        ensures cause { HasCause self.old.faults self.new.faults result }

        ensures fails { IsErr result ↔ Contains self.old.fails self.old.calls }
        ensures count { IfOk result (λ n. n ≡ handed self.old (length into.old)) }
        ensures ok { IfOk result (λ n. self.new ≡ after_take self.old n) }
        ensures err { OnErr result (self.new ≡ after_failed_take self.old) }
    {
        let call = self.calls;
        self.calls = call.saturating_add(1);
        if self.fails.as_slice().contains(&call) {
            self.faults = self.faults.saturating_add(1);
            return Err(Failed);
        }
        let left = &self.bytes.as_slice()[self.at..];
        let count = (self.piece.min(left.len() as u64) as usize).min(into.len());
        copy_front(into, left, count);
        self.at += count;
        Ok(count)
    }
}

/// Copies the first `count` bytes.
fn copy_front(into: &mut [u8], from: &[u8], count: usize)
    requires fits { count ≤ length into.old }
    requires there { count ≤ length from.now }
    ensures { take count into.new ≡ take count from.now }
{
    into[..count].copy_from_slice(&from[..count]);
}
