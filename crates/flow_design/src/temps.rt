//! The temps of the live iterations of a block.
ghost use Rattle.std.specs.Prelude.{◌≡◌, ◌-◌, ◌+◌, ◌<◌, ◌≤◌, ◌++◌, ◌∷◌, [], length, drop, replicate, OnOk, OnErr, slice_index_or};
ghost use Rattle.std.specs.Prelude.{slice_set};
ghost use Rattle.flow_design.specs.{ring_place};

use crate::places::put_at;
use flow_word::{List, OutOfMemory, Words};
use std::alloc::Global;
use std::marker::Model;

/// The temps of each live iteration, the oldest first. Contracts see them as a list of lists.
///
/// They are a ring of rows. The row of an iteration that is no longer live is used again, so that an iteration that starts
/// takes no memory once the rows are there.
#[derive(Debug)]
pub struct LiveTemps {
    rows: List<Words>,
    /// The place of the oldest iteration's row.
    first: u64,
    /// How many iterations are live.
    count: u64,
}

impl Drop for LiveTemps {
    fn drop(self) {
        let LiveTemps {
            rows: _rows,
            first: _first,
            count: _count,
        } = self;
    }
}

impl Model for LiveTemps {
    ghost use Rattle.std.specs.{Prelude.List as Items, Prelude.ℕ, Prelude.◌≤◌, Prelude.length, Coded.coded_list, Coded.coded_ℕ};
    ghost use Rattle.flow_design.specs.Rings.{window};

    ghost Value = { Items (Items ℕ) };

    ghost coded = { coded_list (coded_list coded_ℕ) };

    ghost view = { λ temps. window temps.first temps.count temps.rows };

    ghost invariant = { λ temps. (temps.first ≤ length temps.rows) × (temps.count ≤ length temps.rows) };
}

impl LiveTemps {
    /// The temps of no live iteration. They take no memory.
    pub fn new(alloc: Global) -> LiveTemps
        ensures { result ≡ [] }
    {
        LiveTemps {
            rows: List::new(alloc),
            first: 0,
            count: 0,
        }
    }

    /// How many iterations are live.
    #[inline(always)]
    pub fn len(&self) -> u64
        ensures { result ≡ length self.now }
    {
        self.count
    }

    /// The temps of a live iteration. The slice is empty where there is no such iteration.
    #[inline(always)]
    pub fn get(&self, iteration: u32) -> &[u64]
        ensures { result.now ≡ slice_index_or self.now iteration [] }
    {
        let iteration = iteration as u64;
        if iteration >= self.count {
            return &[];
        }
        let place = slot(self.rows.len(), self.first, iteration);
        self.rows.as_slice()[place as usize].as_slice()
    }

    /// Sets a temp of a live iteration. Nothing changes where there is no such iteration or temp.
    #[inline(always)]
    pub fn put(&mut self, iteration: u32, temp: u64, word: u64)
        ensures { self.new ≡ slice_set self.old iteration (slice_set (slice_index_or self.old iteration []) temp word) }
    {
        let iteration = iteration as u64;
        if iteration < self.count {
            let place = slot(self.rows.len(), self.first, iteration);
            put_at(self.rows.as_mut_slice(), place, temp, word);
        }
    }

    /// Starts an iteration with `temps` temps, each 0. After `OutOfMemory` the temps of all iterations are as they
    /// were.
    #[inline(always)]
    pub fn start(&mut self, alloc: Global, temps: u64) -> Result<(), OutOfMemory>
        ensures started { OnOk result (self.new ≡ self.old ++ replicate temps 0 ∷ []) }
        ensures unchanged { OnErr result (self.new ≡ self.old) }
    {
        if self.count == self.rows.len() {
            let row = Words::zeros(alloc, temps)?;
            self.rows.as_mut_slice().rotate_left(self.first as usize);
            self.first = 0;
            self.rows.push(row)?;
            self.count += 1;
            return Ok(());
        }
        let place = slot(self.rows.len(), self.first, self.count);
        zero(&mut self.rows.as_mut_slice()[place as usize], temps)?;
        self.count += 1;
        Ok(())
    }

    /// Keeps the temps of the newest `live` iterations and drops the others.
    #[inline(always)]
    pub fn keep_newest(&mut self, live: u64)
        ensures { self.new ≡ drop (length self.old - live) self.old }
    {
        if live < self.count {
            self.first = slot(self.rows.len(), self.first, self.count - live);
            self.count = live;
        }
    }
}

/// The place that lies `after` places after `first` in a ring of `len` places.
#[inline(always)]
fn slot(len: u64, first: u64, after: u64) -> u64
    requires first { first ≤ len }
    requires after { after ≤ len }
    ensures { result ≡ ring_place len first after }
{
    let rest = len - first;
    if after < rest {
        first + after
    } else {
        after - rest
    }
}

/// Replaces the words by `len` zeros. It takes no memory where there are `len` words already.
#[inline(always)]
fn zero(words: &mut Words, len: u64) -> Result<(), OutOfMemory>
    ensures { OnOk result (words.new ≡ replicate len 0) }
{
    if words.len() == len {
        words.as_mut_slice().fill(0);
        return Ok(());
    }
    refill(words, len)
}

/// Replaces the words by `len` zeros, whatever their number was.
#[inline(never)]
fn refill(words: &mut Words, len: u64) -> Result<(), OutOfMemory>
    ensures { OnOk result (words.new ≡ replicate len 0) }
{
    words.truncate(0);
    for _ in 0..len {
        words.push(0)?;
    }
    Ok(())
}
