//! The log of all modules.
ghost use Rattle.std.specs.Prelude.{◌≡◌, ℕ, ◌+◌, ◌<◌, ◌≤◌, length, min, max, replicate, slice_index, All, IfOk, OnOk};
ghost use Rattle.query_log.specs.{UsesPlace, no_log, log_at, outcome_of, IsSoundLog, with_outcome, with_verified};

use crate::roomy::RoomyLog;
use flow_word::OutOfMemory;
use std::alloc::Global;
use std::marker::Model;

/// The outcomes of each module's queries, in order. The verified outcomes of a module are a prefix; the others are assumed.
///
/// Contracts see the logs, and the room of each: how many further outcomes it takes without asking for memory.
pub struct QueryLog {
    logs: Vec<RoomyLog>,
}

impl Drop for QueryLog {
    fn drop(self) {
        let QueryLog { logs: _logs } = self;
    }
}

impl Model for QueryLog {
    ghost use Rattle.std.specs.Prelude.{All};
    ghost use Rattle.query_log.specs.Logs.{RoomedLogs, IsSoundLog, logs_of, rooms_in_logs};

    ghost Value = { RoomedLogs };

    ghost view = { λ q. record { logs = logs_of q.logs.items; rooms = rooms_in_logs q.logs.items } };

    ghost invariant = { λ q. All IsSoundLog (logs_of q.logs.items) };
}

impl QueryLog {
    /// A log without an outcome for each of `modules` modules. `OutOfMemory` where memory ran out.
    pub fn new(alloc: Global, modules: u32) -> Result<QueryLog, OutOfMemory>
        ensures { IfOk result (λ log. log.logs ≡ replicate modules no_log) }
    {
        let mut logs = Vec::with_capacity(alloc, modules as usize)?;
        for _ in 0..modules {
            logs.push(RoomyLog::new(alloc))?;
        }
        Ok(QueryLog { logs })
    }

    /// Reserves room for `queries` further outcomes of a module.
    ///
    /// The logs stay as they are and no room falls, after `OutOfMemory` either.
    pub fn reserve(&mut self, owner: u32, queries: u64) -> Result<(), OutOfMemory>
        requires { owner < length self.old.logs }
        ensures logs { self.new.logs ≡ self.old.logs }
        ensures room { OnOk result (queries ≤ slice_index self.new.rooms owner) }
        ensures kept { (k : ℕ) → slice_index self.old.rooms k ≤ slice_index self.new.rooms k }
    {
        self.logs[owner as usize].outcomes.reserve(queries)
    }

    /// Adds the outcome of a module's next query, verified. It uses one place of the room that was reserved for the module.
    pub fn add(&mut self, owner: u32, yes: bool)
        requires owner { owner < length self.old.logs }
        requires room { 0 < slice_index self.old.rooms owner }
        requires verified { (log_at self.old.logs owner).verified ≡ length (log_at self.old.logs owner).outcomes }
        ensures logs { self.new.logs ≡ with_outcome self.old.logs owner yes }
        ensures rooms { UsesPlace owner self.old.rooms self.new.rooms }
    {
        self.logs[owner as usize].add(yes);
    }

    /// How many outcomes a module has.
    pub fn len(&self, owner: u32) -> u64
        requires { owner < length self.now.logs }
        ensures { result ≡ length (log_at self.now.logs owner).outcomes }
    {
        self.logs[owner as usize].outcomes.len()
    }

    /// The outcome of a module's query with this number, counted from 0. `None` where there is none.
    pub fn outcome(&self, owner: u32, number: u64) -> Option<bool>
        requires { owner < length self.now.logs }
        ensures { result ≡ outcome_of self.now.logs owner number }
    {
        self.logs[owner as usize]
            .outcomes
            .as_slice()
            .get(number as usize)
            .copied()
    }

    /// A module's outcomes, in order.
    pub fn outcomes(&self, owner: u32) -> &[bool]
        requires { owner < length self.now.logs }
        ensures { result.now ≡ (log_at self.now.logs owner).outcomes }
    {
        self.logs[owner as usize].outcomes.as_slice()
    }

    /// How many of a module's outcomes are verified.
    pub fn verified(&self, owner: u32) -> u64
        requires { owner < length self.now.logs }
        ensures count { result ≡ (log_at self.now.logs owner).verified }
        ensures prefix { result ≤ length (log_at self.now.logs owner).outcomes }
        ensures sound { All IsSoundLog self.now.logs }
    {
        self.logs[owner as usize].verified
    }

    /// Verifies a module's first outcome that is assumed.
    pub fn verify_next(&mut self, owner: u32)
        requires owner { owner < length self.old.logs }
        requires assumed { (log_at self.old.logs owner).verified < length (log_at self.old.logs owner).outcomes }
        ensures logs { self.new.logs ≡ with_verified self.old.logs owner ((log_at self.old.logs owner).verified + 1) }
        ensures rooms { self.new.rooms ≡ self.old.rooms }
    {
        self.logs[owner as usize].verify_next();
    }

    /// Verifies a module's outcomes with numbers below this one, counted from 0. Verified outcomes stay so.
    pub fn verify_up_to(&mut self, owner: u32, number: u64)
        requires owner { owner < length self.old.logs }
        requires recorded { number ≤ length (log_at self.old.logs owner).outcomes }
        ensures logs { self.new.logs ≡ with_verified self.old.logs owner (max number (log_at self.old.logs owner).verified) }
        ensures rooms { self.new.rooms ≡ self.old.rooms }
    {
        let log = &mut self.logs[owner as usize];
        log.verified = number.max(log.verified);
    }

    /// Makes a module's outcomes from this number on, counted from 0, assumed. All outcomes stay.
    pub fn assume_from(&mut self, owner: u32, number: u64)
        requires { owner < length self.old.logs }
        ensures logs { self.new.logs ≡ with_verified self.old.logs owner (min number (log_at self.old.logs owner).verified) }
        ensures rooms { self.new.rooms ≡ self.old.rooms }
    {
        let log = &mut self.logs[owner as usize];
        log.verified = number.min(log.verified);
    }
}
