//! What each access of a final core gave.
ghost use Rattle.std.specs.Prelude.{◌≡◌, ◌<◌, ◌^◌, ◌++◌, [], length, map, slice_get, All, IfOk, OnOk};
ghost use Rattle.sim_core.specs.{side_of, moved_value, is_yes, value_in, paired, replies_told, IsTimedKey, exchange_of, log_of, logged};
ghost use Rattle.sim_core.specs.{logged_at, access_request, step_doing};

use crate::final_core::FinalCore;
use crate::machine::Core;
use engine_report::{TimedStep, sorted_steps};
use event_graph::{Access, Kind, LaneAccesses, Place};
use flow_design::{EventLine, Reply};
use flow_word::{List, OutOfMemory};
use module_code::is_yes;
use module_interp::Answers;
use run_ahead::KnownReplies;
use std::alloc::Global;
use time_engine::query_count;
use timing_bridge::steps_in_order;

/// An access that was done, and what it gave.
#[derive(Clone, Copy, Debug, PartialEq, Eq)]
pub struct LoggedAccess {
    /// The module, kind, channel and clock of the access.
    pub event: EventLine,
    /// The outcome of a query; true for a read or a write.
    pub outcome: bool,
    /// The value of the element that was popped or pushed, cut to the channel's width. `None` where no element moved.
    pub value: Option<u64>,
}

impl<'a> FinalCore<'a> {
    /// What each access of a final core's plan gave, in the order of the report's events.
    ///
    /// It takes memory for the answer, and for one key for each step, which are sorted. `OutOfMemory` where memory ran out.
    pub fn access_log(&self, alloc: Global) -> Result<List<LoggedAccess>, OutOfMemory>
        ensures { IfOk result (λ log. log ≡ log_of self.now.plan) }
    {
        steps_in_order();
        let core = self.core();
        let keys = sorted_steps(alloc, &core.engine.graph)?;
        let mut log = List::new(alloc);
        for key in keys.as_slice() {
            core.log_step(key, &mut log)?;
        }
        Ok(log)
    }

    /// Adds what each access of a step with a cycle gave, in order, as `Core::log_step` does.
    ///
    /// It takes memory for what it adds. After `OutOfMemory` the list may have a part of that.
    pub fn log_step(&self, key: &TimedStep, log: &mut List<LoggedAccess>) -> Result<(), OutOfMemory>
        requires { IsTimedKey self.now.held.lanes key.now }
        ensures { OnOk result (log.new ≡ log.old ++ logged_at self.now.held key.now) }
    {
        self.core().log_step(key, log)
    }
}

impl Core {
    /// Adds what each access of a step with a cycle gave, in order.
    ///
    /// It takes memory for what it adds. After `OutOfMemory` the list may have a part of that.
    pub fn log_step(&self, key: &TimedStep, log: &mut List<LoggedAccess>) -> Result<(), OutOfMemory>
        requires { IsTimedKey self.now.held.lanes key.now }
        ensures { OnOk result (log.new ≡ log.old ++ logged_at self.now.held key.now) }
    {
        let step = self.engine.graph.look(Place {
            module: key.module,
            step: key.step,
        });
        let known = KnownReplies::new(
            self.engine.log.outcomes(key.module),
            &self.engine.fifos,
            step.first_query,
        );
        log_accesses(key, &step.accesses, &known, log)
    }
}

/// Adds what the accesses of a step gave, by their replies.
fn log_accesses<A: Answers>(
    key: &TimedStep,
    accesses: &LaneAccesses<'_>,
    replies: &A,
    log: &mut List<LoggedAccess>,
) -> Result<(), OutOfMemory>
    requires known { All (A.knows replies.now) accesses.now }
    requires few { length accesses.now < 2 ^ 32 }
    ensures { OnOk result
        (log.new ≡ log.old ++ map (logged (step_doing key.now [])) (paired (map access_request accesses.now)
        (replies_told (A.reply replies.now) 0 0 accesses.now))) }
{
    let mut place = 0;
    let mut asked = 0;
    for access in accesses.iter() {
        let reply = replies.reply(place, asked, &access);
        log.push(logged(key, &access, reply))?;
        place += 1;
        asked += query_count(access.kind);
    }
    Ok(())
}

/// What an access of a step gave, by its reply.
fn logged(key: &TimedStep, access: &Access, reply: Reply) -> LoggedAccess
    ensures { result ≡ logged (step_doing key.now []) (exchange_of access.now reply) }
{
    LoggedAccess {
        event: EventLine {
            module: key.module,
            kind: access.kind,
            channel: access.channel,
            cycle: key.cycle,
        },
        outcome: is_yes(reply),
        value: moved_value(access, reply),
    }
}

/// The value that an access moved, by its reply. `None` where it moved none.
fn moved_value(access: &Access, reply: Reply) -> Option<u64>
    ensures { result ≡ slice_get (moved_value (side_of access.now.kind) (exchange_of access.now reply)) 0 }
{
    match access.kind {
        Kind::Read => Some(popped_value(reply)),
        Kind::Write => Some(access.value),
        Kind::TryRead if is_yes(reply) => Some(popped_value(reply)),
        Kind::TryWrite if is_yes(reply) => Some(access.value),
        Kind::TryRead | Kind::TryWrite | Kind::Empty | Kind::Full => None,
    }
}

/// The value in a reply to an operation that popped one, else 0.
fn popped_value(reply: Reply) -> u64
    ensures { result ≡ value_in reply }
{
    match reply {
        Reply::Value(value) | Reply::Took(value) => value,
        Reply::Done | Reply::Flag(_) | Reply::Missed => 0,
    }
}
