//! One module's log, with its room.
ghost use Rattle.std.specs.Prelude.{◌≡◌, ◌+◌, ◌<◌, ◌≤◌, length, ◌^◌};
ghost use Rattle.query_log.specs.{no_log, verified_more, bare_log};

use flow_word::RoomyList;
use std::alloc::Global;

/// A module's outcomes, with room for further ones, and how many of the first are verified.
#[derive(Drop)]
pub struct RoomyLog {
    pub outcomes: RoomyList<bool>,
    pub verified: u64,
}

impl RoomyLog {
    /// A log without an outcome. It takes no memory.
    pub fn new(alloc: Global) -> RoomyLog
        ensures { bare_log result ≡ no_log }
    {
        RoomyLog {
            outcomes: RoomyList::new(alloc),
            verified: 0,
        }
    }

    /// Adds the outcome of the next query, verified. All earlier ones must be verified.
    pub fn add(&mut self, yes: bool)
        requires room { 0 < self.old.outcomes.room }
        requires verified { self.old.verified ≡ length self.old.outcomes.items }
        ensures log { bare_log self.new ≡ verified_more (bare_log self.old) yes }
        ensures room { self.old.outcomes.room ≤ self.new.outcomes.room + 1 }
    {
        // There is room for it.
        let _ = self.outcomes.push(yes);
        self.verified = self.outcomes.len();
    }

    /// Verifies the first outcome that is assumed.
    pub fn verify_next(&mut self)
        requires { self.old.verified < length self.old.outcomes.items }
        ensures { self.new ≡ record self.old { verified = self.old.verified + 1 } }
    {
        self.stays_short();
        self.verified += 1;
    }

    /// Tells that a log has fewer than 2^64 outcomes. It does nothing.
    #[inline(always)]
    fn stays_short(&self)
        ensures { length self.now.outcomes.items < 2 ^ 64 }
    {
        let _count = self.outcomes.len();
    }
}
