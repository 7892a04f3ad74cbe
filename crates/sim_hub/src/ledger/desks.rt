//! Lending runs of a ledger's core, and taking them back.
ghost use Rattle.std.specs.Prelude.{◌≡◌, ◌+◌, ◌<◌, ◌≤◌, [], true, false, length, IfOk};
ghost use Rattle.sim_hub.specs.{opening_core, design, history_of, AreOwn, theory_of, HasDesk, HasNoDesk, OutAt, entries_in, Adds, BackIs};
ghost use Rattle.sim_hub.specs.{ComesBack, ComesHome, LendingIs};
ghost use Rattle.timing_bridge.specs.declared.turn.HubTurn.TheVariants.{Short};

use super::HubLedger;
use crate::answer::Desk;
use flow_word::OutOfMemory;
use sim_core::{Burst, Core};
use std::alloc::Global;
use timing_bridge::HubTurn;

impl HubLedger {
    /// A ledger of a core in which nothing is emitted yet and no run is lent. After `OutOfMemory` the core is lost.
    pub(crate) fn new(alloc: Global, core: Core) -> Result<HubLedger, OutOfMemory>
        requires opening { theory_of core ≡ opening_core (design core.plan) }
        requires own { AreOwn core }
        ensures { IfOk result (λ ledger. entries_in ledger ≡ history_of core.plan []) }
    {
        core.agrees();
        let turns = Vec::with_capacity(alloc, 1)?;
        Ok(HubLedger {
            core,
            turns,
            out: 0,
            short: false,
        })
    }

    /// How many entries the history has: one more than there were turns.
    pub(crate) fn count(&self) -> u64
        ensures { result ≡ length (entries_in self.now) }
    {
        self.turns.len() as u64 + 1
    }

    /// Lends a module's run to its pass, if a Run of the module is permitted. The second answer tells whether a turn was added.
    pub(crate) fn lend(&mut self, pass: u32, owner: u32) -> (Desk, bool)
        requires pass { pass ≡ owner + 1 }
        requires home { ComesHome owner (entries_in self.old) }
        ensures lending { LendingIs owner (entries_in self.old) (entries_in self.new) result.0 result.1 }
        ensures out { OutAt owner (entries_in self.new) result.0 }
    {
        self.core.agrees();
        if self.short {
            return (Desk::Short, false);
        }
        // Room for this turn, for one turn of each desk that is then out, and for one more.
        if self.turns.reserve(self.out + 3).is_err() {
            self.fall_short(pass);
            return (Desk::Short, true);
        }
        let alloc = *self.turns.allocator();
        match self.core.lend(alloc, owner) {
            Ok(Some(task)) => {
                self.turns.push_reserved(HubTurn::Lent {
                    pass,
                    module: owner,
                });
                self.out += 1;
                (Desk::Run(task), true)
            }
            Ok(None) => {
                if self.core.is_final() {
                    (Desk::Over, false)
                } else {
                    (Desk::Held(self.count()), false)
                }
            }
            Err(_) => {
                self.fall_short(pass);
                (Desk::Short, true)
            }
        }
    }

    /// Takes a module's run back from its pass, with the marks of its burst, and does as many Runs. Returns whether they were done.
    pub(crate) fn take_back(&mut self, pass: u32, owner: u32, burst: Burst) -> bool
        requires pass { pass ≡ owner + 1 }
        requires back { ComesBack owner burst (entries_in self.old) }
        ensures back { BackIs owner (length burst.emitted) (entries_in self.old) (entries_in self.new) result }
        ensures short { burst.short ≡ true → result ≡ false }
        ensures home { HasNoDesk owner (entries_in self.new) }
    {
        self.core.agrees();
        if burst.short {
            drop(burst);
            self.give_up(pass, owner);
            return false;
        }
        let made = burst.emitted.len();
        match self.core.take_back(owner, burst) {
            Ok(()) => {
                self.turns.push_reserved(HubTurn::Ran {
                    pass,
                    module: owner,
                    runs: made,
                });
                self.out -= 1;
                true
            }
            Err(_) => {
                self.give_up(pass, owner);
                false
            }
        }
    }

    /// Notes that memory ran out for a pass that has no desk out.
    pub(crate) fn fall_short(&mut self, pass: u32)
        requires memory { self.old.short ≡ false }
        requires pass { pass ≤ length self.old.core.plan.design.modules }
        ensures { Adds (Short pass) (entries_in self.old) (entries_in self.new) }
    {
        self.turns.push_reserved(HubTurn::Short(pass));
        self.short = true;
    }

    /// Notes that memory ran out for a pass whose desk is out. The desk's run stays out of the core.
    fn give_up(&mut self, pass: u32, owner: u32)
        requires pass { pass ≡ owner + 1 }
        requires out { HasDesk owner (entries_in self.old) }
        ensures back { Adds (Short pass) (entries_in self.old) (entries_in self.new) }
        ensures home { HasNoDesk owner (entries_in self.new) }
    {
        self.turns.push_reserved(HubTurn::Short(pass));
        self.out -= 1;
        self.short = true;
    }
}
