//! The ledger as a turn lock keeps it: a list of entries.
use crate::ledger::HubLedger;
use timing_bridge::HubEntry;
use turn_lock::Kept;

/// A ledger on the heap, so that a turn moves its address only, and not its core.
#[derive(Drop)]
pub struct BoxedLedger {
    pub(crate) ledger: Box<HubLedger>,
}

impl Kept for BoxedLedger {
    ghost use Rattle.timing_bridge.specs.{bearer};
    ghost use Rattle.sim_hub.specs.Ledgers.{entries_under};

    type Entry = HubEntry;

    ghost history = { entries_under };

    ghost bearer = { bearer };

    fn count(&self) -> u64 {
        self.ledger.count()
    }
}
