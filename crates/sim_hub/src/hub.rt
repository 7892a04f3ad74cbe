//! A core that passes share.
use crate::kept::BoxedLedger;
use turn_lock::TurnLock;

mod ends;
mod turns;
mod work;

/// A core that passes change in turns. Its entries are one legal history, and replaying that gives the core.
#[derive(Drop)]
pub struct Hub {
    lock: TurnLock<BoxedLedger>,
}
