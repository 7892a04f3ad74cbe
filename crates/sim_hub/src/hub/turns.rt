//! Beginning and ending a turn.
ghost use Rattle.std.specs.Prelude.{◌≡◌, ℕ, ◌<◌};
ghost use Rattle.turn_lock.specs.Passes.{view_of, pass_lock, turn_view, turn_lock_of, begun_at};
ghost use Rattle.sim_hub.specs.{BeginsTurn, bearer, hub_id, entries_under, MayAdd, IsTurnEnd};

use super::Hub;
use crate::kept::BoxedLedger;
use crate::pass::NumberedPass;
use std::sync::Wait;
use turn_lock::Turn;

impl Hub {
    /// Takes the turn for a pass. It waits until the turn is free.
    pub(super) fn begin<R: Wait>(&self, rt: &R, place: NumberedPass) -> Turn<BoxedLedger>
        requires own { pass_lock place.pass ≡ hub_id self.now }
        ensures lock { turn_lock_of result ≡ hub_id self.now }
        ensures turn { (tries : ℕ) × BeginsTurn bearer tries (entries_under result.value) (view_of place.pass) (turn_view result) }
    {
        let NumberedPass { pass, number: _ } = place;
        self.lock.take(rt, pass)
    }

    /// Hands the turn back. `added` tells whether the pass, which has this number, added an entry of its own.
    pub(super) fn end(&self, turn: Turn<BoxedLedger>, number: u32, added: bool) -> NumberedPass
        requires own { turn_lock_of turn ≡ hub_id self.now }
        requires number { (turn_view turn).number ≡ number }
        requires adds { MayAdd number added (begun_at turn) (entries_under turn.value) }
        ensures lock { pass_lock result.pass ≡ hub_id self.now }
        ensures number { result.number ≡ number }
        ensures end { IsTurnEnd added (begun_at turn) (entries_under turn.value) (turn_view turn) (view_of result.pass) }
    {
        let pass = if added {
            self.lock.put(turn)
        } else {
            self.lock.give_back(turn)
        };
        NumberedPass { pass, number }
    }
}
