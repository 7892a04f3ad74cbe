//! The calls of the lock. Each takes a few steps on its table.
ghost use Rattle.std.specs.Prelude.{◌≡◌, ◌+◌, ◌<◌, ◌^◌, ℕ, [], ◌∷◌, ◌++◌, length, Some, IfOk};
ghost use Rattle.turn_lock.specs.{entries_of, Owns, CanEnd, BeginsTurn, EndsTurn, AllJoined, ShowsAll, lock_id};
ghost use Rattle.turn_lock.specs.Views.{first_view, after_split, split_off, after_lost_tries, after_turn, after_join};
ghost use Rattle.turn_lock.specs.Passes.{view_of, pass_lock, turn_view, turn_lock_of, begun_at, MatchTried};

use crate::kept::Kept;
use crate::law::Opening;
use crate::pass::{Hold, Pass, Tried, Turn, TurnLock};
use crate::plays::{Add, Free, Make, Swap, TakeIn};
use crate::view::PassView;
use atomic_table::{Seat, Table};
use flow_word::OutOfMemory;
use std::alloc::Global;
use std::snapshot::Snapshot;
use std::sync::Wait;
use std::thread::yield_now;

impl<K: Kept> TurnLock<K> {
    /// A lock for `passes` passes that protects the value, and its first pass. The first pass has number 0, and has seen the
    /// entries that the value has. After `OutOfMemory` the value is dropped.
    pub fn new(alloc: Global, kept: K, passes: u32) -> Result<(TurnLock<K>, Pass<K>), OutOfMemory>
        requires some { 0 < passes }
        requires unused { (n : ℕ) → n < passes → entries_of K.bearer n (K.history kept) ≡ [] }
        ensures lock { IfOk result (λ r. pass_lock r.1 ≡ lock_id r.0) }
        ensures first { IfOk result (λ r. view_of r.1 ≡ first_view passes (K.history kept)) }
    {
        let opening = Opening {
            value: Snapshot::of(&kept),
            passes,
        };
        let count = kept.count();
        let mut slots = Vec::new(alloc);
        slots.push(Some(kept))?;
        match Table::new(alloc, &[0, count], slots, &opening) {
            Ok((table, seat)) => Ok((TurnLock { table }, Pass { seat })),
            Err(_) => Err(OutOfMemory),
        }
    }

    /// Makes one more pass. The number of the new pass is the count of passes made, and it has seen what the first pass has seen.
    pub fn split(&self, first: Pass<K>) -> (Pass<K>, Pass<K>)
        requires own { pass_lock first ≡ lock_id self.now }
        requires first { (view_of first).number ≡ 0 }
        requires room { (view_of first).made + 1 < (view_of first).passes }
        ensures lock { (pass_lock result.0 ≡ lock_id self.now) × (pass_lock result.1 ≡ lock_id self.now) }
        ensures first { view_of result.0 ≡ after_split (view_of first) }
        ensures new { view_of result.1 ≡ split_off (view_of first) }
    {
        let Pass { mut seat } = first;
        let new = self.table.shared.split_seat::<Make>(&mut seat);
        (Pass { seat }, Pass { seat: new })
    }

    /// Tries once to get the turn. `Lost` gives the pass back, with one more lost try. A try is lost where another pass has the
    /// turn: that is read off the code, and no clause says it.
    pub fn try_take(&self, pass: Pass<K>) -> Tried<K>
        requires own { pass_lock pass ≡ lock_id self.now }
        ensures lock { MatchTried result (λ t. turn_lock_of t ≡ lock_id self.now) (λ p. pass_lock p ≡ lock_id self.now) }
        ensures tried { MatchTried result
            (λ t. BeginsTurn K.bearer 0 (K.history t.value) (view_of pass) (turn_view t))
            (λ p. view_of p ≡ after_lost_tries 1 (view_of pass)) }
    {
        let Pass { mut seat } = pass;
        let was_free = self.table.shared.swap::<Swap>(&mut seat, 0, 1) == 0;
        if was_free {
            let value = self.table.shared.exchange(&mut seat, 0, None).unwrap();
            Tried::Won(Turn {
                hold: Hold { seat },
                value,
            })
        } else {
            Tried::Lost(Pass { seat })
        }
    }

    /// Tries until the pass has the turn. The value's history then begins with all that the pass has seen.
    pub fn take<R: Wait>(&self, rt: &R, pass: Pass<K>) -> Turn<K>
        requires own { pass_lock pass ≡ lock_id self.now }
        ensures lock { turn_lock_of result ≡ lock_id self.now }
        ensures turn { (tries : ℕ) × BeginsTurn K.bearer tries (K.history result.value) (view_of pass) (turn_view result) }
    {
        let mut pass = pass;
        for _ in rt.forever() {
            match self.try_take(pass) {
                Tried::Won(turn) => return turn,
                Tried::Lost(back) => pass = back,
            }
            yield_now();
        }
        unreachable!()
    }

    /// Hands the turn back. The value's history must be what it was when the turn began.
    pub fn give_back(&self, turn: Turn<K>) -> Pass<K>
        requires own { turn_lock_of turn ≡ lock_id self.now }
        requires same { K.history turn.value ≡ begun_at turn }
        ensures lock { pass_lock result ≡ lock_id self.now }
        ensures end { EndsTurn [] (K.history turn.value) (turn_view turn) (view_of result) }
    {
        let seat = self.bring_home(turn);
        self.free(seat)
    }

    /// Hands the turn back, with one more entry in the value's history. The entry bears the pass's number: it is the next of the
    /// pass's own entries.
    pub fn put(&self, turn: Turn<K>) -> Pass<K>
        requires own { turn_lock_of turn ≡ lock_id self.now }
        requires room { length (K.history turn.value) < 2 ^ 64 }
        requires longer { (e : K.Entry) × (K.history turn.value ≡ begun_at turn ++ e ∷ []) × (K.bearer e ≡ Some (turn_view turn).number) }
        ensures lock { pass_lock result ≡ lock_id self.now }
        ensures end { (e : K.Entry) → K.history turn.value ≡ begun_at turn ++ e ∷ []
            → EndsTurn (e ∷ []) (K.history turn.value) (turn_view turn) (view_of result) }
    {
        let mut seat = self.bring_home(turn);
        self.table.shared.fetch_add::<Add>(&mut seat, 1, 1);
        self.free(seat)
    }

    // Puts the value back into the slot, while the turn is still taken.
    fn bring_home(&self, turn: Turn<K>) -> Seat<Option<K>, PassView<K::Entry>>
        requires own { turn_lock_of turn ≡ lock_id self.now }
        ensures lock { result.table_id ≡ lock_id self.now }
        ensures seat { result.me ≡ (turn_view turn, (0, Some turn.value) ∷ []) }
    {
        let Turn { hold, value } = turn;
        let Hold { mut seat } = hold;
        self.table.shared.exchange(&mut seat, 0, Some(value));
        seat
    }

    // Frees the turn: from here on another pass may have it.
    fn free(&self, mut seat: Seat<Option<K>, PassView<K::Entry>>) -> Pass<K>
        requires lock { seat.table_id ≡ lock_id self.now }
        requires ready { CanEnd K.history seat.me }
        requires owns { Owns K.bearer seat.me.0.history seat.me.0 }
        ensures lock { pass_lock result ≡ lock_id self.now }
        ensures over { view_of result ≡ after_turn seat.me.0 }
    {
        self.table.shared.store::<Free>(&mut seat, 0, 0);
        Pass { seat }
    }

    /// Joins a pass into the first pass. The first pass keeps its number and its entries, and has then seen the longer of the two
    /// histories.
    pub fn join(&self, pass: Pass<K>, other: Pass<K>) -> Pass<K>
        requires own { (pass_lock pass ≡ lock_id self.now) × (pass_lock other ≡ lock_id self.now) }
        requires first { (view_of pass).number ≡ 0 }
        ensures lock { pass_lock result ≡ lock_id self.now }
        ensures joined { view_of result ≡ after_join (view_of pass) (view_of other) }
    {
        let Pass { mut seat } = pass;
        let Pass { seat: theirs } = other;
        self.table.shared.join_seat::<TakeIn>(&mut seat, theirs);
        Pass { seat }
    }

    /// Ends the lock, once each pass that the first one made is joined into it, and answers the value. The value's history begins
    /// with all that the passes have seen, and has each pass's own entries, each once and in their order.
    pub fn close(self, last: Pass<K>) -> K
        requires own { pass_lock last ≡ lock_id self }
        requires first { (view_of last).number ≡ 0 }
        requires joined { AllJoined (view_of last) }
        ensures all { ShowsAll K.bearer (view_of last) (K.history result) }
    {
        let TurnLock { table } = self;
        let Pass { seat } = last;
        let mut closed = table.close_with(seat);
        let value = closed.take(0);
        closed.free();
        value.unwrap()
    }
}
