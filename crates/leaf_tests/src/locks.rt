//! Two passes put entries into a list, on two threads.
ghost use Rattle.std.specs.Prelude.{◌≡◌, ◌+◌, ◌<◌, [], ◌∷◌, ◌++◌, Some, IfOk, IfSome};
ghost use Rattle.turn_lock.specs.{lock_id, IsSamePass, ShowsEach};
ghost use Rattle.turn_lock.specs.Passes.{view_of, pass_lock, turn_view, turn_lock_of, begun_at};

use flow_word::{List, OutOfMemory};
use std::alloc::Global;
use std::sync::Wait;
use std::test::Fail;
use std::thread;
use std::thread::Threads;
use turn_lock::{Kept, Pass, Tried, Turn, TurnLock};

#[derive(Clone, Copy, PartialEq, Eq, Debug, Drop)]
struct Entry {
    by: u32,
    number: u64,
}

#[derive(Drop)]
struct EntryLog {
    entries: List<Entry>,
}

impl Kept for EntryLog {
    type Entry = Entry;

    ghost history = { λ log. log.entries };

    ghost bearer = { λ entry. Some entry.by };

    fn count(&self) -> u64 {
        self.entries.len()
    }
}

// Puts an entry, or gives the turn back where memory ran out.
fn put_entry(
    lock: &TurnLock<EntryLog>,
    mut turn: Turn<EntryLog>,
    by: u32,
    number: u64,
) -> Result<Pass<EntryLog>, OutOfMemory>
    requires own { turn_lock_of turn ≡ lock_id lock.now }
    requires number { (turn_view turn).number ≡ by }
    requires fresh { turn.value.entries ≡ begun_at turn }
    ensures lock { IfOk result (λ p. pass_lock p ≡ lock_id lock.now) }
    ensures same { IfOk result (λ p. IsSamePass (turn_view turn) (view_of p)) }
    ensures own { IfOk result (λ p. (view_of p).own ≡ (turn_view turn).own ++ record { by = by; number = number } ∷ []) }
{
    if let Err(failed) = turn.value_mut().entries.push(Entry { by, number }) {
        lock.give_back(turn);
        return Err(failed);
    }
    Ok(lock.put(turn))
}

// Puts the entries with the numbers from `start` up to but not including `end`.
fn put_many<R: Wait>(
    rt: &R,
    lock: &TurnLock<EntryLog>,
    mut pass: Pass<EntryLog>,
    by: u32,
    start: u64,
    end: u64,
) -> Result<Pass<EntryLog>, OutOfMemory>
    requires own { pass_lock pass ≡ lock_id lock.now }
    requires number { (view_of pass).number ≡ by }
    ensures lock { IfOk result (λ p. pass_lock p ≡ lock_id lock.now) }
    ensures same { IfOk result (λ p. IsSamePass (view_of pass) (view_of p)) }
{
    for number in start..end {
        let turn = lock.take(rt, pass);
        pass = put_entry(lock, turn, by, number)?;
    }
    Ok(pass)
}

fn put_in_threads<R: Threads + Wait + Sync>(
    rt: &R,
    lock: &TurnLock<EntryLog>,
    first: Pass<EntryLog>,
    second: Pass<EntryLog>,
) -> Result<(Pass<EntryLog>, Pass<EntryLog>), OutOfMemory>
    requires own { (pass_lock first ≡ lock_id lock.now) × (pass_lock second ≡ lock_id lock.now) }
    requires numbers { ((view_of first).number ≡ 0) × ((view_of second).number ≡ 1) }
    ensures lock { IfOk result (λ r. (pass_lock r.0 ≡ lock_id lock.now) × (pass_lock r.1 ≡ lock_id lock.now)) }
    ensures same { IfOk result (λ r. IsSamePass (view_of first) (view_of r.0) × IsSamePass (view_of second) (view_of r.1)) }
{
    let (first, second) = thread::join(
        rt,
        move ||
            requires { (pass_lock first ≡ lock_id lock.now) × ((view_of first).number ≡ 0) }
            ensures { IfOk result (λ p. (pass_lock p ≡ lock_id lock.entry.now) × IsSamePass (view_of first) (view_of p)) }
        { put_many(rt, lock, first, 0, 1, 101) },
        move ||
            requires { (pass_lock second ≡ lock_id lock.now) × ((view_of second).number ≡ 1) }
            ensures { IfOk result (λ p. (pass_lock p ≡ lock_id lock.entry.now) × IsSamePass (view_of second) (view_of p)) }
        { put_many(rt, lock, second, 1, 0, 100) },
    );
    Ok((first?, second?))
}

// Joins both passes, closes the lock, and returns its log.
fn close_both(lock: TurnLock<EntryLog>, first: Pass<EntryLog>, second: Pass<EntryLog>) -> EntryLog
    requires own { (pass_lock first ≡ lock_id lock) × (pass_lock second ≡ lock_id lock) }
    requires first { ((view_of first).number ≡ 0) × ((view_of first).made ≡ 1) }
    requires second { (view_of second).number ≡ 1 }
    ensures { ShowsEach (λ entry. Some entry.by) (view_of first) (view_of second ∷ []) result.entries }
{
    let last = lock.join(first, second);
    lock.close(last)
}

// How many entries the pass with this number has put; 0 where their numbers are not 0, 1 and so on, in the order of the log.
fn count_in_order(log: &EntryLog, by: u32) -> u64 {
    let mut count = 0;
    for entry in log.entries.as_slice() {
        if entry.by == by {
            if entry.number != count || count == u64::MAX {
                return 0;
            }
            count += 1;
        }
    }
    count
}

fn open_two(
    alloc: Global,
) -> Result<(TurnLock<EntryLog>, Pass<EntryLog>, Pass<EntryLog>), OutOfMemory>
    ensures lock { IfOk result (λ r. (pass_lock r.1 ≡ lock_id r.0) × (pass_lock r.2 ≡ lock_id r.0)) }
    ensures first { IfOk result (λ r. ((view_of r.1).number ≡ 0) × ((view_of r.1).made ≡ 1)) }
    ensures second { IfOk result (λ r. (view_of r.2).number ≡ 1) }
{
    let log = EntryLog {
        entries: List::new(alloc),
    };
    let (lock, first) = TurnLock::new(alloc, log, 2)?;
    let (first, second) = lock.split(first);
    Ok((lock, first, second))
}

// While the first pass has the turn, a try of the second pass is lost. Then its try is won, and shows the entry that the first has
// put.
fn lost_then_won(
    lock: &TurnLock<EntryLog>,
    first: Pass<EntryLog>,
    second: Pass<EntryLog>,
) -> Option<(Pass<EntryLog>, Pass<EntryLog>)>
    requires own { (pass_lock first ≡ lock_id lock.now) × (pass_lock second ≡ lock_id lock.now) }
    requires number { (view_of first).number ≡ 0 }
    ensures lock { IfSome result (λ r. (pass_lock r.0 ≡ lock_id lock.now) × (pass_lock r.1 ≡ lock_id lock.now)) }
    ensures same { IfSome result (λ r. IsSamePass (view_of first) (view_of r.0) × IsSamePass (view_of second) (view_of r.1)) }
{
    let turn = match lock.try_take(first) {
        Tried::Won(turn) => turn,
        Tried::Lost(_) => return None,
    };
    let second = match lock.try_take(second) {
        Tried::Won(other) => {
            lock.give_back(other);
            lock.give_back(turn);
            return None;
        }
        Tried::Lost(second) => second,
    };
    let Ok(first) = put_entry(lock, turn, 0, 0) else {
        return None;
    };
    let turn = match lock.try_take(second) {
        Tried::Won(turn) => turn,
        Tried::Lost(_) => return None,
    };
    let shown = turn.value().entries.as_slice() == [Entry { by: 0, number: 0 }].as_slice();
    let second = lock.give_back(turn);
    if shown { Some((first, second)) } else { None }
}

#[test]
fn two_threads_put_a_hundred_each(rt: HostRuntime) -> Result<(), Fail> {
    let (lock, first, second) = open_two(rt.alloc())?;
    let Some((first, second)) = lost_then_won(&lock, first, second) else {
        panic!(rt; "a free turn was lost, or a turn was had twice")
    };
    let (first, second) = put_in_threads(&rt, &lock, first, second)?;
    let log = close_both(lock, first, second);
    assert_eq!(rt; log.count(), 201);
    assert_eq!(rt; count_in_order(&log, 0), 101);
    assert_eq!(rt; count_in_order(&log, 1), 100);
    Ok(())
}
