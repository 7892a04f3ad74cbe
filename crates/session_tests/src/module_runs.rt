//! Modules of sessions, run ahead on replies that the test feeds to them. What they do was worked out from the clock rules.
ghost use Rattle.std.specs.Prelude.{◌≡◌, ◌<◌, true, false, IfOk, OnOk};
ghost use Rattle.session_tests.specs.{fits_kind, all_fit, waits, IsSomeRun};

use flow_design::Reply;
use flow_word::{Access, Kind};
use module_interp::{Advance, Answers, ModuleRun};
use std::alloc::Global;
use std::process::Abort;
use std::test::Fail;
use worked_sessions::{LATER_STALL, LONG_BLOCK, POLLING_LOOP, plan_of};

/// Two iterations, of which the second starts where the first ends. A temp counts from 0 in each.
const ITERATIONS_IN_TURN: &[u8] = b"\
flow 1
sink y 8
module m
reg i 8
reg g 1
loop l 3 3 while g
temp t 8
at 0 set t + t + i 1
at 1 set i t
at 1 set g <u i 1
at 2 write y t
stop
end
";

/// 65 iterations, of which up to 64 are live at a time, with an operation at each age. A temp takes the iteration's number and goes
/// up by 1 at each of 62 ages. The channels are z and y.
const MOST_ITERATIONS: &[u8] = b"\
flow 1
sink z 8
sink y 8
module m
reg n 8
reg g 1
loop l 1 64 while g
temp t 8
at 0 write z n
at 0 set t n
at 0 set n + n 1
at 0 set g <u n 64
at 1 set t + t 1
at 2 set t + t 1
at 3 set t + t 1
at 4 set t + t 1
at 5 set t + t 1
at 6 set t + t 1
at 7 set t + t 1
at 8 set t + t 1
at 9 set t + t 1
at 10 set t + t 1
at 11 set t + t 1
at 12 set t + t 1
at 13 set t + t 1
at 14 set t + t 1
at 15 set t + t 1
at 16 set t + t 1
at 17 set t + t 1
at 18 set t + t 1
at 19 set t + t 1
at 20 set t + t 1
at 21 set t + t 1
at 22 set t + t 1
at 23 set t + t 1
at 24 set t + t 1
at 25 set t + t 1
at 26 set t + t 1
at 27 set t + t 1
at 28 set t + t 1
at 29 set t + t 1
at 30 set t + t 1
at 31 set t + t 1
at 32 set t + t 1
at 33 set t + t 1
at 34 set t + t 1
at 35 set t + t 1
at 36 set t + t 1
at 37 set t + t 1
at 38 set t + t 1
at 39 set t + t 1
at 40 set t + t 1
at 41 set t + t 1
at 42 set t + t 1
at 43 set t + t 1
at 44 set t + t 1
at 45 set t + t 1
at 46 set t + t 1
at 47 set t + t 1
at 48 set t + t 1
at 49 set t + t 1
at 50 set t + t 1
at 51 set t + t 1
at 52 set t + t 1
at 53 set t + t 1
at 54 set t + t 1
at 55 set t + t 1
at 56 set t + t 1
at 57 set t + t 1
at 58 set t + t 1
at 59 set t + t 1
at 60 set t + t 1
at 61 set t + t 1
at 62 set t + t 1
at 63 write y t
stop
end
";

/// Four iterations that overlap. Each has a guard of its own, which is 0 in the first and the third. The channels are a and y.
const GUARDS_OF_THEIR_OWN: &[u8] = b"\
flow 1
source a 8
sink y 8
module m
reg x 8
reg n 8
reg g 1
loop l 1 3 while g
temp h 1
temp t 8
at 0 read a x
at 0 set n + n 1
at 0 set g <u n 3
at 0 set h n
at 0 if h set x 99
at 1 set t x
at 2 if h write y t
stop
end
";

/// A memory of three words, with addresses past its end.
const ADDRESSES_PAST_THE_END: &[u8] = b"\
flow 1
sink y 8
module m
reg x 8
mem w 8 3
block k 4
at 0 store w 7 300
at 1 load x w 18446744073709551613
at 2 write y x
at 2 load x w 3
at 3 write y x
stop
end
";

/// Each operator once, on 203 and 6.
const EACH_OPERATOR: &[u8] = b"\
flow 1
sink y 64
module m
reg a 64
reg b 64
block k 2
at 0 set a 203
at 0 set b 6
at 1 write y + - a b + * a b + & a b + | a b + ^ a b + << a b + >> a b + == a b + != a b + <u a b + <s ~ a b \
+ / a b + % a b + ~ a + sext 8 a ?: == a b a b
stop
end
";

/// All 64 bits of a register.
const ALL_BITS: &[u8] = b"\
flow 1
sink y 64
module m
reg x 64
block k 2
at 0 set x ~ 0
at 1 write y x
stop
end
";

/// A word that is stored and loaded in one local clock: the load gives the word from before.
const STORED_AND_LOADED: &[u8] = b"\
flow 1
sink y 8
module m
reg x 8
reg z 8
mem w 8 2
block k 4
at 0 store w 1 5
at 1 store w 1 9
at 1 load x w 1
at 2 load z w 1
at 3 write y + * 16 x z
stop
end
";

/// A loop whose condition is read in its iteration's last local clock, with a block after it. The channels are a and y.
const DECIDED_AT_THE_END: &[u8] = b"\
flow 1
source a 8
sink y 8
module m
reg x 8
loop l 2 2 while x
at 1 read a x
goto k
block k 1
at 0 write y + x 5
stop
end
";

/// A session, the values that its first module reads, and what the module then does: a line for each step, and one for its end. A
/// line begins with the local clocks since the step before it. A step has its earlier queries, and each access its kind, its
/// channel, its ordinal and its value.
type Run = (&'static [&'static [u8]], &'static [u64], &'static str);

/// A long block is jumped over. An older iteration commits first. Three tries of three operations and iterations each use up a limit
/// of 10. Iterations begin where the one before ends. The second and the fourth iteration write what they have read. An address
/// counts modulo the memory's length, and 300 is cut to 44. A block after a loop begins in the local clock of the decision.
const RUNS: [Run; 10] = [
    (LONG_BLOCK, &[], "999999999999 0; Write 0 1 1\n1 ends\n"),
    (
        LATER_STALL,
        &[1, 2],
        "0 0; Read 0 1 0\n1 0; Read 0 2 0\n1 0; Empty 1 1 0\n1 1; Write 2 1 0; Empty 1 1 0\n1 2; Write 2 2 0\n1 ends\n",
    ),
    (
        POLLING_LOOP,
        &[],
        "0 0; TryRead 0 1 0\n1 1; TryRead 0 1 0\n1 2; TryRead 0 1 0\n1 is spent\n",
    ),
    (
        &[ITERATIONS_IN_TURN],
        &[],
        "2 0; Write 0 1 1\n3 0; Write 0 2 2\n1 ends\n",
    ),
    (
        &[GUARDS_OF_THEIR_OWN],
        &[10, 20, 30, 40],
        "0 0; Read 0 1 0\n1 0; Read 0 2 0\n1 0; Read 0 3 0\n1 0; Write 1 1 20; Read 0 4 0\n2 0; Write 1 2 40\n1 ends\n",
    ),
    (
        &[ADDRESSES_PAST_THE_END],
        &[],
        "2 0; Write 0 1 44\n1 0; Write 0 2 0\n1 ends\n",
    ),
    (
        &[DECIDED_AT_THE_END],
        &[3, 0],
        "1 0; Read 0 1 0\n2 0; Read 0 2 0\n1 0; Write 1 1 5\n1 ends\n",
    ),
    (&[EACH_OPERATOR], &[], "1 0; Write 0 1 14613\n1 ends\n"),
    (
        &[ALL_BITS],
        &[],
        "1 0; Write 0 1 18446744073709551615\n1 ends\n",
    ),
    (&[STORED_AND_LOADED], &[], "3 0; Write 0 1 89\n1 ends\n"),
];

/// Replies to the accesses of a step, in the order of the accesses.
#[derive(Drop)]
struct RepliesInOrder<'a> {
    replies: &'a [Reply],
}

impl<'a> Answers for RepliesInOrder<'a> {
    ghost use Rattle.std.specs.Prelude.{slice_index_or};
    ghost use Rattle.flow_design.specs.declared.state.Reply.TheVariants.{Done};

    ghost knows = { λ _ _. Unit {0} };

    ghost reply = { λ answers place _ _. slice_index_or answers.replies.now place Done };

    fn reply(&self, place: usize, _asked: u64, _access: &Access) -> Reply {
        match self.replies.get(place) {
            Some(reply) => *reply,
            None => Reply::Done,
        }
    }
}

/// The run of the first module of a session.
fn first_run<R: AllocGlobal + Abort>(rt: &R, parts: &[&[u8]]) -> Result<ModuleRun, Fail>
    ensures run { IfOk result (λ run. IsSomeRun run) }
    ensures fed { IfOk result (λ run. waits run ≡ false) }
{
    let plan = plan_of(rt.alloc(), parts)?;
    assert!(rt; plan.modules().len() > 0);
    let run = ModuleRun::new(rt.alloc(), &plan, 0)?;
    Ok(run)
}

/// Whether there is one reply for each access, and each reply fits its access.
fn all_fit(accesses: &[Access], replies: &[Reply]) -> bool
    ensures { result ≡ all_fit accesses.now replies.now }
{
    match (accesses, replies) {
        ([], []) => true,
        ([access, accesses @ ..], [reply, replies @ ..]) => {
            fits_kind(access.kind, *reply) && all_fit(accesses, replies)
        }
        ([], [_, ..]) => false,
        ([_access, _accesses @ ..], []) => false,
    }
}

/// Whether a reply fits a kind of access.
fn fits_kind(kind: Kind, reply: Reply) -> bool
    ensures { result ≡ fits_kind kind reply }
{
    match kind {
        Kind::Read => matches!(&reply, Reply::Value(_)),
        Kind::Write => matches!(&reply, Reply::Done),
        Kind::TryRead => matches!(&reply, Reply::Took(_) | Reply::Missed),
        Kind::TryWrite | Kind::Empty | Kind::Full => matches!(&reply, Reply::Flag(_)),
    }
}

/// The reply to an access: the values are read in turn, and queries are missed, or find their channel not empty or not full.
fn reply_to(access: &Access, reads: &[u64]) -> Reply {
    match access.kind {
        Kind::Read => Reply::Value(nth(reads, access.ordinal)),
        Kind::Write => Reply::Done,
        Kind::TryRead => Reply::Missed,
        Kind::TryWrite | Kind::Empty | Kind::Full => Reply::Flag(false),
    }
}

/// The value with this ordinal, counted from 1; 0 where there is none.
fn nth(reads: &[u64], ordinal: u64) -> u64 {
    match reads.get(ordinal.saturating_sub(1) as usize) {
        Some(value) => *value,
        None => 0,
    }
}

/// The replies to these accesses, in order.
fn replies_to(alloc: Global, accesses: &[Access], reads: &[u64]) -> Result<Vec<Reply>, Fail> {
    let mut replies = Vec::new(alloc);
    for access in accesses {
        replies.push(reply_to(access, reads))?;
    }
    Ok(replies)
}

/// Adds accesses to a line.
fn print_accesses(text: &mut String, accesses: &[Access]) -> Result<(), Fail> {
    for access in accesses {
        let Access {
            kind,
            channel,
            ordinal,
            value,
        } = access;
        write!(text, "; {kind:?} {channel} {ordinal} {value}")?;
    }
    Ok(())
}

/// Adds the line of a mark.
fn print_mark(text: &mut String, mark: &Advance) -> Result<(), Fail> {
    match mark {
        Advance::Step(step) => {
            write!(text, "{} {}", step.gap, step.first_query)?;
            print_accesses(text, step.accesses.as_slice())?;
            text.push_str("\n")?;
        }
        Advance::Ended(gap) => write!(text, "{gap} ends\n")?,
        Advance::Spent(gap) => write!(text, "{gap} is spent\n")?,
    }
    Ok(())
}

/// Feeds replies to the step that waits, after it is seen that each fits its access.
fn feed<R: Abort>(rt: &R, run: &mut ModuleRun, replies: &[Reply])
    requires run { IsSomeRun run.old }
    requires waits { waits run.old ≡ true }
    ensures run { IsSomeRun run.new }
    ensures fed { waits run.new ≡ false }
{
    assert!(rt; all_fit(run.waiting(), replies));
    run.feed(&RepliesInOrder { replies });
}

/// Runs to the next mark, adds its line, and feeds the replies to a step. The answer is whether there was a step.
fn is_stepped<R: AllocGlobal + Abort>(
    rt: &R,
    run: &mut ModuleRun,
    reads: &[u64],
    text: &mut String,
) -> Result<bool, Fail>
    requires run { IsSomeRun run.old }
    requires fed { waits run.old ≡ false }
    ensures run { OnOk result (IsSomeRun run.new) }
    ensures fed { OnOk result (waits run.new ≡ false) }
{
    let mark = run.advance()?;
    print_mark(text, &mark)?;
    match mark {
        Advance::Step(step) => {
            let replies = replies_to(rt.alloc(), step.accesses.as_slice(), reads)?;
            feed(rt, run, replies.as_slice());
            Ok(true)
        }
        Advance::Ended(_) | Advance::Spent(_) => Ok(false),
    }
}

/// What a run does, up to its end, on these values.
fn told<R: AllocGlobal + Abort>(rt: &R, run: &mut ModuleRun, reads: &[u64]) -> Result<String, Fail>
    requires run { IsSomeRun run.old }
    requires fed { waits run.old ≡ false }
{
    let mut text = String::new(rt.alloc());
    for number in 0..200 {
        assert!(rt; number < 199);
        if !is_stepped(rt, run, reads, &mut text)? {
            return Ok(text);
        }
    }
    Ok(text)
}

#[test]
fn runs_of_sessions(rt: HostRuntime) -> Result<(), Fail> {
    for (parts, reads, wanted) in RUNS {
        let mut run = first_run(&rt, parts)?;
        let text = told(&rt, &mut run, reads)?;
        assert_eq!(rt; text.as_str(), wanted);
    }
    Ok(())
}

/// What the run with most live iterations does: one begins in each of 65 local clocks, and each ends 63 local clocks later.
fn most_iterations(alloc: Global) -> Result<String, Fail> {
    let mut text = String::new(alloc);
    for clock in 0..128 {
        write!(text, "{} 0", clock.min(1))?;
        if clock >= 63 {
            write!(text, "; Write 1 {} {}", clock - 62, clock - 1)?;
        }
        if clock < 65 {
            write!(text, "; Write 0 {} {clock}", clock + 1)?;
        }
        text.push_str("\n")?;
    }
    text.push_str("1 ends\n")?;
    Ok(text)
}

#[test]
fn most_live_iterations(rt: HostRuntime) -> Result<(), Fail> {
    let mut run = first_run(&rt, &[MOST_ITERATIONS])?;
    let text = told(&rt, &mut run, &[])?;
    let wanted = most_iterations(rt.alloc())?;
    assert_eq!(rt; text.as_str(), wanted.as_str());
    Ok(())
}

/// The run comes, by advances in place, to a write, and then to its end.
fn comes_to_a_write<R: Abort>(rt: &R, run: &mut ModuleRun) -> Result<(), Fail>
    requires run { IsSomeRun run.old }
    requires fed { waits run.old ≡ false }
{
    let replies = [Reply::Done];
    let few = run.advance_few()?;
    assert!(rt; few);
    assert!(rt; all_fit(run.waiting(), &replies));
    run.feed(&RepliesInOrder { replies: &replies });
    let more = run.advance_few()?;
    assert!(rt; !more);
    let end = run.give()?;
    assert!(rt; matches!(&end, Advance::Ended(1)));
    Ok(())
}

#[test]
fn a_word_in_place(rt: HostRuntime) -> Result<(), Fail> {
    let mut run = first_run(&rt, &[STORED_AND_LOADED])?;
    comes_to_a_write(&rt, &mut run)
}
