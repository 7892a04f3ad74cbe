//! A module's run with its mail, and how far it goes on that alone.
ghost use Rattle.std.specs.Prelude.{◌≡◌, ◌≢◌, ℕ, ◌+◌, ◌<◌, ◌^◌, List as Items, [], length, drop, Option, Some, None, is_none, true, false};
ghost use Rattle.std.specs.Prelude.{if◌then◌else◌, IsTrue, IsFalse, IsNone, IfSome};
ghost use Rattle.run_ahead.specs.{Plan as PlanOf, Reply as ReplyOf, Own, place_in, accesses_at, StandsAt, waits, reply_now, takes_by};
ghost use Rattle.run_ahead.specs.{told_by, Mail as MailOf, values_on, next_value, replies_in, none_taken, one_more, taken_after, IsLeft};
ghost use Rattle.run_ahead.specs.{RunsOn, IsBurst, IsBurstFrom, StandsSomewhere, IsFed, burst_of, task_of};

use crate::replies::{KnownReplies, Values, find_replies, outcome_at};
use flow_word::{Access, Flags, Kind, List, Queue};
use module_interp::{Marks, ModuleRun, OwnChannels};
use std::alloc::Global;

/// What a module's run has not taken yet: outcomes of its queries, and of each channel that it pops the values from its next pop on.
pub struct Mail {
    pub outcomes: Flags,
    /// The channels that the module pops.
    pub channels: OwnChannels,
    /// The values of each of these channels, from the module's next pop on.
    pub values: List<Queue<u64>>,
}

impl Drop for Mail {
    fn drop(self) {
        let Mail {
            outcomes: _outcomes,
            channels: _channels,
            values: _values,
        } = self;
    }
}

impl Mail {
    /// A mail with nothing, which takes no memory.
    pub fn none(alloc: Global) -> Mail
        ensures { result ≡ record { outcomes = []; channels = []; values = [] } }
    {
        Mail {
            outcomes: Flags::new(alloc),
            channels: OwnChannels::none(alloc),
            values: List::new(alloc),
        }
    }

    /// The place of a channel's values in the mail. `None` where the mail has no values of the channel.
    #[inline(always)]
    fn place(&self, channel: u32) -> Option<usize>
        ensures place { IfSome result (λ at. at ≡ place_in self.now.channels channel) }
        ensures channel { IfSome result (λ at. at < length self.now.channels) }
        ensures inside { IfSome result (λ at. at < length self.now.values) }
        ensures none { IsNone result → values_on self.now channel ≡ [] }
    {
        let place = self.channels.place(channel);
        if place < self.channels.as_slice().len() && place < self.values.as_slice().len() {
            Some(place)
        } else {
            None
        }
    }
}

/// A module's run with its mail.
#[derive(Drop)]
pub struct Task {
    pub run: ModuleRun,
    pub mail: Mail,
}

/// The marks that a run gave on its mail, the run after them, and what is left of the mail.
#[derive(Drop)]
pub struct Burst {
    pub run: ModuleRun,
    pub emitted: Marks,
    /// Whether the burst stopped because memory ran out.
    pub short: bool,
    /// The mail with the values that the run has not taken. All its outcomes are still there.
    pub mail: Mail,
}

impl Values for Mail {
    ghost knows = { λ mail a. Unit {0} };

    ghost value = { λ mail a. next_value mail none_taken a.channel };

    /// The next value of the access's channel. `None` where the mail has no further one.
    fn value(&self, access: &Access) -> Option<u64> {
        match self.place(access.channel) {
            Some(place) => self.values.as_slice()[place].front(),
            None => None,
        }
    }
}

/// Whether an access takes a value, by the outcome that it has if it is a query.
fn takes(kind: Kind, outcome: Option<bool>) -> bool
    ensures { result ≡ takes_by kind outcome }
{
    match kind {
        Kind::Read => true,
        Kind::TryRead => outcome == Some(true),
        Kind::Write | Kind::TryWrite | Kind::Empty | Kind::Full => false,
    }
}

/// Takes the next value of a channel off the mail.
fn take_value(mail: &mut Mail, channel: u32)
    ensures outcomes { mail.new.outcomes ≡ mail.old.outcomes }
    ensures taken { values_on mail.new channel ≡ drop 1 (values_on mail.old channel) }
    ensures others { (c : ℕ) → c ≢ channel → values_on mail.new c ≡ values_on mail.old c }
{
    if let Some(place) = mail.place(channel) {
        let _value = mail.values.as_mut_slice()[place].pop();
    }
}

/// Takes the value of an access off the mail, if it takes one, by the outcome that it has if it is a query.
fn take_for(mail: &mut Mail, access: &Access, outcome: Option<bool>)
    ensures outcomes { mail.new.outcomes ≡ mail.old.outcomes }
    ensures left { (whole : MailOf) (taken : ℕ → ℕ) → IsLeft whole taken mail.old
        → IsLeft whole (if takes_by access.now.kind outcome then one_more taken access.now.channel else taken) mail.new }
{
    if takes(access.kind, outcome) {
        take_value(mail, access.channel);
    }
}

/// How many outcomes are read after an access, where this many are read before it. The outcome is that of the access if it is a query.
fn told_after(kind: Kind, outcome: Option<bool>, told: u64) -> u64
    requires { IfSome outcome (λ done. told + 1 < 2 ^ 64) }
    ensures { (value : Option ℕ) → is_none (reply_now kind outcome value) ≡ false → result ≡ told_by kind told }
{
    match outcome {
        Some(_) if !kind.is_blocking() => told + 1,
        Some(_) | None => told,
    }
}

/// Takes the values that the replies to a step's accesses use off the mail. All of these replies must be in the mail, of which the
/// first `told` outcomes belong to earlier steps.
fn take_values(mail: &mut Mail, told: u64, accesses: &[Access])
    requires found { (rs : Items ReplyOf) × (replies_in mail.old told none_taken accesses.now ≡ Some rs) }
    ensures left { (whole : MailOf) (taken : ℕ → ℕ) → IsLeft whole taken mail.old
        → (rs : Items ReplyOf) → replies_in mail.old told none_taken accesses.now ≡ Some rs
        → IsLeft whole (taken_after taken accesses.now rs) mail.new }
{
    let mut next = told;
    for access in accesses {
        let outcome = outcome_at(mail.outcomes.as_slice(), next);
        take_for(mail, access, outcome);
        next = told_after(access.kind, outcome, next);
    }
}

/// Gives the run the replies of its mail to the step that waits, and takes the values that they use off the mail. Returns whether
/// all replies are in the mail. Where one is missing, the run and the mail stay as they were.
fn answer(run: &mut ModuleRun, mail: &mut Mail, told: &mut u64) -> bool
    requires stands { StandsSomewhere run.old }
    requires waits { waits run.old ≡ true }
    ensures fed { IsTrue result → (p : PlanOf) (i : ℕ) (o : Own) → StandsAt p i o run.old
        → (whole : MailOf) (taken : ℕ → ℕ) → IsLeft whole taken mail.old
        → IsFed p i o whole told.old taken run.new told.new mail.new }
    ensures goes { IsTrue result → waits run.new ≡ false }
    ensures missing { IsFalse result → (p : PlanOf) (i : ℕ) (o : Own) → StandsAt p i o run.old
        → (whole : MailOf) (taken : ℕ → ℕ) → IsLeft whole taken mail.old
        → replies_in whole told.old taken (accesses_at p i o) ≡ None }
    ensures waiting { IsFalse result → (run.new ≡ run.old) × (mail.new ≡ mail.old) }
{
    let Some(next) = find_replies(mail.outcomes.as_slice(), mail, *told, run.waiting()) else {
        return false;
    };
    run.feed(&KnownReplies::new(mail.outcomes.as_slice(), mail, *told));
    take_values(mail, *told, run.listed());
    *told = next;
    true
}

/// Runs on from a rest, as far as the mail goes. `told` counts the outcomes of the mail that were read. Returns whether memory ran
/// out.
fn run_on(run: &mut ModuleRun, mail: &mut Mail, told: &mut u64, marks: &mut Marks) -> bool
    requires stands { StandsSomewhere run.old }
    requires goes { waits run.old ≡ false }
    requires none { marks.old ≡ [] }
    ensures { (p : PlanOf) (i : ℕ) (o : Own) → StandsAt p i o run.old → (whole : MailOf) (taken : ℕ → ℕ) → IsLeft whole taken mail.old
        → RunsOn p i whole result (task_of run.new mail.new) o told.old taken marks.new }
{
    let mut left = u64::MAX;
    while left > 0 {
        left -= 1;
        match marks.add_next(run) {
            Ok(true) => {}
            Ok(false) => return false,
            Err(_) => return true,
        }
        let fed = answer(run, mail, told);
        if !fed {
            return false;
        }
    }
    true
}

/// Runs as far as the mail goes, from a rest or from a step that waits, and takes the values that it uses off the mail. Returns
/// whether memory ran out.
fn begin(run: &mut ModuleRun, mail: &mut Mail, marks: &mut Marks) -> bool
    requires stands { StandsSomewhere run.old }
    requires none { marks.old ≡ [] }
    ensures { (p : PlanOf) (i : ℕ) (o : Own) → StandsAt p i o run.old → IsBurstFrom (waits run.old) p i o mail.old
        (burst_of (task_of run.new mail.new) marks.new result) }
{
    let mut told = 0;
    if run.is_waiting() {
        let fed = answer(run, mail, &mut told);
        if !fed {
            return false;
        }
    }
    run_on(run, mail, &mut told, marks)
}

/// Runs ahead on the mail, until the run is over, a reply is not in the mail, or memory runs out. The values that the run takes
/// leave the mail.
pub fn work(alloc: Global, task: Task) -> Burst
    requires stands { StandsSomewhere task.run }
    ensures { (p : PlanOf) (i : ℕ) (o : Own) → StandsAt p i o task.run → IsBurst p i o task result }
{
    let Task { mut run, mut mail } = task;
    let mut emitted = Marks::new(alloc);
    let short = begin(&mut run, &mut mail, &mut emitted);
    Burst {
        run,
        emitted,
        short,
        mail,
    }
}
