//! The replies to a step, from the outcomes and values that are there for it.
ghost use Rattle.std.specs.Prelude.{◌≡◌, ℕ, ◌+◌, ◌<◌, ◌^◌, Option, All, Some, None, IfSome, IsNone, List as Items, length, slice_get, drop};
ghost use Rattle.std.specs.Prelude.{false};
ghost use Rattle.run_ahead.specs.{Reply as ReplyOf, Access as AccessOf, is_blocking, IsAccess, queries_in, reply_now, replies_from};
ghost use Rattle.run_ahead.specs.{first_missing, value_now};

use event_graph::LaneAccesses;
use fifo_table::FifoTable;
use flow_word::{Access, Kind};
use module_interp::{Answers, Reply};

/// Something that has the values of pops.
pub trait Values {
    /// Whether the value for this access may be asked for.
    ghost knows: { Self → AccessOf → Type 0 };

    /// The value for an access, if it is there.
    ghost value: { Self → AccessOf → Option ℕ };

    /// The value for an access that pops. `None` where it is not there.
    fn value(&self, access: &Access) -> Option<u64>
        requires { knows self.now access.now }
        ensures { result ≡ value self.now access.now };
}

impl Values for FifoTable {
    ghost knows = { λ fifos. IsAccess fifos.channels };

    ghost value = { λ fifos. value_now fifos.channels };

    #[inline(always)]
    fn value(&self, access: &Access) -> Option<u64> {
        self.value(access.channel, access.ordinal)
    }
}

/// The outcome with this number, counted from 0. `None` where it is not there.
#[inline(always)]
pub(crate) fn outcome_at(outcomes: &[bool], number: u64) -> Option<bool>
    ensures outcome { result ≡ slice_get outcomes.now number }
    ensures inside { IfSome result (λ o. number + 1 < 2 ^ 64) }
{
    outcomes.get(number as usize).copied()
}

/// The reply to an access. If the access is a query, its outcome has this number. `None` where the outcome or the value is not
/// there.
#[inline(always)]
fn reply_at<V: Values>(outcomes: &[bool], values: &V, number: u64, access: &Access) -> Option<Reply>
    requires { V.knows values.now access.now }
    ensures reply { result ≡ reply_now access.now.kind (slice_get outcomes.now number) (V.value values.now access.now) }
    ensures inside { IfSome result (λ r. is_blocking access.now.kind ≡ false → number + 1 < 2 ^ 64) }
{
    match access.kind {
        Kind::Read => values.value(access).map(Reply::Value),
        Kind::Write => Some(Reply::Done),
        Kind::TryRead => match outcome_at(outcomes, number) {
            Some(true) => values.value(access).map(Reply::Took),
            Some(false) => Some(Reply::Missed),
            None => None,
        },
        Kind::TryWrite | Kind::Empty | Kind::Full => outcome_at(outcomes, number).map(Reply::Flag),
    }
}

/// Whether the replies to a step's accesses are there: then the answer is how many outcomes belong to this step and to earlier ones,
/// to which the first `told` outcomes belong. `None` where a reply is not there.
#[inline(always)]
pub fn find_replies<V: Values>(
    outcomes: &[bool],
    values: &V,
    told: u64,
    accesses: &[Access],
) -> Option<u64>
    requires { All (V.knows values.now) accesses.now }
    ensures found { IfSome result (λ n. (rs : Items ReplyOf)
        × (replies_from outcomes.now (V.value values.now) told accesses.now ≡ Some rs)) }
    ensures told { IfSome result (λ n. n ≡ told + queries_in accesses.now) }
    ensures missing { IsNone result → replies_from outcomes.now (V.value values.now) told accesses.now ≡ None }
{
    let mut next = told;
    for access in accesses {
        let Some(_reply) = reply_at(outcomes, values, next, access) else {
            return None;
        };
        if !access.kind.is_blocking() {
            next += 1;
        }
    }
    Some(next)
}

/// The number of the first of a step's accesses whose reply is not there. The first `told` outcomes belong to earlier steps.
pub fn first_missing<V: Values>(
    outcomes: &[bool],
    values: &V,
    told: u64,
    accesses: &LaneAccesses<'_>,
) -> Option<usize>
    requires { All (V.knows values.now) accesses.now }
    ensures missing { result ≡ first_missing outcomes.now (V.value values.now) told accesses.now }
    ensures inside { IfSome result (λ i. i < length accesses.now) }
{
    let count = accesses.len();
    let mut next = told;
    let mut left = count;
    for access in accesses.iter() {
        let Some(_reply) = reply_at(outcomes, values, next, &access) else {
            return Some((count - left) as usize);
        };
        left -= 1;
        if !access.kind.is_blocking() {
            next += 1;
        }
    }
    None
}

/// The replies to a step's accesses, by outcomes and values.
#[derive(Drop)]
pub struct KnownReplies<'a, V> {
    /// The outcomes of the queries of this step and of later ones.
    outcomes: &'a [bool],
    values: &'a V,
}

impl<'a, V: Values> KnownReplies<'a, V> {
    /// The replies to the accesses of a step. The first `told` outcomes belong to earlier steps.
    #[inline(always)]
    pub fn new(outcomes: &'a [bool], values: &'a V, told: u64) -> KnownReplies<'a, V>
        ensures outcomes { result.outcomes.now ≡ drop told outcomes.now }
        ensures values { result.values.now ≡ values.now }
    {
        KnownReplies {
            outcomes: outcomes_from(outcomes, told),
            values,
        }
    }
}

impl<'a, V: Values> Answers for KnownReplies<'a, V> {
    ghost use Rattle.run_ahead.specs.Replies.{reply_told};

    ghost knows = { λ replies. V.knows replies.values.now };

    ghost reply = { λ replies. reply_told replies.outcomes.now (V.value replies.values.now) };

    #[inline(always)]
    fn reply(&self, _place: usize, asked: u64, access: &Access) -> Reply {
        match reply_at(self.outcomes, self.values, asked, access) {
            Some(reply) => reply,
            None => Reply::Done,
        }
    }
}

/// The outcomes after the first `told`.
#[inline(always)]
fn outcomes_from(outcomes: &[bool], told: u64) -> &[bool]
    ensures { result.now ≡ drop told outcomes.now }
{
    if told < outcomes.len() as u64 {
        &outcomes[told as usize..]
    } else {
        &[]
    }
}
