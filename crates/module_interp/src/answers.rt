//! What gives the replies to the accesses of a step.
ghost use Rattle.std.specs.{Prelude.◌≡◌, Prelude.ℕ, Prelude.◌≤◌, Prelude.not, Int.from_bool};
ghost use Rattle.module_interp.specs.{Access as AccessOf, is_blocking, Reply as ReplyOf};

use flow_design::Reply;
use flow_word::{Access, Kind};
use module_code::Replies;

/// What has the replies to the accesses of a step.
pub trait Answers {
    /// Whether the reply to this access may be asked for.
    ghost knows: { Self → AccessOf → Type 0 };

    /// The reply to an access, by the place of the access in the step and by how many queries of the step are before it.
    ghost reply: { Self → ℕ → ℕ → AccessOf → ReplyOf };

    /// The reply to an access, by the place of the access in the step and by how many queries of the step are before it.
    fn reply(&self, place: usize, asked: u64, access: &Access) -> Reply
        requires { knows self.now access.now }
        ensures { result ≡ reply self.now place asked access.now };
}

/// The replies to the accesses of a step, told one after the other.
#[derive(Drop)]
pub struct StepReplies<'a, A> {
    answers: &'a A,
    /// The accesses whose replies are still to be told.
    accesses: &'a [Access],
    /// How many replies were told.
    place: usize,
    /// How many of the told replies were replies to queries.
    asked: u64,
}

impl<'a, A: Answers> StepReplies<'a, A> {
    /// The replies to these accesses, of which none is told yet.
    #[inline(always)]
    pub fn new(answers: &'a A, accesses: &'a [Access]) -> StepReplies<'a, A>
        ensures answers { result.answers.now ≡ answers.now }
        ensures accesses { result.accesses.now ≡ accesses.now }
        ensures place { result.place ≡ 0 }
        ensures asked { result.asked ≡ 0 }
    {
        StepReplies {
            answers,
            accesses,
            place: 0,
            asked: 0,
        }
    }
}

impl<'a, A: Answers> Replies for StepReplies<'a, A> {
    ghost use Rattle.std.specs.Prelude.{◌≡◌, ◌+◌, ◌<◌, ◌^◌, length, All};
    ghost use Rattle.module_interp.specs.OwnRests.{replies_told};

    ghost known = { λ told. All (A.knows told.answers.now) told.accesses.now
        × ((told.place + length told.accesses.now < 2 ^ 64) × (told.asked + length told.accesses.now < 2 ^ 64)) };

    ghost left = { λ told. replies_told (A.reply told.answers.now) told.place told.asked told.accesses.now };

    #[inline(always)]
    fn next(&mut self) -> Reply {
        let reply = match self.accesses.first() {
            Some(access) => self.answers.reply(self.place, self.asked, access),
            None => Reply::Done,
        };
        self.skip();
        reply
    }

    #[inline(always)]
    fn skip(&mut self) {
        if let Some((access, rest)) = self.accesses.split_first() {
            self.accesses = rest;
            self.place += 1;
            self.asked += queries_of(access.kind);
        }
    }
}

/// How many queries an access of this kind is: 0 or 1.
#[inline(always)]
pub(crate) fn queries_of(kind: Kind) -> u64
    ensures count { result ≡ from_bool (not (is_blocking kind)) }
    ensures most { result ≤ 1 }
{
    !kind.is_blocking() as u64
}
