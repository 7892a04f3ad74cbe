//! The count of runs.
ghost use Rattle.std.specs.Prelude.{◌≡◌, ◌<◌};
ghost use Rattle.outcome_guard.specs.{agree_so_far, all_go_on, longer, all_longer, first_counts, next_counts};

use crate::prefix::one_is_prefix;
use flow_word::{Flags, List};
use std::mem;

/// The answers that are kept of the reports so far, and how many runs these reports count together.
#[derive(Debug, Drop, PartialEq)]
pub struct RunCount {
    /// The kept outcomes of each module's queries, in order.
    pub kept: List<Flags>,
    pub runs: u64,
}

impl RunCount {
    /// The count after the first report, with its answers: one run.
    pub fn new(answers: List<Flags>) -> RunCount
        ensures { result ≡ first_counts answers }
    {
        RunCount {
            kept: answers,
            runs: 1,
        }
    }

    /// Counts one more report, with its answers. It takes no memory.
    #[tactic(auto, unfolding(crate::specs::Runs::next_counts))]
    pub fn add(&mut self, mut answers: List<Flags>)
        requires { self.old.runs < u64.MAX }
        ensures { self.new ≡ next_counts self.old answers }
    {
        if all_go_on(self.kept.as_slice(), answers.as_slice()) {
            keep_longer(self.kept.as_mut_slice(), answers.as_mut_slice());
        } else {
            self.kept = answers;
            self.runs += 1;
        }
    }
}

/// Whether in every module one of the two lists of outcomes is a prefix of the other.
fn all_go_on(kept: &[Flags], found: &[Flags]) -> bool
    ensures { result ≡ all_go_on kept.now found.now }
{
    for at in 0..kept.len().min(found.len()) {
        if !goes_on(kept[at].as_slice(), found[at].as_slice()) {
            return false;
        }
    }
    true
}

/// Whether one of the lists is a prefix of the other.
fn goes_on(a: &[bool], b: &[bool]) -> bool
    ensures { result ≡ agree_so_far a.now b.now }
{
    one_is_prefix(a, b)
}

/// Keeps the longer list of outcomes in every module.
fn keep_longer(kept: &mut [Flags], found: &mut [Flags])
    ensures { kept.new ≡ all_longer kept.old found.old }
{
    for at in 0..kept.len().min(found.len()) {
        keep(&mut kept[at], &mut found[at]);
    }
}

/// Keeps the longer of two lists of outcomes.
fn keep(own: &mut Flags, other: &mut Flags)
    ensures { own.new ≡ longer own.old other.old }
{
    if own.len() < other.len() {
        mem::swap(own, other);
    }
}
