//! A list of candidates that tells the first of the least.
ghost use Rattle.std.specs.Prelude.{◌≡◌, ◌<◌, ◌↔◌, length, slice_set, All, None, IfOk, IfSome, IsNone};
ghost use Rattle.query_resolve.specs.{determined_cycle, IsEarliest};

use crate::rounds::{First, find_winners, told};
use event_graph::Candidate;
use flow_word::OutOfMemory;
use std::alloc::Global;
use std::marker::Model;

/// A candidate for each of some modules, in order of modules. Contracts see the list.
///
/// The first of the least is found in rounds, in each of which the sooner one of two goes on to the next: so a change costs the
/// logarithm of the modules, and the winner of all is known.
#[derive(Drop)]
pub struct CandidateList {
    candidates: Vec<Candidate>,
    /// Each place from 1 on has the winner of places `2 * place` and `2 * place + 1`. The modules begin at the upper half.
    places: Vec<Option<First>>,
}

impl Model for CandidateList {
    ghost use Rattle.std.specs.Prelude.{List};
    ghost use Rattle.event_graph.specs.{Candidate};
    ghost use Rattle.query_resolve.specs.Firsts.{HasWinners};

    ghost Value = { List Candidate };

    ghost view = { λ list. list.candidates.items };

    ghost invariant = { λ list. HasWinners list.candidates.items list.places.items };
}

impl CandidateList {
    /// The candidates of so many modules without a step.
    pub fn new(alloc: Global, count: u32) -> Result<CandidateList, OutOfMemory>
        ensures { IfOk result (λ list. length list ≡ count) }
    {
        let candidates = vec![in alloc; Candidate::Nothing; count as usize]?;
        let places = vec![in alloc; None; 2 * count as usize]?;
        Ok(CandidateList { candidates, places })
    }

    /// Another candidate of a module. It takes no memory.
    pub fn set(&mut self, owner: u32, candidate: Candidate)
        requires { owner < length self.old }
        ensures { self.new ≡ slice_set self.old owner candidate }
    {
        let at = owner as usize;
        if self.candidates[at] == candidate {
            return;
        }
        self.candidates[at] = candidate;
        let count = self.candidates.len();
        self.places[count + at] = told(owner, candidate);
        find_winners(&mut self.places, count, (count + at) / 2);
    }

    /// The first module with the least cycle, and that cycle. None where no candidate has a cycle. It takes no memory.
    pub fn earliest(&self) -> Option<(u32, u64)>
        ensures some { IfSome result (λ found. IsEarliest self.now found.0 found.1) }
        ensures none { IsNone result ↔ All (λ candidate. determined_cycle candidate ≡ None) self.now }
    {
        if self.places.len() < 2 {
            return None;
        }
        match self.places[1] {
            Some(first) => Some((first.owner, first.cycle)),
            None => None,
        }
    }
}
