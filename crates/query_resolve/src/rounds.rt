//! The first of the least among some candidates.
ghost use Rattle.std.specs.Prelude.{◌≡◌, ◌*◌, ◌<◌, ◌≤◌, ℕ, length};
ghost use Rattle.query_resolve.specs.{AreWonBut, IsWinner, at_place, first_by};

use event_graph::Candidate;

/// A module and the cycle of its candidate.
#[derive(Clone, Copy, Debug, PartialEq, Eq)]
pub(crate) struct First {
    pub(crate) cycle: u64,
    pub(crate) owner: u32,
}

/// A module with the cycle of its candidate. `None` where the candidate has none.
pub(crate) fn told(owner: u32, candidate: Candidate) -> Option<First>
    ensures { result ≡ first_by owner candidate }
{
    match candidate {
        Candidate::At(cycle) => Some(First { cycle, owner }),
        Candidate::Waits(_) | Candidate::Beyond | Candidate::Nothing => None,
    }
}

/// The one of two that has the lesser cycle, or, where both have the same, the lower module.
fn sooner(one: Option<First>, other: Option<First>) -> Option<First>
    ensures { IsWinner one other result }
{
    match (one, other) {
        (Some(a), Some(b)) => {
            if a.cycle < b.cycle || (a.cycle == b.cycle && a.owner <= b.owner) {
                one
            } else {
                other
            }
        }
        (Some(_), None) => one,
        (None, _) => other,
    }
}

/// Finds the winners anew at a place, and then at each that depends on it. The other winners must be right.
pub(crate) fn find_winners(places: &mut Vec<Option<First>>, count: usize, place: usize)
    requires count { length places.old.items ≡ 2 * count }
    requires place { place < count }
    requires won { AreWonBut places.old.items count place }
    ensures count { length places.new.items ≡ length places.old.items }
    ensures begins { (j : ℕ) → count ≤ j → at_place places.new.items j ≡ at_place places.old.items j }
    ensures won { AreWonBut places.new.items count 0 }
{
    let mut at = place;
    while at > 0 {
        places[at] = sooner(places[2 * at], places[2 * at + 1]);
        at /= 2;
    }
}
