//! The first module with the least cycle.
ghost use Rattle.std.specs.Prelude.{◌≡◌, ◌<◌, ◌^◌, ◌↔◌, length, All, None, IsNone, IfSome};
ghost use Rattle.query_resolve.specs.{determined_cycle, IsEarliest};

use event_graph::Candidate;

/// The first module whose candidate has the least cycle, and that cycle. The candidates stand in order of modules. `None` where no
/// candidate has a cycle below the limit. It takes no memory.
pub fn earliest(candidates: &[Candidate]) -> Option<(u32, u64)>
    requires { length candidates.now < 2 ^ 32 }
    ensures some { IfSome result (λ found. IsEarliest candidates.now found.0 found.1) }
    ensures none { IsNone result ↔ All (λ candidate. determined_cycle candidate ≡ None) candidates.now }
{
    let mut first: Option<(u32, u64)> = None;
    for (owner, candidate) in candidates.iter().enumerate() {
        let Candidate::At(cycle) = *candidate else {
            continue;
        };
        match first {
            Some((_, least)) if least <= cycle => continue,
            _ => first = Some((owner as u32, cycle)),
        }
    }
    first
}
