//! Putting the spans of a module together, from its first clock on.
ghost use Rattle.std.specs.Prelude.{ℕ, ◌≡◌, ◌≢◌, ◌<◌, ◌-◌, ◌∷◌, [], ◌++◌, take, max, length, OnOk, true, false};
ghost use Rattle.timelines.specs.{Plan, reached, Comes, Does, last_span};

use crate::span::{Doing, Span};
use flow_word::{List, OutOfMemory};

/// Adds that a module does this from the end of its spans up to clock `until`. The last span goes on where it says the same.
/// Nothing changes where the spans come to `until` or further. After `OutOfMemory` there are all spans, or all but the last.
pub fn extend(spans: &mut List<Span>, until: u64, doing: Doing) -> Result<(), OutOfMemory>
    ensures spans { OnOk result ((p : Plan) (i : ℕ) → Comes p i spans.old → Does p i (reached spans.old) until doing
        → Comes p i spans.new) }
    ensures reached { OnOk result (reached spans.new ≡ max (reached spans.old) until) }
{
    let from = end_of(spans.as_slice());
    if until <= from {
        return Ok(());
    }
    if says_last(spans.as_slice(), doing) {
        return go_longer(spans, until);
    }
    spans.push(Span {
        first: from,
        until,
        doing,
    })
}

/// Lets the last span go on up to a clock.
fn go_longer(spans: &mut List<Span>, until: u64) -> Result<(), OutOfMemory>
    requires { 0 < length spans.old }
    ensures { OnOk result (spans.new ≡ take (length spans.old - 1) spans.old
        ++ record { first = (last_span spans.old).first; until = until; doing = (last_span spans.old).doing } ∷ []) }
{
    let count = spans.len();
    let last = spans.as_slice()[count as usize - 1];
    spans.truncate(count - 1);
    spans.push(Span {
        first: last.first,
        until,
        doing: last.doing,
    })
}

/// Whether there is a last span, and it says this.
fn says_last(spans: &[Span], doing: Doing) -> bool
    ensures some { result ≡ true → 0 < length spans.now }
    ensures same { result ≡ true → (last_span spans.now).doing ≡ doing }
    ensures other { result ≡ false → 0 < length spans.now → (last_span spans.now).doing ≢ doing }
{
    match spans.len().checked_sub(1) {
        Some(last) => spans[last].doing == doing,
        None => false,
    }
}

/// The clock up to which the spans go: 0 where there is none.
pub fn end_of(spans: &[Span]) -> u64
    ensures { result ≡ reached spans.now }
{
    match spans.len().checked_sub(1) {
        Some(last) => spans[last].until,
        None => 0,
    }
}
