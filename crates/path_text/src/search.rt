//! Searches in lists that are sorted by time.
ghost use Rattle.std.specs.Prelude.{◌≡◌, ℕ, ◌<◌, ◌≤◌, AllPairs, length, slice_index_or};
ghost use Rattle.std.specs.List.{filter};
ghost use Rattle.path_text.specs.{before, latest_one as latest_of, AreChronological, find_clock, lies_in as is_in};
ghost use Rattle.path_text.specs.{precedes_link as is_ahead_of, with_find as found_with};

use crate::finds::Find;
use depth_order::Link;

/// How many of these clocks come before a given clock.
pub(crate) fn count_before(clocks: &[u64], clock: u64) -> usize
    requires { AllPairs (λ a b. a ≤ b) clocks.now }
    ensures { result ≡ before clocks.now clock }
{
    let mut low = 0;
    let mut high = clocks.len();
    while low < high {
        let middle = low + (high - low) / 2;
        if clocks[middle] < clock {
            low = middle + 1;
        } else {
            high = middle;
        }
    }
    high
}

/// How many of these finds are in a given clock or earlier.
fn count_until(finds: &[Find], clock: u64) -> usize
    requires { AreChronological finds.now }
    ensures within { result ≤ length finds.now }
    ensures later { (k : ℕ) (d : Find) → result ≤ k → k < length finds.now → clock < find_clock (slice_index_or finds.now k d) }
{
    let mut low = 0;
    let mut high = finds.len();
    while low < high {
        let middle = low + (high - low) / 2;
        if finds[middle].access.event.cycle <= clock {
            low = middle + 1;
        } else {
            high = middle;
        }
    }
    high
}

/// The latest find of a link's module that is in the link's clocks, with its missed query in them too; of several in that clock,
/// the first. `None` where there is none.
///
/// It looks at the finds from that clock to the link's last, and at some of the others.
pub(crate) fn latest(finds: &[Find], link: &Link) -> Option<Find>
    requires { AreChronological finds.now }
    ensures { result ≡ latest_of find_clock (filter (is_in link.now) finds.now) }
{
    let mut found = None;
    for at in (0..count_until(finds, link.last)).rev() {
        if is_ahead(&finds[at], link, found) {
            return found;
        }
        found = with_find(found, &finds[at], link);
    }
    found
}

/// Whether a find comes before the link's clocks, or before the one that was found.
fn is_ahead(find: &Find, link: &Link, found: Option<Find>) -> bool
    ensures { result ≡ is_ahead_of find.now link.now found }
{
    let clock = find.access.event.cycle;
    match found {
        Some(later) => clock < link.first || clock < later.access.event.cycle,
        None => clock < link.first,
    }
}

/// What is found after a look at one more find, which is not later than the one found so far.
fn with_find(found: Option<Find>, find: &Find, link: &Link) -> Option<Find>
    ensures { result ≡ found_with found find.now link.now }
{
    if is_within(find, link) {
        Some(*find)
    } else {
        found
    }
}

/// Whether a find is of the link's module, and both it and its missed query are in the link's clocks.
fn is_within(find: &Find, link: &Link) -> bool
    ensures { result ≡ is_in link.now find.now }
{
    let clock = find.access.event.cycle;
    find.access.event.module == link.module
        && link.first <= clock
        && clock <= link.last
        && link.first <= find.missed
}
