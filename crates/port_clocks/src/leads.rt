//! Two rising lists of clocks, and by how many one is ahead of the other.
ghost use Rattle.std.specs.Prelude.{◌≡◌, ◌+◌, ◌-◌, ◌<◌, ◌≤◌, ◌^◌, ℕ, true, max, slice_get, option_map, unwrap_or, nat_lt, All, AllPairs};
ghost use Rattle.port_clocks.specs.Leads as counts;

/// In how many clocks below `clock` the first list is ahead of the second by at least `margin`: at least that many more of its
/// clocks are before that clock.
///
/// It looks at each clock of the second list once, and each time at one of the first. It takes no memory.
pub fn ahead_clocks(first: &[u64], second: &[u64], margin: u64, clock: u64) -> u64
    requires first { AllPairs (λ a b. a ≤ b) first.now }
    requires second { AllPairs (λ a b. a ≤ b) second.now }
    requires some { 1 ≤ margin }
    requires margin { margin < 2 ^ 62 }
    requires early { All (λ x. x + 1 < 2 ^ 64) first.now }
    requires early_too { All (λ y. y + 1 < 2 ^ 64) second.now }
    ensures { result ≡ counts.ahead_clocks margin first.now second.now clock }
{
    let mut total = 0u64;
    let mut from = 0u64;
    for (at, next) in second.iter().enumerate() {
        let until = (*next + 1).min(clock);
        total += clocks_after(first, at as u64 + margin - 1, from, until);
        from = until;
    }
    total + clocks_after(first, second.len() as u64 + margin - 1, from, clock)
}

/// How many clocks, from `from` on and below `until`, come after the clock at a place of the list; none where there is no such
/// place.
fn clocks_after(clocks: &[u64], at: u64, from: u64, until: u64) -> u64
    requires { All (λ x. x + 1 < 2 ^ 64) clocks.now }
    ensures { result ≡ unwrap_or (option_map (λ x. until - max from (x + 1)) (slice_get clocks.now at)) 0 }
{
    match clocks.get(at as usize) {
        Some(clock) => until.saturating_sub(from.max(*clock + 1)),
        None => 0,
    }
}

/// By how many the first list is ahead of the second at most: in some clock that many more of its clocks are before that clock, and
/// in no clock more.
///
/// It looks at each clock of the first list once, and each time at one of the second. It takes no memory.
pub fn most_ahead(first: &[u64], second: &[u64]) -> u64
    requires first { AllPairs (λ a b. a ≤ b) first.now }
    requires second { AllPairs (λ a b. a ≤ b) second.now }
    requires early { All (λ x. x + 1 < 2 ^ 64) first.now }
    ensures { (clock : ℕ) → All (λ x. x < clock) first.now → result ≡ counts.most_ahead first.now second.now clock }
{
    let mut most = 0usize;
    for (at, next) in first.iter().enumerate() {
        if is_after(second, at - most, *next) {
            most += 1;
        }
    }
    most as u64
}

/// Whether the clock at a place of the list comes after this one; true where there is no such place.
fn is_after(clocks: &[u64], at: usize, clock: u64) -> bool
    ensures { result ≡ unwrap_or (option_map (λ x. nat_lt clock x) (slice_get clocks.now at)) true }
{
    match clocks.get(at) {
        Some(next) => clock < *next,
        None => true,
    }
}
