//! An assumed outcome compared with the one that is found.
ghost use Rattle.std.specs.Prelude.{◌≡◌, ◌≢◌, ◌↔◌};

use query_log::Query;

/// The result of comparing assumed outcomes with those that are found.
#[derive(Clone, Copy, Debug, PartialEq, Eq)]
pub enum Guard {
    /// Each outcome that is found is the assumed one.
    Same,
    /// The outcome that is found for this query is not the assumed one.
    Differs(Query),
}

/// Compares the assumed outcome of a query with the one that was found. It takes no memory.
pub fn compare(assumed: bool, found: bool, query: Query) -> Guard
    ensures same { (result ≡ Guard.Same) ↔ (assumed ≡ found) }
    ensures differs { (result ≡ Guard.Differs query) ↔ (assumed ≢ found) }
{
    if assumed == found {
        Guard::Same
    } else {
        Guard::Differs(query)
    }
}
