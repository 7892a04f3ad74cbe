//! What goes on in each clock before the verdict's: how many elements each FIFO holds, and what each module does: it moves, or stalls
//! for one cause. The spans of a module are the maximal intervals in which it does the same.
#![tactic(auto)]

mod fill_laws;
mod span;
mod span_laws;
mod span_list;

pub use fill_laws::fills_are_counted;
pub use span::{Doing, Span};
pub use span_laws::{clocks_add_up, spans_are_one, spans_cover_clocks};
pub use span_list::{end_of, extend};
