//! What each kind of step on the table tells its caller, and how a view is split and two views are joined.
ghost use Rattle.turn_lock.specs.Views.{spent_view, after_split, split_off, after_join};
ghost use Rattle.turn_lock.specs.Steps.{Swapped, Added, Freed};

use crate::kept::Kept;
use crate::view::PassView;
use atomic_table::{Join, Play, Split};

/// The step that swaps a 1 into the turn word.
pub(crate) struct Swap;

impl<K: Kept> Play<Option<K>, PassView<K::Entry>> for Swap {
    ghost then = { Swapped K.history K.bearer };
}

/// The step that adds 1 to the count word.
pub(crate) struct Add;

impl<K: Kept> Play<Option<K>, PassView<K::Entry>> for Add {
    ghost then = { Added K.history };
}

/// The step that stores a 0 in the turn word.
pub(crate) struct Free;

impl<K: Kept> Play<Option<K>, PassView<K::Entry>> for Free {
    ghost then = { Freed };
}

/// The step by which the first pass makes another pass.
pub(crate) struct Make;

impl<E> Split<PassView<E>> for Make {
    ghost left = { after_split };

    ghost right = { split_off };
}

/// The step by which a pass is joined into the first pass.
pub(crate) struct TakeIn;

impl<E> Join<PassView<E>> for TakeIn {
    ghost both = { after_join };

    ghost spent = { spent_view };
}
