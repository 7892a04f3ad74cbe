//! The value of a turn. It has a file of its own: a clause names the row of `Turn`, which the file that declares `Turn` cannot
//! import.
ghost use Rattle.std.specs.{Prelude.◌≡◌, Borrow.sem};
ghost use Rattle.turn_lock.specs.{LendsValue};

use crate::kept::Kept;
use crate::pass::Turn;

impl<K: Kept> Turn<K> {
    /// The value, for reading.
    pub fn value(&self) -> &K
        ensures { result.now ≡ self.now.value }
    {
        &self.value
    }

    /// The value, for changing.
    pub fn value_mut(&mut self) -> &mut K
        ensures* writes_back { sem 𝓛 (LendsValue K.row K.Entry.row K.Kept self.entry result) }
        ensures value { result.now ≡ self.old.value }
    {
        &mut self.value
    }
}
