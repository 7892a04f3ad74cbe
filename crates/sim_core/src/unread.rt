//! Values that were copied for a run's mail and came back unread.
ghost use Rattle.std.specs.Prelude.{◌≡◌, ◌≢◌, ℕ, ◌<◌, [], length, drop, slice_index, slice_index_or, slice_set, true, false, IfOk};
ghost use Rattle.std.specs.Prelude.{List as Items};
ghost use Rattle.sim_core.specs.{popped_in, Begins, values_on, none_unread, unread_at, IsUnread, AreUnread};

use flow_word::{List, OutOfMemory, Queue};
use module_interp::ModuleRun;
use run_ahead::Mail;
use std::alloc::Global;
use std::mem;

/// Values of a channel that came back unread with the run that pops it: they come next after its first `skipped` values. They go
/// into the run's next mail, so each value is copied once.
pub(crate) struct Unread {
    pub(crate) skipped: u64,
    pub(crate) values: Queue<u64>,
}

impl Drop for Unread {
    fn drop(self) {
        let Unread {
            skipped: _skipped,
            values: _values,
        } = self;
    }
}

/// A module among those that pop channels.
#[derive(Drop)]
pub(crate) struct Inlets<'a> {
    pub(crate) alloc: Global,
    pub(crate) owner: u32,
    /// For each channel the module that pops it.
    pub(crate) readers: &'a [u32],
}

impl Unread {
    /// The values, if they are those that come next after the channel's first `skipped` values; else none.
    fn values_to_come(self, alloc: Global, skipped: u64) -> Queue<u64>
        ensures { (all : Items ℕ) → IsUnread all self → Begins (drop skipped all) result }
    {
        let Unread {
            skipped: first,
            values,
        } = self;
        if first == skipped {
            values
        } else {
            Queue::new(alloc)
        }
    }
}

/// An entry without a value.
fn no_values(alloc: Global) -> Unread
    ensures { result ≡ none_unread }
{
    Unread {
        skipped: 0,
        values: Queue::new(alloc),
    }
}

/// One entry without a value for each of `channels` channels. `OutOfMemory` where memory ran out.
pub(crate) fn nothing_unread(alloc: Global, channels: u64) -> Result<List<Unread>, OutOfMemory>
    ensures { IfOk result (λ unread. (all : ℕ → Items ℕ) (n : ℕ) → AreUnread all n unread) }
{
    let mut unread = List::with_room(alloc, channels)?;
    for _ in 0..channels {
        unread.push(no_values(alloc))?;
    }
    Ok(unread)
}

/// Takes the unread values of a channel, and leaves none.
fn take_out(alloc: Global, unread: &mut List<Unread>, at: usize) -> Unread
    requires { at < length unread.old }
    ensures out { result ≡ unread_at unread.old at }
    ensures left { unread.new ≡ slice_set unread.old at none_unread }
{
    mem::replace(&mut unread.as_mut_slice()[at], no_values(alloc))
}

/// Takes the unread values of a channel, if they are those that come next after its first `skipped` values; else none. None are
/// left.
pub(crate) fn take_unread(
    alloc: Global,
    unread: &mut List<Unread>,
    channel: u32,
    skipped: u64,
) -> Queue<u64>
    ensures next { (all : Items ℕ) → IsUnread all (unread_at unread.old channel) → Begins (drop skipped all) result }
    ensures left { (all : ℕ → Items ℕ) (n : ℕ) → AreUnread all n unread.old → AreUnread all n unread.new }
{
    let at = channel as usize;
    if at >= unread.as_slice().len() {
        return Queue::new(alloc);
    }
    take_out(alloc, unread, at).values_to_come(alloc, skipped)
}

/// Takes the values of a channel out of a mail.
fn take_values(alloc: Global, values: &mut List<Queue<u64>>, at: usize) -> Queue<u64>
    requires { at < length values.old }
    ensures out { result ≡ slice_index_or values.old at [] }
    ensures left { values.new ≡ slice_set values.old at [] }
{
    mem::replace(&mut values.as_mut_slice()[at], Queue::new(alloc))
}

/// Sets the unread values of a channel, in place of those that it had.
fn put(unread: &mut List<Unread>, at: usize, skipped: u64, values: Queue<u64>)
    ensures { unread.new ≡ slice_set unread.old at (record { skipped = skipped; values = values }) }
{
    if at < unread.as_slice().len() {
        unread.as_mut_slice()[at] = Unread { skipped, values };
    }
}

/// Keeps what a run has left of its mail: for each channel that its module pops the values after those that it popped.
pub(crate) fn keep_unread(
    unread: &mut List<Unread>,
    inlets: &Inlets<'_>,
    run: &ModuleRun,
    mail: &mut Mail,
)
    ensures { (all : ℕ → Items ℕ) (n : ℕ) → AreUnread all n unread.old
        → ((c : ℕ) → c < n → slice_index inlets.now.readers.now c ≡ inlets.now.owner → Begins (drop (popped_in run.now c) (all c))
        (values_on mail.old c)) → AreUnread all n unread.new }
{
    for place in 0..mail.channels.as_slice().len() {
        let channel = mail.channels.as_slice()[place];
        if pops(channel, inlets.readers, inlets.owner) && place < mail.values.as_slice().len() {
            let left = take_values(inlets.alloc, &mut mail.values, place);
            put(unread, channel as usize, run.popped(channel), left);
        }
    }
}

/// Whether the module pops the channel.
pub(crate) fn pops(channel: u32, readers: &[u32], owner: u32) -> bool
    ensures inside { result ≡ true → channel < length readers.now }
    ensures mine { result ≡ true → slice_index readers.now channel ≡ owner }
    ensures other { result ≡ false → channel < length readers.now → slice_index readers.now channel ≢ owner }
{
    readers.get(channel as usize) == Some(&owner)
}
