//! The mail of a run: what its next steps find.
ghost use Rattle.std.specs.Prelude.{◌≡◌, ℕ, ◌+◌, ◌-◌, ◌<◌, [], length, map, take, drop, List as Items, IfOk, OnOk};
ghost use Rattle.sim_core.specs.{Begins, log_at, popped_in, values_at, mailed, IsMade, unread_at, IsUnread, AreUnread};

use crate::unread::{Inlets, Unread, pops, take_unread};
use engine_view::{Engine, count_queries};
use fifo_table::FifoTable;
use flow_word::{Access, Flags, List, OutOfMemory, Queue};
use module_interp::ModuleRun;
use query_log::QueryLog;
use run_ahead::Mail;
use std::alloc::Global;

/// Reads `count` of a module's outcomes, from number `first` on, as far as they are there.
pub(crate) fn read_outcomes(
    log: &QueryLog,
    owner: u32,
    first: u64,
    count: u64,
    outcomes: &mut Flags,
) -> Result<(), OutOfMemory>
    requires owner { owner < length log.now.logs }
    requires none { outcomes.old ≡ [] }
    ensures { OnOk result (outcomes.new ≡ take count (drop first (log_at log.now.logs owner).outcomes)) }
{
    for at in 0..count {
        let Some(number) = first.checked_add(at) else {
            return Err(OutOfMemory);
        };
        let Some(yes) = log.outcome(owner, number) else {
            return Ok(());
        };
        outcomes.push(yes)?;
    }
    Ok(())
}

/// Adds the values of a channel after its first `first` values. Those that the queue has already are not read again.
fn read_values(
    fifos: &FifoTable,
    channel: u32,
    first: u64,
    values: &mut Queue<u64>,
) -> Result<(), OutOfMemory>
    requires channel { channel < length fifos.now.channels }
    requires begins { Begins (drop first (values_at fifos.now.channels channel)) values.old }
    ensures { OnOk result (values.new ≡ drop first (values_at fifos.now.channels channel)) }
{
    let Some(mut at) = first.checked_add(values.len()) else {
        return Err(OutOfMemory);
    };
    while at < u64::MAX {
        let Some(word) = fifos.value(channel, at + 1) else {
            return Ok(());
        };
        values.push(word)?;
        at += 1;
    }
    Err(OutOfMemory)
}

/// The values of a channel that a module's next pops find, after so many. Those that came back unread are not copied again.
fn read_channel(
    alloc: Global,
    fifos: &FifoTable,
    unread: &mut List<Unread>,
    channel: u32,
    first: u64,
) -> Result<Queue<u64>, OutOfMemory>
    requires channel { channel < length fifos.now.channels }
    requires unread { IsUnread (values_at fifos.now.channels channel) (unread_at unread.old channel) }
    ensures values { IfOk result (λ values. values ≡ drop first (values_at fifos.now.channels channel)) }
    ensures left { (all : ℕ → Items ℕ) (n : ℕ) → AreUnread all n unread.old → AreUnread all n unread.new }
{
    let mut values = take_unread(alloc, unread, channel, first);
    read_values(fifos, channel, first, &mut values)?;
    Ok(values)
}

/// The values of a channel that a module's next pops find, after those that its run popped; none where another module pops it.
fn read_inlet(
    fifos: &FifoTable,
    unread: &mut List<Unread>,
    inlets: &Inlets<'_>,
    run: &ModuleRun,
    channel: u32,
) -> Result<Queue<u64>, OutOfMemory>
    requires readers { length inlets.now.readers.now ≡ length fifos.now.channels }
    requires unread { AreUnread (values_at fifos.now.channels) (length fifos.now.channels) unread.old }
    ensures values { IfOk result (λ values. values
        ≡ mailed fifos.now.channels inlets.now.readers.now inlets.now.owner (popped_in run.now) channel) }
    ensures left { (all : ℕ → Items ℕ) (n : ℕ) → AreUnread all n unread.old → AreUnread all n unread.new }
{
    if !pops(channel, inlets.readers, inlets.owner) {
        return Ok(Queue::new(inlets.alloc));
    }
    read_channel(inlets.alloc, fifos, unread, channel, run.popped(channel))
}

/// Reads the values of some channels that a module's next pops find, after those that its run popped, into an empty list.
pub(crate) fn read_all(
    fifos: &FifoTable,
    unread: &mut List<Unread>,
    inlets: &Inlets<'_>,
    run: &ModuleRun,
    channels: &[u32],
    values: &mut List<Queue<u64>>,
) -> Result<(), OutOfMemory>
    requires readers { length inlets.now.readers.now ≡ length fifos.now.channels }
    requires unread { AreUnread (values_at fifos.now.channels) (length fifos.now.channels) unread.old }
    requires none { values.old ≡ [] }
    ensures read { OnOk result (values.new
        ≡ map (mailed fifos.now.channels inlets.now.readers.now inlets.now.owner (popped_in run.now)) channels.now) }
    ensures left { (all : ℕ → Items ℕ) (n : ℕ) → AreUnread all n unread.old → AreUnread all n unread.new }
{
    for channel in channels {
        values.push(read_inlet(fifos, unread, inlets, run, *channel)?)?;
    }
    Ok(())
}

/// What a run needs in its mail.
#[derive(Drop)]
pub(crate) struct Wants<'a> {
    /// The run, which tells how many pops it made of each channel.
    pub(crate) run: &'a ModuleRun,
    /// How many queries the run made.
    pub(crate) first: u64,
    /// The accesses whose replies the run waits for.
    pub(crate) accesses: &'a [Access],
}

/// The mail of a module's run: all that it wants, as far as it is there. It is made of one that is no longer needed.
pub(crate) fn make_mail(
    engine: &Engine,
    unread: &mut List<Unread>,
    inlets: &Inlets<'_>,
    wants: &Wants<'_>,
    spare: Mail,
) -> Result<Mail, OutOfMemory>
    requires owner { inlets.now.owner < length engine.now.log.logs }
    requires readers { length inlets.now.readers.now ≡ length engine.now.fifos.channels }
    requires unread { AreUnread (values_at engine.now.fifos.channels) (length engine.now.fifos.channels) unread.old }
    ensures made { IfOk result (λ mail. IsMade (log_at engine.now.log.logs inlets.now.owner).outcomes engine.now.fifos.channels
        inlets.now.readers.now inlets.now.owner wants.now.first wants.now.run.now wants.now.accesses.now mail) }
    ensures left { (all : ℕ → Items ℕ) (n : ℕ) → AreUnread all n unread.old → AreUnread all n unread.new }
{
    let mut mail = spare;
    mail.outcomes.truncate(0);
    mail.values.truncate(0);
    let count = count_queries(wants.accesses);
    read_outcomes(
        &engine.log,
        inlets.owner,
        wants.first,
        count,
        &mut mail.outcomes,
    )?;
    mail.channels.copy_from(wants.run.inlets())?;
    read_all(
        &engine.fifos,
        unread,
        inlets,
        wants.run,
        mail.channels.as_slice(),
        &mut mail.values,
    )?;
    Ok(mail)
}
