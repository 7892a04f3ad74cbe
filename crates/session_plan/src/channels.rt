//! Channels with their inputs and depths, limits and edits.
ghost use Rattle.std.specs.{Prelude.◌≡◌, Prelude.◌≤◌, Prelude.◌^◌, Prelude.map, Prelude.length, Prelude.IfOk, List.filter_map};
ghost use Rattle.session_plan.specs.{channel, channel_names, channels_of, depth_in, session_limits, edit};

use crate::defaults;
use crate::names::DeclaredNames;
use flow_design::limits::Scale;
use flow_design::{Channel, ChannelKind, Edit, Statement};
use flow_word::{List, OutOfMemory, TryCopy, Words};
use std::alloc::Global;

/// The channel that a statement declares. `None` where it declares none.
fn channel(alloc: Global, statement: &Statement) -> Result<Option<Channel>, OutOfMemory>
    ensures { IfOk result (λ c. c ≡ channel statement.now) }
{
    let (name, width, kind) = match statement {
        Statement::Source(name, width) => (name, *width, ChannelKind::Source),
        Statement::Sink(name, width) => (name, *width, ChannelKind::Sink),
        Statement::Fifo {
            name,
            width,
            depth,
            delay,
        } => {
            (
                name,
                *width,
                ChannelKind::Fifo {
                    depth: *depth,
                    delay: *delay,
                },
            )
        }
        _ => return Ok(None),
    };
    Ok(Some(Channel {
        name: name.try_copy(alloc)?,
        width,
        kind,
    }))
}

/// The channels of a session, given their names. There are at most 2^30, so that their numbers fit 32 bits.
pub(crate) fn channels_of(
    alloc: Global,
    names: &DeclaredNames,
    statements: &[Statement],
) -> Result<List<Channel>, OutOfMemory>
    requires { names.now ≡ channel_names statements.now }
    ensures channels { IfOk result (λ channels. channels ≡ channels_of statements.now) }
    ensures few { IfOk result (λ channels. length channels ≤ 2 ^ 30) }
{
    let mut channels = List::with_room(alloc, names.len() as u64)?;
    for statement in statements {
        if let Some(found) = channel(alloc, statement)? {
            channels.push(found)?;
        }
    }
    Ok(channels)
}

/// The declared depth of a FIFO, or 0 for any other channel.
fn depth_in(kind: ChannelKind) -> u64
    ensures { result ≡ depth_in kind }
{
    match kind {
        ChannelKind::Source | ChannelKind::Sink => 0,
        ChannelKind::Fifo { depth, .. } => depth,
    }
}

/// The declared depth of each channel, which is 0 where it is no FIFO.
pub(crate) fn depths_of(alloc: Global, channels: &[Channel]) -> Result<Words, OutOfMemory>
    ensures { IfOk result (λ depths. depths ≡ map (λ c. depth_in c.kind) channels.now) }
{
    let mut depths = Words::with_room(alloc, channels.len() as u64)?;
    for channel in channels {
        depths.push(depth_in(channel.kind))?;
    }
    Ok(depths)
}

/// The cycle limit of a session, in clocks, and the operation limit of each module.
pub(crate) fn limits_of(scale: Scale, statements: &[Statement]) -> (u64, u64)
    ensures { result ≡ session_limits scale statements.now }
{
    for statement in statements {
        if let Statement::Limits { cycles, ops } = statement {
            return (*cycles, *ops);
        }
    }
    (defaults::CYCLES, scale.limits().default_operations)
}

/// The edits of a session.
pub(crate) fn edits_of(
    alloc: Global,
    channels: &DeclaredNames,
    statements: &[Statement],
) -> Result<List<Edit>, OutOfMemory>
    ensures { IfOk result (λ edits. edits ≡ filter_map (edit channels.now) statements.now) }
{
    let mut edits = List::new(alloc);
    for statement in statements {
        if let Statement::Depth(name, depth) = statement {
            edits.push(Edit {
                channel: channels.number(name.bytes()),
                depth: *depth,
            })?;
        }
    }
    Ok(edits)
}
