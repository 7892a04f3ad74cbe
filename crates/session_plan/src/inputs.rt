//! The inputs of the channels.
ghost use Rattle.std.specs.Prelude.{◌≡◌, ℕ, ◌<◌, ◌++◌, [], length, map, replicate, slice_index_or, IfOk, OnOk};
ghost use Rattle.std.specs.List.{enumerate_from};
ghost use Rattle.session_plan.specs.{no_channel, cut_to, values_for, cut_inputs, inputs_for};

use crate::names::DeclaredNames;
use flow_design::{Channel, ChannelKind, Statement};
use flow_word::{List, OutOfMemory, Width, Words, cut};
use std::alloc::Global;

/// Adds values to a list, each cut to the width.
fn push_cut(width: Width, values: &[u64], out: &mut Words) -> Result<(), OutOfMemory>
    ensures { OnOk result (out.new ≡ out.old ++ map (cut_to width) values.now) }
{
    for value in values {
        out.push(cut(*value, width))?;
    }
    Ok(())
}

/// Adds values to a channel's inputs, each cut to its width. Only a source takes any.
fn give(channel: &Channel, values: &[u64], out: &mut Words) -> Result<(), OutOfMemory>
    ensures { OnOk result (out.new ≡ out.old ++ cut_inputs channel.now.kind channel.now.width values.now) }
{
    match channel.kind {
        ChannelKind::Source => push_cut(channel.width, values, out),
        ChannelKind::Sink | ChannelKind::Fifo { .. } => Ok(()),
    }
}

/// Adds the values of a statement, if it is an `input`, to those of its channel.
fn add_values(
    names: &DeclaredNames,
    channels: &[Channel],
    statement: &Statement,
    inputs: &mut List<Words>,
) -> Result<(), OutOfMemory>
    requires { length inputs.old ≡ length channels.now }
    ensures long { OnOk result (length inputs.new ≡ length inputs.old) }
    ensures given { OnOk result ((f : ℕ) → f < length channels.now → slice_index_or inputs.new f []
        ≡ slice_index_or inputs.old f [] ++ cut_inputs (slice_index_or channels.now f no_channel).kind
        (slice_index_or channels.now f no_channel).width (values_for names.now f statement.now)) }
{
    if let Statement::Input(name, values) = statement {
        let number = names.number(name.bytes()) as usize;
        if number < channels.len() {
            let own = &mut inputs.as_mut_slice()[number];
            give(&channels[number], values.as_slice(), own)?;
        }
    }
    Ok(())
}

/// A list of `count` empty lists.
fn no_inputs(alloc: Global, count: u64) -> Result<List<Words>, OutOfMemory>
    ensures { IfOk result (λ inputs. inputs ≡ replicate count []) }
{
    let mut inputs = List::with_room(alloc, count)?;
    for _ in 0..count {
        inputs.push(Words::new(alloc))?;
    }
    Ok(inputs)
}

/// The inputs of all channels.
pub(crate) fn inputs_in(
    alloc: Global,
    names: &DeclaredNames,
    channels: &[Channel],
    statements: &[Statement],
) -> Result<List<Words>, OutOfMemory>
    ensures { IfOk result (λ inputs. inputs ≡ map (inputs_for names.now statements.now) (enumerate_from 0 channels.now)) }
{
    let mut inputs = no_inputs(alloc, channels.len() as u64)?;
    for statement in statements {
        add_values(names, channels, statement, &mut inputs)?;
    }
    Ok(inputs)
}
