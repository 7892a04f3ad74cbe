//! The code of a module's blocks.
ghost use Rattle.std.specs.Prelude.{All, IfOk};
ghost use Rattle.module_code.specs.{KeepsLimits, AreCodesOf, IsBlockCodeOf};

use crate::action::{OpCode, action_of};
use block_schedule::{Schedule, Slot};
use flow_design::{Block, Channel, Module};
use flow_word::{List, OutOfMemory};
use std::alloc::Global;

/// An operation as a machine runs it: an action, which is done where there is no guard or the guard is not 0.
#[derive(Debug)]
pub struct Guarded {
    /// Where the operation stands in the block's schedule, with its number.
    pub slot: Slot,
    pub guard: Option<u32>,
    pub action: OpCode,
}

impl Drop for Guarded {
    fn drop(self) {
        let Guarded {
            slot: _slot,
            guard: _guard,
            action: _action,
        } = self;
    }
}

/// A block as a machine runs it: when its operations are due, and what each does.
#[derive(Debug)]
pub struct BlockCode {
    pub schedule: Schedule,
    /// The operations, in the order of the schedule's slots.
    pub actions: List<Guarded>,
    /// How many instructions the longest expression of the block has, and so how many words of `scratch` their results need.
    pub room: u64,
}

impl Drop for BlockCode {
    fn drop(self) {
        let BlockCode {
            schedule: _schedule,
            actions: _actions,
            room: _room,
        } = self;
    }
}

/// The code of each block of a module over these channels. Each block must keep the limits that a schedule needs. `OutOfMemory` where
/// memory ran out.
pub fn codes_of(
    alloc: Global,
    channels: &[Channel],
    of: &Module,
) -> Result<List<BlockCode>, OutOfMemory>
    requires { All KeepsLimits of.now.blocks }
    ensures { IfOk result (AreCodesOf channels.now of.now) }
{
    let blocks = of.blocks.as_slice();
    let mut codes = List::with_room(alloc, blocks.len() as u64)?;
    for block in blocks {
        codes.push(code_of(alloc, channels, of, block)?)?;
    }
    Ok(codes)
}

/// The code of a block.
fn code_of(
    alloc: Global,
    channels: &[Channel],
    of: &Module,
    block: &Block,
) -> Result<BlockCode, OutOfMemory>
    requires { KeepsLimits block.now }
    ensures { IfOk result (IsBlockCodeOf channels.now of.now block.now) }
{
    let schedule = Schedule::new(alloc, block)?;
    let mut actions = List::with_room(alloc, block.ops.len())?;
    let mut room = 0u64;
    for slot in schedule.slots() {
        let timed = &block.ops.as_slice()[slot.op as usize];
        let action = action_of(alloc, channels, of, block, &timed.op)?;
        room = room.max(action.room());
        actions.push(Guarded {
            slot: *slot,
            guard: timed.guard,
            action,
        })?;
    }
    Ok(BlockCode {
        schedule,
        actions,
        room,
    })
}
