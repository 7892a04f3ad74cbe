//! Operations as actions: their expressions are operands, and the places that they write have masks.
ghost use Rattle.std.specs.Prelude.{◌≡◌, List as Items, IfOk, slice_index, map};
ghost use Rattle.module_code.specs.{Channel as ChannelOf, Block as BlockOf, width_of, IsMaskOf, IsActionOf, action_room, takes_reply};
ghost use Rattle.flow_design.specs.declared.design.Module.{Module as ModuleOf};

use crate::operand::{Operand, operand_of};
use crate::target::{Target, mask_of, target_of};
use flow_design::{Block, Channel, Expr, Memory, Module, Op};
use flow_word::OutOfMemory;
use std::alloc::Global;

/// What an operation does. A memory that is stored to and a channel that is pushed come with the mask of their width.
#[derive(Debug)]
pub enum OpCode {
    Set(Target, Operand),
    /// The target of the word, the memory's number, and the address.
    Load(Target, u32, Operand),
    /// The memory's number, its mask, the address, and the value.
    Store(u32, u64, Operand, Operand),
    Read(u32, Target),
    Write(u32, u64, Operand),
    /// The channel, the target of the value, and the target of the outcome.
    TryRead(u32, Target, Target),
    /// The channel, its mask, the target of the outcome, and the value.
    TryWrite(u32, u64, Target, Operand),
    Empty(u32, Target),
    Full(u32, Target),
}

impl Drop for OpCode {
    fn drop(self) {
        match self {
            OpCode::Set(_a, _b) => {}
            OpCode::Load(_a, _b, _c) => {}
            OpCode::Store(_a, _b, _c, _d) => {}
            OpCode::Read(_a, _b) => {}
            OpCode::Write(_a, _b, _c) => {}
            OpCode::TryRead(_a, _b, _c) => {}
            OpCode::TryWrite(_a, _b, _c, _d) => {}
            OpCode::Empty(_a, _b) => {}
            OpCode::Full(_a, _b) => {}
        }
    }
}

/// Compiles an operation of a block into an action.
#[tactic(auto, using(crate::proofs::Acting::the_actions))]
pub(crate) fn action_of(
    alloc: Global,
    channels: &[Channel],
    of: &Module,
    block: &Block,
    op: &Op<u32>,
) -> Result<OpCode, OutOfMemory>
    ensures { IfOk result (λ action. IsActionOf channels.now of.now block.now action op.now) }
{
    match op {
        Op::Set(place, value) => {
            let target = target_of(of, block, *place);
            Ok(OpCode::Set(target, operand_of(alloc, value)?))
        }
        Op::Load {
            target,
            memory,
            address,
        } => load_of(alloc, of, block, *target, *memory, address),
        Op::Store {
            memory,
            address,
            value,
        } => store_of(alloc, of, *memory, address, value),
        Op::Read { channel, target } => Ok(OpCode::Read(*channel, target_of(of, block, *target))),
        Op::Write(channel, value) => write_of(alloc, channels, *channel, value),
        Op::TryRead {
            channel,
            target,
            outcome,
        } => {
            let target = target_of(of, block, *target);
            Ok(OpCode::TryRead(*channel, target, target_of(of, block, *outcome)))
        }
        Op::TryWrite {
            channel,
            outcome,
            value,
        } => {
            let mask = channel_mask(channels, *channel);
            let outcome = target_of(of, block, *outcome);
            Ok(OpCode::TryWrite(*channel, mask, outcome, operand_of(alloc, value)?))
        }
        Op::Empty { channel, target } => Ok(OpCode::Empty(*channel, target_of(of, block, *target))),
        Op::Full { channel, target } => Ok(OpCode::Full(*channel, target_of(of, block, *target))),
    }
}

/// Compiles a `load` of a block.
fn load_of(
    alloc: Global,
    of: &Module,
    block: &Block,
    target: u32,
    memory: u32,
    address: &Expr<u32>,
) -> Result<OpCode, OutOfMemory>
    ensures { (channels : Items ChannelOf)
        → IfOk result (λ action. IsActionOf channels of.now block.now action (Op.Load target memory address.now)) }
{
    let target = target_of(of, block, target);
    Ok(OpCode::Load(target, memory, operand_of(alloc, address)?))
}

/// Compiles a `store` of a module.
fn store_of(
    alloc: Global,
    of: &Module,
    memory: u32,
    address: &Expr<u32>,
    value: &Expr<u32>,
) -> Result<OpCode, OutOfMemory>
    ensures { (channels : Items ChannelOf) (block : BlockOf)
        → IfOk result (λ action. IsActionOf channels of.now block action (Op.Store memory address.now value.now)) }
{
    let mask = memory_mask(of.memories.as_slice(), memory);
    let address = operand_of(alloc, address)?;
    let value = operand_of(alloc, value)?;
    Ok(OpCode::Store(memory, mask, address, value))
}

/// Compiles a `write`.
fn write_of(
    alloc: Global,
    channels: &[Channel],
    channel: u32,
    value: &Expr<u32>,
) -> Result<OpCode, OutOfMemory>
    ensures { (of : ModuleOf) (block : BlockOf)
        → IfOk result (λ action. IsActionOf channels.now of block action (Op.Write channel value.now)) }
{
    let mask = channel_mask(channels, channel);
    Ok(OpCode::Write(channel, mask, operand_of(alloc, value)?))
}

/// The mask of a channel's width.
fn channel_mask(channels: &[Channel], number: u32) -> u64
    ensures { IsMaskOf (width_of channels.now number) result }
{
    match channels.get(number as usize) {
        Some(channel) => mask_of(channel.width),
        None => 1,
    }
}

/// The mask of a memory's width, or 0 where there is no such memory.
fn memory_mask(memories: &[Memory], number: u32) -> u64
    ensures { IsMaskOf (slice_index (map (λ memory. memory.width) memories.now) number) result }
{
    match memories.get(number as usize) {
        Some(memory) => mask_of(memory.width),
        None => 0,
    }
}

impl OpCode {
    /// How many words of `scratch` the action needs for the results of its instructions.
    pub(crate) fn room(&self) -> u64
        ensures { result ≡ action_room self.now }
    {
        match self {
            OpCode::Set(_, value) | OpCode::Load(_, _, value) => value.room(),
            OpCode::Write(_, _, value) | OpCode::TryWrite(_, _, _, value) => value.room(),
            OpCode::Store(_, _, address, value) => address.room().max(value.room()),
            OpCode::Read(_, _) | OpCode::TryRead(_, _, _) => 0,
            OpCode::Empty(_, _) | OpCode::Full(_, _) => 0,
        }
    }

    /// Whether the action is that of a FIFO operation, which takes a reply.
    #[inline(always)]
    pub fn takes_reply(&self) -> bool
        ensures { result ≡ takes_reply self.now }
    {
        match self {
            OpCode::Set(_, _) | OpCode::Load(_, _, _) | OpCode::Store(_, _, _, _) => false,
            OpCode::Read(_, _) | OpCode::Write(_, _, _) | OpCode::TryRead(_, _, _) => true,
            OpCode::TryWrite(_, _, _, _) | OpCode::Empty(_, _) | OpCode::Full(_, _) => true,
        }
    }
}
