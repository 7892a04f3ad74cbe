//! Checks the rules of serial modules on one module.
ghost use Rattle.std.specs.{Prelude.◌≡◌, Prelude.◌<◌, Prelude.◌^◌, Prelude.length, Prelude.All, List.enumerate_from, List.flat_map};
ghost use Rattle.serial_order.specs.{IsModuleSound, head, query_orders, faults_by, faults_of, all_faults, order_of, DesignHasModule};
ghost use Rattle.serial_order.specs.{EqualsPlainLoops};

use crate::order::Order;
use crate::rules::{first_late, first_query, first_wide};
use flow_design::{Block, BlockKind, Design, Module, Timed};

/// The first query operation in the blocks of a module, in text order. `None` where the module has no query.
fn query_of(blocks: &[Block]) -> Option<Order>
    requires blocks { length blocks.now < 2 ^ 32 }
    requires operations { All (λ b. length b.ops < 2 ^ 32) blocks.now }
    ensures { result ≡ head (flat_map query_orders (enumerate_from 0 blocks.now)) }
{
    for (number, block) in blocks.iter().enumerate() {
        if let Some(operation) = first_query(block.ops.as_slice()) {
            return Some(Order::Query {
                block: number as u32,
                operation,
            });
        }
    }
    None
}

/// The first breach of the rules of loops in the operations of one loop. `None` where the loop keeps them.
#[tactic(auto, using(crate::proofs::Heads::loop_late, crate::proofs::Heads::loop_wide))]
fn loop_fault(
    channels: u32,
    module: &Module,
    number: u32,
    ops: &[Timed],
    ii: u64,
    again: u32,
) -> Option<Order>
    requires sound { IsModuleSound channels «module».now }
    requires operations { length ops.now < 2 ^ 32 }
    ensures { result ≡ head (faults_by channels «module».now number ops.now (BlockKind.Loop ii again)) }
{
    if let Some(operation) = first_late(ops, ii, again) {
        return Some(Order::Late {
            block: number,
            operation,
        });
    }
    let registers = module.registers.len() as u32;
    let memories = module.memories.len() as u32;
    match first_wide(ops, ii, registers, memories, channels) {
        Some(used) => Some(Order::Wide {
            block: number,
            used,
        }),
        None => None,
    }
}

/// The first breach of the rules of loops in a block. `None` where the block keeps them, as every block does that is no loop.
fn fault_of(channels: u32, module: &Module, number: u32, block: &Block) -> Option<Order>
    requires sound { IsModuleSound channels «module».now }
    requires operations { length block.now.ops < 2 ^ 32 }
    ensures { result ≡ head (faults_of channels «module».now (number, block.now)) }
{
    let ops = block.ops.as_slice();
    match block.kind {
        BlockKind::Plain => None,
        BlockKind::Loop { ii, again } => loop_fault(channels, module, number, ops, ii, again),
    }
}

/// The first breach of the rules of loops in a module, block by block. `None` where all its loops keep them.
fn fault_in(channels: u32, module: &Module) -> Option<Order>
    requires { IsModuleSound channels «module».now }
    ensures { result ≡ head (flat_map (faults_of channels «module».now) (enumerate_from 0 «module».now.blocks)) }
{
    for (number, block) in module.blocks.as_slice().iter().enumerate() {
        if let Some(fault) = fault_of(channels, module, number as u32, block) {
            return Some(fault);
        }
    }
    None
}

/// The first breach of the rules of serial modules in a module: a query first, then the rules of loops. `None` where it is serial.
fn first_fault(channels: u32, module: &Module) -> Option<Order>
    requires { IsModuleSound channels «module».now }
    ensures { result ≡ head (all_faults channels «module».now) }
{
    match query_of(module.blocks.as_slice()) {
        Some(query) => Some(query),
        None => fault_in(channels, module),
    }
}

/// Whether a module is serial, or else the first rule that it breaks. It takes no memory.
///
/// A module is serial where it keeps three rules. It has no query operation. In each of its loops, no operation with an offset of
/// II or more writes the loop's register. And in each of its loops, for everything that is used, the last offset of use minus the
/// first is less than II; or it equals II, and no operation at the last offset writes the thing. Temps are not counted.
///
/// A serial module does what it would do with the iterations of its loops one after another.
pub fn check_order(design: &Design, module: u32) -> Order
    requires { DesignHasModule design.now «module» }
    ensures order { result ≡ order_of design.now «module» }
    ensures serial { result ≡ Order.Serial → EqualsPlainLoops design.now «module» }
{
    let channels = design.channels.len() as u32;
    let module = &design.modules.as_slice()[module as usize];
    first_fault(channels, module).unwrap_or(Order::Serial)
}
