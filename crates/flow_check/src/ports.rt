//! The ports that a module uses, and when.
ghost use Rattle.std.specs.{Prelude.◌≡◌, Prelude.◌||◌, Prelude.[], Prelude.IfOk, Prelude.OnOk, List.list_any};
ghost use Rattle.flow_check.specs.{Port as PortOf, used_port, is_port, has, has_slot, has_this, HasPorts, HavePorts, first_after, phase};
ghost use Rattle.flow_check.specs.{slot, clashes, is_slot, PortSlot as SlotOf};

use flow_design::{BlockKind, Module, Op, Timed};
use flow_word::{List, OutOfMemory, Port};
use indexmap::IndexSet;
use std::alloc::Global;

/// A port that an operation uses, with the operation's offset; in a loop the offset modulo II.
type PortSlot = (Port, u64);

/// Adds the port that an operation uses, if it uses one.
fn add_port(op: &Op<u32>, ports: &mut IndexSet<Port>) -> Result<(), OutOfMemory>
    ensures { OnOk result ((a : PortOf) → has ports.new a ≡ (has ports.old a || is_port a (used_port op.now))) }
{
    if let Some(port) = op.used_port() {
        ports.insert(port)?;
    }
    Ok(())
}

/// Adds the ports that a body uses.
fn add_ports(ops: &[Timed], ports: &mut IndexSet<Port>) -> Result<(), OutOfMemory>
    ensures { OnOk result ((a : PortOf) → has ports.new a ≡ (has ports.old a || list_any (λ t. is_port a (used_port t.op)) ops.now)) }
{
    for timed in ops {
        add_port(&timed.op, ports)?;
    }
    Ok(())
}

/// The ports that a module uses.
fn ports_of(alloc: Global, of: &Module) -> Result<IndexSet<Port>, OutOfMemory>
    ensures { IfOk result (λ ports. HasPorts ports of.now) }
{
    let mut ports = IndexSet::new(alloc);
    for block in of.blocks.as_slice() {
        add_ports(block.ops.as_slice(), &mut ports)?;
    }
    Ok(ports)
}

/// The ports that each module uses.
pub(crate) fn ports_of_each(
    alloc: Global,
    modules: &[Module],
) -> Result<List<IndexSet<Port>>, OutOfMemory>
    ensures { IfOk result (λ all. HavePorts all modules.now) }
{
    let mut all = List::with_room(alloc, modules.len() as u64)?;
    for of in modules {
        all.push(ports_of(alloc, of)?)?;
    }
    Ok(all)
}

/// The offset of an operation; in a loop the offset modulo II.
fn phase(kind: BlockKind, offset: u64) -> u64
    ensures { result ≡ phase kind offset }
{
    match kind {
        BlockKind::Plain => offset,
        BlockKind::Loop { ii, again: _ } => { if ii == 0 { offset } else { offset % ii } }
    }
}

/// The slot that an operation takes. `None` where it uses no port.
fn slot(kind: BlockKind, timed: &Timed) -> Option<PortSlot>
    ensures { result ≡ slot kind timed.now }
{
    match timed.op.used_port() {
        Some(port) => Some((port, phase(kind, timed.offset))),
        None => None,
    }
}

/// Takes the slot of an operation. Returns whether an earlier operation has taken it.
fn take_slot(
    kind: BlockKind,
    timed: &Timed,
    slots: &mut IndexSet<PortSlot>,
) -> Result<bool, OutOfMemory>
    ensures again { IfOk result (λ again. again ≡ has_this slots.old (slot kind timed.now)) }
    ensures taken { OnOk result ((s : SlotOf) → has_slot slots.new s ≡ (has_slot slots.old s || is_slot s (slot kind timed.now))) }
{
    match slot(kind, timed) {
        Some(own) => {
            let (_, new) = slots.insert_full(own)?;
            Ok(!new)
        }
        None => Ok(false),
    }
}

/// The number of the first operation of a body that takes the slot of an earlier one. `None` where there is none.
pub(crate) fn first_clash(
    alloc: Global,
    kind: BlockKind,
    ops: &[Timed],
) -> Result<Option<u64>, OutOfMemory>
    ensures { IfOk result (λ first. first ≡ first_after (clashes kind) [] ops.now) }
{
    let mut slots = IndexSet::new(alloc);
    for (at, timed) in ops.iter().enumerate() {
        if take_slot(kind, timed, &mut slots)? {
            return Ok(Some(at as u64));
        }
    }
    Ok(None)
}
