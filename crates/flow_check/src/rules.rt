//! The rules of checking, each tested on a whole plan.
ghost use Rattle.std.specs.Prelude.{◌≡◌, ◌<◌, ◌≤◌, ◌^◌, List as Items, length, if◌then◌else◌, option_map, IfOk};
ghost use Rattle.std.specs.List.{enumerate_from};
ghost use Rattle.flow_design.specs.declared.design.Module.{Module as ModuleOf};
ghost use Rattle.flow_check.specs.{users_wanted, first_in, first_for, place_where, has, HasPorts, HavePorts, AreUserCounts, leads_out};
ghost use Rattle.flow_check.specs.{breaks_limits, has_users, is_served, lacks_users, is_bad_loop, is_too_late, is_on_wrong_side, spot};
ghost use Rattle.flow_check.specs.{spot_in, in_module, broken_by, rules, checking_fault};
ghost use Rattle.flow_word.specs.declared.access.Side.TheVariants.{Pop, Push};

use crate::item::{Item, Spot};
use crate::ports::{first_clash, ports_of_each};
use crate::users::count_users;
use flow_design::limits::{self, Scale};
use flow_design::{Block, BlockKind, Channel, ChannelKind, Module, Next, Plan, Timed};
use flow_grammar::Code;
use flow_word::{OutOfMemory, Port, Side};
use indexmap::IndexSet;
use std::alloc::Global;

/// Whether a terminator names a block that its module does not have.
fn leads_out(blocks: u64, next: Next) -> bool
    ensures { result ≡ leads_out blocks next }
{
    match next {
        Next::Goto(to) => to as u64 >= blocks,
        Next::Branch { first, second, .. } => first as u64 >= blocks || second as u64 >= blocks,
        Next::Stop => false,
    }
}

/// Whether a limit of a plan is out of its range.
fn breaks_limits(scale: Scale, cycles: u64, ops: u64) -> bool
    ensures { result ≡ breaks_limits scale cycles ops }
{
    cycles < 1 || cycles > limits::CYCLES || ops < 1 || ops > scale.limits().counted_operations
}

/// Whether a loop's LEN is less than its II, or so much more that too many iterations are live at once.
fn is_bad_loop(scale: Scale, len: u64, kind: BlockKind) -> bool
    ensures { result ≡ is_bad_loop scale len kind }
{
    match kind {
        BlockKind::Plain => false,
        BlockKind::Loop { ii, again: _ } => {
            len < ii || len.div_ceil(scale.limits().live_iterations) > ii
        }
    }
}

/// Whether an operation is at a port that its module does not use.
fn is_on_wrong_side(of: &Module, ports: &IndexSet<Port>, timed: &Timed) -> bool
    requires { HasPorts ports.now of.now }
    ensures { result ≡ is_on_wrong_side of.now timed.now }
{
    match timed.op.port() {
        Some(port) => !has(ports, port),
        None => false,
    }
}

/// The number of the first operation at a port that its module does not use. `None` where there is none.
fn first_on_wrong_side(of: &Module, ports: &IndexSet<Port>, ops: &[Timed]) -> Option<u64>
    requires { HasPorts ports.now of.now }
    ensures { result ≡ place_where (is_on_wrong_side of.now) ops.now }
{
    for (at, timed) in ops.iter().enumerate() {
        if is_on_wrong_side(of, ports, timed) {
            return Some(at as u64);
        }
    }
    None
}

/// The number of the first operation whose offset is not below the block's LEN. `None` where there is none.
fn first_too_late(len: u64, ops: &[Timed]) -> Option<u64>
    ensures { result ≡ place_where (is_too_late len) ops.now }
{
    for (at, timed) in ops.iter().enumerate() {
        if timed.offset >= len {
            return Some(at as u64);
        }
    }
    None
}

/// The first spot of a block that breaks this rule. `None` where none does.
fn spot(
    alloc: Global,
    scale: Scale,
    rule: Code,
    of: &Module,
    ports: &IndexSet<Port>,
    block: &Block,
) -> Result<Option<Spot>, OutOfMemory>
    requires { HasPorts ports.now of.now }
    ensures { IfOk result (λ s. s ≡ spot scale rule of.now block.now) }
{
    let ops = block.ops.as_slice();
    let operation = match rule {
        Code::UnknownName => {
            return Ok(when(leads_out(of.blocks.len(), block.next), Spot::Terminator));
        }
        Code::BadLoop => return Ok(when(is_bad_loop(scale, block.len, block.kind), Spot::Head)),
        Code::PortClash => first_clash(alloc, block.kind, ops)?,
        Code::BadOffset => first_too_late(block.len, ops),
        Code::WrongSide => first_on_wrong_side(of, ports, ops),
        _ => None,
    };
    Ok(match operation {
        Some(number) => Some(Spot::Operation(number)),
        None => None,
    })
}

/// The spot if the condition holds, else `None`.
fn when(holds: bool, spot: Spot) -> Option<Spot>
    ensures { result ≡ (if holds then Some spot else None) }
{
    if holds { Some(spot) } else { None }
}

/// The first spot of a module that breaks this rule, with its block's number. `None` where none does.
fn spot_in(
    alloc: Global,
    scale: Scale,
    rule: Code,
    of: &Module,
    ports: &IndexSet<Port>,
) -> Result<Option<(u64, Spot)>, OutOfMemory>
    requires { HasPorts ports.now of.now }
    ensures { IfOk result (λ s. s ≡ spot_in scale rule of.now) }
{
    for (at, block) in of.blocks.as_slice().iter().enumerate() {
        if let Some(found) = spot(alloc, scale, rule, of, ports, block)? {
            return Ok(Some((at as u64, found)));
        }
    }
    Ok(None)
}

/// The first spot of the modules that breaks this rule, as an item. `None` where none does.
#[tactic(auto, using(crate::proofs::Slots::long, crate::proofs::Slots::at_place))]
fn item_in(
    alloc: Global,
    scale: Scale,
    rule: Code,
    modules: &[Module],
    all: &[IndexSet<Port>],
) -> Result<Option<Item>, OutOfMemory>
    requires { HavePorts all.now modules.now }
    ensures { IfOk result (λ i. i ≡ option_map in_module (first_in (spot_in scale rule) modules.now)) }
{
    for (at, of) in modules.iter().enumerate() {
        if let Some((block, found)) = spot_in(alloc, scale, rule, of, &all[at])? {
            return Ok(Some(Item::InModule(at as u64, (block, found))));
        }
    }
    Ok(None)
}

/// Whether a set of ports has this port.
fn has(ports: &IndexSet<Port>, port: Port) -> bool
    ensures { result ≡ has ports.now port }
{
    ports.contains(&port)
}

/// How many modules must pop, or push, a channel of this kind.
fn users_wanted(kind: ChannelKind, side: Side) -> u64
    ensures { result ≡ users_wanted kind side }
{
    match (kind, side) {
        (ChannelKind::Source, Side::Push) | (ChannelKind::Sink, Side::Pop) => 0,
        _ => 1,
    }
}

/// Whether a channel has as many users at a side as its kind must have. `users` has the number of users of each channel.
fn has_users(users: &[u8], channel: u32, kind: ChannelKind, side: Side) -> bool
    requires { channel < length users.now }
    ensures { (modules : Items ModuleOf) → AreUserCounts modules side users.now → result ≡ has_users modules channel kind side }
{
    users[channel as usize] as u64 == users_wanted(kind, side)
}

/// Whether a channel has the readers and writers that its kind must have.
fn is_served(readers: &[u8], writers: &[u8], channel: u32, kind: ChannelKind) -> bool
    requires popped { channel < length readers.now }
    requires pushed { channel < length writers.now }
    ensures { (modules : Items ModuleOf) → AreUserCounts modules Pop readers.now → AreUserCounts modules Push writers.now
        → result ≡ is_served modules channel kind }
{
    let popped = has_users(readers, channel, kind, Side::Pop);
    let pushed = has_users(writers, channel, kind, Side::Push);
    popped && pushed
}

/// The number of the first channel that does not have the readers and writers that it must have. `None` where there is none.
fn first_unserved(readers: &[u8], writers: &[u8], channels: &[Channel]) -> Option<u64>
    requires few { length channels.now ≤ 2 ^ 30 }
    requires popped { length readers.now ≡ length channels.now }
    requires pushed { length writers.now ≡ length channels.now }
    ensures { (modules : Items ModuleOf) → AreUserCounts modules Pop readers.now → AreUserCounts modules Push writers.now
        → result ≡ place_where (lacks_users modules) (enumerate_from 0 channels.now) }
{
    for (at, channel) in channels.iter().enumerate() {
        if !is_served(readers, writers, at as u32, channel.kind) {
            return Some(at as u64);
        }
    }
    None
}

/// The number of the first channel that does not have the readers and writers that it must have, given the ports that each module
/// uses. `None` where there is none.
fn first_lacking(
    alloc: Global,
    all: &[IndexSet<Port>],
    channels: &[Channel],
) -> Result<Option<u64>, OutOfMemory>
    requires { length channels.now ≤ 2 ^ 30 }
    ensures { (modules : Items ModuleOf) → HavePorts all.now modules
        → IfOk result (λ first. first ≡ place_where (lacks_users modules) (enumerate_from 0 channels.now)) }
{
    let readers = count_users(alloc, all, Side::Pop, channels.len())?;
    let writers = count_users(alloc, all, Side::Push, channels.len())?;
    Ok(first_unserved(readers.as_slice(), writers.as_slice(), channels))
}

/// The first item of a plan that breaks this rule. `None` where none does.
fn broken_by(
    alloc: Global,
    scale: Scale,
    plan: &Plan,
    all: &[IndexSet<Port>],
    rule: Code,
) -> Result<Option<Item>, OutOfMemory>
    requires ports { HavePorts all.now plan.now.design.modules }
    requires few { length plan.now.design.channels ≤ 2 ^ 30 }
    ensures { IfOk result (λ i. i ≡ broken_by scale plan.now rule) }
{
    match rule {
        Code::BadLimit => Ok(if breaks_limits(scale, plan.cycles, plan.ops) {
            Some(Item::Limits)
        } else {
            None
        }),
        Code::Ends => Ok(
            match first_lacking(alloc, all, plan.design.channels.as_slice())? {
                Some(number) => Some(Item::Channel(number)),
                None => None,
            },
        ),
        _ => item_in(alloc, scale, rule, plan.design.modules.as_slice(), all),
    }
}

/// The first of these rules that a plan breaks, and the first item that breaks it. `None` where it breaks none.
fn first_broken(
    alloc: Global,
    scale: Scale,
    plan: &Plan,
    all: &[IndexSet<Port>],
    rules: &[Code],
) -> Result<Option<(Code, Item)>, OutOfMemory>
    requires ports { HavePorts all.now plan.now.design.modules }
    requires few { length plan.now.design.channels ≤ 2 ^ 30 }
    ensures { IfOk result (λ fault. fault ≡ first_for (broken_by scale plan.now) rules.now) }
{
    for rule in rules {
        if let Some(item) = broken_by(alloc, scale, plan, all, *rule)? {
            return Ok(Some((*rule, item)));
        }
    }
    Ok(None)
}

/// The first rule of checking that a plan breaks, and the first item that breaks it. `None` where it breaks none.
#[tactic(auto, unfolding(crate::specs::Rules::checking_fault))]
pub(crate) fn checking_fault(
    alloc: Global,
    scale: Scale,
    plan: &Plan,
) -> Result<Option<(Code, Item)>, OutOfMemory>
    requires { length plan.now.design.channels ≤ 2 ^ 30 }
    ensures { IfOk result (λ fault. fault ≡ checking_fault scale plan.now) }
{
    let all = ports_of_each(alloc, plan.design.modules.as_slice())?;
    let rules = [
        Code::UnknownName,
        Code::BadLimit,
        Code::Ends,
        Code::PortClash,
        Code::BadLoop,
        Code::BadOffset,
        Code::WrongSide,
    ];
    first_broken(alloc, scale, plan, all.as_slice(), &rules)
}
