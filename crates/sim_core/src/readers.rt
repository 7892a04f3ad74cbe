//! Which module pops, or pushes, each channel.
ghost use Rattle.std.specs.{Prelude.◌<◌, Prelude.nat_eq, Prelude.IfOk, List.list_any};
ghost use Rattle.sim_core.specs.{used_port, port_at, uses, is_port, FitsEngine, AreNoted, AreUsers};

use flow_design::{Module, Op, Plan, Timed};
use flow_word::{OutOfMemory, Side};
use std::alloc::Global;

/// Notes a module at a channel, unless a module is noted there.
fn note(channel: u32, none: u32, owner: u32, users: &mut [u32])
    ensures { AreNoted none owner (λ c. nat_eq c channel) users.old users.new }
{
    let at = channel as usize;
    if at < users.len() && users[at] == none {
        users[at] = owner;
    }
}

/// Notes a module at the channel that its operation pops, or pushes, unless a module is noted there.
fn note_op(op: &Op<u32>, side: Side, none: u32, owner: u32, users: &mut [u32])
    ensures { AreNoted none owner (λ c. is_port (port_at side c) (used_port op.now)) users.old users.new }
{
    match op.used_port() {
        Some(port) if port.side == side => note(port.channel, none, owner, users),
        Some(_) | None => {}
    }
}

/// Notes a module at the channels that one of its bodies pops, or pushes, unless a module is noted there.
fn note_ops(ops: &[Timed], side: Side, none: u32, owner: u32, users: &mut [u32])
    requires { owner < none }
    ensures { AreNoted none owner (λ c. list_any (λ t. is_port (port_at side c) (used_port t.op)) ops.now) users.old users.new }
{
    for timed in ops {
        note_op(&timed.op, side, none, owner, users);
    }
}

/// Notes a module at the channels that it pops, or pushes, unless a module is noted there.
fn note_module(of: &Module, side: Side, none: u32, owner: u32, users: &mut [u32])
    requires { owner < none }
    ensures { AreNoted none owner (λ c. uses (port_at side c) of.now) users.old users.new }
{
    for block in of.blocks.as_slice() {
        note_ops(block.ops.as_slice(), side, none, owner, users);
    }
}

/// The module that pops, or pushes, each channel of a plan, the first if there were more; the number of modules where none does.
///
/// It goes once through the operations of all modules, and takes memory for a number of each channel. An error leaves nothing.
pub fn find_users(alloc: Global, plan: &Plan, side: Side) -> Result<Vec<u32>, OutOfMemory>
    requires { FitsEngine plan.now }
    ensures { IfOk result (λ users. AreUsers plan.now side users.items) }
{
    let modules = plan.design.modules.as_slice();
    let none = modules.len() as u32;
    let mut users = vec![in alloc; none; plan.design.channels.as_slice().len()]?;
    for owner in 0..none {
        note_module(
            &modules[owner as usize],
            side,
            none,
            owner,
            users.as_mut_slice(),
        );
    }
    Ok(users)
}
