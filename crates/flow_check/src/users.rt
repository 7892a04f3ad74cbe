//! How many modules use each channel at one side.
ghost use Rattle.std.specs.Prelude.{◌≡◌, List as Items, cond, nat_eq, length, IfOk};
ghost use Rattle.flow_design.specs.declared.design.Module.{Module as ModuleOf};
ghost use Rattle.flow_check.specs.{same_port, port_at, has, HavePorts, AreCounted, AreUserCounts};

use flow_word::{OutOfMemory, Port, Side};
use indexmap::IndexSet;
use std::alloc::Global;

/// Counts one more user of a channel, up to two.
fn count_user(channel: u32, users: &mut [u8])
    ensures { AreCounted (λ c. cond (nat_eq c channel) 1 0) users.old users.new }
{
    let at = channel as usize;
    if at < users.len() && users[at] < 2 {
        users[at] += 1;
    }
}

/// Counts one more user of a port's channel, if the port is of this side.
fn count_port(port: Port, side: Side, users: &mut [u8])
    ensures { AreCounted (λ c. cond (same_port (port_at side c) port) 1 0) users.old users.new }
{
    if port.side == side {
        count_user(port.channel, users);
    }
}

/// Counts a module, given the ports that it uses, at each channel that it uses at this side.
fn count_module(ports: &IndexSet<Port>, side: Side, users: &mut [u8])
    ensures { AreCounted (λ c. cond (has ports.now (port_at side c)) 1 0) users.old users.new }
{
    for port in ports.as_slice() {
        count_port(*port, side, users);
    }
}

/// How many modules use each channel at a side, given the ports that each module uses. 2 stands for two or more.
pub(crate) fn count_users(
    alloc: Global,
    all: &[IndexSet<Port>],
    side: Side,
    channels: usize,
) -> Result<Vec<u8>, OutOfMemory>
    ensures count { IfOk result (λ users. length users.items ≡ channels) }
    ensures users { (modules : Items ModuleOf) → HavePorts all.now modules → IfOk result (λ users. AreUserCounts modules side users.items) }
{
    let mut users = vec![in alloc; 0; channels]?;
    for ports in all {
        count_module(ports, side, users.as_mut_slice());
    }
    Ok(users)
}
