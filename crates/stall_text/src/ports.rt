//! The lines of the elements that pass each port.
ghost use Rattle.std.specs.Prelude.{◌≡◌, ◌<◌, ◌++◌, length, IfOk, OnOk};
ghost use Rattle.stall_text.specs.{text_of_lines, port_clocks, port_lines, ports_of, at_each_side, port_word};

use flow_word::{List, OutOfMemory, Port, Side, Words};
use port_clocks::own_clocks;
use report_text::{channel_name, module_name, push_token, push_value};
use sim_core::FinalCore;
use std::alloc::Global;

/// Adds the lines of a module's ports.
pub(crate) fn print_ports(
    alloc: Global,
    text: &mut List<u8>,
    core: &FinalCore<'_>,
    owner: u32,
) -> Result<(), OutOfMemory>
    requires { owner < length core.now.plan.design.modules }
    ensures { OnOk result (text.new
        ≡ text.old ++ text_of_lines (at_each_side (length core.now.plan.design.channels) (ports_of core.now.plan owner))) }
{
    core.agrees();
    let count = core.plan().design.channels.len() as u32;
    for channel in 0..count {
        let pop = Port {
            side: Side::Pop,
            channel,
        };
        let push = Port {
            side: Side::Push,
            channel,
        };
        print_own(alloc, text, core, owner, pop)?;
        print_own(alloc, text, core, owner, push)?;
    }
    Ok(())
}

/// Adds the line of a port, if the module moves elements there.
fn print_own(
    alloc: Global,
    text: &mut List<u8>,
    core: &FinalCore<'_>,
    owner: u32,
    port: Port,
) -> Result<(), OutOfMemory>
    requires owner { owner < length core.now.plan.design.modules }
    requires channel { port.channel < length core.now.plan.design.channels }
    ensures { OnOk result (text.new ≡ text.old ++ text_of_lines (ports_of core.now.plan owner port.channel port.side)) }
{
    let clocks = clocks_of(alloc, core, owner, port)?;
    let design = &core.plan().design;
    let name = module_name(design, owner);
    let channel = channel_name(design, port.channel);
    print_port(text, name, channel, port.side, clocks.as_slice())
}

/// The clocks in which a module moves elements at a port.
fn clocks_of(
    alloc: Global,
    core: &FinalCore<'_>,
    owner: u32,
    port: Port,
) -> Result<Words, OutOfMemory>
    requires { port.channel < length core.now.plan.design.channels }
    ensures { IfOk result (λ clocks. clocks ≡ port_clocks core.now.plan owner port) }
{
    core.agrees();
    own_clocks(alloc, core, owner, port)
}

/// Adds the line of a port, if an element has passed it in one of these clocks.
fn print_port(
    text: &mut List<u8>,
    name: &[u8],
    channel: &[u8],
    side: Side,
    clocks: &[u64],
) -> Result<(), OutOfMemory>
    ensures { OnOk result (text.new ≡ text.old ++ text_of_lines (port_lines name.now channel.now side clocks.now)) }
{
    let Some(last) = clocks.len().checked_sub(1) else {
        return Ok(());
    };
    text.extend_from_slice(b"port")?;
    push_token(text, name)?;
    push_token(text, port_word(side))?;
    push_token(text, channel)?;
    push_value(text, clocks.len() as u64)?;
    push_value(text, clocks[0])?;
    push_value(text, clocks[last])?;
    text.push(b'\n')
}

/// The word for a side of a channel.
fn port_word(side: Side) -> &'static [u8]
    ensures { result.now ≡ port_word side }
{
    match side {
        Side::Pop => b"pop",
        Side::Push => b"push",
    }
}
