//! The clocks of a port.
ghost use Rattle.std.specs.Prelude.{◌≡◌, ◌≢◌, ◌<◌, [], length, IfOk};
ghost use Rattle.port_clocks.specs.{ArePortClocks};
ghost use Rattle.flow_word.specs.declared.access.Side.TheVariants.{Pop, Push};
ghost use Rattle.lockstep_defs.specs.Ports as lockstep;

use crate::reading::{cycles_at, uses};
use flow_word::{List, OutOfMemory, Port, Side, Words};
use sim_core::FinalCore;
use std::alloc::Global;

/// The clocks in which elements pass the two ports of a FIFO, in order: one clock for each element that is popped, or pushed.
#[derive(Debug)]
pub struct FifoClocks {
    pub pops: Words,
    pub pushes: Words,
}

impl Drop for FifoClocks {
    fn drop(self) {
        let FifoClocks {
            pops: _pops,
            pushes: _pushes,
        } = self;
    }
}

/// The clocks in which elements pass the two ports of a channel of a final core's plan.
///
/// It looks once at each step that uses one of these ports, and takes memory for the clocks. `OutOfMemory` where memory ran out.
pub fn fifo_clocks(
    alloc: Global,
    core: &FinalCore<'_>,
    channel: u32,
) -> Result<FifoClocks, OutOfMemory>
    requires { channel < length core.now.plan.design.channels }
    ensures pops { IfOk result (λ clocks. ArePortClocks core.now.plan (record { side = Pop; channel = channel }) clocks.pops) }
    ensures pushes { IfOk result (λ clocks. ArePortClocks core.now.plan (record { side = Push; channel = channel }) clocks.pushes) }
{
    let pop = Port {
        side: Side::Pop,
        channel,
    };
    let push = Port {
        side: Side::Push,
        channel,
    };
    Ok(FifoClocks {
        pops: clocks_at(alloc, core, pop)?,
        pushes: clocks_at(alloc, core, push)?,
    })
}

/// The clocks in which elements pass a port of a final core's plan, in order: one clock for each element that is popped, or pushed,
/// there.
///
/// It looks once at each step that uses the port, and takes memory for the clocks. `OutOfMemory` where memory ran out.
fn clocks_at(alloc: Global, core: &FinalCore<'_>, port: Port) -> Result<Words, OutOfMemory>
    requires { port.channel < length core.now.plan.design.channels }
    ensures { IfOk result (ArePortClocks core.now.plan port) }
{
    cycles_at(alloc, core.engine(), port)
}

/// The clocks in which a module moves elements at a port of a final core's plan, in order; none where the port is another module's.
///
/// It looks at most once at each step that uses the port, and takes memory for the clocks. `OutOfMemory` where memory ran out.
pub fn own_clocks(
    alloc: Global,
    core: &FinalCore<'_>,
    owner: u32,
    port: Port,
) -> Result<Words, OutOfMemory>
    requires { port.channel < length core.now.plan.design.channels }
    ensures own { lockstep.owner core.now.plan port ≡ owner → IfOk result (ArePortClocks core.now.plan port) }
    ensures other { lockstep.owner core.now.plan port ≢ owner → IfOk result (λ clocks. clocks ≡ []) }
{
    if !uses(core.engine(), owner, port) {
        return Ok(List::new(alloc));
    }
    clocks_at(alloc, core, port)
}
