//! A walk over the clocks in which elements pass a FIFO.
ghost use Rattle.std.specs.Prelude.{◌≡◌, ℕ, ◌+◌, ◌<◌, ◌≤◌, IsTrue, length};
ghost use Rattle.flow_word.specs.declared.access.Side.TheVariants.{Pop, Push};
ghost use Rattle.port_clocks.specs.{Plan, is_fifo, kind_at, FitsEngine, fill, last_clock, next_of, PassesAt, WalkStandsAt, IsFifoWalk};

use crate::reading::cycle_at;
use flow_word::{Port, Side};
use sim_core::FinalCore;

/// Stands for the clock of an element that does not pass a port: it is later than each clock.
const NEVER: u64 = u64::MAX;

/// How far a walk over the clocks of a port is.
#[derive(Clone, Copy, Debug, PartialEq, Eq)]
pub(crate) struct PortWalk {
    /// How many elements passed the port before the walk's clock.
    pub(crate) count: u64,
    /// The clock in which the next element passes the port.
    pub(crate) next: u64,
}

/// A walk over the clocks of a FIFO in a final core's plan, from clock 0 up to the verdict's. It is at some clock, and knows how
/// many elements the FIFO holds there, and in which clock the next element is popped or pushed.
#[derive(Clone, Copy, Debug, PartialEq, Eq)]
pub struct FifoWalk {
    pub(crate) channel: u32,
    pub(crate) clock: u64,
    pub(crate) pops: PortWalk,
    pub(crate) pushes: PortWalk,
}

impl FifoWalk {
    /// A walk over the clocks of a FIFO, at clock 0. It takes no memory.
    pub fn new(core: &FinalCore<'_>, channel: u32) -> FifoWalk
        requires channel { channel < length core.now.plan.design.channels }
        requires fifo { IsTrue (is_fifo (kind_at core.now.plan channel)) }
        ensures walk { IsFifoWalk core.now.plan result }
        ensures channel { result.channel ≡ channel }
        ensures clock { result.clock ≡ 0 }
    {
        FifoWalk {
            channel,
            clock: 0,
            pops: first(core, channel, Side::Pop),
            pushes: first(core, channel, Side::Push),
        }
    }

    /// The clock at which the walk is.
    pub fn clock(&self) -> u64
        ensures { result ≡ self.now.clock }
    {
        self.clock
    }

    /// The clock of the next pop or push. Where there is none, it is the verdict's clock or a later one.
    pub fn next(&self) -> u64
        ensures { result ≡ next_of self.now }
    {
        self.pops.next.min(self.pushes.next)
    }

    /// How many elements the FIFO holds, those in flight included, in each clock from the walk's up to that of the next pop or
    /// push.
    pub fn fill(&self) -> u64
        ensures { (p : Plan) → FitsEngine p → IsFifoWalk p self.now → (clock : ℕ) → self.now.clock ≤ clock → clock ≤ next_of self.now
            → clock ≤ last_clock p → result ≡ fill p self.now.channel clock }
    {
        self.pushes.count.saturating_sub(self.pops.count)
    }

    /// Goes on to the clock right after the next pop or push, which must be before the verdict's clock. It looks at one step for
    /// each element that passes, and takes no memory.
    pub fn pass(&mut self, core: &FinalCore<'_>)
        requires walk { IsFifoWalk core.now.plan self.old }
        requires more { next_of self.old < last_clock core.now.plan }
        ensures walk { IsFifoWalk core.now.plan self.new }
        ensures channel { self.new.channel ≡ self.old.channel }
        ensures clock { self.new.clock ≡ next_of self.old + 1 }
    {
        core.agrees();
        let clock = self.next();
        self.pops = pass_port(core, port_of(self.channel, Side::Pop), self.pops, clock);
        self.pushes = pass_port(core, port_of(self.channel, Side::Push), self.pushes, clock);
        self.clock = clock + 1;
    }
}

/// The port at this side of a channel.
fn port_of(channel: u32, side: Side) -> Port
    ensures { result ≡ record { side = side; channel = channel } }
{
    Port { side, channel }
}

/// The walk of a port, at clock 0.
fn first(core: &FinalCore<'_>, channel: u32, side: Side) -> PortWalk
    requires { channel < length core.now.plan.design.channels }
    ensures { WalkStandsAt core.now.plan (record { side = side; channel = channel }) 0 result }
{
    PortWalk {
        count: 0,
        next: clock_of(core, port_of(channel, side), 0),
    }
}

/// The walk of a port right after a clock, from the walk at that clock.
fn pass_port(core: &FinalCore<'_>, port: Port, walk: PortWalk, clock: u64) -> PortWalk
    requires channel { port.channel < length core.now.plan.design.channels }
    requires stands { WalkStandsAt core.now.plan port clock walk }
    requires early { clock ≤ walk.next }
    requires within { clock < last_clock core.now.plan }
    ensures { WalkStandsAt core.now.plan port (clock + 1) result }
{
    core.agrees();
    if walk.next != clock {
        return walk;
    }
    let count = walk.count + 1;
    PortWalk {
        count,
        next: clock_of(core, port, count),
    }
}

/// The clock in which the element with this number, counted from 0, passes a port. `NEVER` where it does not.
fn clock_of(core: &FinalCore<'_>, port: Port, number: u64) -> u64
    requires { port.channel < length core.now.plan.design.channels }
    ensures { PassesAt core.now.plan port number result }
{
    cycle_at(core.engine(), port, number).unwrap_or(NEVER)
}
