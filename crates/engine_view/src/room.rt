//! Room for further steps.
ghost use Rattle.std.specs.Prelude.{◌≡◌, ℕ, ◌+◌, ◌^◌, ◌<◌, ◌≤◌, length, slice_get, slice_index, All, OnOk, Some};
ghost use Rattle.engine_view.specs.{Side as side_type, ModuleState, Design, room_of, EngineHasModule, IsSameButRoom, IsRoomy, AreAllPorts};

use crate::engine::Engine;
use fifo_table::FifoTable;
use flow_word::{OutOfMemory, Port, Side};

/// How many places a module is given at once at each of its ports: enough for 256 Runs, of which each takes at most two.
const CREDIT: u64 = 512;

impl Engine {
    /// Makes room for a module's next step. Where it asks for memory, it does so for many steps at once, so that it seldom asks.
    ///
    /// `ports` are the module's ports, and `queries` is the most queries that one of its steps may have. All else stays, after
    /// `OutOfMemory` too.
    #[inline(always)]
    pub fn make_room(&mut self, owner: u32, ports: &[Port], queries: u64) -> Result<(), OutOfMemory>
        requires owner { EngineHasModule self.old owner }
        requires ports { All (λ port. port.channel < length self.old.fifos.channels) ports.now }
        ensures same { IsSameButRoom owner self.old self.new }
        ensures credit { OnOk result (2 ≤ slice_index self.new.credits.items owner) }
        ensures queries { OnOk result (queries ≤ slice_index self.new.log.rooms owner) }
        ensures room { (d : Design ModuleState) → AreAllPorts d owner (length self.old.fifos.channels) ports.now
            → IsRoomy d self.old → IsRoomy d self.new }
    {
        let places = if self.credits[owner as usize] >= 2 {
            2
        } else {
            CREDIT
        };
        self.make_room_for(owner, ports, queries, places)
    }

    /// Makes room for `places` places that a module's next steps may take at each of its ports: two for each step.
    ///
    /// `ports` are the module's ports, and `queries` is the most queries that the last of these steps may have. All else stays,
    /// after `OutOfMemory` too.
    #[inline(always)]
    pub fn make_room_for(
        &mut self,
        owner: u32,
        ports: &[Port],
        queries: u64,
        places: u64,
    ) -> Result<(), OutOfMemory>
        requires owner { EngineHasModule self.old owner }
        requires ports { All (λ port. port.channel < length self.old.fifos.channels) ports.now }
        requires places { places + 1 < 2 ^ 64 }
        ensures same { IsSameButRoom owner self.old self.new }
        ensures credit { OnOk result (places ≤ slice_index self.new.credits.items owner) }
        ensures queries { OnOk result (queries ≤ slice_index self.new.log.rooms owner) }
        ensures room { (d : Design ModuleState) → AreAllPorts d owner (length self.old.fifos.channels) ports.now
            → IsRoomy d self.old → IsRoomy d self.new }
    {
        self.log.reserve(owner, queries)?;
        if self.credits[owner as usize] >= places {
            return Ok(());
        }
        self.graph.reserve(owner, places / 2 + places % 2)?;
        reserve_ports(&mut self.fifos, ports, places)?;
        self.credits[owner as usize] = places;
        Ok(())
    }

    /// Makes room for `steps` further steps of a module. Of each of its ports it is told for how many places: there is room for these
    /// then, and for the one that the module's newest step may still take.
    ///
    /// `ports` are the module's ports, with as many numbers in `places`, and `queries` is the most queries that the last of these steps
    /// may have. All else stays, the module's credit too, and after `OutOfMemory`.
    pub fn make_room_at(
        &mut self,
        owner: u32,
        ports: &[Port],
        places: &[u64],
        steps: u64,
        queries: u64,
    ) -> Result<(), OutOfMemory>
        requires owner { EngineHasModule self.old owner }
        requires ports { All (λ port. port.channel < length self.old.fifos.channels) ports.now }
        requires places { length places.now ≡ length ports.now }
        ensures same { IsSameButRoom owner self.old self.new }
        ensures steps { OnOk result (steps ≤ slice_index self.new.graph.rooms owner) }
        ensures places { OnOk result ((i : ℕ) (port : Port) → slice_get ports.now i ≡ Some port
            → slice_index places.now i + 1 ≤ room_of self.new.fifos port.side port.channel) }
        ensures queries { OnOk result (queries ≤ slice_index self.new.log.rooms owner) }
        ensures room { (d : Design ModuleState) → IsRoomy d self.old → IsRoomy d self.new }
    {
        self.log.reserve(owner, queries)?;
        self.graph.reserve(owner, steps)?;
        reserve_each(&mut self.fifos, ports, places)
    }
}

/// Makes room at each of the ports: for as many places as are told of it, and for the one that the module's newest step may still
/// take.
fn reserve_each(fifos: &mut FifoTable, ports: &[Port], places: &[u64]) -> Result<(), OutOfMemory>
    requires ports { All (λ port. port.channel < length fifos.old.channels) ports.now }
    requires places { length places.now ≡ length ports.now }
    ensures channels { fifos.new.channels ≡ fifos.old.channels }
    ensures kept { (side : side_type) (c : ℕ) → room_of fifos.old side c ≤ room_of fifos.new side c }
    ensures room { OnOk result ((i : ℕ) (port : Port) → slice_get ports.now i ≡ Some port
        → slice_index places.now i + 1 ≤ room_of fifos.new port.side port.channel) }
{
    for (at, port) in ports.iter().enumerate() {
        if places[at] == u64::MAX {
            return Err(OutOfMemory);
        }
        reserve_port(fifos, *port, places[at])?;
    }
    Ok(())
}

/// Makes room at each of the ports: for `places` places, and for the one that the module's newest step may still take.
fn reserve_ports(fifos: &mut FifoTable, ports: &[Port], places: u64) -> Result<(), OutOfMemory>
    requires ports { All (λ port. port.channel < length fifos.old.channels) ports.now }
    requires places { places + 1 < 2 ^ 64 }
    ensures channels { fifos.new.channels ≡ fifos.old.channels }
    ensures kept { (side : side_type) (c : ℕ) → room_of fifos.old side c ≤ room_of fifos.new side c }
    ensures room { OnOk result (All (λ port. places + 1 ≤ room_of fifos.new port.side port.channel) ports.now) }
{
    for port in ports {
        reserve_port(fifos, *port, places)?;
    }
    Ok(())
}

/// Makes room at a port: for `places` places, and for the one that the module's newest step may still take.
fn reserve_port(fifos: &mut FifoTable, port: Port, places: u64) -> Result<(), OutOfMemory>
    requires channel { port.channel < length fifos.old.channels }
    requires places { places + 1 < 2 ^ 64 }
    ensures channels { fifos.new.channels ≡ fifos.old.channels }
    ensures kept { (side : side_type) (c : ℕ) → room_of fifos.old side c ≤ room_of fifos.new side c }
    ensures room { OnOk result (places + 1 ≤ room_of fifos.new port.side port.channel) }
{
    match port.side {
        Side::Pop => fifos.reserve(port.channel, 0, places + 1),
        Side::Push => fifos.reserve(port.channel, places + 1, 0),
    }
}
