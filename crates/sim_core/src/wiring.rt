//! What is found once for a plan: the modules at each channel, and the channels of each module.
ghost use Rattle.std.specs.Prelude.{◌≡◌, ◌++◌, ◌<◌, ℕ, eqb, [], length, replicate, slice_index_or, IfOk, OnOk};
ghost use Rattle.flow_word.specs.declared.access.Side.TheVariants.{Push};
ghost use Rattle.sim_core.specs.{port_where, AreOwnPorts, AreReaders, AreUsers, IsWired};

use crate::beside::find_beside;
use crate::bodies::find_body_lengths;
use crate::readers::find_users;
use engine_view::Hints;
use flow_design::CheckedPlan;
use flow_word::{List, OutOfMemory, Port, Side, Words};
use module_sets::ModuleSet;
use std::alloc::Global;

/// What is found once for a plan: the modules at each channel, and the channels of each module.
pub(crate) struct Wiring {
    /// The ports of each module.
    pub(crate) ports: List<List<Port>>,
    /// For each channel the module that pops it, or the number of modules where none does.
    pub(crate) readers: Vec<u32>,
    /// For each module the modules at the other sides of its channels; and the hints.
    pub(crate) hints: Hints,
    /// For each module the most operations that one of its bodies has.
    pub(crate) bodies: Words,
}

impl Drop for Wiring {
    fn drop(self) {
        let Wiring {
            ports: _ports,
            readers: _readers,
            hints: _hints,
            bodies: _bodies,
        } = self;
    }
}

/// Finds the modules at each channel of a plan, and the channels of each module.
pub(crate) fn find_wiring(alloc: Global, plan: &CheckedPlan) -> Result<Wiring, OutOfMemory>
    ensures { IfOk result (λ wiring. IsWired plan.now wiring) }
{
    let readers = find_users(alloc, plan.plan(), Side::Pop)?;
    let writers = find_users(alloc, plan.plan(), Side::Push)?;
    let ports = make_ports(alloc, plan, readers.as_slice(), writers.as_slice())?;
    let beside = find_beside(alloc, plan, &ports, readers.as_slice(), writers.as_slice())?;
    let room = ModuleSet::new(alloc, plan.modules().len() as u32)?;
    Ok(Wiring {
        ports,
        readers,
        hints: Hints::new(beside, room),
        bodies: find_body_lengths(alloc, plan)?,
    })
}

/// One empty list of ports for each of `modules` modules. `OutOfMemory` where memory ran out.
fn no_ports(alloc: Global, modules: u64) -> Result<List<List<Port>>, OutOfMemory>
    ensures { IfOk result (λ ports. ports ≡ replicate modules []) }
{
    let mut ports = List::with_room(alloc, modules)?;
    for _ in 0..modules {
        ports.push(List::new(alloc))?;
    }
    Ok(ports)
}

/// Adds a port to those of its module, if a module has it.
fn add_port(
    ports: &mut List<List<Port>>,
    owner: u32,
    side: Side,
    channel: u32,
) -> Result<(), OutOfMemory>
    ensures count { OnOk result (length ports.new ≡ length ports.old) }
    ensures each { OnOk result ((m : ℕ) → m < length ports.old
        → slice_index_or ports.new m [] ≡ slice_index_or ports.old m [] ++ port_where (eqb owner m) side channel) }
{
    let at = owner as usize;
    let all = ports.as_mut_slice();
    if at < all.len() {
        all[at].push(Port { side, channel })?;
    }
    Ok(())
}

/// The ports of each module, where the module that pops and the one that pushes each channel are known.
fn make_ports(
    alloc: Global,
    plan: &CheckedPlan,
    readers: &[u32],
    writers: &[u32],
) -> Result<List<List<Port>>, OutOfMemory>
    requires readers { AreReaders plan.now readers.now }
    requires writers { AreUsers plan.now Push writers.now }
    ensures { IfOk result (λ ports. AreOwnPorts plan.now (length plan.now.design.modules) ports) }
{
    let mut ports = no_ports(alloc, plan.modules().len() as u64)?;
    plan.fits();
    for channel in 0..plan.channels().len() as u32 {
        let at = channel as usize;
        add_port(&mut ports, readers[at], Side::Pop, channel)?;
        add_port(&mut ports, writers[at], Side::Push, channel)?;
    }
    Ok(ports)
}

/// The ports of module `owner`.
pub(crate) fn ports_of(ports: &List<List<Port>>, owner: u32) -> &[Port]
    requires { owner < length ports.now }
    ensures { result.now ≡ slice_index_or ports.now owner [] }
{
    ports.as_slice()[owner as usize].as_slice()
}
