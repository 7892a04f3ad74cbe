//! Whole simulations with threads.
ghost use Rattle.std.specs.Prelude.{◌≡◌, ◌≤◌, [], length, IfOk, vec_capacity};
ghost use Rattle.run_threads.specs.{opening_core, design, theory_of, AreOwn, IsOverAt, IsPerfOf, perf_view, IsWholeRun, HasMoreTurns};
ghost use Rattle.run_threads.specs.{passes_in, AreHere, IsRoomFor};

use crate::crew::Crew;
use crate::drive::Driver;
use crate::gate::Gate;
use crate::lead::{gather, lead};
use crate::room::Room;
use crate::start::{drivers_of, start_all};
use crate::threadless::Threadless;
use crate::wakers::Wakers;
use crossbeam_utils::sync::Parker;
use flow_design::CheckedPlan;
use flow_word::OutOfMemory;
use sim_core::Core;
use sim_hub::{Closed, Hub, ModulePass, PerfPass, Threaded};
use std::alloc::Global;
use std::sync::Wait;
use std::thread;
use std::thread::Threads;

/// Drives all modules until all is over, and takes all passes back. All its memory was taken before: between starting a thread and
/// the caller's lead nothing may fail.
fn run_all<G: Gate + Sync, R: Threads + Wait + Sync>(
    crew: &Crew<'_, G, R>,
    parker: Parker,
    perf: PerfPass,
    drivers: Vec<Driver>,
    threadless: Threadless,
    room: Room,
) -> (PerfPass, Vec<ModulePass>)
    requires perf { IsPerfOf crew.now.hub.now perf }
    requires here { AreHere crew.now.hub.now (passes_in drivers.items) }
    requires room { IsRoomFor (length drivers.items) room }
    ensures perf { IsPerfOf crew.now.hub.now result.0 }
    ensures later { HasMoreTurns (perf_view perf) (perf_view result.0) }
    ensures over { IsOverAt (perf_view result.0).seen }
    ensures count { length result.1.items ≡ length drivers.items }
    ensures here { AreHere crew.now.hub.now result.1.items }
{
    let Room {
        slots,
        passes,
        noted,
    } = room;
    let (rt, alloc, hub) = (crew.rt, crew.alloc, crew.hub);
    let (gate, wakers) = (crew.gate, crew.wakers);
    thread::scope(
        thread::scope_env(),
        rt,
        move |scope| -> (PerfPass, Vec<ModulePass>)
            requires { IsPerfOf hub.now perf × AreHere hub.now (passes_in drivers.items) × (slots.items ≡ []) × (passes.items ≡ [])
                × (length drivers.items ≤ vec_capacity slots) × (length drivers.items ≤ vec_capacity passes) }
            ensures { IsPerfOf hub.entry.now result.0 × HasMoreTurns (perf_view perf) (perf_view result.0)
                × IsOverAt (perf_view result.0).seen × (length result.1.items ≡ length drivers.items)
                × AreHere hub.entry.now result.1.items }
        {
            let crew = Crew {
                rt,
                alloc,
                hub,
                gate,
                wakers,
            };
            let slots = start_all(scope, &crew, drivers, &threadless, slots);
            let (perf, slots) = lead(&crew, &parker, perf, slots, noted);
            (perf, gather(rt, hub, slots, passes))
        },
    )
}

/// Simulates from a core in which nothing is emitted yet, with a thread for each module, as `run_threads` does. The caller drives
/// the modules in `threadless`, whose bursts are known to be short, and, where there are more than 64 modules, those with few
/// operations. Afterwards `threadless` has the modules that it drove at the end.
///
/// After `OutOfMemory` the core is lost, and `threadless` is as it was.
pub fn run_core<G: Gate + Sync, R: Threads + Wait + Sync>(
    rt: &R,
    alloc: Global,
    core: Core,
    gate: &G,
    threadless: &mut Threadless,
) -> Result<Threaded, OutOfMemory>
    requires opening { theory_of core ≡ opening_core (design core.plan) }
    requires own { AreOwn core }
    ensures run { IfOk result (λ threaded. IsWholeRun core.plan threaded) }
{
    core.agrees();
    let mut driven = *threadless;
    driven.add_small(alloc, &core)?;
    let room = Room::new(alloc, core.modules())?;
    let (mut wakers, parker) = Wakers::new(alloc, &core)?;
    let (hub, perf, modules) = Hub::new(alloc, core)?;
    let drivers = drivers_of(alloc, &mut wakers, modules)?;
    let crew = Crew {
        rt,
        alloc,
        hub: &hub,
        gate,
        wakers: &wakers,
    };
    let (perf, modules) = run_all(&crew, parker, perf, drivers, driven, room);
    match hub.close(perf, modules) {
        Closed::Final(threaded) => {
            *threadless = wakers.threadless();
            Ok(threaded)
        }
        Closed::Short => Err(OutOfMemory),
    }
}

/// Simulates a plan with a thread for each module: the answer has a final core, and the turns that led to it. Where there are more
/// than 64 modules, those with the most operations get a thread. The caller gives the cycles, and drives the modules that have no
/// thread, also where a thread cannot be started.
///
/// After `OutOfMemory` the plan is lost.
pub fn run_threads<G: Gate + Sync, R: Threads + Wait + Sync>(
    rt: &R,
    alloc: Global,
    plan: CheckedPlan,
    gate: &G,
) -> Result<Threaded, OutOfMemory>
    ensures run { IfOk result (λ threaded. IsWholeRun plan threaded) }
{
    let core = Core::new(alloc, plan)?;
    run_core(rt, alloc, core, gate, &mut Threadless::none())
}
