//! Starting the modules' threads, or keeping modules with the caller.
ghost use Rattle.std.specs.Prelude.{◌≡◌, ◌≤◌, [], length, IfOk, vec_capacity};
ghost use Rattle.run_threads.specs.{HasNoDeskOut, IsOfHub, module_of, module_view, IsBack, IsNamed, SlotIs, KeepsPass, AreSlots, AreHere};
ghost use Rattle.run_threads.specs.{passes_in};

use crate::crew::Crew;
use crate::drive::{Answered, Driver, drive};
use crate::gate::Gate;
use crate::threadless::Threadless;
use crate::wakers::Wakers;
use flow_word::OutOfMemory;
use sim_hub::{Hub, ModulePass};
use std::alloc::Global;
use std::snapshot::Snapshot;
use std::sync::Wait;
use std::thread::{Promise, PromisedHandle, Scope, Threads};

/// The promise that the pass of this module comes back: a pass of this hub, with no desk out.
#[derive(Drop)]
pub struct Comes {
    hub: Snapshot<Hub>,
    which: u32,
}

impl Promise<Answered> for Comes {
    ghost use Rattle.run_threads.specs.Driving.{IsBack};

    ghost kept_by = { λ promise a. IsBack promise.hub.value promise.which a };
}

/// Where a module's pass is: with its thread, or with the caller.
#[derive(Drop)]
pub enum PassHolder {
    There(PromisedHandle<Answered, Comes>),
    Here(ModulePass),
    /// With neither of them, while the pass is being taken.
    Gone,
}

/// Makes a waker for each module, and joins the module's pass with the parker on which its thread sleeps. `OutOfMemory` where
/// memory ran out.
pub fn drivers_of(
    alloc: Global,
    wakers: &mut Wakers,
    modules: Vec<ModulePass>,
) -> Result<Vec<Driver>, OutOfMemory>
    ensures { IfOk result (λ drivers. passes_in drivers.items ≡ modules.items) }
{
    let mut drivers = Vec::new(alloc);
    for pass in modules {
        let parker = wakers.add(alloc)?;
        if drivers.push(Driver { pass, parker }).is_err() {
            return Err(OutOfMemory);
        }
    }
    Ok(drivers)
}

/// Starts a module's thread. Where the thread cannot be started, the caller keeps the pass.
fn start_one<'s, 'e, G: Gate + Sync, R: Threads + Wait + Sync>(
    scope: &'s Scope<'s, &'e ()>,
    crew: &Crew<'e, G, R>,
    driver: Driver,
) -> PassHolder
    requires own { IsOfHub crew.now.hub.now driver.pass }
    requires home { HasNoDeskOut (module_of driver.pass) (module_view driver.pass) }
    ensures { SlotIs crew.now.hub.now (module_of driver.pass) result }
{
    let (rt, alloc, hub) = (crew.rt, crew.alloc, crew.hub);
    let (gate, wakers) = (crew.gate, crew.wakers);
    let which = driver.pass.which();
    let promise = Comes {
        hub: Snapshot::of(hub),
        which,
    };
    let job = move || -> Answered
        requires { IsOfHub hub.now driver.pass × HasNoDeskOut (module_of driver.pass) (module_view driver.pass) }
        ensures { IsBack hub.entry.now (module_of driver.pass) result }
    { drive(rt, alloc, hub, gate, wakers, driver) };
    match scope.spawn_with(promise, job) {
        Ok(child) => PassHolder::There(child),
        Err(refused) => {
            wakers.forbid(which);
            wakers.keep(which);
            PassHolder::Here((refused.value)().pass)
        }
    }
}

/// Starts a module's thread, or leaves the module to the caller if it is to have none.
fn place_one<'s, 'e, G: Gate + Sync, R: Threads + Wait + Sync>(
    scope: &'s Scope<'s, &'e ()>,
    crew: &Crew<'e, G, R>,
    driver: Driver,
    threadless: &Threadless,
) -> PassHolder
    requires own { IsOfHub crew.now.hub.now driver.pass }
    requires home { HasNoDeskOut (module_of driver.pass) (module_view driver.pass) }
    ensures slot { SlotIs crew.now.hub.now (module_of driver.pass) result }
    ensures kept { IsNamed threadless.now (module_of driver.pass) → KeepsPass result }
{
    let which = driver.pass.which();
    if threadless.has(which) {
        crew.wakers.leave(which);
        PassHolder::Here(driver.pass)
    } else {
        start_one(scope, crew, driver)
    }
}

/// Starts a thread for each module, except those that the caller drives.
pub fn start_all<'s, 'e, G: Gate + Sync, R: Threads + Wait + Sync>(
    scope: &'s Scope<'s, &'e ()>,
    crew: &Crew<'e, G, R>,
    drivers: Vec<Driver>,
    threadless: &Threadless,
    slots: Vec<PassHolder>,
) -> Vec<PassHolder>
    requires here { AreHere crew.now.hub.now (passes_in drivers.items) }
    requires empty { slots.items ≡ [] }
    requires room { length drivers.items ≤ vec_capacity slots }
    ensures { (length result.items ≡ length drivers.items) × AreSlots crew.now.hub.now result.items }
{
    let mut slots = slots;
    for driver in drivers {
        slots.push_reserved(place_one(scope, crew, driver, threadless));
    }
    slots
}
