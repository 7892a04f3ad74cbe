//! Driving a module until all is over.
ghost use Rattle.std.specs.Prelude.{◌≡◌};
ghost use Rattle.run_threads.specs.{HasNoDeskOut, IsOfHub, module_of, module_view, WentIs, EndIs};

use crate::concern::{Concern, News, concern_after};
use crate::gate::Gate;
use crate::wakers::Wakers;
use crossbeam_utils::sync::Parker;
use sim_hub::{Desk, Hub, ModulePass};
use std::alloc::Global;
use std::sync::Wait;

/// A burst with fewer operations is short: it takes less time than waking a thread.
const SHORT_BURST: u64 = 1_000;

/// How many short bursts in a row, each after a wait, a thread makes before it hands its module over to the caller.
const SHORT_BURSTS: u64 = 3;

/// How many short bursts in a row, each after a wait, a thread has made once it has made one more burst, which had `operations`
/// operations.
fn short_bursts(before: u64, waited: bool, operations: u64) -> u64 {
    if waited && operations < SHORT_BURST {
        before.saturating_add(1)
    } else {
        0
    }
}

/// What came of one try to drive a module.
#[derive(Clone, Copy, Debug, PartialEq, Eq)]
pub enum Went {
    /// A desk was borrowed and returned. The module goes on after these news, and its burst had this many operations.
    Ran(Concern, u64),
    /// No Run of the module was permitted.
    Held,
    /// The core is final.
    Over,
    /// Memory ran out.
    Short,
}

/// Why a module is no longer driven by whoever drove it.
#[derive(Clone, Copy, Debug, PartialEq, Eq)]
pub enum DriveEnd {
    /// The core is final.
    Over,
    /// Memory ran out.
    Short,
    /// The module's thread was not started, or it hands the module over to the caller.
    Undriven,
}

/// What a module's thread gives back at its end.
#[derive(Drop)]
pub struct Answered {
    pub pass: ModulePass,
    pub end: DriveEnd,
}

/// A module's pass, and the parker on which its thread sleeps.
#[derive(Drop)]
pub struct Driver {
    pub pass: ModulePass,
    pub parker: Parker,
}

/// Borrows a module's desk, has the gate make its burst, and returns it.
pub fn drive_once<G: Gate, R: Wait>(
    rt: &R,
    alloc: Global,
    hub: &Hub,
    gate: &G,
    pass: ModulePass,
) -> (ModulePass, Went)
    requires own { IsOfHub hub.now pass }
    requires home { HasNoDeskOut (module_of pass) (module_view pass) }
    ensures own { IsOfHub hub.now result.0 × (module_of result.0 ≡ module_of pass) }
    ensures home { HasNoDeskOut (module_of pass) (module_view result.0) }
    ensures went { WentIs (module_view result.0) result.1 }
{
    let which = pass.which();
    let (pass, desk) = hub.borrow_desk(rt, pass);
    match desk {
        Desk::Run(task) => {
            let before = task.run.operations();
            let burst = gate.burst(alloc, which, task);
            let concern = concern_after(&burst);
            let operations = burst.run.operations().wrapping_sub(before);
            let (pass, _made) = hub.return_desk(rt, pass, burst);
            (pass, Went::Ran(concern, operations))
        }
        Desk::Held(_) => (pass, Went::Held),
        Desk::Over => (pass, Went::Over),
        Desk::Short => (pass, Went::Short),
    }
}

/// Drives a module in a thread of its own, until all is over. If its bursts turn out to be short, the thread ends, and the caller
/// drives the module from then on.
pub fn drive<G: Gate, R: Wait>(
    rt: &R,
    alloc: Global,
    hub: &Hub,
    gate: &G,
    wakers: &Wakers,
    driver: Driver,
) -> Answered
    requires own { IsOfHub hub.now driver.pass }
    requires home { HasNoDeskOut (module_of driver.pass) (module_view driver.pass) }
    ensures own { IsOfHub hub.now result.pass × (module_of result.pass ≡ module_of driver.pass) }
    ensures home { HasNoDeskOut (module_of driver.pass) (module_view result.pass) }
    ensures end { EndIs (module_view result.pass) result.end }
{
    let Driver { pass, parker } = driver;
    let which = pass.which();
    if wakers.is_forbidden(which) {
        return undriven(pass);
    }
    let mut pass = pass;
    let mut waited = false;
    let mut short = 0u64;
    for _ in rt.forever() {
        wakers.clear(which);
        let (next, went) = drive_once(rt, alloc, hub, gate, pass);
        match went {
            Went::Ran(concern, operations) => {
                wakers.want(which, concern);
                wakers.tell_readers(which);
                short = short_bursts(short, waited, operations);
                if short >= SHORT_BURSTS {
                    return handed_over(wakers, next);
                }
                wakers.tell_caller(News::Returned);
                waited = wakers.wait(rt, &parker, which);
            }
            Went::Held => waited = wakers.wait(rt, &parker, which),
            Went::Over => return ended(wakers, next, DriveEnd::Over),
            Went::Short => return ended(wakers, next, DriveEnd::Short),
        }
        pass = next;
    }
    unreachable!()
}

/// Gives back the pass of a module that its thread no longer drives, though all is not over.
fn undriven(pass: ModulePass) -> Answered
    ensures { (result.pass ≡ pass) × (result.end ≡ DriveEnd.Undriven) }
{
    Answered {
        pass,
        end: DriveEnd::Undriven,
    }
}

/// Hands a module over to the caller, and tells the caller.
fn handed_over(wakers: &Wakers, pass: ModulePass) -> Answered
    ensures { (result.pass ≡ pass) × (result.end ≡ DriveEnd.Undriven) }
{
    wakers.hand_over(pass.which());
    undriven(pass)
}

/// Gives back the pass of a module for which all is over, and tells the caller, who tells the other threads.
fn ended(wakers: &Wakers, pass: ModulePass, end: DriveEnd) -> Answered
    ensures { (result.pass ≡ pass) × (result.end ≡ end) }
{
    wakers.tell_caller(News::Over);
    Answered { pass, end }
}
