//! Whole simulations with threads.
use crate::gates::{Gathering, Meeting, NotedBursts, Pairing, Slow};
use clock_machine::clock_run;
use flow_design::Report;
use flow_gen::generate;
use run_threads::{FreeGate, HubTurn, Threadless, run_core, run_threads};
use sim_core::Core;
use std::alloc::Global;
use std::process::Abort;
use std::sync::atomic::{AtomicBool, AtomicU64, Ordering};
use std::sync::{Mutex, Wait};
use std::test::Fail;
use std::thread::Threads;
use worked_sessions::{LATER_STALL, REALISTIC_LINE, TWO_MODULES, joined, plan_of, read_plan};

/// Whether the turns that returned desks of this module have the noted numbers of marks, in order, each with the module's pass.
fn are_noted(turns: &[HubTurn], notes: &[(u32, u64)], owner: u32) -> bool {
    let mut rest = notes;
    for turn in turns {
        if let HubTurn::Ran { pass, module, runs } = *turn {
            if module == owner {
                let (next, left) = next_note(rest, owner);
                if next != Some(runs) || pass != owner.wrapping_add(1) {
                    return false;
                }
                rest = left;
            }
        }
    }
    next_note(rest, owner).0.is_none()
}

/// The first number of marks that is noted of this module, and the notes after it.
fn next_note(notes: &[(u32, u64)], owner: u32) -> (Option<u64>, &[(u32, u64)]) {
    for (at, note) in notes.iter().enumerate() {
        if note.0 == owner {
            return (Some(note.1), &notes[at + 1..]);
        }
    }
    (None, &[])
}

fn notes_for<R: Wait + AllocGlobal>(rt: &R) -> NotedBursts<'_, R> {
    NotedBursts {
        rt,
        marks: Mutex::new(Vec::new(rt.alloc())),
        lost: AtomicBool::new(false),
    }
}

#[test]
fn first_bursts_meet(rt: HostRuntime) -> Result<(), Fail> {
    let gate = Meeting {
        begun: [AtomicBool::new(false), AtomicBool::new(false)],
        missed: AtomicBool::new(false),
    };
    let threaded = run_threads(&rt, rt.alloc(), plan_of(rt.alloc(), TWO_MODULES)?, &gate)?;
    assert!(rt; !gate.missed.load(Ordering::SeqCst));
    assert!(rt; are_noted(&threaded.turns, &[(0, 3)], 0));
    assert!(rt; are_noted(&threaded.turns, &[(1, 1), (1, 2)], 1));
    Ok(())
}

/// Five modules, each with a sink of its own.
const FIVE_MODULES: &[u8] = b"\
flow 1
sink a 8
sink b 8
sink c 8
sink d 8
sink e 8
module m
block k 1
at 0 write a 1
stop
module n
block k 1
at 0 write b 1
stop
module o
block k 1
at 0 write c 1
stop
module p
block k 1
at 0 write d 1
stop
module q
block k 1
at 0 write e 1
stop
end
";

#[test]
fn each_module_has_a_thread(rt: HostRuntime) -> Result<(), Fail> {
    let gate = Gathering {
        wanted: 5,
        begun: AtomicU64::new(0),
        missed: AtomicBool::new(false),
    };
    let plan = read_plan(rt.alloc(), FIVE_MODULES)?;
    let threaded = run_threads(&rt, rt.alloc(), plan, &gate)?;
    assert!(rt; !gate.missed.load(Ordering::SeqCst));
    for owner in 0..5u32 {
        assert!(rt; are_noted(&threaded.turns, &[(owner, 2)], owner));
    }
    Ok(())
}

/// The text of a session whose module reads 2,000 values of a source, one after the other.
fn many_values(alloc: Global) -> Result<Vec<u8>, Fail> {
    let mut text = Vec::new(alloc);
    text.extend_from_slice(
        b"flow 1\nsource a 8\nsink y 8\nmodule m\nreg x 8\nreg n 16\nreg go 1\n",
    )?;
    text.extend_from_slice(b"loop l 1 2 while go\nat 0 read a x\nat 0 set n + n 1\n")?;
    text.extend_from_slice(b"at 0 set go <u n 1999\nat 1 write y x\nstop\ninput a")?;
    for _ in 0..2_000 {
        text.extend_from_slice(b" 7")?;
    }
    text.extend_from_slice(b"\nend\n")?;
    Ok(text)
}

#[test]
fn many_blocking_reads(rt: HostRuntime) -> Result<(), Fail> {
    let text = many_values(rt.alloc())?;
    let expected = clock_run(rt.alloc(), &read_plan(rt.alloc(), &text)?)?;
    is_reported(&rt, &text, 1, &expected)?;
    is_reported(&rt, &text, 0, &expected)
}

/// A module that writes 600 values to a sink, and before and after them passes other ports once or twice.
const UNEVEN_PORTS: &[u8] = b"\
flow 1
source a 8
sink y 8
source b 8
sink z 8
module m
reg x 8
reg n 16
reg go 1
block first 1
at 0 read a x
at 0 write z 1
goto l
loop l 1 1 while go
at 0 set n + n 1
at 0 set go <u n 599
at 0 write y x
goto last
block last 1
at 0 read b x
at 0 write z x
stop
input a 5
input b 6
end
";

#[test]
fn uneven_ports(rt: HostRuntime) -> Result<(), Fail> {
    let expected = clock_run(rt.alloc(), &read_plan(rt.alloc(), UNEVEN_PORTS)?)?;
    is_reported(&rt, UNEVEN_PORTS, 1, &expected)
}

#[test]
fn turns_are_bursts(rt: HostRuntime) -> Result<(), Fail> {
    let gate = notes_for(&rt);
    let threaded = run_threads(&rt, rt.alloc(), plan_of(rt.alloc(), REALISTIC_LINE)?, &gate)?;
    let NotedBursts { marks, lost, .. } = gate;
    assert!(rt; !lost.load(Ordering::SeqCst));
    let marks = marks.into_inner();
    for owner in 0..4u32 {
        assert!(rt; are_noted(&threaded.turns, &marks, owner));
    }
    Ok(())
}

/// Asserts that a session has this report where only the first `started` modules have threads and the caller drives the others.
fn is_reported<R: Threads + Wait + Sync + AllocGlobal + Abort>(
    rt: &R,
    text: &[u8],
    started: u32,
    expected: &Report,
) -> Result<(), Fail> {
    let plan = read_plan(rt.alloc(), text)?;
    plan.fits();
    let modules = plan.modules().len() as u32;
    let mut threadless = Threadless::from_module(started);
    let core = Core::new(rt.alloc(), plan)?;
    let threaded = run_core(rt, rt.alloc(), core, &FreeGate, &mut threadless)?;
    assert!(rt; (started..modules).all(|which| threadless.has(which)));
    let report = threaded.core.final_report(rt.alloc(), true)?;
    assert!(rt; report.is_some_and(|found| found == *expected));
    Ok(())
}

#[test]
fn fewer_threads(rt: HostRuntime) -> Result<(), Fail> {
    let text = joined(rt.alloc(), LATER_STALL)?;
    let expected = clock_run(rt.alloc(), &read_plan(rt.alloc(), text.as_slice())?)?;
    for started in 0..3u32 {
        is_reported(&rt, text.as_slice(), started, &expected)?;
    }
    Ok(())
}

#[test]
fn fewer_threads_of_many(rt: HostRuntime) -> Result<(), Fail> {
    let text = generate(rt.alloc(), 1, 64)?;
    let expected = clock_run(rt.alloc(), &read_plan(rt.alloc(), text.as_slice())?)?;
    for started in [0, 32, 64] {
        is_reported(&rt, text.as_slice(), started, &expected)?;
    }
    Ok(())
}

#[test]
fn slow_bursts(rt: HostRuntime) -> Result<(), Fail> {
    let alloc = rt.alloc();
    let expected = clock_run(alloc, &plan_of(rt.alloc(), TWO_MODULES)?)?;
    let threaded = run_threads(&rt, alloc, plan_of(rt.alloc(), TWO_MODULES)?, &Slow)?;
    let report = threaded.core.final_report(alloc, true)?;
    assert!(rt; report.is_some_and(|found| found == expected));
    Ok(())
}

/// Module m polls: in each clock it tries to take a value, and pushes one after each try. Module w polls for these. Module p has
/// pushed all values that m tries to take before, so that m and w learn the outcomes of their tries in the same turn of the caller.
const POLLING: &[u8] = b"\
flow 1
fifo b 16 2000
fifo c 16 2000
module m
reg x 16
reg ok 1
reg n 16
reg g 1
block k 2
goto l
loop l 1 1 while g
at 0 tryread b x ok
at 0 write c n
at 0 set n + n 1
at 0 set g <u n 1000
stop
module w
reg x 16
reg ok 1
reg n 16
reg g 1
block k 4
goto l
loop l 1 1 while g
at 0 tryread c x ok
at 0 set n + n 1
at 0 set g <u n 1000
stop
module p
reg n 16
reg g 1
loop l 1 1 while g
at 0 write b n
at 0 set n + n 1
at 0 set g <u n 1000
stop
end
";

#[test]
fn modules_with_short_bursts_are_handed_over(rt: HostRuntime) -> Result<(), Fail> {
    let gate = Pairing {
        wanted: 3,
        begun: [AtomicU64::new(0), AtomicU64::new(0)],
        missed: AtomicBool::new(false),
    };
    let expected = clock_run(rt.alloc(), &read_plan(rt.alloc(), POLLING)?)?;
    // the caller drives all modules but the first
    let mut threadless = Threadless::from_module(1);
    let core = Core::new(rt.alloc(), read_plan(rt.alloc(), POLLING)?)?;
    let threaded = run_core(&rt, rt.alloc(), core, &gate, &mut threadless)?;
    // during each of the first three bursts of the first module the caller made a burst of the second
    assert!(rt; !gate.missed.load(Ordering::SeqCst));
    assert!(rt; threadless.has(0));
    let report = threaded.core.final_report(rt.alloc(), true)?;
    assert!(rt; report.is_some_and(|found| found == expected));
    Ok(())
}
