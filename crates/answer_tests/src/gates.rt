//! Gates that run out of memory, or that wait.
use crate::asking::words_of;
use run_threads::{Burst, Gate, Marks, Task, work};
use sim_io::{MemSink, MemSource};
use std::alloc::Global;
use std::process::Abort;
use std::sync::Wait;
use std::sync::atomic::{AtomicBool, AtomicU64, Ordering};
use std::test::Fail;
use std::thread::{Threads, yield_now};
use whole_answer::{Status, omnisim};
use worked_sessions::{REALISTIC_LINE, SessionParts, TWO_MODULES, TWO_MODULES_ANSWER, joined};

/// How often a burst that waits for another one yields before it gives up.
const PATIENCE: u64 = 10_000_000;

/// What a command with some options answers to a session, with this gate.
fn answer_with<R: Threads + Wait + Sync + AllocGlobal, G: Gate + Sync>(
    rt: &R,
    command: &str,
    options: &[&str],
    text: SessionParts,
    gate: &G,
) -> Result<(Status, MemSink), Fail> {
    let alloc = rt.alloc();
    let words = words_of(rt, command, options)?;
    let text = joined(alloc, text)?;
    let mut source = MemSource::new(alloc, text.as_slice(), 64, &[])?;
    let mut sink = MemSink::new(alloc, 8192, 4, &[])?;
    let status = omnisim(rt, alloc, words.as_slice(), &mut source, &mut sink, gate);
    Ok((status, sink))
}

/// A gate that has no memory for the bursts of the second module.
#[derive(Clone, Copy, Debug)]
struct SecondIsShort;

impl Gate for SecondIsShort {
    fn burst(&self, alloc: Global, owner: u32, task: Task) -> Burst {
        if owner == 1 {
            Burst {
                run: task.run,
                emitted: Marks::new(alloc),
                short: true,
                mail: task.mail,
            }
        } else {
            work(alloc, task)
        }
    }
}

#[test]
fn a_burst_that_is_short(rt: HostRuntime) -> Result<(), Fail> {
    let (status, sink) = answer_with(&rt, "run", &[], TWO_MODULES, &SecondIsShort)?;
    assert_eq!(rt; status, Status::Memory);
    assert_eq!(rt; sink.held(), b"".as_slice());
    Ok(())
}

/// A gate where the first bursts of two modules wait for each other. It holds whether each has begun.
#[derive(Drop)]
struct Meeting {
    first: AtomicBool,
    second: AtomicBool,
    /// Whether one of the two waited in vain.
    missed: AtomicBool,
}

impl Meeting {
    /// Notes that this burst has begun, and waits until the other has.
    fn meet(&self, own: &AtomicBool, other: &AtomicBool) {
        own.store(true, Ordering::SeqCst);
        for _ in 0..PATIENCE {
            if other.load(Ordering::SeqCst) {
                return;
            }
            yield_now();
        }
        self.missed.store(true, Ordering::SeqCst);
    }
}

impl Gate for Meeting {
    fn burst(&self, alloc: Global, owner: u32, task: Task) -> Burst {
        if owner == 0 {
            self.meet(&self.first, &self.second);
        } else {
            self.meet(&self.second, &self.first);
        }
        work(alloc, task)
    }
}

/// Asserts that the first bursts meet under a command with some options. Returns what the sink holds then.
fn meets<R: Threads + Wait + Sync + AllocGlobal + Abort>(
    rt: &R,
    command: &str,
    options: &[&str],
) -> Result<MemSink, Fail> {
    let gate = Meeting {
        first: AtomicBool::new(false),
        second: AtomicBool::new(false),
        missed: AtomicBool::new(false),
    };
    let (status, sink) = answer_with(rt, command, options, TWO_MODULES, &gate)?;
    assert_eq!(rt; status, Status::Done);
    assert!(rt; gate.first.load(Ordering::SeqCst));
    assert!(rt; gate.second.load(Ordering::SeqCst));
    assert!(rt; !gate.missed.load(Ordering::SeqCst));
    Ok(sink)
}

#[test]
fn first_bursts_that_meet(rt: HostRuntime) -> Result<(), Fail> {
    let answer = meets(&rt, "run", &[])?;
    assert_eq!(rt; answer.held(), TWO_MODULES_ANSWER);
    for command in ["advise", "log", "path", "size", "stalls", "trace", "wave"] {
        let _answer = meets(&rt, command, &[])?;
    }
    // `gen 0 2` makes a session of two modules
    let _summary = meets(&rt, "gen", &["0", "2"])?;
    Ok(())
}

/// Counts those bursts of the first module that begin its run: all its other bursts follow a wait for replies.
#[derive(Drop)]
struct Beginnings {
    count: AtomicU64,
}

impl Gate for Beginnings {
    fn burst(&self, alloc: Global, owner: u32, task: Task) -> Burst {
        if owner == 0 && !task.run.is_waiting() {
            self.count.fetch_add(1, Ordering::SeqCst);
        }
        work(alloc, task)
    }
}

#[test]
fn each_run_after_an_edit_meets_the_gate(rt: HostRuntime) -> Result<(), Fail> {
    let gate = Beginnings {
        count: AtomicU64::new(0),
    };
    let (status, sink) = answer_with(&rt, "run", &[], REALISTIC_LINE, &gate)?;
    assert_eq!(rt; status, Status::Done);
    assert!(rt; sink.held().ends_with(b"runs 5\n"));
    assert_eq!(rt; gate.count.load(Ordering::SeqCst), 5);
    Ok(())
}
