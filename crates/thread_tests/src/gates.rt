//! Gates that watch or delay bursts, or let them run out of memory.
ghost use Rattle.std.specs.Prelude.{◌<◌};

use run_threads::{Burst, Gate, Task, work};
use std::alloc::Global;
use std::sync::atomic::{AtomicBool, AtomicU64, Ordering};
use std::sync::{Mutex, Wait};
use std::thread::yield_now;

/// How often a burst yields at most while it waits for another one.
const TURNS: u64 = 10_000_000;

/// A gate that notes the number of marks of each burst, with its module.
#[derive(Drop)]
pub struct NotedBursts<'a, R: Wait> {
    pub rt: &'a R,
    pub marks: Mutex<Vec<(u32, u64)>>,
    /// Whether memory for a note ran out.
    pub lost: AtomicBool,
}

impl<'a, R: Wait> NotedBursts<'a, R> {
    fn note(&self, owner: u32, marks: u64) {
        if self.marks.lock(self.rt).push((owner, marks)).is_err() {
            self.lost.store(true, Ordering::SeqCst);
        }
    }
}

impl<'a, R: Wait> Gate for NotedBursts<'a, R> {
    fn burst(&self, alloc: Global, owner: u32, task: Task) -> Burst {
        let burst = work(alloc, task);
        self.note(owner, burst.emitted.len());
        burst
    }
}

/// A gate where the first bursts of modules 0 and 1 wait for each other.
#[derive(Drop)]
pub struct Meeting {
    pub begun: [AtomicBool; 2],
    /// Whether one of the bursts waited in vain.
    pub missed: AtomicBool,
}

impl Meeting {
    fn meet(&self, mine: usize, other: usize)
        requires { (mine < 2) × (other < 2) }
    {
        self.begun[mine].store(true, Ordering::SeqCst);
        for _ in 0..TURNS {
            if self.begun[other].load(Ordering::SeqCst) {
                return;
            }
            yield_now();
        }
        self.missed.store(true, Ordering::SeqCst);
    }
}

impl Gate for Meeting {
    fn burst(&self, alloc: Global, owner: u32, task: Task) -> Burst {
        match owner {
            0 => self.meet(0, 1),
            1 => self.meet(1, 0),
            _ => {}
        }
        work(alloc, task)
    }
}

/// A gate where each burst waits until this many have begun.
#[derive(Drop)]
pub struct Gathering {
    pub wanted: u64,
    pub begun: AtomicU64,
    /// Whether one of the bursts waited in vain.
    pub missed: AtomicBool,
}

impl Gate for Gathering {
    fn burst(&self, alloc: Global, _owner: u32, task: Task) -> Burst {
        self.begun.fetch_add(1, Ordering::SeqCst);
        for _ in 0..TURNS {
            if self.begun.load(Ordering::SeqCst) >= self.wanted {
                return work(alloc, task);
            }
            yield_now();
        }
        self.missed.store(true, Ordering::SeqCst);
        work(alloc, task)
    }
}

/// A gate where each of the first bursts of module 0 and the burst of module 1 with the same number wait for each other.
#[derive(Drop)]
pub struct Pairing {
    /// How many bursts of each module are to meet.
    pub wanted: u64,
    /// How many bursts of each module have begun.
    pub begun: [AtomicU64; 2],
    /// Whether one of the bursts waited in vain.
    pub missed: AtomicBool,
}

impl Pairing {
    fn pair(&self, mine: usize, other: usize)
        requires { (mine < 2) × (other < 2) }
    {
        let before = self.begun[mine].fetch_add(1, Ordering::SeqCst);
        if before >= self.wanted {
            return;
        }
        for _ in 0..TURNS {
            if self.begun[other].load(Ordering::SeqCst) > before {
                return;
            }
            yield_now();
        }
        self.missed.store(true, Ordering::SeqCst);
    }
}

impl Gate for Pairing {
    fn burst(&self, alloc: Global, owner: u32, task: Task) -> Burst {
        match owner {
            0 => self.pair(0, 1),
            1 => self.pair(1, 0),
            _ => {}
        }
        work(alloc, task)
    }
}

/// A gate that yields a thousand times before each burst.
#[derive(Clone, Copy)]
pub struct Slow;

impl Gate for Slow {
    fn burst(&self, alloc: Global, _owner: u32, task: Task) -> Burst {
        for _ in 0..1_000 {
            yield_now();
        }
        work(alloc, task)
    }
}
