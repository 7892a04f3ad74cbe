//! What wakes the threads, each when there are news for it.
//!
//! No news are lost. A thread clears its waker before it looks at the hub, and whoever changes the hub tells the wakers afterwards.
//! All these steps stand in one order. If the look came before a change that it did not see, then the waker was cleared before it
//! was told of that change, and whoever waits for such news finds them there.
//!
//! A thread says that it is asleep before its last look at the waker, and whoever tells news looks afterwards whether it is asleep.
//! So the thread was seen asleep, or it saw the news. News between that look and `park` leave a token with the parker, and `park`
//! returns at once. A token that is left from earlier news makes `park` return too early, and then the thread looks at the waker
//! again.
//!
//! The caller looks only at the modules that are noted: whoever tells a module's waker notes the module afterwards, and so does who
//! leaves a module to the caller. The caller takes all notes before it looks. If it looked at a waker before that was told, then the
//! note comes after, and it looks again. Another thread that leaves a note tells the caller's waker afterwards.
ghost use Rattle.std.specs.Prelude.{◌<◌, length};

use crate::concern::{Concern, News};
use crate::threadless::Threadless;
use crossbeam_utils::Backoff;
use crossbeam_utils::sync::{Parker, Unparker};
use flow_design::limits::MODULES;
use flow_word::{OutOfMemory, Side};
use module_sets::{Mask, ModuleSet};
use sim_core::Core;
use std::alloc::Global;
use std::sync::Wait;
use std::sync::atomic::{AtomicBool, AtomicU64, Ordering};

/// The news for one thread, and what wakes it.
#[derive(Drop)]
struct Waker {
    unparker: Unparker,
    /// The bits of all news that it was told since it was cleared.
    told: AtomicU64,
    /// The bits of the news that its thread waits for.
    wanted: AtomicU64,
    /// Whether its thread sleeps, or is about to sleep.
    asleep: AtomicBool,
}

impl Waker {
    /// A waker that was told all news, and the parker on which its thread sleeps.
    fn new(alloc: Global) -> Result<(Waker, Parker), OutOfMemory> {
        let parker = Parker::new(alloc)?;
        let waker = Waker {
            unparker: parker.unparker().clone()?,
            told: AtomicU64::new(Concern::Anything.bits()),
            wanted: AtomicU64::new(Concern::Anything.bits()),
            asleep: AtomicBool::new(false),
        };
        Ok((waker, parker))
    }

    /// Forgets all news that the waker was told.
    fn clear(&self) {
        self.told.store(0, Ordering::SeqCst);
    }

    /// Sets the news for which the waker wakes its thread.
    fn want(&self, concern: Concern) {
        self.wanted.store(concern.bits(), Ordering::SeqCst);
    }

    /// Whether the waker was told news that its thread waits for.
    fn has_news(&self) -> bool {
        self.told.load(Ordering::SeqCst) & self.wanted.load(Ordering::SeqCst) != 0
    }

    /// Tells these news, and wakes the thread if it waits for them. Returns whether they were not told yet.
    fn tell(&self, news: News) -> bool {
        let bit = news.bit();
        if self.told.load(Ordering::SeqCst) & bit != 0 {
            return false;
        }
        self.told.fetch_or(bit, Ordering::SeqCst);
        if self.asleep.load(Ordering::SeqCst)
            && self.wanted.load(Ordering::SeqCst) & bit != 0
            && self.asleep.swap(false, Ordering::SeqCst)
        {
            self.unparker.unpark();
        }
        true
    }

    /// Waits until the waker was told news that its thread waits for. Returns whether it had to wait. At first it stays awake,
    /// so that news that come at once cost no sleep.
    fn wait<R: Wait>(&self, rt: &R, parker: &Parker) -> bool {
        if self.has_news() {
            return false;
        }
        let backoff = Backoff::new();
        for _ in rt.forever() {
            if self.has_news() {
                return true;
            }
            if backoff.is_completed() {
                self.asleep.store(true, Ordering::SeqCst);
                if !self.has_news() {
                    parker.park(rt);
                }
                self.asleep.store(false, Ordering::SeqCst);
            } else {
                backoff.snooze();
            }
        }
        unreachable!()
    }
}

/// A module's waker, and who drives the module.
#[derive(Drop)]
struct ModuleWaker {
    waker: Waker,
    /// Whether the module's thread is to give its pass back without driving the module.
    undriven: AtomicBool,
    /// Whether the caller drives the module.
    handed_over: AtomicBool,
}

/// The caller's waker, and a waker for each module.
#[derive(Drop)]
pub struct Wakers {
    caller: Waker,
    modules: Vec<ModuleWaker>,
    /// For each module the modules that pop what it pushes.
    readers: Vec<Vec<u32>>,
    /// The modules that the caller has to look at: 64 in a word.
    noted: Vec<AtomicU64>,
    /// Whether some module's thread was not started.
    unstarted: AtomicBool,
}

/// The modules that pop what a module of the core's plan pushes. For a channel that nobody pops, it is the number of modules.
fn readers_of(alloc: Global, core: &Core, owner: u32) -> Result<Vec<u32>, OutOfMemory>
    requires { owner < length core.now.plan.design.modules }
{
    let mut readers = Vec::new(alloc);
    for port in core.ports(owner) {
        if port.side == Side::Push {
            if let Some(reader) = core.readers().get(port.channel as usize) {
                if !readers.as_slice().contains(reader) {
                    readers.push(*reader)?;
                }
            }
        }
    }
    Ok(readers)
}

/// No notes, with room for so many modules.
fn no_notes(alloc: Global, count: u32) -> Result<Vec<AtomicU64>, OutOfMemory> {
    let mut noted = Vec::new(alloc);
    for _ in 0..count / 64 + 1 {
        if noted.push(AtomicU64::new(0)).is_err() {
            return Err(OutOfMemory);
        }
    }
    Ok(noted)
}

impl Wakers {
    /// The caller's waker, with no waker of a module of the core's plan yet, and the parker on which the caller sleeps. `OutOfMemory`
    /// where memory ran out.
    pub fn new(alloc: Global, core: &Core) -> Result<(Wakers, Parker), OutOfMemory> {
        let (caller, parker) = Waker::new(alloc)?;
        let mut readers = Vec::new(alloc);
        for owner in 0..core.modules() {
            let mine = readers_of(alloc, core, owner)?;
            if readers.push(mine).is_err() {
                return Err(OutOfMemory);
            }
        }
        let wakers = Wakers {
            caller,
            modules: Vec::new(alloc),
            readers,
            noted: no_notes(alloc, core.modules())?,
            unstarted: AtomicBool::new(false),
        };
        Ok((wakers, parker))
    }

    /// Adds the waker of the next module, and answers the parker on which its thread sleeps. `OutOfMemory` where memory ran out.
    pub fn add(&mut self, alloc: Global) -> Result<Parker, OutOfMemory> {
        let (waker, parker) = Waker::new(alloc)?;
        let place = ModuleWaker {
            waker,
            undriven: AtomicBool::new(false),
            handed_over: AtomicBool::new(false),
        };
        match self.modules.push(place) {
            Ok(()) => Ok(parker),
            Err(_) => Err(OutOfMemory),
        }
    }

    /// How many modules have a waker.
    pub fn count(&self) -> usize {
        self.modules.len()
    }

    /// Notes that the caller has to look at a module.
    fn note(&self, which: u32) {
        if let Some(word) = self.noted.get((which / 64) as usize) {
            word.fetch_or(1 << (which % 64), Ordering::SeqCst);
        }
    }

    /// Moves all notes to a set: the modules that the caller has to look at.
    pub fn take_notes(&self, set: &mut ModuleSet) {
        let mut word = 0u32;
        for noted in &self.noted {
            if noted.load(Ordering::SeqCst) != 0 {
                let bits = noted.swap(0, Ordering::SeqCst);
                set.add_masks(&[Mask { word, bits }]);
            }
            word = word.wrapping_add(1);
        }
    }

    /// Tells a module's waker these news.
    pub fn tell(&self, which: u32, news: News) {
        if let Some(place) = self.modules.get(which as usize) {
            if place.waker.tell(news) {
                self.note(which);
            }
        }
    }

    /// Tells the wakers of all modules that all is over. The caller looks at none of them any more.
    pub fn tell_end(&self) {
        for place in &self.modules {
            let _first = place.waker.tell(News::Over);
        }
    }

    /// Tells the wakers of the modules that pop what this module pushes that its desk came back.
    pub fn tell_readers(&self, which: u32) {
        if let Some(readers) = self.readers.get(which as usize) {
            for reader in readers {
                self.tell(*reader, News::Returned);
            }
        }
    }

    /// Tells the caller's waker these news.
    pub fn tell_caller(&self, news: News) {
        let _first = self.caller.tell(news);
    }

    /// Clears the caller's waker.
    pub fn clear_for_caller(&self) {
        self.caller.clear();
    }

    /// Lets the caller wait until its waker has news.
    pub fn wait_as_caller<R: Wait>(&self, rt: &R, parker: &Parker) {
        self.caller.wait(rt, parker);
    }

    /// Clears a module's waker.
    pub fn clear(&self, which: u32) {
        if let Some(place) = self.modules.get(which as usize) {
            place.waker.clear();
        }
    }

    /// Sets the news that a module's thread waits for.
    pub fn want(&self, which: u32, concern: Concern) {
        if let Some(place) = self.modules.get(which as usize) {
            place.waker.want(concern);
        }
    }

    /// Lets a module's thread wait until its waker has news that it waits for. Returns whether it had to wait.
    pub fn wait<R: Wait>(&self, rt: &R, parker: &Parker, which: u32) -> bool {
        match self.modules.get(which as usize) {
            Some(place) => place.waker.wait(rt, parker),
            None => false,
        }
    }

    /// From now on a thread of this module is to give its pass back without driving the module.
    pub fn forbid(&self, which: u32) {
        if let Some(place) = self.modules.get(which as usize) {
            place.undriven.store(true, Ordering::SeqCst);
        }
    }

    /// Whether a thread of this module is to give its pass back without driving the module.
    pub fn is_forbidden(&self, which: u32) -> bool {
        match self.modules.get(which as usize) {
            Some(place) => place.undriven.load(Ordering::SeqCst),
            None => false,
        }
    }

    /// From now on the caller drives this module, since its thread was not started.
    pub fn keep(&self, which: u32) {
        self.unstarted.store(true, Ordering::SeqCst);
        self.leave(which);
    }

    /// From now on the caller drives this module, since it is to have no thread.
    pub fn leave(&self, which: u32) {
        if let Some(place) = self.modules.get(which as usize) {
            place.handed_over.store(true, Ordering::SeqCst);
            self.note(which);
        }
    }

    /// From now on the caller drives this module, since its thread ends.
    pub fn hand_over(&self, which: u32) {
        self.leave(which);
        self.tell_caller(News::Returned);
    }

    /// Whether the caller is to drive this module now: it is the caller's, and its waker has news.
    pub fn is_due(&self, which: usize) -> bool {
        match self.modules.get(which) {
            Some(place) => place.handed_over.load(Ordering::SeqCst) && place.waker.has_news(),
            None => false,
        }
    }

    /// The modules that the caller drives since their bursts are short. Those whose thread was not started are left out.
    pub fn threadless(&self) -> Threadless {
        let mut threadless = Threadless::none();
        for which in 0..MODULES as u32 {
            if self.is_threadless(which) {
                threadless.add(which);
            }
        }
        threadless
    }

    /// Whether the caller drives this module since its bursts are short.
    fn is_threadless(&self, which: u32) -> bool {
        match self.modules.get(which as usize) {
            Some(place) => {
                place.handed_over.load(Ordering::SeqCst) && !place.undriven.load(Ordering::SeqCst)
            }
            None => false,
        }
    }

    /// Whether some module's thread was not started.
    pub fn has_unstarted(&self) -> bool {
        self.unstarted.load(Ordering::SeqCst)
    }
}
