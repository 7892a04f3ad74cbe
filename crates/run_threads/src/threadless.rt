//! The modules that the caller drives from the start of a run.
ghost use Rattle.std.specs.Prelude.{◌≡◌, ◌⊎◌, ◌↔◌, ℕ, ◌<◌, ◌≤◌, IsTrue, length};
ghost use Rattle.flow_design.specs.declared.limits.TheConstants.{MODULES};
ghost use Rattle.run_threads.specs.{IsNamed};

use flow_design::Module;
use flow_design::limits::MODULES;
use flow_word::OutOfMemory;
use sim_core::Core;
use std::alloc::Global;

/// The most modules that have a thread.
const THREADS: usize = 64;

/// The modules that have no thread of their own. Their bursts are known to be short: waking a thread takes longer than making one.
/// Where there are many modules, those with few operations are here too.
#[derive(Clone, Copy, Debug, PartialEq, Eq)]
pub struct Threadless {
    named: [bool; MODULES as usize],
}

impl Threadless {
    /// Names no module: each may have a thread.
    pub fn none() -> Threadless
        ensures { (m : ℕ) → IsNamed result m → ⊥ }
    {
        Threadless {
            named: [false; MODULES as usize],
        }
    }

    /// Names the modules from number `first` on.
    pub fn from_module(first: u32) -> Threadless
        ensures { (m : ℕ) → IsNamed result m ↔ ((first ≤ m) × (m < MODULES)) }
    {
        let mut threadless = Threadless::none();
        for which in first..MODULES as u32 {
            threadless.add(which);
        }
        threadless
    }

    /// Whether the module is one of those without a thread.
    pub fn has(&self, which: u32) -> bool
        ensures { IsTrue result ↔ IsNamed self.now which }
    {
        let which = which as usize;
        which < self.named.len() && self.named[which]
    }

    /// Adds a module, if a plan may have one with this number.
    pub fn add(&mut self, which: u32)
        ensures { (m : ℕ) → IsNamed self.new m ↔ (IsNamed self.old m ⊎ ((m ≡ which) × (m < MODULES))) }
    {
        let which = which as usize;
        if which < self.named.len() {
            self.named[which] = true;
        }
    }

    /// Adds the modules with the fewest operations, where a plan has more modules than may have threads, so that the others all get
    /// one. It takes memory for the counts. After `OutOfMemory` perhaps only some are added.
    pub(crate) fn add_small(&mut self, alloc: Global, core: &Core) -> Result<(), OutOfMemory>
        ensures kept { (m : ℕ) → IsNamed self.old m → IsNamed self.new m }
        ensures few { length core.now.plan.design.modules ≤ 64 → self.new ≡ self.old }
    {
        let count = core.modules() as usize;
        if count <= THREADS {
            return Ok(());
        }
        let sizes = sizes_of(alloc, core)?;
        for size in sizes.as_slice().iter().take(count - THREADS) {
            self.add(size.which);
        }
        Ok(())
    }
}

/// A module, by how many operations it has.
#[derive(Clone, Copy, Debug, PartialEq, Eq, PartialOrd, Ord)]
struct Size {
    operations: u64,
    which: u32,
}

/// The modules of a core by how many operations they have, in rising order.
fn sizes_of(alloc: Global, core: &Core) -> Result<Vec<Size>, OutOfMemory> {
    core.agrees();
    let modules = core.plan().design.modules.as_slice();
    let mut sizes = Vec::with_capacity(alloc, modules.len())?;
    for which in 0..modules.len() {
        let operations = count_operations(&modules[which]);
        sizes.push(Size {
            operations,
            which: which as u32,
        })?;
    }
    sizes.sort_unstable();
    Ok(sizes)
}

/// How many operations the bodies of a module have together.
fn count_operations(declared: &Module) -> u64 {
    let mut count = 0u64;
    for block in declared.blocks.as_slice() {
        count = count.saturating_add(block.ops.len());
    }
    count
}
