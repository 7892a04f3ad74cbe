//! Of which modules something may be permitted, and whose candidate may have changed.
ghost use Rattle.std.specs.Prelude.{◌≡◌, ℕ, ◌<◌, ◌≤◌, ◌⊎◌, false, length, IfOk, IfSome, IsNone};
ghost use Rattle.sim_core.specs.{capacity, Lacks};

use flow_word::OutOfMemory;
use module_sets::ModuleSet;
use std::alloc::Global;

/// The modules of which an action may be permitted: of the others none is, but perhaps an Earliest. Beside them the modules whose
/// candidate may differ from the listed one.
#[derive(Drop)]
pub(crate) struct DueModules {
    /// The modules of which an Assign or an Answer may be permitted.
    pub(crate) asking: ModuleSet,
    /// The modules of which a Run may be permitted.
    pub(crate) running: ModuleSet,
    /// The modules that are not asking, but whose candidate may have changed since it was listed.
    pub(crate) unlisted: ModuleSet,
}

impl DueModules {
    ghost use Rattle.sim_core.specs.{Candidates.IsListed, Waking.IsFull, Waking.IsOutside};

    /// Something may be permitted of each of `count` modules. `OutOfMemory` where memory ran out.
    pub(crate) fn all(alloc: Global, count: u32) -> Result<DueModules, OutOfMemory>
        ensures asking_room { IfOk result (λ due. count ≤ capacity due.asking) }
        ensures asking { IfOk result (λ due. IsFull due.asking) }
        ensures running_room { IfOk result (λ due. count ≤ capacity due.running) }
        ensures running { IfOk result (λ due. IsFull due.running) }
        ensures unlisted_room { IfOk result (λ due. count ≤ capacity due.unlisted) }
    {
        let mut due = DueModules {
            asking: ModuleSet::new(alloc, count)?,
            running: ModuleSet::new(alloc, count)?,
            unlisted: ModuleSet::new(alloc, count)?,
        };
        due.fill();
        Ok(due)
    }

    /// Notes that something may be permitted of each module for which there is room.
    pub(crate) fn fill(&mut self)
        ensures asking_room { length self.new.asking ≡ length self.old.asking }
        ensures asking { IsFull self.new.asking }
        ensures running_room { length self.new.running ≡ length self.old.running }
        ensures running { IsFull self.new.running }
        ensures unlisted { self.new.unlisted ≡ self.old.unlisted }
    {
        self.asking.fill();
        self.running.fill();
    }

    /// Notes that no module is asking, and that each candidate is listed.
    pub(crate) fn list(&mut self)
        ensures asking_room { length self.new.asking ≡ length self.old.asking }
        ensures running { self.new.running ≡ self.old.running }
        ensures unlisted_room { length self.new.unlisted ≡ length self.old.unlisted }
        ensures listed { (n : ℕ) → IsListed self.new n }
    {
        self.asking.clear();
        self.unlisted.clear();
    }

    /// The first module from this one on, below a count, of which something may be permitted. None where there is none.
    pub(crate) fn first_from(&self, from: u32, count: u32) -> Option<u32>
        ensures first { IfSome result (λ m. from ≤ m) }
        ensures below { IfSome result (λ m. m < count) }
        ensures before { IfSome result (λ m. (n : ℕ) → from ≤ n → n < m → IsOutside self.now n) }
        ensures none { IsNone result → (n : ℕ) → from ≤ n → n < count → IsOutside self.now n }
    {
        first_of(&self.asking, &self.running, from, count)
    }

    /// The first module from this one on, below a count. Where not `all` modules are sought, it is the first whose candidate may have
    /// changed. `None` where there is none.
    pub(crate) fn first_open(&self, from: u32, count: u32, all: bool) -> Option<u32>
        ensures after { IfSome result (λ m. from ≤ m) }
        ensures below { IfSome result (λ m. m < count) }
        ensures before { IfSome result (λ m. (n : ℕ) → from ≤ n → n < m → IsListed self.now n × (all ≡ false)) }
        ensures none { IsNone result → (n : ℕ) → from ≤ n → n < count → IsListed self.now n × (all ≡ false) }
    {
        if !all {
            return self.first_unlisted(from, count);
        }
        if from < count { Some(from) } else { None }
    }

    /// The first module from this one on, below a count, whose candidate may have changed. None where there is none.
    pub(crate) fn first_unlisted(&self, from: u32, count: u32) -> Option<u32>
        ensures first { IfSome result (λ m. from ≤ m) }
        ensures below { IfSome result (λ m. m < count) }
        ensures before { IfSome result (λ m. (n : ℕ) → from ≤ n → n < m → IsListed self.now n) }
        ensures none { IsNone result → (n : ℕ) → from ≤ n → n < count → IsListed self.now n }
    {
        first_of(&self.asking, &self.unlisted, from, count)
    }
}

/// The first module of two sets from this one on, below a count. None where there is none.
fn first_of(one: &ModuleSet, other: &ModuleSet, from: u32, count: u32) -> Option<u32>
    ensures first { IfSome result (λ m. from ≤ m) }
    ensures below { IfSome result (λ m. m < count) }
    ensures before { IfSome result (λ m. (n : ℕ) → from ≤ n → n < m → Lacks one.now n × Lacks other.now n) }
    ensures none { IsNone result → (n : ℕ) → from ≤ n → n < count → Lacks one.now n × Lacks other.now n }
{
    let here = first_or(one, from, count);
    let there = first_or(other, from, count);
    let first = if here < there { here } else { there };
    if first < count { Some(first) } else { None }
}

/// The first module of a set from this one on, below a count. None where there is none.
pub(crate) fn first_below(set: &ModuleSet, from: u32, count: u32) -> Option<u32>
    ensures after { IfSome result (λ m. from ≤ m) }
    ensures below { IfSome result (λ m. m < count) }
    ensures before { IfSome result (λ m. (n : ℕ) → from ≤ n → n < m → Lacks set.now n) }
    ensures none { IsNone result → (n : ℕ) → from ≤ n → n < count → Lacks set.now n }
{
    let first = first_or(set, from, count);
    if first < count { Some(first) } else { None }
}

/// The first module of a set from this one on, and this number where there is none.
fn first_or(set: &ModuleSet, from: u32, none: u32) -> u32
    ensures after { (result ≡ none) ⊎ (from ≤ result) }
    ensures before { (n : ℕ) → from ≤ n → n < result → Lacks set.now n }
{
    match set.first_from(from) {
        Some(first) => first,
        None => none,
    }
}
