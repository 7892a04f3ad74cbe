//! The turn in which a thread gives steps cycles, and the test whether a core is final.
ghost use Rattle.std.specs.Prelude.{◌≡◌, ℕ, ◌<◌, ◌≤◌, ◌⊎◌, true, false, length, slice_index_or, IfSome, IsNone, Some};
ghost use Rattle.sim_core.specs.{IsDetermined, IsFinal, MayEarliest, MayRun, AllVerified, design, earliest_of, timings, NoTiming, Has};
ghost use Rattle.sim_core.specs.{capacity, theory_of, Goes, TimesSome, IsUntimable, AreUntimable, AreUnrunnable, IsNextFrom, IsReady};

use crate::due::first_below;
use crate::machine::Core;
use event_graph::Candidate;
use flow_word::Steps;
use module_sets::ModuleSet;
use outcome_guard::Guard;
use std::sync::ledger::Ledger;
use time_engine::candidate;

/// Assigns and Answers of a module, one after the other.
#[derive(Clone, Copy, Debug, PartialEq, Eq)]
struct Batch {
    /// The module.
    owner: u32,
    /// How many Assigns and Answers were done.
    count: u64,
}

impl Core {
    /// Does each permitted Assign and Answer, and answers how many they were. It goes over the modules in order, round after round,
    /// and does at each all that it can. All outcomes must be verified. It takes no memory, and looks only at modules of which
    /// something may be permitted.
    pub fn time_all<L: Ledger>(&mut self, steps: &mut Steps<L>) -> u64
        requires { AllVerified (theory_of self.old) }
        ensures rounds { timings (design self.old.plan) self.old.plan.cycles result 0 (theory_of self.old) ≡ Some (theory_of self.new) }
        ensures goes { Goes self.old steps.old self.new steps.new }
        ensures none_left { NoTiming (design self.new.plan) self.new.plan.cycles (theory_of self.new) }
        ensures verified { AllVerified (theory_of self.new) }
    {
        self.agrees();
        let mut at = 0;
        let mut done = 0;
        while let Some(batch) = self.time_next(at, steps) {
            at = batch.owner;
            done += batch.count;
        }
        done
    }

    /// Does Assigns and Answers of the first module of which one is permitted, from this one on, and then from the first one on.
    fn time_next<L: Ledger>(&mut self, at: u32, steps: &mut Steps<L>) -> Option<Batch>
        requires at { at ≤ length self.old.plan.design.modules }
        requires verified { AllVerified (theory_of self.old) }
        ensures done { IfSome result (λ batch. TimesSome self.old steps.old batch.owner batch.count self.new steps.new) }
        ensures first { IfSome result (λ batch. IsNextFrom self.old at batch.owner) }
        ensures none { IsNone result → AreUntimable self.old 0 (length self.old.plan.design.modules) }
        ensures unchanged { IsNone result → (self.new ≡ self.old) × (steps.new ≡ steps.old) }
    {
        let count = self.modules();
        match self.time_from(at, count, steps) {
            Some(batch) => Some(batch),
            None => self.time_from(0, at, steps),
        }
    }

    /// Does Assigns and Answers of the first module of which one is permitted, from this one on and below another.
    fn time_from<L: Ledger>(&mut self, from: u32, to: u32, steps: &mut Steps<L>) -> Option<Batch>
        requires to { to ≤ length self.old.plan.design.modules }
        requires verified { AllVerified (theory_of self.old) }
        ensures done { IfSome result (λ batch. TimesSome self.old steps.old batch.owner batch.count self.new steps.new) }
        ensures after { IfSome result (λ batch. from ≤ batch.owner) }
        ensures below { IfSome result (λ batch. batch.owner < to) }
        ensures first { IfSome result (λ batch. AreUntimable self.old from batch.owner) }
        ensures none { IsNone result → AreUntimable self.old from to }
        ensures unchanged { IsNone result → (self.new ≡ self.old) × (steps.new ≡ steps.old) }
    {
        let mut at = from;
        while let Some(owner) = self.next_asking(at, to) {
            let count = self.time_some(owner, steps);
            if count > 0 {
                return Some(Batch { owner, count });
            }
            at = owner + 1;
        }
        None
    }

    /// The first module from this one on, below another, of which an Assign or an Answer may be permitted.
    fn next_asking(&self, from: u32, to: u32) -> Option<u32>
        requires { to ≤ length self.now.plan.design.modules }
        ensures after { IfSome result (λ m. from ≤ m) }
        ensures below { IfSome result (λ m. m < to) }
        ensures before { IfSome result (λ m. AreUntimable self.now from m) }
        ensures none { IsNone result → AreUntimable self.now from to }
    {
        first_below(&self.due.asking, from, to)
    }

    /// Does Assigns and Answers of a module as long as they are permitted. Returns how many were done. After some billions of cycles it
    /// stops, though more may be permitted.
    fn time_some<L: Ledger>(&mut self, owner: u32, steps: &mut Steps<L>) -> u64
        requires owner { owner < length self.old.plan.design.modules }
        requires verified { AllVerified (theory_of self.old) }
        ensures done { 0 < result → TimesSome self.old steps.old owner result self.new steps.new }
        ensures none { result ≡ 0 → IsUntimable self.old owner }
        ensures unchanged { result ≡ 0 → (self.new ≡ self.old) × (steps.new ≡ steps.old) }
    {
        self.agrees();
        let timed = self.time_stretch(owner, u32::MAX, steps);
        timed.cycles as u64 + timed.answers as u64
    }

    /// Does the Earliest of the first module with the least cycle, if one is permitted: no Run is permitted, and a step is open.
    /// Returns whether one was done. No Assign and no Answer may be permitted, and all outcomes must be verified. It takes no
    /// memory.
    pub fn answer_earliest(&mut self) -> bool
        requires verified { AllVerified (theory_of self.old) }
        requires none_left { NoTiming (design self.old.plan) self.old.plan.cycles (theory_of self.old) }
        ensures done { result ≡ true
            → earliest_of (design self.old.plan) self.old.plan.cycles (theory_of self.old) ≡ Some (theory_of self.new) }
        ensures unchanged { result ≡ false → self.new ≡ self.old }
        ensures none { result ≡ false → (m c : ℕ) → MayEarliest (design self.old.plan) self.old.plan.cycles (theory_of self.old) m c → ⊥ }
        ensures plan { self.new.plan ≡ self.old.plan }
        ensures lent { self.new.lent ≡ self.old.lent }
        ensures verified { AllVerified (theory_of self.new) }
    {
        self.agrees();
        if self.any_may_run() {
            return false;
        }
        match self.answer_least() {
            Some((_, Guard::Same)) => true,
            Some((_, Guard::Differs(_))) | None => false,
        }
    }

    /// Whether the core is final: no action is permitted. It takes no memory, and stops at the first module that has something to
    /// do. It looks only at modules of which something may be permitted, unless some module waits for an Earliest.
    pub fn is_final(&self) -> bool
        ensures holds { result ≡ true → IsFinal (design self.now.plan) self.now.plan.cycles (theory_of self.now) }
        ensures fails { result ≡ false → IsFinal (design self.now.plan) self.now.plan.cycles (theory_of self.now) → ⊥ }
    {
        self.agrees();
        !self.any_may_run() && !self.any_has_cycle()
    }

    /// Whether a Run of some module is permitted.
    fn any_may_run(&self) -> bool
        ensures some { result ≡ true → (m : ℕ) × MayRun (design self.now.plan) (theory_of self.now) m }
        ensures none { result ≡ false → (m : ℕ) → MayRun (design self.now.plan) (theory_of self.now) m → ⊥ }
    {
        self.agrees();
        let mut from = 0;
        while let Some(owner) = self.next_running(from) {
            if self.may_run(owner) {
                return true;
            }
            from = owner + 1;
        }
        false
    }

    /// The first module from this one on of which a Run may be permitted.
    fn next_running(&self, from: u32) -> Option<u32>
        ensures after { IfSome result (λ m. from ≤ m) }
        ensures below { IfSome result (λ m. m < length self.now.plan.design.modules) }
        ensures before { IfSome result (λ m. AreUnrunnable self.now from m) }
        ensures none { IsNone result → AreUnrunnable self.now from (length self.now.plan.design.modules) }
    {
        first_below(&self.due.running, from, self.modules())
    }

    /// Whether the first step without a cycle of some module is determined, below the limit: it can then be given its cycle, or its
    /// queries answered.
    fn any_has_cycle(&self) -> bool
        ensures some { result ≡ true → (m : ℕ) × ((c : ℕ)
            × IsDetermined (design self.now.plan) self.now.plan.cycles (theory_of self.now) m c) }
        ensures none { result ≡ false → (m c : ℕ) → m < length self.now.plan.design.modules
            → IsDetermined (design self.now.plan) self.now.plan.cycles (theory_of self.now) m c → ⊥ }
    {
        // Where no listed cycle is there, only modules whose cycle may have changed have one.
        let all = self.candidates.earliest().is_some();
        let count = self.modules();
        let mut from = 0;
        while let Some(owner) = self.due.first_open(from, count, all) {
            if self.has_cycle(owner) {
                return true;
            }
            from = owner + 1;
        }
        false
    }

    /// Whether a module's first step without a cycle is determined, below the limit.
    fn has_cycle(&self, owner: u32) -> bool
        requires { owner < length self.now.plan.design.modules }
        ensures some { result ≡ true
            → (c : ℕ) × IsDetermined (design self.now.plan) self.now.plan.cycles (theory_of self.now) owner c }
        ensures none { result ≡ false
            → (c : ℕ) → IsDetermined (design self.now.plan) self.now.plan.cycles (theory_of self.now) owner c → ⊥ }
    {
        let limit = self.plan.cycles;
        matches!(
            candidate(&self.engine.graph, &self.engine.fifos, owner, limit),
            Candidate::At(_)
        )
    }

    /// Adds the modules to a set of which a Run is permitted and whose run is not lent, as far as the set has room for them.
    pub fn add_ready(&mut self, ready: &mut ModuleSet)
        ensures unchanged { self.new ≡ self.old }
        ensures ready { (n : ℕ) → n < capacity ready.old → IsReady self.old n → Has ready.new n }
        ensures kept { (n : ℕ) → Has ready.old n → Has ready.new n }
        ensures only { (n : ℕ) → Has ready.new n → Has ready.old n ⊎ IsReady self.old n }
        ensures room { length ready.new ≡ length ready.old }
    {
        self.agrees();
        let mut from = 0;
        while let Some(owner) = self.next_running(from) {
            self.add_one_ready(owner, ready);
            from = owner + 1;
        }
    }

    /// Adds a module to a set, if a Run of it is permitted and its run is not lent. Where none is permitted, it is noted.
    fn add_one_ready(&mut self, owner: u32, ready: &mut ModuleSet)
        requires { owner < length self.old.plan.design.modules }
        ensures unchanged { self.new ≡ self.old }
        ensures ready { owner < capacity ready.old → IsReady self.old owner → Has ready.new owner }
        ensures kept { (n : ℕ) → Has ready.old n → Has ready.new n }
        ensures only { (n : ℕ) → Has ready.new n → Has ready.old n ⊎ IsReady self.old n }
        ensures room { length ready.new ≡ length ready.old }
    {
        if !self.may_run(owner) {
            self.rest(owner);
            return;
        }
        if !self.is_lent(owner) {
            ready.add(owner);
        }
    }

    /// Whether a module's run is lent.
    fn is_lent(&self, owner: u32) -> bool
        requires { owner < length self.now.plan.design.modules }
        ensures { result ≡ slice_index_or self.now.lent owner true }
    {
        self.runs[owner as usize].is_none()
    }
}
