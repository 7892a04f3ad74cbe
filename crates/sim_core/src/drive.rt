//! All that is left to do.
ghost use Rattle.std.specs.Prelude.{◌≡◌, ℕ, ◌<◌, ◌≤◌, ◌⊎◌, true, false, length, slice_index_or, IfOk, IfSome, IsNone, OnErr};
ghost use Rattle.sim_core.specs.{MayRun, AllVerified, turns_left, design, theory_of, IsStill, Goes, HasDriven, visits_left};

use crate::machine::Core;
use crate::visit::Visit;
use engine_view::Cursor;
use flow_word::{OutOfMemory, Steps};
use outcome_guard::Guard;
use std::sync::ledger::Ledger;

/// The module that is visited next. Where nothing is permitted of it, the next one is looked for from number `from` on.
#[derive(Clone, Copy)]
struct Next {
    owner: u32,
    from: u32,
}

impl Core {
    /// Does permitted actions until the core is final, or until the outcome that is found for a query is not the assumed one. No run may be
    /// lent.
    ///
    /// It visits the modules of which something may have changed, and where there is none such, those of which something may be permitted.
    /// An Earliest comes only where there is none of these either. After `OutOfMemory` the actions so far stay, and the Run that asked for
    /// memory is still permitted.
    pub fn drive<L: Ledger>(&mut self, steps: &mut Steps<L>) -> Result<Guard, OutOfMemory>
        requires { (m : ℕ) → m < length self.old.plan.design.modules → slice_index_or self.old.lent m true ≡ false }
        ensures goes { Goes self.old steps.old self.new steps.new }
        ensures ended { IfOk result (λ guard. HasDriven guard self.new) }
        ensures no_memory { OnErr result ((m : ℕ) × MayRun (design self.new.plan) (theory_of self.new) m) }
        ensures same { AllVerified (theory_of self.old) → IfOk result (λ guard. guard ≡ Guard.Same) }
    {
        let mut cursor = Cursor::new(self.modules());
        let mut from = 0;
        loop {
            match self.next_visit(&mut cursor, from) {
                Some(next) => match self.visit(next.owner, steps)? {
                    Visit::Acted { again } => {
                        cursor.acted();
                        self.hint_around(next.owner, again);
                        from = 0;
                    }
                    Visit::Idle => from = next.from,
                    Visit::Differs(query) => return Ok(Guard::Differs(query)),
                },
                None => match self.answer_least() {
                    Some((owner, Guard::Same)) => {
                        cursor.acted();
                        self.hint(owner);
                        from = 0;
                    }
                    Some((_, Guard::Differs(query))) => return Ok(Guard::Differs(query)),
                    None => return Ok(Guard::Same),
                },
            }
        }
    }

    /// Hints a module.
    fn hint(&mut self, owner: u32)
        ensures { self.new ≡ self.old }
    {
        self.wiring.hints.hint(owner);
    }

    /// Hints the modules beside one that acted, and with `again` that module itself.
    fn hint_around(&mut self, owner: u32, again: bool)
        ensures { self.new ≡ self.old }
    {
        self.wiring.hints.hint_beside(owner);
        if again {
            self.hint(owner);
        }
    }

    /// The next hinted module; where there is none, the first from this one on of which something may be permitted. None where
    /// nothing is permitted of those, but perhaps an Earliest.
    fn next_visit(&mut self, cursor: &mut Cursor, from: u32) -> Option<Next>
        requires counted { cursor.old.count ≡ length self.old.plan.design.modules }
        ensures same { self.new ≡ self.old }
        ensures count { cursor.new.count ≡ cursor.old.count }
        ensures no_more { (actions : ℕ) → turns_left actions cursor.new ≤ turns_left actions cursor.old }
        ensures inside { IfSome result (λ next. next.owner < length self.old.plan.design.modules) }
        ensures less { IfSome result (λ next. (actions : ℕ)
            → visits_left actions cursor.new next.from < visits_left actions cursor.old from) }
        ensures still { IfSome result (λ next. (n : ℕ) → n < next.from → (n < from) ⊎ ((n ≡ next.owner) ⊎ IsStill self.old n)) }
        ensures none { IsNone result → (n : ℕ) → from ≤ n → n < length self.old.plan.design.modules → IsStill self.old n }
    {
        if let Some(owner) = self.next_hinted(cursor) {
            return Some(Next { owner, from });
        }
        self.agrees();
        let owner = self.next_due(from)?;
        Some(Next {
            owner,
            from: owner + 1,
        })
    }

    /// The next hinted module. It is not hinted any more. None where there is none.
    fn next_hinted(&mut self, cursor: &mut Cursor) -> Option<u32>
        ensures same { self.new ≡ self.old }
        ensures count { cursor.new.count ≡ cursor.old.count }
        ensures no_more { (actions : ℕ) → turns_left actions cursor.new ≤ turns_left actions cursor.old }
        ensures inside { IfSome result (λ m. m < cursor.old.count) }
        ensures less { IfSome result (λ m. (actions : ℕ) → turns_left actions cursor.new < turns_left actions cursor.old) }
    {
        let _at = cursor.at()?;
        if cursor.jump(&mut self.wiring.hints) {
            cursor.at()
        } else {
            None
        }
    }

    /// The first module from this one on of which something may be permitted. Of those before it nothing is, but perhaps an Earliest.
    fn next_due(&self, from: u32) -> Option<u32>
        ensures after { IfSome result (λ m. from ≤ m) }
        ensures inside { IfSome result (λ m. m < length self.now.plan.design.modules) }
        ensures before { IfSome result (λ m. (n : ℕ) → from ≤ n → n < m → IsStill self.now n) }
        ensures none { IsNone result → (n : ℕ) → from ≤ n → n < length self.now.plan.design.modules → IsStill self.now n }
    {
        let count = self.modules();
        self.due.first_from(from, count)
    }
}
