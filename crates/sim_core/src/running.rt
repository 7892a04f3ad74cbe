//! Runs of the modules.
ghost use Rattle.std.specs.Prelude.{◌≡◌, ◌<◌, ◌≤◌, Bool, true, false, length, slice_index_or, slice_set, IfOk, IfSome, IsNone, OnErr};
ghost use Rattle.sim_core.specs.{Acts, MayRun, design, theory_of, IsAnswered, IsOut, HasDoneRuns, is_short};
ghost use Rattle.event_timing.specs.Actions.Action.{Run};

use crate::beside::wake_ran;
use crate::bodies::body_length;
use crate::machine::Core;
use crate::stretch::{Member, Stretch, StretchEnd, is_over, run_held};
use crate::wiring::ports_of;
use event_graph::Place;
use flow_word::OutOfMemory;
use module_interp::ModuleRun;
use run_ahead::first_missing;

impl Core {
    /// Does a module's Run, if it is permitted: commits the replies to the module's newest step, and emits its next mark. The
    /// module's run must not be lent. Returns whether the Run was permitted. Where it was not, and after `OutOfMemory`, nothing has
    /// changed. It takes memory only where the Run is permitted.
    pub fn run(&mut self, owner: u32) -> Result<bool, OutOfMemory>
        requires owner { owner < length self.old.plan.design.modules }
        requires here { slice_index_or self.old.lent owner true ≡ false }
        ensures acts { IfOk result (λ ran. ran ≡ true → Acts (design self.old.plan) self.old.plan.cycles (theory_of self.old) (Run owner)
            (theory_of self.new)) }
        ensures not_permitted { IfOk result (λ ran. ran ≡ false → MayRun (design self.old.plan) (theory_of self.old) owner → ⊥) }
        ensures unchanged { IfOk result (λ ran. ran ≡ false → self.new ≡ self.old) }
        ensures no_memory { OnErr result (self.new ≡ self.old) }
        ensures permitted { OnErr result (MayRun (design self.old.plan) (theory_of self.old) owner) }
        ensures plan { self.new.plan ≡ self.old.plan }
        ensures lent { self.new.lent ≡ self.old.lent }
    {
        let ran = self.run_up_to(owner, 1);
        if ran.end.is_short() {
            return Err(OutOfMemory);
        }
        if ran.runs == 0 {
            return Ok(false);
        }
        Ok(true)
    }

    /// Does Runs of a module as long as they are permitted, up to some number. The module's run must not be lent. It ends for want
    /// of memory only where a further Run is permitted.
    pub(crate) fn run_up_to(&mut self, owner: u32, most: u32) -> Stretch
        requires owner { owner < length self.old.plan.design.modules }
        requires here { slice_index_or self.old.lent owner true ≡ false }
        requires some { 0 < most }
        ensures ran { HasDoneRuns self.old owner result.runs self.new }
        ensures most { result.runs ≤ most }
        ensures none { result.runs ≡ 0 → is_short result.end ≡ false
            → MayRun (design self.old.plan) (theory_of self.old) owner → ⊥ }
        ensures fewer { is_short result.end ≡ true → result.runs < most }
        ensures more { is_short result.end ≡ true → MayRun (design self.new.plan) (theory_of self.new) owner }
    {
        let ran = self.run_stretch(owner, most);
        match ran.end {
            StretchEnd::On { .. } => ran,
            StretchEnd::Still => self.still(owner, ran.runs),
            StretchEnd::Short => ran,
        }
    }

    /// Does Runs of a module as long as they are permitted, up to some number. It ends for want of memory only where a further Run is
    /// permitted.
    #[inline(always)]
    fn run_stretch(&mut self, owner: u32, most: u32) -> Stretch
        requires owner { owner < length self.old.plan.design.modules }
        requires here { slice_index_or self.old.lent owner true ≡ false }
        requires some { 0 < most }
        ensures ran { HasDoneRuns self.old owner result.runs self.new }
        ensures most { result.runs ≤ most }
        ensures on { (asks : Bool) → result.end ≡ StretchEnd.On asks → 0 < result.runs }
        ensures still { result.end ≡ StretchEnd.Still → MayRun (design self.new.plan) (theory_of self.new) owner → ⊥ }
        ensures short { result.end ≡ StretchEnd.Short → result.runs < most }
        ensures more { result.end ≡ StretchEnd.Short → MayRun (design self.new.plan) (theory_of self.new) owner }
    {
        let member = Member {
            number: owner,
            ports: ports_of(&self.wiring.ports, owner),
            body: body_length(&self.wiring.bodies, owner),
        };
        let ran = run_held(
            &mut self.engine,
            &member,
            &mut self.runs[owner as usize],
            most,
        );
        let beside = self.wiring.hints.beside(owner);
        wake_ran(&mut self.due, beside, owner, ran.runs);
        ran
    }

    /// A stretch of so many Runs of a module, of which no further one is permitted.
    #[inline(always)]
    fn still(&mut self, owner: u32, runs: u32) -> Stretch
        requires { MayRun (design self.old.plan) (theory_of self.old) owner → ⊥ }
        ensures same { self.new ≡ self.old }
        ensures still { result ≡ record { runs = runs; end = StretchEnd.Still } }
    {
        self.rest(owner);
        Stretch {
            runs,
            end: StretchEnd::Still,
        }
    }

    /// Takes a module's run out of the core. `None` where it is lent. Then the run counts as lent.
    #[inline(always)]
    pub(crate) fn take_out(&mut self, owner: u32) -> Option<ModuleRun>
        requires { owner < length self.old.plan.design.modules }
        ensures out { IfSome result (λ run. IsOut self.new owner run) }
        ensures here { IfSome result (λ run. slice_index_or self.old.lent owner true ≡ false) }
        ensures lent { IfSome result (λ run. self.new ≡ record self.old { lent = slice_set self.old.lent owner true }) }
        ensures gone { IsNone result → slice_index_or self.old.lent owner true ≡ true }
        ensures none { IsNone result → self.new ≡ self.old }
    {
        self.runs[owner as usize].take()
    }

    /// Puts a module's run back. It must stand where the module's marks say.
    #[inline(always)]
    pub(crate) fn put_back(&mut self, owner: u32, run: ModuleRun)
        requires { IsOut self.old owner run }
        ensures { self.new ≡ record self.old { lent = slice_set self.old.lent owner false } }
    {
        self.runs[owner as usize] = Some(run);
    }

    /// Notes that no Run of a module is permitted.
    #[inline(always)]
    pub(crate) fn rest(&mut self, owner: u32)
        requires { MayRun (design self.old.plan) (theory_of self.old) owner → ⊥ }
        ensures { self.new ≡ self.old }
    {
        self.due.running.remove(owner);
    }

    /// Whether a Run of a module is permitted. Its run may be lent or not. It takes no memory.
    pub fn may_run(&self, owner: u32) -> bool
        requires { owner < length self.now.plan.design.modules }
        ensures some { result ≡ true → MayRun (design self.now.plan) (theory_of self.now) owner }
        ensures none { result ≡ false → MayRun (design self.now.plan) (theory_of self.now) owner → ⊥ }
    {
        !self.is_over(owner) && self.is_answered(owner)
    }

    /// Whether all replies to a module's newest step are there.
    fn is_answered(&self, owner: u32) -> bool
        requires { owner < length self.now.plan.design.modules }
        ensures some { result ≡ true → IsAnswered self.now.plan (theory_of self.now) owner }
        ensures none { result ≡ false → IsAnswered self.now.plan (theory_of self.now) owner → ⊥ }
    {
        let Some(last) = self.engine.graph.len(owner).checked_sub(1) else {
            return true;
        };
        let step = self.engine.graph.look(Place {
            module: owner,
            step: last,
        });
        first_missing(
            self.engine.log.outcomes(owner),
            &self.engine.fifos,
            step.first_query,
            &step.accesses,
        )
        .is_none()
    }

    /// Whether a module's end was emitted.
    pub fn is_over(&self, owner: u32) -> bool
        requires { owner < length self.now.plan.design.modules }
        ensures { result ≡ slice_index_or self.now.held.over owner false }
    {
        is_over(&self.engine, owner)
    }
}
