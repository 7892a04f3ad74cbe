//! What passes do in their turns.
ghost use Rattle.std.specs.Prelude.{◌≡◌, ◌<◌, length, true, false};
ghost use Rattle.sim_hub.specs.{HasDeskOut, HasNoDeskOut, IsLater, module_of, module_view, perf_view, IsOfHub, IsPerfOf, DeskIs, OutIs};
ghost use Rattle.sim_hub.specs.{PerfIs, ReturnIs, IsDeskBurst, TellsReady};

use super::Hub;
use crate::answer::{Desk, PerfAnswer};
use crate::pass::{ModulePass, PerfPass};
use module_sets::ModuleSet;
use sim_core::Burst;
use std::sync::Wait;

impl Hub {
    /// Lends a module's run with its mail, if a Run of the module is permitted. It takes one turn.
    pub fn borrow_desk<R: Wait>(&self, rt: &R, pass: ModulePass) -> (ModulePass, Desk)
        requires own { IsOfHub self.now pass }
        requires home { HasNoDeskOut (module_of pass) (module_view pass) }
        ensures own { IsOfHub self.now result.0 × (module_of result.0 ≡ module_of pass) }
        ensures later { IsLater (module_view pass) (module_view result.0) }
        ensures answer { DeskIs (module_of pass) (module_view pass) (module_view result.0) result.1 }
        ensures out { OutIs (module_of pass) (module_view result.0) result.1 }
    {
        let ModulePass { place, which } = pass;
        let number = place.number;
        let mut turn = self.begin(rt, place);
        let (desk, added) = turn.value_mut().ledger.lend(number, which);
        let place = self.end(turn, number, added);
        let pass = ModulePass { place, which };
        (pass, desk)
    }

    /// Takes a module's run back, with the marks of its burst, and does as many Runs. Returns whether they were done: they were not
    /// where memory ran out in the burst, or for its marks. It takes one turn.
    pub fn return_desk<R: Wait>(&self, rt: &R, pass: ModulePass, burst: Burst) -> (ModulePass, bool)
        requires own { IsOfHub self.now pass }
        requires out { HasDeskOut (module_of pass) (module_view pass) }
        requires burst { IsDeskBurst (module_of pass) (module_view pass).seen burst }
        ensures own { IsOfHub self.now result.0 × (module_of result.0 ≡ module_of pass) }
        ensures later { IsLater (module_view pass) (module_view result.0) }
        ensures turn { ReturnIs (module_of pass) (length burst.emitted) (module_view pass) (module_view result.0) result.1 }
        ensures short { burst.short ≡ true → result.1 ≡ false }
        ensures home { HasNoDeskOut (module_of pass) (module_view result.0) }
    {
        let ModulePass { place, which } = pass;
        let number = place.number;
        let mut turn = self.begin(rt, place);
        let made = turn.value_mut().ledger.take_back(number, which, burst);
        let place = self.end(turn, number, true);
        let pass = ModulePass { place, which };
        (pass, made)
    }

    /// Does each permitted Assign and Answer, over the modules in order and round after round. Where none is permitted, and no Run
    /// either, it does one Earliest. It takes one turn.
    pub fn perf_turn<R: Wait>(&self, rt: &R, pass: PerfPass) -> (PerfPass, PerfAnswer)
        requires own { IsPerfOf self.now pass }
        ensures own { IsPerfOf self.now result.0 }
        ensures later { IsLater (perf_view pass) (perf_view result.0) }
        ensures answer { PerfIs (perf_view pass) (perf_view result.0) result.1 }
    {
        let PerfPass { place } = pass;
        let mut turn = self.begin(rt, place);
        let (answer, added) = turn.value_mut().ledger.time();
        let place = self.end(turn, 0, added);
        let pass = PerfPass { place };
        (pass, answer)
    }

    /// Does a turn as `perf_turn` does. It adds to `ready` the modules of which a Run is permitted then and whose desk is not out, as
    /// far as the set has room for them: so a caller can tell whom to wake.
    pub fn perf_turn_telling<R: Wait>(
        &self,
        rt: &R,
        pass: PerfPass,
        ready: &mut ModuleSet,
    ) -> (PerfPass, PerfAnswer)
        requires own { IsPerfOf self.now pass }
        ensures own { IsPerfOf self.now result.0 }
        ensures later { IsLater (perf_view pass) (perf_view result.0) }
        ensures answer { PerfIs (perf_view pass) (perf_view result.0) result.1 }
        ensures tells { TellsReady (perf_view result.0).seen ready.old ready.new }
    {
        let PerfPass { place } = pass;
        let mut turn = self.begin(rt, place);
        let (answer, added) = turn.value_mut().ledger.time_telling(ready);
        let place = self.end(turn, 0, added);
        let pass = PerfPass { place };
        (pass, answer)
    }
}
