//! The turns of the performance pass.
ghost use Rattle.std.specs.Prelude.{◌≡◌, ℕ, ◌<◌, false, Some};
ghost use Rattle.sim_hub.specs.{ModuleState, MayEarliest, AllVerified, design, turned_by, after_timed, NoTiming, theory_of, TellsReady};
ghost use Rattle.sim_hub.specs.{entries_in, TimingIs};
ghost use Rattle.timing_bridge.specs.{Turned.Turned, declared.turn.HubTurn.TheVariants.Timed};

use super::HubLedger;
use crate::answer::PerfAnswer;
use flow_word::Steps;
use module_sets::ModuleSet;
use sim_core::Core;
use std::marker::Brand;
use std::sync::ledger::{Blank, Ledger as Ticks};
use timing_bridge::HubTurn;

impl HubLedger {
    /// Takes a turn of the performance pass, as `time` does. Then it adds to `ready` the modules of which a Run is permitted and whose
    /// desk is not out.
    pub(crate) fn time_telling(&mut self, ready: &mut ModuleSet) -> (PerfAnswer, bool)
        ensures timing { TimingIs (entries_in self.old) (entries_in self.new) result.0 result.1 }
        ensures tells { TellsReady (entries_in self.new) ready.old ready.new }
    {
        let answer = self.time();
        self.core.add_ready(ready);
        answer
    }

    /// Takes a turn of the performance pass: it does each permitted Assign and Answer, round after round; or, where none is permitted,
    /// one Earliest, if it is permitted. The second answer tells whether a turn was added.
    pub(crate) fn time(&mut self) -> (PerfAnswer, bool)
        ensures { TimingIs (entries_in self.old) (entries_in self.new) result.0 result.1 }
    {
        self.core.agrees();
        if self.short {
            return (PerfAnswer::Short, false);
        }
        // Room for this turn, for one turn of each desk that is out, and for one more.
        if self.turns.reserve(self.out + 2).is_err() {
            self.fall_short(0);
            return (PerfAnswer::Short, true);
        }
        let count = act::<Brand>(&mut self.core, Blank::new(1));
        if count > 0 {
            self.turns.push_reserved(HubTurn::Timed {
                pass: 0,
                actions: count,
            });
            return (PerfAnswer::Did(count), true);
        }
        if self.core.is_final() {
            (PerfAnswer::Over, false)
        } else {
            (PerfAnswer::Idle(self.count()), false)
        }
    }
}

/// Does each permitted Assign and Answer, round after round; or, where none is permitted, one Earliest. Answers how many actions
/// were done.
fn act<L: Ticks>(core: &mut Core, blank: Blank) -> u64
    requires name { blank.name ≡ L.name }
    requires parts { blank.parts ≡ L.parts }
    requires one { L.parts ≡ 1 }
    requires verified { AllVerified (theory_of core.old) }
    ensures plan { core.new.plan ≡ core.old.plan }
    ensures lent { core.new.lent ≡ core.old.lent }
    ensures did { 0 < result → (at : Turned ModuleState) → theory_of core.old ≡ at.core → at.short ≡ false
        → turned_by core.old.plan at (Timed 0 result) ≡ Some (after_timed at (theory_of core.new)) }
    ensures same { result ≡ 0 → theory_of core.new ≡ theory_of core.old }
    ensures no_timing { result ≡ 0 → NoTiming (design core.new.plan) core.new.plan.cycles (theory_of core.new) }
    ensures no_earliest { result ≡ 0 → (m c : ℕ)
        → MayEarliest (design core.new.plan) core.new.plan.cycles (theory_of core.new) m c → ⊥ }
{
    core.agrees();
    let mut steps = Steps::<L>::new(blank);
    let count = core.time_all(&mut steps);
    if count > 0 {
        return count;
    }
    if core.answer_earliest() { 1 } else { 0 }
}
