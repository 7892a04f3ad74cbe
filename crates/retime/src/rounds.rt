//! Rounds over the modules, in which steps get cycles and queries answers.
ghost use Rattle.std.specs.Prelude.{◌≡◌, ◌+◌, ◌≤◌};
ghost use Rattle.retime.specs.{cycle_bound, kinds_in, IsSomeCore, KeepsRoom, HasGone, HasEndedForEach, only_steps, cycles_in};

use engine_view::{Cursor, Engine, Hints, Timing};
use flow_word::Steps;
use outcome_guard::Guard;
use std::sync::ledger::Ledger;

/// Does Assigns and Answers as long as one is permitted, or until an outcome that is found is not the assumed one.
///
/// At a module it does all that is permitted. Then it goes to the next hinted module, where something may have changed, or, if
/// there is none, to the next module. It takes no memory.
pub fn time_all<L: Ledger>(
    engine: &mut Engine,
    hints: &mut Hints,
    limit: u64,
    steps: &mut Steps<L>,
) -> Guard
    requires limit { limit ≤ cycle_bound }
    requires core { IsSomeCore engine.old }
    ensures hints { hints.new ≡ hints.old }
    ensures acts { HasGone limit engine.old engine.new }
    ensures ended { HasEndedForEach result limit engine.new }
    ensures core { IsSomeCore engine.new }
    ensures room { KeepsRoom engine.old engine.new }
    ensures steps_stay { only_steps engine.new.graph.lanes ≡ only_steps engine.old.graph.lanes }
    ensures kinds { kinds_in engine.new.fifos.channels ≡ kinds_in engine.old.fifos.channels }
    ensures ticks { steps.new + cycles_in engine.old.graph.lanes ≡ steps.old + cycles_in engine.new.graph.lanes }
{
    hints.clear();
    let mut cursor = Cursor::new(engine.graph.modules());
    while let Some(at) = cursor.at() {
        match engine.time_first(at, limit, steps) {
            Timing::Assigned(_) => {
                hints.hint_beside(at);
                cursor.acted();
            }
            Timing::Answered(_) => cursor.acted(),
            Timing::Differs(query) => return Guard::Differs(query),
            Timing::Nothing => cursor.passed_by(hints),
        }
    }
    Guard::Same
}
