//! A change of a FIFO's depth.
ghost use Rattle.std.specs.Prelude.{◌≡◌, ◌+◌, ◌≤◌, true, false, map, unwrap_or};
ghost use Rattle.sim_core.specs.{EditFits, with_depth, cycle_bound, timed_below, IsFinal, design, IsSomeCore, cycles_in, steps_in_lanes};
ghost use Rattle.sim_core.specs.{IsEditIn, HasChanged, moved_in, theory_of, IsEdited, IsTrueGuard};

use crate::machine::Core;
use cycle_changes::{Changes, retime_changes};
use engine_view::Engine;
use flow_design::{Edit, edit_plan};
use flow_word::Steps;
use outcome_guard::Guard;
use retime::{first_touched, retime};
use std::sync::ledger::Ledger;

impl Core {
    /// Changes the depth of a FIFO in a final core.
    ///
    /// Where few cycles change, these alone are given anew, and the core is final again. Else all cycles from the first touched
    /// clock on are given anew, as far as that is permitted, so that the core agrees with the edited plan; `drive` does the rest.
    /// Where the outcome that is found for a query is not the recorded one, the query is told. Values that came back unread are
    /// dropped. It takes no memory.
    ///
    /// It ticks once for each step that gets another cycle, where these are few; else once for each cycle that it gives. The law
    /// `edits_set_few` bounds these ticks and those of `drive` together.
    pub fn edit<L: Ledger>(&mut self, edit: &Edit, steps: &mut Steps<L>) -> Guard
        requires is_final { IsFinal (design self.old.plan) self.old.plan.cycles (theory_of self.old) }
        requires fits { EditFits self.old.plan edit.now }
        ensures plan { self.new.plan ≡ with_depth self.old.plan edit.now.channel edit.now.depth }
        ensures edited { IsEdited self.old self.new edit.now result steps.old steps.new }
        ensures differs { IsTrueGuard result self.new }
        ensures lent { self.new.lent ≡ self.old.lent }
    {
        if self.engine.fifos.depth(edit.channel) == edit.depth {
            return Guard::Same;
        }
        let limit = self.plan.cycles;
        self.unread.truncate(0);
        self.due.fill();
        let from = first_touched(&self.engine.graph, &self.engine.fifos, edit);
        edit_plan(&mut self.plan, edit);
        if change_few(
            &mut self.engine,
            &mut self.scratch.changes,
            edit,
            from,
            limit,
            steps,
        ) {
            return Guard::Same;
        }
        retime(
            &mut self.engine,
            &mut self.wiring.hints,
            edit,
            from,
            limit,
            steps,
        )
    }
}

/// Gives new cycles to the steps whose cycles an edit changes, if it touches a clock and they are few. Else nothing changes, and it
/// is false.
fn change_few<L: Ledger>(
    engine: &mut Engine,
    changes: &mut Changes,
    edit: &Edit,
    from: Option<u64>,
    limit: u64,
    steps: &mut Steps<L>,
) -> bool
    requires edit { IsEditIn engine.old.fifos.channels edit.now }
    requires limit { limit ≤ cycle_bound }
    requires core { IsSomeCore engine.old }
    ensures same { result ≡ false → engine.new ≡ engine.old }
    ensures same_ticks { result ≡ false → steps.new ≡ steps.old }
    ensures changed { result ≡ true → HasChanged edit.now limit engine.old engine.new }
    ensures ticked { result ≡ true → steps.new ≡ steps.old + moved_in engine.old.graph.lanes engine.new.graph.lanes }
    ensures few { result ≡ true → steps.new + cycles_in (map (timed_below (unwrap_or from limit)) engine.old.graph.lanes)
        ≤ steps.old + steps_in_lanes engine.old.graph.lanes }
{
    match from {
        Some(clock) => retime_changes(engine, changes, edit, clock, limit, steps),
        None => false,
    }
}
