//! The answers to the queries of a module's first step without a cycle.
ghost use Rattle.std.specs.Prelude.{◌≡◌, ◌≢◌, ℕ, None, is_some, true};
ghost use Rattle.engine_view.specs.{log_at, held_in, kinds_in, IsSomeCore, HasUnsure, HasAnswered, KeepsRoom, first_outcome};

use crate::engine::Engine;
use crate::outcomes::{compare_outcomes, write_outcomes};
use crate::take::take_all;
use crate::turn::queries_among;
use event_graph::Place;
use outcome_guard::Guard;

impl Engine {
    /// Answers the queries of a module's first step without a cycle, in the clock `cycle`. An undecided query counts as not
    /// possible. The outcomes are added, or, where they are recorded, verified. Where a recorded outcome differs, nothing changes
    /// and the query is told. It takes no memory.
    pub fn answer_first(&mut self, owner: u32, cycle: u64) -> Guard
        requires core { IsSomeCore self.old }
        requires unsure { HasUnsure (held_in self.old) owner }
        ensures answered { HasAnswered result owner cycle self.old self.new }
        ensures graph { self.new.graph ≡ self.old.graph }
        ensures room { KeepsRoom self.old self.new }
        ensures kinds { kinds_in self.new.fifos.channels ≡ kinds_in self.old.fifos.channels }
        ensures others { (m : ℕ) → m ≢ owner → log_at self.new.log.logs m ≡ log_at self.old.log.logs m }
    {
        let step = self.graph.look(Place {
            module: owner,
            step: self.graph.frontier(owner),
        });
        match self.log.outcome(owner, step.first_query) {
            Some(_outcome) => self.confirm_outcomes(owner, cycle),
            None => {
                self.record_outcomes(owner, cycle);
                Guard::Same
            }
        }
    }

    /// Answers the queries of a module's first step without a cycle, whose outcomes are not recorded: adds the outcomes, and the
    /// pushes and pops that they decide.
    fn record_outcomes(&mut self, owner: u32, cycle: u64)
        requires core { IsSomeCore self.old }
        requires unsure { HasUnsure (held_in self.old) owner }
        requires fresh { first_outcome self.old owner ≡ None }
        ensures answered { HasAnswered Guard.Same owner cycle self.old self.new }
        ensures graph { self.new.graph ≡ self.old.graph }
        ensures room { KeepsRoom self.old self.new }
        ensures kinds { kinds_in self.new.fifos.channels ≡ kinds_in self.old.fifos.channels }
        ensures others { (m : ℕ) → m ≢ owner → log_at self.new.log.logs m ≡ log_at self.old.log.logs m }
    {
        let at = Place {
            module: owner,
            step: self.graph.frontier(owner),
        };
        let step = self.graph.look(at);
        write_outcomes(
            &self.graph,
            &self.fifos,
            &mut self.log,
            owner,
            cycle,
            &step.accesses,
        );
        take_all(
            &mut self.fifos,
            &self.log,
            at,
            step.first_query,
            &step.accesses,
            true,
        );
    }

    /// Answers the queries of a module's first step without a cycle, whose outcomes are recorded: verifies them, or tells the query
    /// whose outcome differs, and then nothing changes.
    fn confirm_outcomes(&mut self, owner: u32, cycle: u64) -> Guard
        requires core { IsSomeCore self.old }
        requires unsure { HasUnsure (held_in self.old) owner }
        requires recorded { is_some (first_outcome self.old owner) ≡ true }
        ensures answered { HasAnswered result owner cycle self.old self.new }
        ensures only_log { self.new ≡ record self.old { log = self.new.log } }
        ensures room { KeepsRoom self.old self.new }
        ensures others { (m : ℕ) → m ≢ owner → log_at self.new.log.logs m ≡ log_at self.old.log.logs m }
    {
        let step = self.graph.look(Place {
            module: owner,
            step: self.graph.frontier(owner),
        });
        match compare_outcomes(&self.graph, &self.fifos, &self.log, owner, cycle, &step) {
            Guard::Same => {
                let queries = queries_among(&step.accesses);
                self.log.verify_up_to(owner, step.first_query + queries);
                Guard::Same
            }
            Guard::Differs(query) => Guard::Differs(query),
        }
    }
}
