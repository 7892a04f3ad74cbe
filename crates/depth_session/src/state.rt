//! What a session has: a core, or a plan alone.
ghost use Rattle.std.specs.Prelude.{◌≡◌};
ghost use Rattle.depth_session.specs.{plan_in};

use flow_design::Plan;
use sim_core::Core;

/// A core with the present plan. After a new run that ran out of memory there is the present plan alone.
#[derive(Drop)]
pub(crate) enum State {
    Core(Core),
    Plan(Plan),
}

impl State {
    /// The present plan.
    pub(crate) fn plan(&self) -> &Plan
        ensures { result.now ≡ plan_in self.now }
    {
        match self {
            State::Core(core) => core.plan(),
            State::Plan(plan) => plan,
        }
    }
}
