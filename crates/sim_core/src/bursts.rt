//! The law of running ahead.
ghost use Rattle.std.specs.Prelude.{◌≡◌, ℕ, ◌<◌, false, length, List as Items};
ghost use Rattle.sim_core.specs.{Plan, ModuleState, FitsEngine, Action, ActsAll, IsNoRunOf, runs, IsAgreed, design, lockstep_run, Task};
ghost use Rattle.sim_core.specs.{Burst, IsBurst, task_left, IsTaskOf, IsTaskFor, IsTaskLeft, rest_of};
ghost use Rattle.event_timing.specs.Core.{Core};

/// What is lent of a core is a task for it, and stays one while other modules act. A burst on a task for a core is as many
/// permitted Runs of the module as it has marks. They lead to a core at whose newest mark the burst's run stands, with what is left
/// of its mail. A burst on what was lent has at least one mark, unless memory ran out.
pub fn bursts_are_runs()
    ensures lent { (p : Plan) (x : Core ModuleState) (m : ℕ) (task : Task) → IsTaskOf p x m task → IsTaskFor p x m task }
    ensures kept { (p : Plan) → FitsEngine p → (x : Core ModuleState) → IsAgreed (design p) (lockstep_run p) p.cycles x
        → (m : ℕ) (task : Task) → IsTaskFor p x m task → (actions : Items Action) → IsNoRunOf m actions
        → (y : Core ModuleState) → ActsAll (design p) p.cycles x actions y → IsTaskFor p y m task }
    ensures runs { (p : Plan) → FitsEngine p → (x : Core ModuleState) → IsAgreed (design p) (lockstep_run p) p.cycles x
        → (m : ℕ) (task : Task) (burst : Burst) → IsTaskFor p x m task → IsBurst p m (rest_of p x m task) task burst
        → (y : Core ModuleState) × ActsAll (design p) p.cycles x (runs (length burst.emitted) m) y
        × IsTaskLeft p y m (task_left burst) }
    ensures marks { (p : Plan) → FitsEngine p → (x : Core ModuleState) → IsAgreed (design p) (lockstep_run p) p.cycles x
        → (m : ℕ) (task : Task) (burst : Burst) → IsTaskOf p x m task → IsBurst p m (rest_of p x m task) task burst
        → burst.short ≡ false → 0 < length burst.emitted }
{}
