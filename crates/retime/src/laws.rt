//! What a retiming leaves.
ghost use Rattle.std.specs.Prelude.{ℕ, ◌<◌, length};
ghost use Rattle.retime.specs.{Edit, ModuleState, log_at, Design, Trace, IsAgreed, edited, core_of, Engine, held_in, OutcomesGrow};
ghost use Rattle.retime.specs.{IsEditOf, Guard as guard};

/// After a retiming the core agrees with the edited design's history. Of each module the log has the outcomes that it had: with no
/// further ones, or with further ones and all verified.
pub fn retimings_agree()
    ensures agreed { (d : Design ModuleState) (y z : Trace ModuleState) (limit : ℕ) (old new : Engine) (guard : guard)
        (e : Edit) (t : ℕ) → IsEditOf d y z limit old new guard e t
        → IsAgreed (edited d e.channel e.depth) z limit (core_of (edited d e.channel e.depth) (held_in new)) }
    ensures outcomes { (d : Design ModuleState) (y z : Trace ModuleState) (limit : ℕ) (old new : Engine) (guard : guard)
        (e : Edit) (t : ℕ) → IsEditOf d y z limit old new guard e t
        → (m : ℕ) → m < length old.log.logs → OutcomesGrow (log_at old.log.logs m) (log_at new.log.logs m) }
{}
