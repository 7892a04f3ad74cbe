//! How a run begins.
ghost use Rattle.std.specs.Prelude.{◌≡◌, ℕ, ◌<◌, length, IfOk, OnOk};
ghost use Rattle.module_interp.specs.{Plan as PlanOf, first_rest, IsPath, IsPathOf, LeadsTo, declared.path.Stage.TheVariants.Begun};

use crate::path::{Path, Stage};
use flow_design::CheckedPlan;
use flow_word::{List, OutOfMemory, TryCopy};
use module_code::{Notes, codes_of, open};
use std::alloc::Global;

/// The path of a module of a plan, at local clock 0 of the module's first block. `OutOfMemory` where memory ran out.
pub fn first_path(alloc: Global, plan: &CheckedPlan, number: u32) -> Result<Path, OutOfMemory>
    requires { number < length plan.now.design.modules }
    ensures leads { IfOk result (λ path. LeadsTo plan.now number (first_rest plan.now number) path) }
    ensures begun { IfOk result (λ path. path.stage ≡ Begun) }
{
    plan.fits();
    let of = plan.modules()[number as usize].try_copy(alloc)?;
    let state = open(alloc, &of)?;
    let codes = codes_of(alloc, plan.channels(), &of)?;
    Ok(Path {
        alloc,
        of,
        limit: plan.ops(),
        codes,
        state,
        stage: Stage::Begun,
        since: 0,
        notes: Notes::new(alloc),
        asked: List::new(alloc),
        scratch: List::new(alloc),
    })
}

/// Puts the path back to local clock 0 of the module's first block. Its code, and what else does not depend on the clock, stays.
/// `OutOfMemory` where memory ran out.
pub fn go_to_start(alloc: Global, path: &mut Path) -> Result<(), OutOfMemory>
    requires path { IsPath path.old }
    ensures leads { OnOk result ((p : PlanOf) (i : ℕ) → IsPathOf p i path.old → LeadsTo p i (first_rest p i) path.new) }
    ensures begun { OnOk result (path.new.stage ≡ Begun) }
{
    path.state = open(alloc, &path.of)?;
    path.stage = Stage::Begun;
    path.since = 0;
    Ok(())
}
