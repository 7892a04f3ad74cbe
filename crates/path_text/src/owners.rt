//! The modules at the ends of channels.
ghost use Rattle.std.specs.Prelude.{◌≡◌, IfOk};
ghost use Rattle.path_text.specs.{FitsEngine, owners_at};

use flow_design::Plan;
use flow_word::{OutOfMemory, Side};
use sim_core::find_users;
use std::alloc::Global;

/// The module at a side of each channel, the first if there were more; the number of modules where there is none.
pub(crate) fn owners(alloc: Global, plan: &Plan, side: Side) -> Result<Vec<u32>, OutOfMemory>
    requires { FitsEngine plan.now }
    ensures { IfOk result (λ found. found.items ≡ owners_at plan.now side) }
{
    find_users(alloc, plan, side)
}
