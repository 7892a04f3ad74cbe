//! A session made from a seed: modules in a row. It has no fault, and its text stands for it.
#![tactic(auto)]

ghost use Rattle.std.specs.Prelude.{◌≡◌, ◌≤◌, IfOk};
ghost use Rattle.flow_design.specs.declared.limits.TheConstants.{STANDARD};
ghost use Rattle.flow_gen.specs.{session_text};

mod draws;
mod laws;
mod session;

use flow_print::print_session;
use flow_word::{List, OutOfMemory};
pub use laws::{generated_sessions_are_checked, generated_texts_are_read};
pub use session::generate_session;
use std::alloc::Global;

/// The canonical text of the session with `modules` modules that a seed gives.
///
/// Each module adds a number of its own to 1,000 values on their way from a source to a sink. The seed determines these numbers,
/// the II of each module's loop, and the depths of the FIFOs between the modules. `OutOfMemory` where memory ran out.
pub fn generate(alloc: Global, seed: u64, modules: u64) -> Result<List<u8>, OutOfMemory>
    requires seed { seed ≤ 65_535 }
    requires some { 1 ≤ modules }
    requires most { modules ≤ STANDARD.modules }
    ensures { IfOk result (λ text. text ≡ session_text seed modules) }
{
    print_session(alloc, &generate_session(alloc, seed, modules)?)
}
