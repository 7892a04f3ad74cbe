//! How many operations the bodies of the modules have.
ghost use Rattle.std.specs.Prelude.{◌≡◌, ◌<◌, length, slice_index, IfOk};
ghost use Rattle.sim_core.specs.{IsLongestBody, AreBodyLengths};

use flow_design::{CheckedPlan, Module};
use flow_word::{OutOfMemory, Words};
use std::alloc::Global;

/// For each module of a plan the most operations that one of its bodies has.
pub(crate) fn find_body_lengths(alloc: Global, plan: &CheckedPlan) -> Result<Words, OutOfMemory>
    ensures { IfOk result (λ lengths. AreBodyLengths plan.now (length plan.now.design.modules) lengths) }
{
    let mut lengths = Words::new(alloc);
    for of in plan.modules() {
        lengths.push(longest_body(of))?;
    }
    Ok(lengths)
}

/// The most operations that a body of the module has.
fn longest_body(of: &Module) -> u64
    ensures { IsLongestBody of.now result }
{
    let mut longest = 0;
    for block in of.blocks.as_slice() {
        longest = longest.max(block.ops.len());
    }
    longest
}

/// The most operations that a body of module `owner` has, out of the list for all modules.
pub(crate) fn body_length(lengths: &Words, owner: u32) -> u64
    requires { owner < length lengths.now }
    ensures { result ≡ slice_index lengths.now owner }
{
    lengths.as_slice()[owner as usize]
}
