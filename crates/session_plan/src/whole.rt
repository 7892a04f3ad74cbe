//! The plan and the edits of a session.
ghost use Rattle.std.specs.Prelude.{◌≡◌, ◌≤◌, ◌^◌, length, IfOk};
ghost use Rattle.session_plan.specs.{plan_of, edits_of, channels_of, channel_names};

use crate::channels::{channels_of, depths_of, edits_of, limits_of};
use crate::inputs::inputs_in;
use crate::modules::modules_of;
use crate::names::DeclaredNames;
use crate::scope::names_of;
use crate::section::Sort;
use flow_design::limits::Scale;
use flow_design::{Channel, Design, Edit, Plan, Statement};
use flow_word::{List, OutOfMemory};
use std::alloc::Global;

/// The plan of a session, and its edits.
#[derive(Debug, Drop, PartialEq)]
pub struct Checked {
    pub plan: Plan,
    /// The session's edits, in order. None of them is applied to the plan.
    pub edits: List<Edit>,
}

/// The plan and the edits that these statements write. Channels, modules, blocks, registers and memories are numbered in order of their
/// statements, and the temps of a body follow the module's registers. The number of a name that is not declared is the number of those
/// that are, and so out of range. Where no statement limits the operations of a module, the scale does. `OutOfMemory` where memory ran
/// out.
#[tactic(auto, unfolding(crate::specs::Plans::edits_of))]
pub fn elaborate(
    alloc: Global,
    scale: Scale,
    statements: &[Statement],
) -> Result<Checked, OutOfMemory>
    ensures plan { IfOk result (λ checked. checked.plan ≡ plan_of scale statements.now) }
    ensures edits { IfOk result (λ checked. checked.edits ≡ edits_of statements.now) }
    // The number of each channel fits 32 bits.
    ensures few { IfOk result (λ checked. length checked.plan.design.channels ≤ 2 ^ 30) }
{
    let names = names_of(alloc, Sort::Channels, statements)?;
    let edits = edits_of(alloc, &names, statements)?;
    let channels = channels_of(alloc, &names, statements)?;
    let plan = plan_in(alloc, scale, &names, channels, statements)?;
    Ok(Checked { plan, edits })
}

/// The plan, given its channels and their names.
#[tactic(auto, unfolding(crate::specs::Plans::plan_of))]
fn plan_in(
    alloc: Global,
    scale: Scale,
    names: &DeclaredNames,
    channels: List<Channel>,
    statements: &[Statement],
) -> Result<Plan, OutOfMemory>
    requires channels { channels ≡ channels_of statements.now }
    requires names { names.now ≡ channel_names statements.now }
    ensures plan { IfOk result (λ plan. plan ≡ plan_of scale statements.now) }
    ensures channels { IfOk result (λ plan. plan.design.channels ≡ channels) }
{
    let inputs = inputs_in(alloc, names, channels.as_slice(), statements)?;
    let depths = depths_of(alloc, channels.as_slice())?;
    let modules = modules_of(alloc, names, statements)?;
    let (cycles, ops) = limits_of(scale, statements);
    Ok(Plan {
        design: Design { channels, modules },
        inputs,
        cycles,
        ops,
        depths,
    })
}
