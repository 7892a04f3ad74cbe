//! The names that a session declares.
ghost use Rattle.std.specs.{Prelude.◌≡◌, Prelude.IfOk, List.filter_map};
ghost use Rattle.session_plan.specs.Sections.{declared};

use crate::names::DeclaredNames;
use crate::section::{Sort, declared};
use flow_design::Statement;
use flow_word::OutOfMemory;
use std::alloc::Global;

/// The names that a module declares, without the temps of its bodies.
#[derive(Drop)]
pub(crate) struct ModuleNames<'a> {
    pub(crate) registers: DeclaredNames<'a>,
    pub(crate) memories: DeclaredNames<'a>,
    pub(crate) blocks: DeclaredNames<'a>,
}

/// The names of a sort that these statements declare, in order.
pub(crate) fn names_of<'a>(
    alloc: Global,
    sort: Sort,
    statements: &'a [Statement],
) -> Result<DeclaredNames<'a>, OutOfMemory>
    ensures { IfOk result (λ names. names ≡ filter_map (declared sort) statements.now) }
{
    let mut names = DeclaredNames::new(alloc);
    for statement in statements {
        if let Some(name) = declared(sort, statement) {
            names.add(name)?;
        }
    }
    Ok(names)
}
