//! Checking a session.
ghost use Rattle.std.specs.Prelude.{◌≡◌, ◌≤◌, ◌^◌, None, All, length, IfOk, IfErr};
ghost use Rattle.flow_check.specs.{EditFits, FitsEngine, KeepsReadingRules, plan_of, edits_of, fault_of, IsRefusal, KeepsScale};

use crate::place::line_of;
use crate::rules::checking_fault;
use flow_design::limits::Scale;
use flow_design::{Session, Statement};
use flow_grammar::{ReadFail, TextFault};
use flow_word::{OutOfMemory, Words};
use session_plan::{Checked, elaborate};
use std::alloc::Global;

/// Checks a session at a scale, and answers its plan and its edits. `lines` has the number of each statement's line. The error is
/// the session's checking fault, or `OutOfMemory`.
pub fn check(
    alloc: Global,
    scale: Scale,
    session: &Session,
    lines: &Words,
) -> Result<Checked, ReadFail>
    // A session that passes has no checking fault; the answer is its plan and its edits.
    ensures faultless { IfOk result (λ _. fault_of scale session.now.statements lines.now ≡ None) }
    ensures plan { IfOk result (λ checked. checked.plan ≡ plan_of scale session.now.statements) }
    ensures edits { IfOk result (λ checked. checked.edits ≡ edits_of session.now.statements) }
    // If the session was read, the engine takes the plan, the plan keeps the scale, and it takes each edit.
    ensures engine { KeepsReadingRules scale session.now.statements → IfOk result (λ checked. FitsEngine checked.plan) }
    ensures keeps { KeepsReadingRules scale session.now.statements → IfOk result (λ checked. KeepsScale scale checked.plan) }
    ensures editable { KeepsReadingRules scale session.now.statements → IfOk result (λ checked. All (EditFits checked.plan) checked.edits) }
    // A session that is refused has this checking fault.
    ensures fault { IfErr result (IsRefusal scale session.now.statements lines.now) }
{
    let statements = session.statements.as_slice();
    let checked = elaborate(alloc, scale, statements)?;
    match fault_of(alloc, scale, &checked, statements, lines.as_slice())? {
        Some(fault) => Err(ReadFail::Text(fault)),
        None => Ok(checked),
    }
}

/// The checking fault of a session, from its plan. `None` where it has none.
fn fault_of(
    alloc: Global,
    scale: Scale,
    checked: &Checked,
    statements: &[Statement],
    lines: &[u64],
) -> Result<Option<TextFault>, OutOfMemory>
    requires plan { checked.now.plan ≡ plan_of scale statements.now }
    requires few { length checked.now.plan.design.channels ≤ 2 ^ 30 }
    ensures { IfOk result (λ fault. fault ≡ fault_of scale statements.now lines.now) }
{
    match checking_fault(alloc, scale, &checked.plan)? {
        Some((code, item)) => Ok(Some(TextFault {
            line: line_of(statements, lines, &item),
            code,
        })),
        None => Ok(None),
    }
}
