//! The plan of a session text.
use crate::text::joined;
use flow_check::check;
use flow_design::CheckedPlan;
use flow_design::limits::Scale;
use flow_grammar::{ReadFail, keeps_rules};
use flow_text::read_session;
use std::alloc::Global;

/// The plan of a session text, without its edits. The error tells why the text is refused, or that memory ran out.
pub fn read_plan(alloc: Global, text: &[u8]) -> Result<CheckedPlan, ReadFail> {
    keeps_rules();
    let (session, lines) = read_session(alloc, Scale::Standard, text)?;
    let checked = check(alloc, Scale::Standard, &session, &lines)?;
    Ok(CheckedPlan::new(checked.plan))
}

/// The plan of a session text that is given in parts, without its edits. The error tells why the text is refused, or that memory ran
/// out.
pub fn plan_of(alloc: Global, parts: &[&[u8]]) -> Result<CheckedPlan, ReadFail> {
    let text = joined(alloc, parts)?;
    read_plan(alloc, text.as_slice())
}
