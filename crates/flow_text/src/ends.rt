//! Reading the terminators, and the statements before and after the modules.
ghost use Rattle.std.specs.Prelude.{map};
ghost use Rattle.flow_design.specs.declared.session.Statement.TheVariants.{Goto, Stop, Depth, End};
ghost use Rattle.flow_text.specs.{name_width, one_name, flow_of, branch_of, limits_of, bare, ReadsStatement, reading_by};

use crate::ensure::{Parsed, ensure, syntax};
use crate::tables::Tables;
use flow_design::limits::{EDITS, FIFO_DEPTH};
use flow_design::{Name, Statement};
use flow_grammar::{Code, LineFail, NEWEST, SessionPlace, is_identifier, is_numeral, number_in};
use std::alloc::Global;

/// `flow V`, after its keyword.
#[tactic(auto, unfolding(crate::specs::TableTests::fault_by, flow_grammar::specs::Forms::flow_of))]
pub fn flow<'a>(tables: &mut Tables<'a>, tokens: &[&'a [u8]]) -> Parsed<Statement>
    ensures { ReadsStatement tables.old tables.new result (reading_by tables.old (flow_of (map (λ t. t.now) tokens.now))) }
{
    let [version] = tokens else {
        return Err(LineFail::Fault(Code::Syntax));
    };
    syntax(tables.place.takes_flow() && is_numeral(version))?;
    let version = number_in(version, 1, NEWEST).ok_or(LineFail::Fault(Code::BadNumber))?;
    tables.add_flow(version);
    Ok(Statement::Flow(version))
}

/// `goto N`, after its keyword.
#[tactic(auto, unfolding(crate::specs::TableTests::fault_by))]
pub fn goto<'a>(alloc: Global, tables: &mut Tables<'a>, tokens: &[&'a [u8]]) -> Parsed<Statement>
    ensures { ReadsStatement tables.old tables.new result (reading_by tables.old (one_name Goto (map (λ t. t.now) tokens.now))) }
{
    let [block] = tokens else {
        return Err(LineFail::Fault(Code::Syntax));
    };
    syntax(tables.place.takes_operations() && is_identifier(block))?;
    tables.move_to(SessionPlace::AfterBody);
    Ok(Statement::Goto(Name::new(alloc, *block)?))
}

/// `branch R N N`, after its keyword.
#[tactic(auto, unfolding(crate::specs::TableTests::fault_by, flow_grammar::specs::Forms::branch_of))]
pub fn branch<'a>(alloc: Global, tables: &mut Tables<'a>, tokens: &[&'a [u8]]) -> Parsed<Statement>
    ensures { ReadsStatement tables.old tables.new result (reading_by tables.old (branch_of (map (λ t. t.now) tokens.now))) }
{
    let [register, first, second] = tokens else {
        return Err(LineFail::Fault(Code::Syntax));
    };
    syntax(tables.place.takes_operations() && is_identifier(register))?;
    syntax(is_identifier(first) && is_identifier(second))?;
    ensure(tables.registers.has(register), Code::UnknownName)?;
    tables.move_to(SessionPlace::AfterBody);
    let register = Name::new(alloc, *register)?;
    let first = Name::new(alloc, *first)?;
    let second = Name::new(alloc, *second)?;
    Ok(Statement::Branch {
        register,
        first,
        second,
    })
}

/// `stop`, after its keyword.
#[tactic(auto, unfolding(crate::specs::TableTests::fault_by))]
pub fn stop<'a>(tables: &mut Tables<'a>, tokens: &[&'a [u8]]) -> Parsed<Statement>
    ensures { ReadsStatement tables.old tables.new result (reading_by tables.old (bare Stop (map (λ t. t.now) tokens.now))) }
{
    syntax(tokens.is_empty() && tables.place.takes_operations())?;
    tables.move_to(SessionPlace::AfterBody);
    Ok(Statement::Stop)
}

/// `limits C OPS`, after its keyword.
#[tactic(auto, unfolding(crate::specs::TableTests::fault_by, flow_grammar::specs::Forms::limits_of))]
pub fn limits<'a>(tables: &mut Tables<'a>, tokens: &[&'a [u8]]) -> Parsed<Statement>
    ensures { ReadsStatement tables.old tables.new result (reading_by tables.old (limits_of (map (λ t. t.now) tokens.now))) }
{
    let [cycles, ops] = tokens else {
        return Err(LineFail::Fault(Code::Syntax));
    };
    syntax(tables.place.takes_inputs() && is_numeral(cycles) && is_numeral(ops))?;
    let cycles = number_in(cycles, 0, u64::MAX).ok_or(LineFail::Fault(Code::BadNumber))?;
    let ops = number_in(ops, 0, u64::MAX).ok_or(LineFail::Fault(Code::BadNumber))?;
    tables.move_to(SessionPlace::AmongEdits);
    Ok(Statement::Limits { cycles, ops })
}

/// `depth N D`, after its keyword.
#[tactic(auto, unfolding(crate::specs::TableTests::fault_by))]
pub fn edit<'a>(alloc: Global, tables: &mut Tables<'a>, tokens: &[&'a [u8]]) -> Parsed<Statement>
    ensures { ReadsStatement tables.old tables.new result (reading_by tables.old (name_width Depth (map (λ t. t.now) tokens.now))) }
{
    let [fifo, depth] = tokens else {
        return Err(LineFail::Fault(Code::Syntax));
    };
    syntax(tables.place.takes_edits() && is_identifier(fifo) && is_numeral(depth))?;
    let depth = number_in(depth, 1, FIFO_DEPTH).ok_or(LineFail::Fault(Code::BadNumber))?;
    ensure(depth <= tables.limits.fifo_depth, Code::BadNumber)?;
    ensure(tables.fifos.has(fifo), Code::UnknownName)?;
    ensure(tables.edits < EDITS, Code::TooMany)?;
    tables.add_edit();
    Ok(Statement::Depth(Name::new(alloc, *fifo)?, depth))
}

/// `end`, after its keyword.
#[tactic(auto, unfolding(crate::specs::TableTests::fault_by))]
pub fn end<'a>(tables: &mut Tables<'a>, tokens: &[&'a [u8]]) -> Parsed<Statement>
    ensures { ReadsStatement tables.old tables.new result (reading_by tables.old (bare End (map (λ t. t.now) tokens.now))) }
{
    syntax(tokens.is_empty() && tables.place.takes_edits())?;
    tables.move_to(SessionPlace::AtEnd);
    Ok(Statement::End)
}
