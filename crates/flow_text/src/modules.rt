//! Reading modules, registers, memories, blocks, loops and temps.
ghost use Rattle.std.specs.Prelude.{◌≡◌, true, map, Some};
ghost use Rattle.flow_design.specs.declared.session.Statement.TheVariants.{Module, Reg, Block, Loop, Temp};
ghost use Rattle.flow_text.specs.{is_number, number_of, name_width, one_name, mem_of, loop_of, ReadsStatement, reading_by};

use crate::ensure::{Parsed, ensure, syntax};
use crate::tables::Tables;
use flow_design::limits::{ALL_MEMORY_WORDS, BLOCK_CLOCKS, MEMORY_WORDS};
use flow_design::{Name, Statement};
use flow_grammar::{Code, LineFail, is_identifier, is_numeral, is_word, number_in, width_of};
use std::alloc::Global;

/// `module N`, after its keyword.
#[tactic(auto, unfolding(crate::specs::TableTests::fault_by))]
pub fn module<'a>(alloc: Global, tables: &mut Tables<'a>, tokens: &[&'a [u8]]) -> Parsed<Statement>
    ensures { ReadsStatement tables.old tables.new result (reading_by tables.old (one_name Module (map (λ t. t.now) tokens.now))) }
{
    let [name] = tokens else {
        return Err(LineFail::Fault(Code::Syntax));
    };
    syntax(tables.place.takes_modules() && is_identifier(name))?;
    ensure(!tables.modules.has(name), Code::DoubleName)?;
    ensure(
        tables.modules.has_room(tables.limits.modules),
        Code::TooMany,
    )?;
    tables.add_module(*name)?;
    Ok(Statement::Module(Name::new(alloc, *name)?))
}

/// `reg N W`, after its keyword.
#[tactic(auto, unfolding(crate::specs::TableTests::fault_by))]
pub fn register<'a>(
    alloc: Global,
    tables: &mut Tables<'a>,
    tokens: &[&'a [u8]],
) -> Parsed<Statement>
    ensures { ReadsStatement tables.old tables.new result (reading_by tables.old (name_width Reg (map (λ t. t.now) tokens.now))) }
{
    let [name, width] = tokens else {
        return Err(LineFail::Fault(Code::Syntax));
    };
    syntax(tables.place.takes_registers() && is_identifier(name) && is_numeral(width))?;
    let width = width_of(width).ok_or(LineFail::Fault(Code::BadNumber))?;
    ensure(!tables.has_register_or_memory(name), Code::DoubleName)?;
    ensure(
        tables.registers.has_room(tables.limits.registers),
        Code::TooMany,
    )?;
    tables.add_register(*name)?;
    Ok(Statement::Reg(Name::new(alloc, *name)?, width))
}

/// `mem N W LEN`, after its keyword.
#[tactic(auto, unfolding(crate::specs::TableTests::fault_by, flow_grammar::specs::Forms::mem_of))]
pub fn memory<'a>(alloc: Global, tables: &mut Tables<'a>, tokens: &[&'a [u8]]) -> Parsed<Statement>
    ensures { ReadsStatement tables.old tables.new result (reading_by tables.old (mem_of (map (λ t. t.now) tokens.now))) }
{
    let [name, width, len] = tokens else {
        return Err(LineFail::Fault(Code::Syntax));
    };
    syntax(tables.place.takes_registers() && is_identifier(name))?;
    syntax(is_numeral(width) && is_numeral(len))?;
    let width = width_of(width).ok_or(LineFail::Fault(Code::BadNumber))?;
    let len = number_in(len, 1, MEMORY_WORDS).ok_or(LineFail::Fault(Code::BadNumber))?;
    ensure(len <= tables.limits.memory_words, Code::BadNumber)?;
    ensure(!tables.has_register_or_memory(name), Code::DoubleName)?;
    ensure(
        tables.memories.has_room(tables.limits.memories),
        Code::TooMany,
    )?;
    ensure(tables.memory_words <= ALL_MEMORY_WORDS - len, Code::TooMany)?;
    tables.add_memory(*name, len)?;
    Ok(Statement::Mem(Name::new(alloc, *name)?, width, len))
}

/// `block N LEN`, after its keyword.
#[tactic(auto, unfolding(crate::specs::TableTests::fault_by))]
pub fn block<'a>(alloc: Global, tables: &mut Tables<'a>, tokens: &[&'a [u8]]) -> Parsed<Statement>
    ensures { ReadsStatement tables.old tables.new result (reading_by tables.old (name_width Block (map (λ t. t.now) tokens.now))) }
{
    let [name, len] = tokens else {
        return Err(LineFail::Fault(Code::Syntax));
    };
    syntax(tables.place.takes_blocks() && is_identifier(name) && is_numeral(len))?;
    let len = number_in(len, 1, BLOCK_CLOCKS).ok_or(LineFail::Fault(Code::BadNumber))?;
    ensure(len <= tables.limits.block_clocks, Code::BadNumber)?;
    ensure(!tables.blocks.has(name), Code::DoubleName)?;
    ensure(tables.blocks.has_room(tables.limits.blocks), Code::TooMany)?;
    tables.add_block(*name)?;
    Ok(Statement::Block(Name::new(alloc, *name)?, len))
}

/// A loop with this name, II and LEN, which goes on while its register is not 0.
#[tactic(auto, unfolding(crate::specs::TableTests::fault_by))]
fn new_loop<'a>(
    alloc: Global,
    tables: &mut Tables<'a>,
    name: &'a [u8],
    interval: &[u8],
    len: &[u8],
    register: &[u8],
) -> Parsed<Statement>
    requires interval { is_number interval.now ≡ true }
    requires len { is_number len.now ≡ true }
    ensures { ReadsStatement tables.old tables.new result
        (reading_by tables.old (Some (Loop name.now (number_of interval.now) (number_of len.now) register.now))) }
{
    syntax(tables.place.takes_blocks())?;
    let interval = number_in(interval, 1, BLOCK_CLOCKS).ok_or(LineFail::Fault(Code::BadNumber))?;
    let len = number_in(len, 1, BLOCK_CLOCKS).ok_or(LineFail::Fault(Code::BadNumber))?;
    let longest = tables.limits.block_clocks;
    ensure(interval <= longest && len <= longest, Code::BadNumber)?;
    ensure(!tables.blocks.has(name), Code::DoubleName)?;
    ensure(tables.registers.has(register), Code::UnknownName)?;
    ensure(tables.blocks.has_room(tables.limits.blocks), Code::TooMany)?;
    tables.add_block(name)?;
    let name = Name::new(alloc, name)?;
    let again = Name::new(alloc, register)?;
    Ok(Statement::Loop {
        name,
        interval,
        len,
        again,
    })
}

/// `loop N II LEN while R`, after its keyword.
#[tactic(auto, unfolding(flow_grammar::specs::Forms::loop_of))]
pub fn pipelined_loop<'a>(
    alloc: Global,
    tables: &mut Tables<'a>,
    tokens: &[&'a [u8]],
) -> Parsed<Statement>
    ensures { ReadsStatement tables.old tables.new result (reading_by tables.old (loop_of (map (λ t. t.now) tokens.now))) }
{
    let [name, interval, len, word, register] = tokens else {
        return Err(LineFail::Fault(Code::Syntax));
    };
    syntax(is_identifier(name) && is_numeral(interval) && is_numeral(len))?;
    syntax(is_word(word, b"while") && is_identifier(register))?;
    new_loop(alloc, tables, *name, *interval, *len, *register)
}

/// `temp N W`, after its keyword.
#[tactic(auto, unfolding(crate::specs::TableTests::fault_by))]
pub fn temp<'a>(alloc: Global, tables: &mut Tables<'a>, tokens: &[&'a [u8]]) -> Parsed<Statement>
    ensures { ReadsStatement tables.old tables.new result (reading_by tables.old (name_width Temp (map (λ t. t.now) tokens.now))) }
{
    let [name, width] = tokens else {
        return Err(LineFail::Fault(Code::Syntax));
    };
    syntax(tables.place.takes_temps() && is_identifier(name) && is_numeral(width))?;
    let width = width_of(width).ok_or(LineFail::Fault(Code::BadNumber))?;
    ensure(!tables.has_variable_or_memory(name), Code::DoubleName)?;
    ensure(tables.temps.has_room(tables.limits.temps), Code::TooMany)?;
    tables.add_temp(*name)?;
    Ok(Statement::Temp(Name::new(alloc, *name)?, width))
}
