//! Reading the statements of channels.
ghost use Rattle.std.specs.Prelude.{◌≡◌, map, false, ◌&&◌, IfOk};
ghost use Rattle.flow_design.specs.declared.session.Statement.TheVariants.{Source, Sink, Fifo};
ghost use Rattle.flow_text.specs.{is_number, token_is_name, number_of, only_if, name_width, fifo_of, is_among, LineGives, default_depth};
ghost use Rattle.flow_text.specs.{default_delay, ReadsStatement, IsOfStatements, reading_by};

use crate::ensure::{Parsed, ensure, syntax};
use crate::tables::Tables;
use flow_design::limits::{FIFO_DELAY, FIFO_DEPTH};
use flow_design::{Name, Statement};
use flow_grammar::{Code, LineFail, is_identifier, is_numeral, number_in, width_of};
use flow_word::Width;
use std::alloc::Global;

/// The width of a new source or sink with this name, if it may stand here.
#[tactic(auto, unfolding(crate::specs::TableTests::fault_by))]
fn new_stream(tables: &Tables<'_>, name: &[u8], width: &[u8]) -> Parsed<Width>
    ensures source { LineGives (λ w. Source name.now w) result
        (reading_by tables.now (only_if (token_is_name name.now && is_number width.now) (Source name.now (number_of width.now)))) }
    ensures sink { LineGives (λ w. Sink name.now w) result
        (reading_by tables.now (only_if (token_is_name name.now && is_number width.now) (Sink name.now (number_of width.now)))) }
    ensures new { IfOk result (λ _. is_among tables.now.channels name.now ≡ false) }
{
    syntax(tables.place.takes_channels() && is_identifier(name) && is_numeral(width))?;
    let width = width_of(width).ok_or(LineFail::Fault(Code::BadNumber))?;
    ensure(!tables.channels.has(name), Code::DoubleName)?;
    ensure(
        tables.channels.has_room(tables.limits.channels),
        Code::TooMany,
    )?;
    Ok(width)
}

/// `source N W`, after its keyword.
pub fn source<'a>(alloc: Global, tables: &mut Tables<'a>, tokens: &[&'a [u8]]) -> Parsed<Statement>
    requires { IsOfStatements tables.old }
    ensures { ReadsStatement tables.old tables.new result (reading_by tables.old (name_width Source (map (λ t. t.now) tokens.now))) }
{
    let [name, width] = tokens else {
        return Err(LineFail::Fault(Code::Syntax));
    };
    let width = new_stream(tables, name, width)?;
    tables.add_source(*name)?;
    Ok(Statement::Source(Name::new(alloc, *name)?, width))
}

/// `sink N W`, after its keyword.
pub fn sink<'a>(alloc: Global, tables: &mut Tables<'a>, tokens: &[&'a [u8]]) -> Parsed<Statement>
    ensures { ReadsStatement tables.old tables.new result (reading_by tables.old (name_width Sink (map (λ t. t.now) tokens.now))) }
{
    let [name, width] = tokens else {
        return Err(LineFail::Fault(Code::Syntax));
    };
    let width = new_stream(tables, name, width)?;
    tables.add_sink(*name)?;
    Ok(Statement::Sink(Name::new(alloc, *name)?, width))
}

/// A FIFO with this name, width, depth and delay.
#[tactic(auto, unfolding(crate::specs::TableTests::fault_by))]
fn new_fifo<'a>(
    alloc: Global,
    tables: &mut Tables<'a>,
    name: &'a [u8],
    width: &[u8],
    depth: &[u8],
    delay: &[u8],
) -> Parsed<Statement>
    requires { IsOfStatements tables.old }
    ensures { ReadsStatement tables.old tables.new result
        (reading_by tables.old
        (only_if (token_is_name name.now && (is_number width.now && (is_number depth.now && is_number delay.now)))
        (Fifo name.now (number_of width.now) (number_of depth.now) (number_of delay.now)))) }
{
    syntax(tables.place.takes_channels() && is_identifier(name))?;
    syntax(is_numeral(width) && is_numeral(depth) && is_numeral(delay))?;
    let width = width_of(width).ok_or(LineFail::Fault(Code::BadNumber))?;
    let depth = number_in(depth, 1, FIFO_DEPTH).ok_or(LineFail::Fault(Code::BadNumber))?;
    let delay = number_in(delay, 1, FIFO_DELAY).ok_or(LineFail::Fault(Code::BadNumber))?;
    ensure(depth <= tables.limits.fifo_depth, Code::BadNumber)?;
    ensure(!tables.channels.has(name), Code::DoubleName)?;
    ensure(
        tables.channels.has_room(tables.limits.channels),
        Code::TooMany,
    )?;
    tables.add_fifo(name)?;
    let name = Name::new(alloc, name)?;
    Ok(Statement::Fifo {
        name,
        width,
        depth,
        delay,
    })
}

/// A FIFO with this name, width and depth, and delay 1.
#[tactic(auto, using(crate::proofs::FormLaws::without_delay))]
fn new_depth_fifo<'a>(
    alloc: Global,
    tables: &mut Tables<'a>,
    name: &'a [u8],
    width: &[u8],
    depth: &[u8],
) -> Parsed<Statement>
    requires { IsOfStatements tables.old }
    ensures { ReadsStatement tables.old tables.new result
        (reading_by tables.old
        (only_if (token_is_name name.now && (is_number width.now && is_number depth.now))
        (Fifo name.now (number_of width.now) (number_of depth.now) default_delay))) }
{
    new_fifo(alloc, tables, name, width, depth, b"1")
}

/// A FIFO with this name and width, depth 2 and delay 1.
#[tactic(auto, using(crate::proofs::FormLaws::without_depth))]
fn new_bare_fifo<'a>(
    alloc: Global,
    tables: &mut Tables<'a>,
    name: &'a [u8],
    width: &[u8],
) -> Parsed<Statement>
    requires { IsOfStatements tables.old }
    ensures { ReadsStatement tables.old tables.new result
        (reading_by tables.old
        (only_if (token_is_name name.now && is_number width.now) (Fifo name.now (number_of width.now) default_depth default_delay))) }
{
    new_fifo(alloc, tables, name, width, b"2", b"1")
}

/// `fifo N W`, `fifo N W DEPTH` or, in a version with delays, `fifo N W DEPTH DELAY`, after its keyword. A depth that is not
/// written is 2, and a delay 1.
#[tactic(auto, unfolding(flow_grammar::specs::Forms::fifo_of))]
pub fn fifo<'a>(alloc: Global, tables: &mut Tables<'a>, tokens: &[&'a [u8]]) -> Parsed<Statement>
    requires { IsOfStatements tables.old }
    ensures { ReadsStatement tables.old tables.new result
        (reading_by tables.old (fifo_of tables.old.version (map (λ t. t.now) tokens.now))) }
{
    match tokens {
        [name, width] => new_bare_fifo(alloc, tables, *name, *width),
        [name, width, depth] => new_depth_fifo(alloc, tables, *name, *width, *depth),
        [name, width, depth, delay] => {
            syntax(tables.has_delays())?;
            new_fifo(alloc, tables, *name, *width, *depth, *delay)
        }
        _ => Err(LineFail::Fault(Code::Syntax)),
    }
}
