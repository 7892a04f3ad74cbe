//! Reading one line.
ghost use Rattle.std.specs.{Prelude.◌≡◌, Prelude.◌∷◌, Prelude.map, Prelude.Ok, List.list_all};
ghost use Rattle.flow_text.specs.{is_permitted, form_of, statement_of, line_reading_by, tokens_reading_by, ReadsStatement, ReadsLine};
ghost use Rattle.flow_text.specs.{IsOfStatements, reading_by};

use crate::channels::{fifo, sink, source};
use crate::ends::{branch, edit, end, flow, goto, limits, stop};
use crate::ensure::Parsed;
use crate::inputs::input;
use crate::modules::{block, memory, module, pipelined_loop, register, temp};
use crate::tables::Tables;
use crate::timed::at;
use flow_design::Statement;
use flow_grammar::{Code, Keyword, LineFail, keyword_in, tokens_in};
use std::alloc::Global;

/// The statement that tokens write after this keyword.
fn form<'a>(
    alloc: Global,
    tables: &mut Tables<'a>,
    keyword: Keyword,
    tokens: &[&'a [u8]],
) -> Parsed<Statement>
    requires { IsOfStatements tables.old }
    ensures { ReadsStatement tables.old tables.new result
        (reading_by tables.old (form_of tables.old.version keyword (map (λ t. t.now) tokens.now))) }
{
    match keyword {
        Keyword::Flow => flow(tables, tokens),
        Keyword::Source => source(alloc, tables, tokens),
        Keyword::Sink => sink(alloc, tables, tokens),
        Keyword::Fifo => fifo(alloc, tables, tokens),
        Keyword::Module => module(alloc, tables, tokens),
        Keyword::Reg => register(alloc, tables, tokens),
        Keyword::Mem => memory(alloc, tables, tokens),
        Keyword::Block => block(alloc, tables, tokens),
        Keyword::Loop => pipelined_loop(alloc, tables, tokens),
        Keyword::Temp => temp(alloc, tables, tokens),
        Keyword::At => at(alloc, tables, tokens),
        Keyword::Goto => goto(alloc, tables, tokens),
        Keyword::Branch => branch(alloc, tables, tokens),
        Keyword::Stop => stop(tables, tokens),
        Keyword::Input => input(alloc, tables, tokens),
        Keyword::Limits => limits(tables, tokens),
        Keyword::Depth => edit(alloc, tables, tokens),
        Keyword::End => end(tables, tokens),
    }
}

/// The statement that a token, which must be a keyword, and the tokens after it write.
#[tactic(auto, unfolding(flow_grammar::specs::Forms::statement_of))]
fn statement_after<'a>(
    alloc: Global,
    tables: &mut Tables<'a>,
    keyword: &[u8],
    rest: &[&'a [u8]],
) -> Parsed<Statement>
    requires { IsOfStatements tables.old }
    ensures { ReadsStatement tables.old tables.new result
        (reading_by tables.old (statement_of tables.old.version (keyword.now ∷ map (λ t. t.now) rest.now))) }
{
    let keyword = keyword_in(keyword).ok_or(LineFail::Fault(Code::Syntax))?;
    form(alloc, tables, keyword, rest)
}

/// What the tokens of a line say: nothing where there is none, else the statement that they write.
#[tactic(auto, unfolding(crate::specs::Lines::tokens_reading_by))]
fn said<'a>(
    alloc: Global,
    tables: &mut Tables<'a>,
    tokens: &[&'a [u8]],
) -> Parsed<Option<Statement>>
    requires { IsOfStatements tables.old }
    ensures { ReadsLine tables.old tables.new result (tokens_reading_by tables.old (map (λ t. t.now) tokens.now)) }
{
    match tokens {
        [keyword, rest @ ..] => Ok(Some(statement_after(alloc, tables, *keyword, rest)?)),
        _ => Ok(None),
    }
}

/// Whether all bytes of a line are permitted.
fn are_permitted(line: &[u8]) -> bool
    ensures { result ≡ list_all is_permitted line.now }
{
    line.iter().all(|byte| is_permitted(*byte))
}

/// Whether a byte may stand in a line.
fn is_permitted(byte: u8) -> bool
    ensures { result ≡ is_permitted byte }
{
    byte == 9 || (byte == 13 || (32 <= byte && byte <= 126))
}

/// What a line says after the statements of these tables. The tables then have its statement too.
#[tactic(auto, unfolding(crate::specs::Lines::line_reading_by))]
pub fn line_statement<'a>(
    alloc: Global,
    tables: &mut Tables<'a>,
    line: &'a [u8],
) -> Parsed<Option<Statement>>
    requires { IsOfStatements tables.old }
    ensures { ReadsLine tables.old tables.new result (line_reading_by tables.old line.now) }
{
    if !are_permitted(line) {
        return Err(LineFail::Fault(Code::NotAscii));
    }
    let tokens = tokens_in(alloc, line)?;
    said(alloc, tables, tokens.as_slice())
}
