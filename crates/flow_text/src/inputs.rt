//! Reading `input`.
ghost use Rattle.std.specs.{Prelude.◌≡◌, Prelude.true, Prelude.map, Prelude.◌&&◌, Prelude.IfOk, Prelude.Some, List.list_all};
ghost use Rattle.flow_design.specs.declared.session.Statement.TheVariants.{Input};
ghost use Rattle.flow_text.specs.{is_number, token_is_name, number_of, only_if, input_of, words_within, input_reading, ReadsStatement};
ghost use Rattle.flow_text.specs.{reading_by};

use crate::ensure::{Parsed, ensure, syntax};
use crate::tables::Tables;
use flow_design::{Name, Statement};
use flow_grammar::{Code, LineFail, is_identifier, is_numeral, number_in};
use flow_word::{List, OutOfMemory, Words};
use std::alloc::Global;

/// Whether all tokens are numbers.
fn are_numerals(tokens: &[&[u8]]) -> bool
    ensures { result ≡ list_all is_number (map (λ t. t.now) tokens.now) }
{
    let mut rest = tokens;
    while let [token, after @ ..] = rest {
        if !is_numeral(token) {
            return false;
        }
        rest = after;
    }
    true
}

/// The numbers that these tokens write. `None` where one of them is 2^64 or more.
fn words_in(alloc: Global, tokens: &[&[u8]]) -> Result<Option<Words>, OutOfMemory>
    requires { list_all is_number (map (λ t. t.now) tokens.now) ≡ true }
    ensures { IfOk result (λ words. words ≡ words_within (map number_of (map (λ t. t.now) tokens.now))) }
{
    let mut words = List::with_room(alloc, tokens.len() as u64)?;
    let mut rest = tokens;
    while let [token, after @ ..] = rest {
        let Some(word) = number_in(token, 0, u64::MAX) else {
            return Ok(None);
        };
        words.push(word)?;
        rest = after;
    }
    Ok(Some(words))
}

/// The input of a source with these values, each below 2^64, or the first test that it fails.
fn given_input<'a>(
    alloc: Global,
    tables: &mut Tables<'a>,
    name: &'a [u8],
    words: Words,
) -> Parsed<Statement>
    ensures { ReadsStatement tables.old tables.new result (input_reading tables.old name.now (Some words)) }
{
    syntax(tables.place.takes_inputs())?;
    ensure(!tables.inputs.has(name), Code::DoubleName)?;
    ensure(tables.sources.has(name), Code::UnknownName)?;
    let count = words.len();
    let most = tables.limits.input_values;
    ensure(
        count <= most && tables.input_values <= most - count,
        Code::TooMany,
    )?;
    tables.add_input(name, count)?;
    Ok(Statement::Input(Name::new(alloc, name)?, words))
}

/// The input of a source with these values; or the first test that it fails, also where a value is 2^64 or more.
fn kept_input<'a>(
    alloc: Global,
    tables: &mut Tables<'a>,
    name: &'a [u8],
    words: Option<Words>,
) -> Parsed<Statement>
    ensures { ReadsStatement tables.old tables.new result (input_reading tables.old name.now words) }
{
    match words {
        Some(words) => given_input(alloc, tables, name, words),
        None => {
            syntax(tables.place.takes_inputs())?;
            Err(LineFail::Fault(Code::BadNumber))
        }
    }
}

/// The input of a source with these values.
#[tactic(auto, using(crate::proofs::FormLaws::input_read))]
fn new_input<'a>(
    alloc: Global,
    tables: &mut Tables<'a>,
    name: &'a [u8],
    values: &[&[u8]],
) -> Parsed<Statement>
    ensures { ReadsStatement tables.old tables.new result
        (reading_by tables.old
        (only_if (token_is_name name.now && list_all is_number (map (λ t. t.now) values.now))
        (Input name.now (map number_of (map (λ t. t.now) values.now))))) }
{
    syntax(is_identifier(name))?;
    syntax(are_numerals(values))?;
    let words = words_in(alloc, values)?;
    kept_input(alloc, tables, name, words)
}

/// `input N V V V`, with any number of values, after its keyword.
#[tactic(auto, unfolding(flow_grammar::specs::Forms::input_of))]
pub fn input<'a>(alloc: Global, tables: &mut Tables<'a>, tokens: &[&'a [u8]]) -> Parsed<Statement>
    ensures { ReadsStatement tables.old tables.new result (reading_by tables.old (input_of (map (λ t. t.now) tokens.now))) }
{
    match tokens {
        [name, values @ ..] => new_input(alloc, tables, *name, values),
        _ => Err(LineFail::Fault(Code::Syntax)),
    }
}
