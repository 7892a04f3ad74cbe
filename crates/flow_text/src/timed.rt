//! Reading `at`.
ghost use Rattle.std.specs.Prelude.{◌≡◌, ◌+◌, ◌<◌, ◌^◌, true, nat_lt, map, option_map, IfOk, Option, Some, None, Ok, Err};
ghost use Rattle.flow_design.specs.declared.session.Statement.TheVariants.{At};
ghost use Rattle.flow_text.specs.{Name as NameValue, is_number, token_is_name, number_of, LineGives, takes_operations, op_form_of, op_of};
ghost use Rattle.flow_text.specs.{if_then, guarded_of, at_of, op_reading, timed_reading, ReadsStatement, reading_by};
ghost use Rattle.flow_text.specs.Operations as operations;

use crate::ensure::{Judged, Parsed, ensure, syntax};
use crate::operations::{TwoNames, load, set, store, try_read, try_write, two_names, write};
use crate::tables::Tables;
use flow_design::{Name, Op, Statement};
use flow_grammar::{
    Code, KnownNames, LineFail, Verb, is_identifier, is_numeral, is_word, number_in, verb_in,
};
use std::alloc::Global;

/// The operation that tokens write after this verb, or the first test that it fails.
fn form(
    alloc: Global,
    tables: &Tables<'_>,
    verb: Verb,
    tokens: &[&[u8]],
) -> Parsed<Judged<Op<Name>>>
    ensures { LineGives (λ o. o) result (op_reading tables.now (op_form_of verb (map (λ t. t.now) tokens.now))) }
{
    match verb {
        Verb::Set => set(alloc, tables, tokens),
        Verb::Load => load(alloc, tables, tokens),
        Verb::Store => store(alloc, tables, tokens),
        Verb::Read => two_names(alloc, tables, TwoNames::Read, tokens),
        Verb::Write => write(alloc, tables, tokens),
        Verb::TryRead => try_read(alloc, tables, tokens),
        Verb::TryWrite => try_write(alloc, tables, tokens),
        Verb::Empty => two_names(alloc, tables, TwoNames::Empty, tokens),
        Verb::Full => two_names(alloc, tables, TwoNames::Full, tokens),
    }
}

/// The operation that tokens write, of which the first must be a verb, or the first test that it fails.
#[tactic(auto, unfolding(flow_grammar::specs::Forms::op_of))]
fn operation(alloc: Global, tables: &Tables<'_>, tokens: &[&[u8]]) -> Parsed<Judged<Op<Name>>>
    ensures { LineGives (λ o. o) result (op_reading tables.now (op_of (map (λ t. t.now) tokens.now))) }
{
    let [verb, rest @ ..] = tokens else {
        return Err(LineFail::Fault(Code::Syntax));
    };
    let verb = verb_in(verb).ok_or(LineFail::Fault(Code::Syntax))?;
    form(alloc, tables, verb, rest)
}

/// The first test that fails, of an operation's code and the tests of what is beside it: whether the names are known, and whether
/// there is room.
fn first_code(known: bool, room: bool, code: Code) -> Code
    ensures { result ≡ operations.first_code known room code }
{
    match code {
        Code::BadNumber => Code::BadNumber,
        Code::UnknownName => Code::UnknownName,
        _ => {
            if !known {
                Code::UnknownName
            } else if !room {
                Code::TooMany
            } else {
                code
            }
        }
    }
}

/// The refusal of an operation that fails a test, or beside which an earlier test fails.
fn refused(
    tables: &mut Tables<'_>,
    offset: Option<u64>,
    known: bool,
    code: Code,
) -> Parsed<Statement>
    ensures { (guard : Option NameValue)
        → ReadsStatement tables.old tables.new result (timed_reading tables.old offset guard known (Err code)) }
{
    syntax(tables.place.takes_operations())?;
    ensure(offset.is_some(), Code::BadNumber)?;
    let code = first_code(known, tables.operations < tables.limits.operations, code);
    Err(LineFail::Fault(code))
}

/// The offset, if what is beside an operation that passes its own tests passes too; else the first test that fails.
fn tested_offset(tables: &Tables<'_>, offset: Option<u64>, known: bool) -> Judged<u64>
    ensures value { result
        ≡ operations.offset_there (takes_operations tables.now.place) (nat_lt tables.now.operations tables.now.limits.operations)
        offset known }
    ensures room { IfOk result (λ _. tables.now.operations + 1 < 2 ^ 64) }
{
    if !tables.place.takes_operations() {
        return Err(Code::Syntax);
    }
    let Some(offset) = offset else {
        return Err(Code::BadNumber);
    };
    if !known {
        return Err(Code::UnknownName);
    }
    if tables.operations >= tables.limits.operations {
        return Err(Code::TooMany);
    }
    Ok(offset)
}

/// The statement of an operation that passes its own tests, with its offset and its guard. `known` tells whether the guard is
/// known.
fn whole(
    tables: &mut Tables<'_>,
    offset: Option<u64>,
    guard: Option<Name>,
    known: bool,
    operation: Op<Name>,
) -> Parsed<Statement>
    ensures { ReadsStatement tables.old tables.new result (timed_reading tables.old offset guard known (Ok operation)) }
{
    match tested_offset(tables, offset, known) {
        Ok(offset) => {
            tables.add_operation();
            Ok(Statement::At(offset, guard, operation))
        }
        Err(code) => {
            // The drops are calls, since one at the end of the block is proved field by field, which takes twenty times as long.
            drop(guard);
            drop(operation);
            Err(LineFail::Fault(code))
        }
    }
}

/// The statement of an operation with its offset and its guard, or the first test that fails. `known` tells whether the guard is
/// known.
fn timed(
    tables: &mut Tables<'_>,
    offset: Option<u64>,
    guard: Option<Name>,
    known: bool,
    operation: Judged<Op<Name>>,
) -> Parsed<Statement>
    ensures { ReadsStatement tables.old tables.new result (timed_reading tables.old offset guard known operation) }
{
    match operation {
        Err(code) => refused(tables, offset, known, code),
        Ok(operation) => whole(tables, offset, guard, known, operation),
    }
}

/// The statement of an operation at this offset, without a guard.
fn unguarded(
    alloc: Global,
    tables: &mut Tables<'_>,
    offset: &[u8],
    tokens: &[&[u8]],
) -> Parsed<Statement>
    requires { is_number offset.now ≡ true }
    ensures { ReadsStatement tables.old tables.new result
        (reading_by tables.old (option_map (At (number_of offset.now) None) (op_of (map (λ t. t.now) tokens.now)))) }
{
    let offset = number_in(offset, 0, u64::MAX);
    let operation = operation(alloc, tables, tokens)?;
    timed(tables, offset, None, true, operation)
}

/// The statement of an operation at this offset, with this guard.
fn guarded(
    alloc: Global,
    tables: &mut Tables<'_>,
    offset: &[u8],
    register: &[u8],
    tokens: &[&[u8]],
) -> Parsed<Statement>
    requires { is_number offset.now ≡ true }
    ensures { ReadsStatement tables.old tables.new result
        (reading_by tables.old
        (if_then (token_is_name register.now)
        (option_map (At (number_of offset.now) (Some register.now)) (op_of (map (λ t. t.now) tokens.now))))) }
{
    if !is_identifier(register) {
        return Err(LineFail::Fault(Code::Syntax));
    }
    let offset = number_in(offset, 0, u64::MAX);
    let known = tables.is_known(register);
    let guard = Name::new(alloc, register)?;
    let operation = operation(alloc, tables, tokens)?;
    timed(tables, offset, Some(guard), known, operation)
}

/// The statement of an operation at this offset, with a guard or without one.
#[tactic(auto, using(crate::proofs::OperationLaws::guarded_one))]
fn with_offset(
    alloc: Global,
    tables: &mut Tables<'_>,
    offset: &[u8],
    tokens: &[&[u8]],
) -> Parsed<Statement>
    requires { is_number offset.now ≡ true }
    ensures { ReadsStatement tables.old tables.new result
        (reading_by tables.old (guarded_of (number_of offset.now) (map (λ t. t.now) tokens.now))) }
{
    match tokens {
        [] => unguarded(alloc, tables, offset, tokens),
        [_] => unguarded(alloc, tables, offset, tokens),
        [word, register, rest @ ..] => {
            if is_word(word, b"if") {
                guarded(alloc, tables, offset, *register, rest)
            } else {
                unguarded(alloc, tables, offset, tokens)
            }
        }
    }
}

/// `at OFF OP` or `at OFF if R OP`, after its keyword.
#[tactic(auto, unfolding(flow_grammar::specs::Forms::at_of))]
pub fn at<'a>(alloc: Global, tables: &mut Tables<'a>, tokens: &[&'a [u8]]) -> Parsed<Statement>
    ensures { ReadsStatement tables.old tables.new result (reading_by tables.old (at_of (map (λ t. t.now) tokens.now))) }
{
    let [offset, rest @ ..] = tokens else {
        return Err(LineFail::Fault(Code::Syntax));
    };
    syntax(is_numeral(offset))?;
    with_offset(alloc, tables, *offset, rest)
}
