//! Writing sessions, statement by statement.
ghost use Rattle.std.specs.Prelude.{◌≡◌, [], ◌∷◌, ◌++◌, codes, map, decimal, IfOk, OnOk};
ghost use Rattle.flow_print.specs.{line, keyword_word, parts, token_of, statement_tokens, version_of, canonical_text};

use crate::operation::{print_guard, print_operation};
use flow_design::{Name, Op, Session, Statement};
use flow_grammar::{Keyword, has_delays};
use flow_word::{List, OutOfMemory, Width};
use report_text::{print_numbers, push_token, push_value, push_values};
use std::alloc::Global;

/// The canonical text of a session: one statement on each line, one space between tokens, numbers without leading zeros, the depth of
/// each FIFO written out, and its delay too in a version with delays. `OutOfMemory` where memory ran out.
#[tactic(auto, using(crate::proofs::Printed::next_line), unfolding(crate::specs::Canonical::canonical_text))]
pub fn print_session(alloc: Global, session: &Session) -> Result<List<u8>, OutOfMemory>
    ensures { IfOk result (λ text. text ≡ canonical_text session.now.statements) }
{
    let mut text = List::new(alloc);
    let statements = session.statements.as_slice();
    let version = version_of(statements);
    for statement in statements {
        print_statement(&mut text, version, statement)?;
    }
    Ok(text)
}

/// The version that the first statement of a session declares; 1 where it is no `flow`.
fn version_of(statements: &[Statement]) -> u64
    ensures { result ≡ version_of statements.now }
{
    match statements {
        [Statement::Flow(version), ..] => *version,
        _ => 1,
    }
}

/// Adds the line of a statement, in the form of this version of the language.
#[tactic(auto, using(crate::proofs::Printed::input_line))]
fn print_statement(
    text: &mut List<u8>,
    version: u64,
    statement: &Statement,
) -> Result<(), OutOfMemory>
    ensures { OnOk result (text.new ≡ text.old ++ line (statement_tokens version statement.now)) }
{
    match statement {
        Statement::Flow(number) => print_numbers(text, Keyword::Flow.word(), &[*number]),
        Statement::Source(name, width) => print_sized(text, Keyword::Source, name, *width),
        Statement::Sink(name, width) => print_sized(text, Keyword::Sink, name, *width),
        Statement::Fifo {
            name,
            width,
            depth,
            delay,
        } => print_fifo(text, version, name, *width, *depth, *delay),
        Statement::Module(name) => print_named(text, Keyword::Module, name, &[]),
        Statement::Reg(name, width) => print_sized(text, Keyword::Reg, name, *width),
        Statement::Mem(name, width, len) => print_memory(text, name, *width, *len),
        Statement::Block(name, len) => print_named(text, Keyword::Block, name, &[*len]),
        Statement::Loop {
            name,
            interval,
            len,
            again,
        } => { print_loop(text, name, *interval, *len, again) }
        Statement::Temp(name, width) => print_sized(text, Keyword::Temp, name, *width),
        Statement::At(offset, guard, op) => print_timed(text, *offset, guard, op),
        Statement::Goto(block) => print_named(text, Keyword::Goto, block, &[]),
        Statement::Branch {
            register,
            first,
            second,
        } => print_branch(text, register, first, second),
        Statement::Stop => print_numbers(text, Keyword::Stop.word(), &[]),
        Statement::Input(source, values) => {
            print_named(text, Keyword::Input, source, values.as_slice())
        }
        Statement::Limits { cycles, ops } => {
            print_numbers(text, Keyword::Limits.word(), &[*cycles, *ops])
        }
        Statement::Depth(fifo, depth) => print_named(text, Keyword::Depth, fifo, &[*depth]),
        Statement::End => print_numbers(text, Keyword::End.word(), &[]),
    }
}

/// Adds the line of a keyword, a name and numbers.
#[tactic(auto, using(report_text::proofs::LineLemmas::numbers_line))]
fn print_named(
    text: &mut List<u8>,
    keyword: Keyword,
    name: &Name,
    numbers: &[u64],
) -> Result<(), OutOfMemory>
    ensures { OnOk result (text.new ≡ text.old ++ line (keyword_word keyword ∷ name.now ∷ map decimal numbers.now)) }
{
    text.extend_from_slice(keyword.word())?;
    push_token(text, name.bytes())?;
    push_values(text, numbers)?;
    text.push(b'\n')
}

/// Adds the line of a keyword, a name and a width.
fn print_sized(
    text: &mut List<u8>,
    keyword: Keyword,
    name: &Name,
    width: Width,
) -> Result<(), OutOfMemory>
    ensures { OnOk result (text.new ≡ text.old ++ line (keyword_word keyword ∷ name.now ∷ decimal width ∷ [])) }
{
    print_named(text, keyword, name, &[width.number()])
}

/// Adds the line of a FIFO, in the form of this version of the language.
fn print_fifo(
    text: &mut List<u8>,
    version: u64,
    name: &Name,
    width: Width,
    depth: u64,
    delay: u64,
) -> Result<(), OutOfMemory>
    ensures { OnOk result (text.new ≡ text.old ++ line (statement_tokens version (Statement.Fifo name.now width depth delay))) }
{
    if has_delays(version) {
        print_named(text, Keyword::Fifo, name, &[width.number(), depth, delay])
    } else {
        print_named(text, Keyword::Fifo, name, &[width.number(), depth])
    }
}

/// Adds the line of a memory.
fn print_memory(text: &mut List<u8>, name: &Name, width: Width, len: u64) -> Result<(), OutOfMemory>
    ensures { OnOk result (text.new ≡ text.old ++ line (map token_of (parts (Statement.Mem name.now width len)))) }
{
    print_named(text, Keyword::Mem, name, &[width.number(), len])
}

/// Adds the line of a loop.
fn print_loop(
    text: &mut List<u8>,
    name: &Name,
    interval: u64,
    len: u64,
    again: &Name,
) -> Result<(), OutOfMemory>
    ensures { OnOk result
        (text.new ≡ text.old ++ line
        (keyword_word Keyword.Loop ∷ name.now ∷ decimal interval ∷ decimal len ∷ codes "while" ∷ again.now ∷ [])) }
{
    text.extend_from_slice(Keyword::Loop.word())?;
    push_token(text, name.bytes())?;
    push_value(text, interval)?;
    push_value(text, len)?;
    push_token(text, b"while")?;
    push_token(text, again.bytes())?;
    text.push(b'\n')
}

/// Adds the line of a branch.
#[tactic(auto, using(report_text::proofs::LineLemmas::line_of_four))]
fn print_branch(
    text: &mut List<u8>,
    register: &Name,
    first: &Name,
    second: &Name,
) -> Result<(), OutOfMemory>
    ensures { OnOk result (text.new ≡ text.old ++ line (keyword_word Keyword.Branch ∷ register.now ∷ first.now ∷ second.now ∷ [])) }
{
    text.extend_from_slice(Keyword::Branch.word())?;
    push_token(text, register.bytes())?;
    push_token(text, first.bytes())?;
    push_token(text, second.bytes())?;
    text.push(b'\n')
}

/// Adds the line of an operation with its offset and guard.
#[tactic(auto, using(crate::proofs::Printed::spaced_lines))]
fn print_timed(
    text: &mut List<u8>,
    offset: u64,
    guard: &Option<Name>,
    op: &Op<Name>,
) -> Result<(), OutOfMemory>
    ensures { OnOk result (text.new ≡ text.old ++ line (map token_of (parts (Statement.At offset guard.now op.now)))) }
{
    text.extend_from_slice(Keyword::At.word())?;
    push_value(text, offset)?;
    print_guard(text, guard)?;
    print_operation(text, op)?;
    text.push(b'\n')
}
