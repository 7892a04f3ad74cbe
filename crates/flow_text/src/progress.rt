//! How far a session is read.
ghost use Rattle.std.specs.Prelude.{◌≡◌, OnOk, IfOk, IfErr};
ghost use Rattle.flow_text.specs.{TextGives, TextFails, at_line, line_reading, with_statement, with_number, line_reading_by, accepted_if};
ghost use Rattle.flow_text.specs.{IsOfStatements, KeepsTables, IsOpening, IsLineAdded};

use crate::lines::line_statement;
use crate::tables::Tables;
use flow_design::Statement;
use flow_design::limits::Scale;
use flow_grammar::{LineFail, ReadFail, TextFault};
use flow_word::{List, OutOfMemory, Words};
use std::alloc::Global;

/// The statements that are read so far, with the numbers of their lines, what they declare, and the scale of the session.
#[derive(Drop)]
pub struct Progress<'a> {
    pub scale: Scale,
    pub tables: Tables<'a>,
    pub statements: List<Statement>,
    pub numbers: Words,
}

impl<'a> Progress<'a> {
    /// A session of this scale of which nothing is read.
    pub fn new(alloc: Global, scale: Scale) -> Progress<'a>
        ensures { IsOpening scale result }
    {
        Progress {
            scale,
            tables: Tables::new(alloc, scale),
            statements: List::new(alloc),
            numbers: List::new(alloc),
        }
    }
}

/// What a line says. A fault has the line's number.
fn numbered_statement<'a>(
    alloc: Global,
    tables: &mut Tables<'a>,
    number: u64,
    line: &'a [u8],
) -> Result<Option<Statement>, ReadFail>
    requires { IsOfStatements tables.old }
    ensures given { TextGives (λ s. s) result (at_line number (line_reading_by tables.old line.now)) }
    ensures kept { IfOk result (λ s. tables.new ≡ accepted_if tables.old s) }
{
    match line_statement(alloc, tables, line) {
        Ok(statement) => Ok(statement),
        Err(LineFail::OutOfMemory) => Err(ReadFail::OutOfMemory),
        Err(LineFail::Fault(code)) => Err(ReadFail::Text(TextFault { line: number, code })),
    }
}

/// Adds the statement of a line, if the line has one.
fn keep(
    statements: &mut List<Statement>,
    numbers: &mut Words,
    number: u64,
    statement: Option<Statement>,
) -> Result<(), OutOfMemory>
    ensures statements { OnOk result (statements.new ≡ with_statement statements.old statement) }
    ensures numbers { OnOk result (numbers.new ≡ with_number numbers.old number statement) }
{
    if let Some(statement) = statement {
        statements.push(statement)?;
        numbers.push(number)?;
    }
    Ok(())
}

/// Reads the line with this number. The error is the fault of the line, or `OutOfMemory`.
#[tactic(auto, using(crate::proofs::ReadingLaws::is_added, crate::proofs::ReadingLaws::line_fails))]
pub fn read_line<'a>(
    alloc: Global,
    progress: &mut Progress<'a>,
    number: u64,
    line: &'a [u8],
) -> Result<(), ReadFail>
    requires { KeepsTables progress.old }
    ensures ok { OnOk result (IsLineAdded progress.old progress.new number line.now) }
    ensures err { IfErr result (λ fail. TextFails fail
        (at_line number (line_reading progress.old.scale progress.old.statements line.now))) }
{
    match numbered_statement(alloc, &mut progress.tables, number, line) {
        Ok(statement) => {
            keep(
                &mut progress.statements,
                &mut progress.numbers,
                number,
                statement,
            )?;
            Ok(())
        }
        Err(fail) => Err(fail),
    }
}
