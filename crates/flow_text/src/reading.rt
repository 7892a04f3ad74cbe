//! Reading a text line by line.
ghost use Rattle.std.specs.Prelude.{◌≡◌, ◌≤◌, ◌+◌, [], ◌∷◌, length, position, IfOk, IfErr, Ok, Err, Result, ℕ, reverse, List as Items};
ghost use Rattle.std.specs.Option.{option_copied};
ghost use Rattle.flow_text.specs.{Statement as StatementValue, TextFault as FaultValue, lines_of, is_line_feed, TextGives, TextFails};
ghost use Rattle.flow_text.specs.{ended, reading, place_reached, is_complete, StandsFor, HasFault, IsAnswer, ReadsAs, session_of};
ghost use Rattle.flow_text.specs.{lines_left, bytes_left, KeepsTables, IsOpening, IsThrough, with_prefix};

use crate::progress::{Progress, read_line};
use flow_design::limits::Scale;
use flow_design::{Session, Statement};
use flow_grammar::{Code, ReadFail, SessionPlace, TextFault};
use flow_word::{List, Words};
use std::alloc::Global;

/// The place of the first line feed. `None` where there is none.
fn line_feed_at(text: &[u8]) -> Option<usize>
    ensures { result ≡ position is_line_feed text.now }
{
    text.iter().position(|byte| *byte == b'\n')
}

/// The first line of a text, and the text after its line feed. `None` where the text has no line feed.
fn first_line(text: &[u8]) -> (&[u8], Option<&[u8]>)
    ensures lines { lines_of text.now ≡ result.0.now ∷ lines_left (option_copied result.1) }
    ensures shorter { bytes_left (option_copied result.1) ≤ length text.now }
{
    match line_feed_at(text) {
        None => (text, None),
        Some(at) => {
            let (line, _) = text.split_at(at);
            let (_, after) = text.split_at(at + 1);
            (line, Some(after))
        }
    }
}

/// Reads all lines of a text, and answers how many they are.
fn read_on<'a>(alloc: Global, progress: &mut Progress<'a>, text: &'a [u8]) -> Result<u64, ReadFail>
    requires { IsOpening progress.old.scale progress.old }
    ensures ok { IfOk result (λ n. IsThrough progress.old.scale text.now progress.new n) }
    ensures err { IfErr result (λ fail. TextFails fail (reading progress.old.scale [] 0 (lines_of text.now))) }
{
    let mut number = 0u64;
    let mut left = Some(text);
    while let Some(rest) = left {
        let (line, after) = first_line(rest);
        number += 1;
        match read_line(alloc, progress, number, line) {
            Ok(()) => {}
            Err(fail) => return Err(fail),
        }
        left = after;
    }
    Ok(number)
}

/// The session, if its last statement is `end`; otherwise the fault of a text of `lines` lines without an `end`.
#[tactic(auto, using(crate::proofs::ReadingLaws::closes, crate::proofs::ReadingLaws::is_cut))]
fn closed(
    place: SessionPlace,
    statements: List<Statement>,
    numbers: Words,
    lines: u64,
) -> Result<(Session, Words), ReadFail>
    requires { place ≡ place_reached (reverse statements) }
    ensures { TextGives (λ read. (read.0.statements, read.1)) result
        (with_prefix statements numbers (ended (is_complete statements) lines)) }
{
    if !place.is_end() {
        return Err(ReadFail::Text(TextFault {
            line: lines,
            code: Code::Truncated,
        }));
    }
    Ok((Session { statements }, numbers))
}

/// The session that was read from `lines` lines, or the fault that it has no `end`.
#[tactic(auto, unfolding(crate::specs::TablesOf::tables_of, flow_grammar::specs::Gives::reading))]
fn finished(progress: Progress<'_>, lines: u64) -> Result<(Session, Words), ReadFail>
    requires { KeepsTables progress }
    ensures { TextGives (λ read. (read.0.statements, read.1)) result
        (with_prefix progress.entry.statements progress.entry.numbers (reading progress.entry.scale progress.entry.statements lines [])) }
{
    let Progress {
        tables,
        statements,
        numbers,
        ..
    } = progress;
    let place = tables.place;
    // The drop is a call, since one at the end of the block is proved field by field, which takes a hundred times as long.
    drop(tables);
    closed(place, statements, numbers, lines)
}

/// The session that the lines of a text give, or the first fault.
fn read_lines(alloc: Global, scale: Scale, text: &[u8]) -> Result<(Session, Words), ReadFail>
    ensures { TextGives (λ read. (read.0.statements, read.1)) result (reading scale [] 0 (lines_of text.now)) }
{
    let mut progress = Progress::new(alloc, scale);
    match read_on(alloc, &mut progress, text) {
        Ok(lines) => finished(progress, lines),
        Err(fail) => {
            // The drop is a call, since one at the end of the block is proved field by field, which takes a hundred times as long.
            drop(progress);
            Err(fail)
        }
    }
}

/// The session that a text stands for at a scale, or the fault that it has.
fn answer(alloc: Global, scale: Scale, text: &[u8]) -> Result<(Session, Words), ReadFail>
    ensures { IsAnswer scale text.now (session_of result) }
{
    if text.len() as u64 > scale.limits().text_bytes {
        return Err(ReadFail::Text(TextFault {
            line: 0,
            code: Code::TooLong,
        }));
    }
    read_lines(alloc, scale, text)
}

/// Reads a text at a scale. The answer is the session that the text stands for, with the number of each statement's line. The error
/// is the fault that the text has: the first test that its first failing line fails. The only other answer is `OutOfMemory`. At a
/// scale each text stands for one session or has one fault (`flow_grammar::one_answer`).
#[tactic(auto, using(flow_grammar::proofs::TextLaws::only_session, flow_grammar::proofs::TextLaws::only_fault))]
pub fn read_session(alloc: Global, scale: Scale, text: &[u8]) -> Result<(Session, Words), ReadFail>
    // The answer is right: the text stands for this session, or has this fault.
    ensures answer { IsAnswer scale text.now (session_of result) }
    // A text that stands for a session is read as that session.
    ensures session { (s : Items StatementValue) (l : Items ℕ) → StandsFor scale text.now s l → ReadsAs (session_of result) (Ok (s, l)) }
    // A text with a fault is refused with that fault.
    ensures fault { (f : FaultValue) → HasFault scale text.now f → ReadsAs (session_of result) (Err f) }
{
    answer(alloc, scale, text)
}
