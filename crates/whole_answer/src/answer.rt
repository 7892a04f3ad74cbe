//! Makes the whole answer: it reads what the words ask for, checks it, runs it, and writes what comes of it.
ghost use Rattle.std.specs.Prelude.{◌≡◌, ◌≢◌, ◌↔◌, [], false, map, string_bytes, IfOk, IfSome};
ghost use Rattle.whole_answer.specs.{HasCauseOf, IsAnswer, session_of, accepted, IsInRange, IsWithinBounds, refused_words, refused};
ghost use Rattle.whole_answer.specs.{generated, code_number, Answers, AnswersText, BeginsAnswer, HasCauses, takes_input};

use crate::ending::Ending;
use crate::host::Host;
use crate::laws::{one_answer, one_text_answer};
use crate::making::{make, summarize};
use cli_words::{Command, ScaledTask, WordFault, read_words};
use flow_check::{Checked, check};
use flow_design::limits::Scale;
use flow_design::{CheckedPlan, Session};
use flow_gen::{generate_session, generated_sessions_are_checked};
use flow_grammar::{Code, ReadFail, TextFault, keeps_rules};
use flow_text::read_session;
use flow_word::{List, OutOfMemory, Words};
use report_text::print_numbers;
use run_threads::Gate;
use session_plan::elaborate;
use sim_io::{Sink, Source, TakeFault, TellFault, read_all};
use std::alloc::Global;
use std::sync::Wait;
use std::thread::Threads;

/// A text for the sink, and the status of the program. It is the whole answer, or the part of it that is not written yet.
#[derive(Debug, Drop)]
pub(crate) struct Answer {
    pub text: List<u8>,
    pub ending: Ending,
}

/// Why there is no answer.
#[derive(Clone, Copy, Debug, PartialEq, Eq)]
pub(crate) enum Unanswered {
    /// The source has failed.
    ReadFault,
    /// The sink has failed.
    WriteFault,
    /// Memory ran out.
    OutOfMemory,
}

impl From<OutOfMemory> for Unanswered {
    ghost use Rattle.whole_answer.specs.declared.answer.Unanswered.TheVariants.{OutOfMemory as no_memory};

    ghost from_gives = { λ _ unanswered. unanswered ≡ no_memory };

    fn from(_: OutOfMemory) -> Self {
        Unanswered::OutOfMemory
    }
}

impl From<TellFault> for Unanswered {
    ghost use Rattle.sim_io.specs.declared.telling.TellFault.TheVariants.{WriteFault as not_written};
    ghost use Rattle.whole_answer.specs.declared.answer.Unanswered.TheVariants.{ReadFault as not_read, WriteFault as unwritten};

    ghost from_gives = { λ fault unanswered. (fault ≡ not_written ↔ unanswered ≡ unwritten) × (unanswered ≢ not_read) };

    fn from(fault: TellFault) -> Self {
        match fault {
            TellFault::WriteFault => Unanswered::WriteFault,
            TellFault::OutOfMemory => Unanswered::OutOfMemory,
        }
    }
}

/// The fault of a text that is too long. Its line is 0, since no line of the text is read.
const TOO_LONG: TextFault = TextFault {
    line: 0,
    code: Code::TooLong,
};

/// Begins the answer to the words, with what the source gives as the input: it writes a prefix of the answer's text, and returns
/// the rest. It writes nothing before it has read all.
pub(crate) fn answer_words<R: Threads + Wait + Sync, S: Source, G: Gate + Sync, K: Sink>(
    rt: &R,
    alloc: Global,
    words: &[String],
    source: &mut S,
    gate: &G,
    sink: &mut K,
) -> Result<Answer, Unanswered>
    ensures answers { IfSome (S.left source.old) (λ bytes.
        BeginsAnswer (Answers (map string_bytes words.now) bytes) (K.held sink.old) (K.held sink.new) result) }
    ensures causes { HasCauses result (S.faults source.old) (S.faults source.new) (K.faults sink.old) (K.faults sink.new) sink.old
        sink.new }

    ensures without_input { takes_input (accepted (map string_bytes words.now)) ≡ false
        → BeginsAnswer (Answers (map string_bytes words.now) []) (K.held sink.old) (K.held sink.new) result }
    ensures unread { takes_input (accepted (map string_bytes words.now)) ≡ false → source.new ≡ source.old }
    ensures reads_none { takes_input (accepted (map string_bytes words.now)) ≡ false → result ≢ Err Unanswered.ReadFault }
{
    one_answer();
    match read_words(alloc, words) {
        Ok(Command::Of(asked)) => answer_source(rt, alloc, &asked, source, gate, sink),
        Ok(Command::Gen { seed, modules }) => Ok(answer_generated(rt, alloc, seed, modules, gate)?),
        Err(WordFault::Refused) => Ok(refuse_words(alloc)?),
        Err(WordFault::OutOfMemory) => Err(Unanswered::OutOfMemory),
    }
}

/// Begins the answer to a command that takes input, with the text that the source gives: it writes a prefix, and returns the rest.
fn answer_source<R: Threads + Wait + Sync, S: Source, G: Gate + Sync, K: Sink>(
    rt: &R,
    alloc: Global,
    asked: &ScaledTask,
    source: &mut S,
    gate: &G,
    sink: &mut K,
) -> Result<Answer, Unanswered>
    requires { IsWithinBounds asked.now.scale asked.now.task }
    ensures answers { IfSome (S.left source.old) (λ bytes.
        BeginsAnswer (AnswersText asked.now bytes) (K.held sink.old) (K.held sink.new) result) }
    ensures causes { HasCauses result (S.faults source.old) (S.faults source.new) (K.faults sink.old) (K.faults sink.new) sink.old
        sink.new }
{
    one_text_answer();
    match read_all(alloc, source, asked.scale.limits().text_bytes) {
        Ok(text) => Ok(answer_text(rt, alloc, asked, text, gate, sink)?),
        Err(TakeFault::ReadFault) => Err(Unanswered::ReadFault),
        Err(TakeFault::TooLong) => Ok(refuse(alloc, TOO_LONG)?),
        Err(TakeFault::OutOfMemory) => Err(Unanswered::OutOfMemory),
    }
}

/// The answer to `gen`: the summary of the session of a seed. Its plan is made as that of any session. `OutOfMemory` where memory
/// ran out.
fn answer_generated<R: Threads + Wait + Sync, G: Gate + Sync>(
    rt: &R,
    alloc: Global,
    seed: u64,
    modules: u64,
    gate: &G,
) -> Result<Answer, OutOfMemory>
    requires { IsInRange (Command.Gen seed modules) }
    ensures { IfOk result (λ whole. whole ≡ generated seed modules) }
{
    generated_sessions_are_checked();
    let session = generate_session(alloc, seed, modules)?;
    let plan = elaborate(alloc, Scale::Standard, session.statements.as_slice())?.plan;
    summarize(rt, alloc, seed, modules, CheckedPlan::new(plan), gate)
}

/// Begins the answer to a text. It reads the text to a session and checks the session, at the scale that is asked for, and the task
/// makes the answer from it. It writes a prefix of the answer's text, and returns the rest. The text is freed once it is read.
fn answer_text<R: Threads + Wait + Sync, G: Gate + Sync, K: Sink>(
    rt: &R,
    alloc: Global,
    asked: &ScaledTask,
    text: List<u8>,
    gate: &G,
    sink: &mut K,
) -> Result<Answer, TellFault>
    requires { IsWithinBounds asked.now.scale asked.now.task }
    ensures answers { BeginsAnswer (AnswersText asked.now text) (K.held sink.old) (K.held sink.new) result }
    ensures cause { HasCauseOf TellFault.WriteFault (K.faults sink.old) (K.faults sink.new) result }
{
    keeps_rules();
    one_text_answer();
    let (session, lines) = match read_text(alloc, asked.scale, text) {
        Ok(read) => read,
        Err(ReadFail::Text(fault)) => return Ok(refuse(alloc, fault)?),
        Err(ReadFail::OutOfMemory) => return Err(TellFault::OutOfMemory),
    };
    match check(alloc, asked.scale, &session, &lines) {
        Ok(Checked { plan, edits }) => {
            let host = Host { rt, alloc, gate };
            make(&host, asked, session, CheckedPlan::new(plan), edits, sink)
        }
        Err(ReadFail::Text(fault)) => Ok(refuse(alloc, fault)?),
        Err(ReadFail::OutOfMemory) => Err(TellFault::OutOfMemory),
    }
}

/// Reads a text to a session, with the line of each statement, and frees the text. An error is the text's fault, or want of memory.
fn read_text(alloc: Global, scale: Scale, text: List<u8>) -> Result<(Session, Words), ReadFail>
    ensures answer { IsAnswer scale text (session_of result) }
{
    read_session(alloc, scale, text.as_slice())
}

/// The answer `refused words`. `OutOfMemory` where memory ran out.
fn refuse_words(alloc: Global) -> Result<Answer, OutOfMemory>
    ensures { IfOk result (λ whole. whole ≡ refused_words) }
{
    Ok(Answer {
        text: List::from_slice(alloc, b"refused words\n")?,
        ending: Ending::Words,
    })
}

/// The answer `refused LINE CODE`. `OutOfMemory` where memory ran out.
fn refuse(alloc: Global, fault: TextFault) -> Result<Answer, OutOfMemory>
    ensures { IfOk result (λ whole. whole ≡ refused fault) }
{
    let mut text = List::new(alloc);
    print_numbers(&mut text, b"refused", &[fault.line, number_of(fault.code)])?;
    Ok(Answer {
        text,
        ending: Ending::Text,
    })
}

/// The number that stands for a code in the answer.
fn number_of(code: Code) -> u64
    ensures { result ≡ code_number code }
{
    code as u64
}
