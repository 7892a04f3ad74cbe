//! The program as one call.
ghost use Rattle.std.specs.Prelude.{◌≡◌, ◌≢◌, ◌≤◌, [], false, map, string_bytes, IfSome};
ghost use Rattle.whole_answer.specs.{Rose, accepted, takes_input, Tells, TellsAnswer, TellsFaults};

use crate::answer::{Answer, Unanswered, answer_words};
use crate::status::Status;
use run_threads::Gate;
use sim_io::{PutFault, Sink, Source, write_all_of};
use std::alloc::Global;
use std::sync::Wait;
use std::thread::Threads;

/// Does what the words ask for, and writes the answer. `words` are the words after the program's own name, and the source gives the
/// text of the session. Where modules run on threads of their own, the gate makes their bursts.
///
/// The sink gets exactly the text of the whole answer, and the result is its status, except in three cases: the source has failed
/// and nothing was written; the sink has failed and a prefix was written; or memory ran out and a prefix was written. Each report
/// is written as it is made, by one `write_all_of`, and the rest of the answer by one more. For words that are refused, and for
/// `gen`, nothing is read.
pub fn omnisim<R: Threads + Wait + Sync, S: Source, K: Sink, G: Gate + Sync>(
    rt: &R,
    alloc: Global,
    words: &[String],
    source: &mut S,
    sink: &mut K,
    gate: &G,
) -> Status
    ensures tells { IfSome (S.left source.old) (λ bytes.
        TellsAnswer (map string_bytes words.now) bytes result (K.held sink.old) (K.held sink.new) (K.is_finished sink.new)) }
    ensures faults { TellsFaults result (S.faults source.old) (S.faults source.new) (K.faults sink.old) (K.faults sink.new) sink.old
        sink.new }

    ensures without_input { takes_input (accepted (map string_bytes words.now)) ≡ false
        → TellsAnswer (map string_bytes words.now) [] result (K.held sink.old) (K.held sink.new) (K.is_finished sink.new) }
    ensures unread { takes_input (accepted (map string_bytes words.now)) ≡ false → source.new ≡ source.old }
    ensures reads_none { takes_input (accepted (map string_bytes words.now)) ≡ false → result ≢ Status.ReadFault }
{
    match answer_words(rt, alloc, words, source, gate, sink) {
        Ok(rest) => tell(sink, &rest),
        Err(Unanswered::ReadFault) => Status::ReadFault,
        Err(Unanswered::WriteFault) => Status::WriteFault,
        Err(Unanswered::OutOfMemory) => Status::Memory,
    }
}

/// Writes the rest of an answer, finishes the sink, and returns the answer's status; `WriteFault` where the sink fails.
fn tell<K: Sink>(sink: &mut K, whole: &Answer) -> Status
    ensures told { Tells whole.now result (K.held sink.old) (K.held sink.new) (K.is_finished sink.new) }
    ensures write_fault { result ≡ Status.WriteFault → Rose (K.faults sink.old) (K.faults sink.new) }
    ensures sink_faults { K.faults sink.old ≤ K.faults sink.new }
    ensures reads_none { result ≢ Status.ReadFault }
{
    match write_all_of(sink, whole.text.as_slice()) {
        Ok(()) => {}
        Err(PutFault::WriteFault) => return Status::WriteFault,
    }
    match sink.finish() {
        Ok(()) => Status::of(whole.ending),
        Err(_) => Status::WriteFault,
    }
}
