//! Refusals of sessions that are sound but that a command does not take.
ghost use Rattle.std.specs.Prelude.{◌≡◌, IfOk};
ghost use Rattle.whole_answer.specs.{not_taken};

use crate::answer::Answer;
use crate::ending::Ending;
use flow_word::{List, OutOfMemory};
use report_text::print_numbers;
use std::alloc::Global;

/// The code for a sweep with too many points.
pub(crate) const TOO_MANY_POINTS: u64 = 21;

/// The code for a session with a query under a command that takes none.
pub(crate) const HAS_QUERY: u64 = 22;

/// The answer `refused 0 CODE`. `OutOfMemory` where memory ran out.
pub(crate) fn refuse(alloc: Global, code: u64) -> Result<Answer, OutOfMemory>
    ensures { IfOk result (λ whole. whole ≡ not_taken code) }
{
    let mut text = List::new(alloc);
    print_numbers(&mut text, b"refused", &[0, code])?;
    Ok(Answer {
        text,
        ending: Ending::Text,
    })
}
