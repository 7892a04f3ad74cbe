//! Writing all of a text.
ghost use Rattle.std.specs.{Prelude.◌≡◌, Prelude.◌<◌, Prelude.false, Prelude.length, Prelude.OnOk, Prelude.OnErr, Io.KnownBytes.Appends};
ghost use Rattle.sim_io.specs.{HasCause, AppendsPrefix};

use crate::traits::Sink;
use thiserror::Error;

/// Why not all was written.
#[derive(Clone, Copy, Debug, PartialEq, Eq, Error)]
pub enum PutFault {
    /// The sink has failed.
    #[error("the sink has failed")]
    WriteFault,
}

/// Writes all of a text. After a fault a prefix of it is written. An empty text leaves the sink as it was, and any other
/// leaves it unfinished.
pub fn write_all_of<K: Sink>(sink: &mut K, text: &[u8]) -> Result<(), PutFault>
    ensures ok { OnOk result (Appends (K.held sink.old) (K.held sink.new) text.now) }
    ensures err { OnErr result (AppendsPrefix (K.held sink.old) (K.held sink.new) text.now) }
    ensures cause { HasCause (K.faults sink.old) (K.faults sink.new) result }
    ensures unfinished { 0 < length text.now → K.is_finished sink.new ≡ false }
    ensures nothing { length text.now ≡ 0 → sink.new ≡ sink.old }
{
    let mut at = 0;
    while at < text.len() {
        match sink.put(&text[at..]) {
            Ok(count) => at += count,
            Err(_) => return Err(PutFault::WriteFault),
        }
    }
    Ok(())
}
