//! Writing a text in pieces, while it is made.
ghost use Rattle.std.specs.Prelude.{◌≡◌, ◌<◌, length, OnOk, OnErr};
ghost use Rattle.sim_io.specs.{HasCause, AppendsPrefix, IsTold};

use crate::traits::Sink;
use crate::writing::{PutFault, write_all_of};
use flow_word::{List, OutOfMemory};
use thiserror::Error;

/// Why a text was not written whole.
#[derive(Clone, Copy, Debug, PartialEq, Eq, Error)]
pub enum TellFault {
    /// The sink has failed.
    #[error("the sink has failed")]
    WriteFault,
    /// Memory ran out.
    #[error("out of memory")]
    OutOfMemory,
}

impl From<PutFault> for TellFault {
    ghost use Rattle.std.specs.Prelude.{◌≡◌};
    ghost use Rattle.sim_io.specs.declared.telling.TellFault.TheVariants.{WriteFault};

    ghost from_gives = { λ _ fault. fault ≡ WriteFault };

    fn from(_: PutFault) -> Self {
        TellFault::WriteFault
    }
}

impl From<OutOfMemory> for TellFault {
    ghost use Rattle.std.specs.Prelude.{◌≡◌};
    ghost use Rattle.sim_io.specs.declared.telling.TellFault.TheVariants.{OutOfMemory as no_memory};

    ghost from_gives = { λ _ fault. fault ≡ no_memory };

    fn from(_: OutOfMemory) -> Self {
        TellFault::OutOfMemory
    }
}

/// From how many collected bytes on a text is written. With lines shorter than 64 KiB at most 1 MiB is collected.
pub const PIECE: u64 = (1 << 20) - (1 << 16);

/// Writes the collected bytes of a text, where they are `PIECE` or more, and then holds none; fewer stay collected.
/// After a fault a prefix of them is written.
#[tactic(auto, using(crate::proofs::Pending::told_all, crate::proofs::Pending::told_none))]
pub fn write_full<K: Sink>(sink: &mut K, pending: &mut List<u8>) -> Result<(), PutFault>
    ensures ok { OnOk result (IsTold (K.held sink.old) (K.held sink.new) pending.new pending.old) }
    ensures short { OnOk result (length pending.new < PIECE) }
    ensures waits { length pending.old < PIECE → sink.new ≡ sink.old }
    ensures err { OnErr result (AppendsPrefix (K.held sink.old) (K.held sink.new) pending.old) }
    ensures cause { HasCause (K.faults sink.old) (K.faults sink.new) result }
{
    if pending.len() >= PIECE {
        write_all_of(sink, pending.as_slice())?;
        pending.truncate(0);
    }
    Ok(())
}
