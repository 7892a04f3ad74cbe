//! Reading all of a source.
ghost use Rattle.std.specs.Prelude.{◌≡◌, ◌+◌, ◌≤◌, ◌<◌, length, vec_len, IfOk, OnOk, IsErrOf};
ghost use Rattle.std.specs.Io.KnownBytes.{Consumes, IsAtEnd, Keeps};
ghost use Rattle.sim_io.specs.{HasCauseOf, LosesCount, LosesAtMost, Moves};

use crate::traits::Source;
use flow_word::{List, OutOfMemory};
use std::alloc::Global;
use thiserror::Error;

/// Why not all was read.
#[derive(Clone, Copy, Debug, PartialEq, Eq, Error)]
pub enum TakeFault {
    /// The source has failed.
    #[error("the source has failed")]
    ReadFault,
    /// The input has more bytes than the limit.
    #[error("the input is too long")]
    TooLong,
    /// Memory ran out.
    #[error("out of memory")]
    OutOfMemory,
}

impl From<OutOfMemory> for TakeFault {
    ghost use Rattle.std.specs.Prelude.{◌≡◌};
    ghost use Rattle.sim_io.specs.declared.reading.TakeFault.TheVariants.{OutOfMemory};

    ghost from_gives = { λ _ fault. fault ≡ OutOfMemory };

    fn from(_: OutOfMemory) -> Self {
        TakeFault::OutOfMemory
    }
}

/// How many bytes are asked of a source at once, at most.
const CHUNK: u64 = 65536;

/// Reads a source up to its end: all its bytes, of which there are at most `limit`. After a fault the bytes that were
/// taken are lost.
///
/// Where there are more, the fault is `TooLong`, and `limit + 1` bytes have been taken. After `ReadFault` at most
/// `limit` bytes have been taken, and after `OutOfMemory` at most `limit + 1`.
pub fn read_all<S: Source>(alloc: Global, source: &mut S, limit: u64) -> Result<List<u8>, TakeFault>
    ensures bytes { IfOk result (λ bytes. Consumes (S.left source.old) (S.left source.new) bytes) }
    ensures end { OnOk result (IsAtEnd (S.left source.new)) }
    ensures within { IfOk result (λ bytes. length bytes ≤ limit) }

    ensures cause { HasCauseOf TakeFault.ReadFault (S.faults source.old) (S.faults source.new) result }
    ensures read_some { IsErrOf result TakeFault.ReadFault → LosesAtMost (S.left source.old) (S.left source.new) limit }
    ensures too_long { IsErrOf result TakeFault.TooLong → LosesCount (S.left source.old) (S.left source.new) (limit + 1) }
    ensures no_memory { IsErrOf result TakeFault.OutOfMemory → LosesAtMost (S.left source.old) (S.left source.new) (limit + 1) }
{
    let mut all = List::new(alloc);
    let mut chunk = chunk_room(alloc)?;
    while all.len() <= limit {
        let want = (limit - all.len()).min(CHUNK - 1) as usize + 1;
        if take_more(source, &mut chunk[..want], &mut all)? == 0 {
            return Ok(all);
        }
    }
    Err(TakeFault::TooLong)
}

/// Takes the next bytes of a source into the chunk, adds them to those read so far, and answers how many they are: 0 at
/// the end of the source.
fn take_more<S: Source>(
    source: &mut S,
    chunk: &mut [u8],
    all: &mut List<u8>,
) -> Result<usize, TakeFault>
    requires { 0 < length chunk.old }
    ensures ok { IfOk result (λ n. Moves (S.left source.old) (S.left source.new) all.old all.new n) }
    ensures end { IfOk result (λ n. n ≡ 0 → IsAtEnd (S.left source.new)) }
    ensures within { IfOk result (λ n. n ≤ length chunk.old) }
    ensures cause { HasCauseOf TakeFault.ReadFault (S.faults source.old) (S.faults source.new) result }
    ensures kept { IsErrOf result TakeFault.ReadFault → Keeps (S.left source.old) (S.left source.new) }
    ensures never { IsErrOf result TakeFault.TooLong → ⊥ }
    ensures no_memory { IsErrOf result TakeFault.OutOfMemory → LosesAtMost (S.left source.old) (S.left source.new) (length chunk.old) }
{
    let count = match source.take(chunk) {
        Ok(count) => count,
        Err(_) => return Err(TakeFault::ReadFault),
    };
    all.extend_from_slice(&chunk[..count])?;
    Ok(count)
}

/// Room for one chunk.
fn chunk_room(alloc: Global) -> Result<Vec<u8>, OutOfMemory>
    ensures { IfOk result (λ room. vec_len room ≡ CHUNK) }
{
    Ok(vec![in alloc; 0u8; CHUNK as usize]?)
}
