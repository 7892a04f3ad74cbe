//! Reading what a wave says that a FIFO holds.
ghost use Rattle.std.specs.Prelude.{◌≡◌, ℕ, ◌<◌, ◌↔◌, IsTrue, IfSome, Some};
ghost use Rattle.vcd_wave.specs.{TellsFill, LeadsFor};

use crate::header::header_in;
use crate::scan::{Probe, scan_lines};

/// Whether the lines are in order, and each change of each FIFO is to another number than before it.
fn each_varies(asked: Probe, text: &[u8]) -> bool
    ensures { IsTrue result ↔ ((fifo : ℕ) → fifo < asked.count → LeadsFor asked fifo text.now) }
{
    for fifo in 0..asked.count {
        let one = Probe {
            count: asked.count,
            fifo,
            clock: asked.clock,
        };
        match scan_lines(one, text) {
            Some(_) => {}
            None => return false,
        }
    }
    true
}

/// What the text of a wave says that this FIFO holds in this clock. `None` where the text is not that of a wave, or the wave has no
/// such FIFO, or ends before the clock.
///
/// It takes no memory. It goes over the text once for each FIFO that is declared, and once more, since each change must be to
/// another number than before it.
pub fn wave_fill(text: &[u8], fifo: u32, clock: u64) -> Option<u64>
    ensures some { IfSome result (TellsFill text.now fifo clock) }
    ensures all { (v : ℕ) → TellsFill text.now fifo clock v → result ≡ Some v }
{
    let (count, later) = header_in(text)?;
    let asked = Probe {
        count,
        fifo: fifo as u64,
        clock,
    };
    if asked.fifo >= count {
        return None;
    }
    if !each_varies(asked, later) {
        return None;
    }
    let scan = scan_lines(asked, later)?;
    if clock <= scan.clock {
        Some(scan.told)
    } else {
        None
    }
}
