//! The clocks and changes of a wave, read in order, for one FIFO.
ghost use Rattle.std.specs.Prelude.{◌≡◌, IfSome, IsSome};
ghost use Rattle.vcd_wave.specs.{Scan as State, step, change_step, time_step, opening_scan, ScanLeads};

use crate::reading::{WaveLine, first_line};

/// A FIFO and a clock: what a wave is asked about.
#[derive(Clone, Copy)]
pub struct Probe {
    /// How many FIFOs are declared.
    pub count: u64,
    /// The number of the FIFO that is asked about.
    pub fifo: u64,
    /// The clock that is asked about.
    pub clock: u64,
}

/// What the lines that are read so far say.
#[derive(Clone, Copy)]
pub struct Scan {
    /// The clock of the last line that gives one.
    pub clock: u64,
    /// The least number of a FIFO that may change next in `clock`.
    pub next: u64,
    /// Whether `clock` has a change so far.
    pub some: bool,
    /// What the FIFO holds after these lines.
    pub fill: u64,
    /// What the FIFO holds in the clock that is asked about.
    pub told: u64,
}

/// What the lines say after a change in the present clock. `None` where the change is not in order.
fn change_step(asked: Probe, scan: Scan, fifo: u64, fill: u64) -> Option<Scan>
    ensures { result ≡ change_step asked scan fifo fill }
{
    let own = fifo == asked.fifo;
    if scan.next <= fifo && fifo < asked.count && !(own && fill == scan.fill) {
        Some(Scan {
            clock: scan.clock,
            next: fifo + 1,
            some: true,
            fill: if own { fill } else { scan.fill },
            told: if own && scan.clock <= asked.clock {
                fill
            } else {
                scan.told
            },
        })
    } else {
        None
    }
}

/// What the lines say after the line of a later clock. `None` where that line is not in order.
fn time_step(scan: Scan, clock: u64) -> Option<Scan>
    ensures { result ≡ time_step scan clock }
{
    if scan.some && scan.clock < clock {
        Some(Scan {
            clock,
            next: 0,
            some: false,
            fill: scan.fill,
            told: scan.told,
        })
    } else {
        None
    }
}

/// What the lines say after one more line. `None` where that line is not in order.
fn step(asked: Probe, scan: Scan, line: WaveLine) -> Option<Scan>
    ensures { result ≡ step asked scan line }
{
    match line {
        WaveLine::Time(clock) => time_step(scan, clock),
        WaveLine::Change { fifo, fill } => change_step(asked, scan, fifo, fill),
    }
}

/// What all lines of a text say. `None` where they are not in order.
pub fn scan_lines(asked: Probe, text: &[u8]) -> Option<Scan>
    ensures some { IfSome result (ScanLeads asked (opening_scan asked.count) text.now) }
    ensures all { (r : State) → ScanLeads asked (opening_scan asked.count) text.now r → IsSome result }
{
    let mut scan = Scan {
        clock: 0,
        next: asked.count,
        some: true,
        fill: 0,
        told: 0,
    };
    let mut rest = text;
    while !rest.is_empty() {
        let (line, after) = first_line(rest)?;
        scan = step(asked, scan, line)?;
        rest = after;
    }
    Some(scan)
}
