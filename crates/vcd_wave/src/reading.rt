//! Reading the lines of a wave after its header.
ghost use Rattle.std.specs.Prelude.{◌≡◌, ℕ, ◌<◌, ◌^◌, List, ◌∷◌, ◌++◌, IfSome, MatchOption};
ghost use Rattle.vcd_wave.specs.{numeral, begun, FitsReader, WaveLine as Shown};

use crate::numbers::number_before;

/// A line of a wave after its header.
#[derive(Clone, Copy)]
pub enum WaveLine {
    /// The lines that follow are of this clock.
    Time(u64),
    /// The FIFO with this number holds this many elements from now on.
    Change { fifo: u64, fill: u64 },
}

/// The number that a text begins with, on a line of its own, and the text after that line. `None` where it does not begin so.
fn decimal_line(digits: &[u8]) -> Option<(u64, &[u8])>
    ensures some { IfSome result (λ found. digits.now ≡ numeral 10 found.0 ++ 10 ∷ found.1.now) }
    ensures all { (n : ℕ) (rest : List ℕ) → n < 2 ^ 64 → digits.now ≡ numeral 10 n ++ 10 ∷ rest
        → MatchOption result ⊥ (λ found. (found.0 ≡ n) × (found.1.now ≡ rest)) }
{
    number_before(10, u64::MAX, b'\n', digits)
}

/// The number of the FIFO whose code a text begins with, at the end of a line, and the text after that line. `None` where it does not begin
/// so.
fn code_in(code: &[u8]) -> Option<(u64, &[u8])>
    ensures some { IfSome result (λ found. code.now ≡ 102 ∷ (numeral 10 found.0 ++ 10 ∷ found.1.now)) }
    ensures all { (n : ℕ) (rest : List ℕ) → n < 2 ^ 64 → code.now ≡ 102 ∷ (numeral 10 n ++ 10 ∷ rest)
        → MatchOption result ⊥ (λ found. (found.0 ≡ n) × (found.1.now ≡ rest)) }
{
    match code {
        [b'f', digits @ ..] => decimal_line(digits),
        _ => None,
    }
}

/// The line of a clock, from the text after its `#`, and the text after that line. `None` where it is no such line.
fn time_in(digits: &[u8]) -> Option<(WaveLine, &[u8])>
    ensures some { IfSome result (λ first. (35 ∷ digits.now ≡ begun first.0 first.1.now) × FitsReader first.0) }
    ensures all { (l : Shown) (rest : List ℕ) → FitsReader l → 35 ∷ digits.now ≡ begun l rest
        → MatchOption result ⊥ (λ first. (first.0 ≡ l) × (first.1.now ≡ rest)) }
{
    let (clock, after) = decimal_line(digits)?;
    Some((WaveLine::Time(clock), after))
}

/// The line of a change, from the text after its `b`, and the text after that line. `None` where it is no such line.
fn change_in(bits: &[u8]) -> Option<(WaveLine, &[u8])>
    ensures some { IfSome result (λ first. (98 ∷ bits.now ≡ begun first.0 first.1.now) × FitsReader first.0) }
    ensures all { (l : Shown) (rest : List ℕ) → FitsReader l → 98 ∷ bits.now ≡ begun l rest
        → MatchOption result ⊥ (λ first. (first.0 ≡ l) × (first.1.now ≡ rest)) }
{
    let (fill, code) = number_before(2, 0xffff_ffff, b' ', bits)?;
    let (fifo, after) = code_in(code)?;
    Some((WaveLine::Change { fifo, fill }, after))
}

/// The first line of a text, and the text after it. `None` where it is no line of a wave.
pub fn first_line(text: &[u8]) -> Option<(WaveLine, &[u8])>
    ensures some { IfSome result (λ first. (text.now ≡ begun first.0 first.1.now) × FitsReader first.0) }
    ensures all { (l : Shown) (rest : List ℕ) → FitsReader l → text.now ≡ begun l rest
        → MatchOption result ⊥ (λ first. (first.0 ≡ l) × (first.1.now ≡ rest)) }
{
    match text {
        [b'#', digits @ ..] => time_in(digits),
        [b'b', bits @ ..] => change_in(bits),
        _ => None,
    }
}
