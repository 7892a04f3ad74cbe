//! Reading what comes in a wave before its later clocks.
ghost use Rattle.std.specs.Prelude.{◌≡◌, ◌<◌, ◌∷◌, ◌++◌, ℕ, List, IfSome, MatchOption, IsTrue};
ghost use Rattle.vcd_wave.specs.{is_name, numeral, declaring, NamesFrom, Headed, empty_text};

use crate::numbers::{number_before, split_once};
use flow_design::is_name;

/// The text after this prefix. `None` where it does not begin with the prefix.
#[tactic(auto, using(crate::proofs::Prefixes::prefix_is, crate::proofs::Prefixes::prefix_rest, crate::proofs::Prefixes::prefix_not))]
fn after<'a>(text: &'a [u8], prefix: &[u8]) -> Option<&'a [u8]>
    ensures some { IfSome result (λ rest. text.now ≡ prefix.now ++ rest.now) }
    ensures all { (rest : List ℕ) → text.now ≡ prefix.now ++ rest → MatchOption result ⊥ (λ found. found.now ≡ rest) }
{
    if text.starts_with(prefix) {
        Some(&text[prefix.len()..])
    } else {
        None
    }
}

/// The text after a prefix, this number and a byte. `None` where it does not begin so.
fn after_number<'a>(text: &'a [u8], prefix: &[u8], number: u64, byte: u8) -> Option<&'a [u8]>
    requires byte { byte < 48 }
    ensures some { IfSome result (λ rest. text.now ≡ prefix.now ++ (numeral 10 number ++ byte ∷ rest.now)) }
    ensures all { (rest : List ℕ) → text.now ≡ prefix.now ++ (numeral 10 number ++ byte ∷ rest)
        → MatchOption result ⊥ (λ found. found.now ≡ rest) }
{
    let digits = after(text, prefix)?;
    let (found, rest) = number_before(10, u64::MAX, byte, digits)?;
    if found == number { Some(rest) } else { None }
}

/// The text after the line that declares the FIFO with this number. `None` where it does not begin with such a line.
fn after_name(number: u64, text: &[u8]) -> Option<&[u8]>
    ensures some { IfSome result (λ rest. (name : List ℕ) × IsTrue (is_name name) × (text.now ≡ declaring number name rest.now)) }
    ensures all { (name rest : List ℕ) → IsTrue (is_name name) → text.now ≡ declaring number name rest
        → MatchOption result ⊥ (λ found. found.now ≡ rest) }
{
    let line = after_number(text, b"$var wire 32 f", number, b' ')?;
    let (name, end) = split_once(line, b' ')?;
    if is_name(name) {
        after(end, b"$end\n")
    } else {
        None
    }
}

/// How many names there are, and the text after them and `$u`. `None` where the text does not begin so.
fn names_in(text: &[u8]) -> Option<(u64, &[u8])>
    ensures some { IfSome result (λ found. NamesFrom 0 text.now found.0 found.1.now) }
    ensures all { (count : ℕ) (rest : List ℕ) → NamesFrom 0 text.now count rest
        → MatchOption result ⊥ (λ found. (found.0 ≡ count) × (found.1.now ≡ rest)) }
{
    let mut count = 0;
    let mut rest = text;
    loop {
        match after(rest, b"$u") {
            Some(end) => return Some((count, end)),
            None => {
                rest = after_name(count, rest)?;
                count += 1;
            }
        }
    }
}

/// The text after the lines that say that the first `count` FIFOs are empty. `None` where it does not begin with these lines.
fn after_empty(count: u64, text: &[u8]) -> Option<&[u8]>
    ensures some { IfSome result (λ rest. text.now ≡ empty_text 0 count ++ rest.now) }
    ensures all { (rest : List ℕ) → text.now ≡ empty_text 0 count ++ rest → MatchOption result ⊥ (λ found. found.now ≡ rest) }
{
    let mut rest = text;
    for number in 0..count {
        rest = after_number(rest, b"b0 f", number, b'\n')?;
    }
    Some(rest)
}

/// How many FIFOs are declared, and the text after clock 0. `None` where the text does not begin so.
pub fn header_in(text: &[u8]) -> Option<(u64, &[u8])>
    ensures some { IfSome result (λ found. Headed text.now found.0 found.1.now) }
    ensures all { (count : ℕ) (rest : List ℕ) → Headed text.now count rest
        → MatchOption result ⊥ (λ found. (found.0 ≡ count) × (found.1.now ≡ rest)) }
{
    let body = after(text, b"$timescale 1 ns $end\n$scope module flow $end\n")?;
    let (count, end) = names_in(body)?;
    let first = after(end, b"pscope $end\n$enddefinitions $end\n#0\n")?;
    let later = after_empty(count, first)?;
    Some((count, later))
}
