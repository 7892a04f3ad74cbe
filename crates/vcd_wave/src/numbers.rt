//! Reading numbers in the digits of a wave.
ghost use Rattle.std.specs.Prelude.{◌≡◌, ◌≢◌, ℕ, ◌<◌, ◌≤◌, List, ◌∷◌, ◌++◌, IfSome, MatchOption, EachIndex, slice_index};
ghost use Rattle.vcd_wave.specs.{one_digit, digits_read, number_read, numeral};

/// The value after one more digit of this base. `None` where the byte is no digit, or the value is above `most`.
fn one_digit(base: u64, most: u64, value: u64, byte: u8) -> Option<u64>
    ensures { result ≡ one_digit base most value byte }
{
    let digit = u64::from(byte.checked_sub(b'0')?);
    if digit >= base {
        return None;
    }
    let next = value.checked_mul(base)?.checked_add(digit)?;
    if next <= most { Some(next) } else { None }
}

/// The value that digits of this base write. `None` where a byte is no digit, or the value is above `most`.
fn digits_in(base: u64, most: u64, digits: &[u8]) -> Option<u64>
    ensures { result ≡ digits_read base most 0 digits.now }
{
    let mut value = 0;
    for byte in digits {
        value = one_digit(base, most, value, *byte)?;
    }
    Some(value)
}

/// The number that digits of this base write. `None` where there is none, it has a leading zero, or it is above `most`.
fn number_in(base: u64, most: u64, digits: &[u8]) -> Option<u64>
    ensures { result ≡ number_read base most digits.now }
{
    match digits {
        [] | [b'0', _, ..] => None,
        _ => digits_in(base, most, digits),
    }
}

/// The text before the first byte of this value, and the text after it. `None` where there is no such byte.
pub fn split_once(text: &[u8], byte: u8) -> Option<(&[u8], &[u8])>
    ensures { MatchOption result (EachIndex text.now (λ k. slice_index text.now k ≢ byte)) (λ parts.
        (text.now ≡ parts.0.now ++ byte ∷ parts.1.now) × EachIndex parts.0.now (λ k. slice_index parts.0.now k ≢ byte)) }
{
    for (at, other) in text.iter().enumerate() {
        if *other == byte {
            return Some((&text[..at], &text[at + 1..]));
        }
    }
    None
}

/// The number whose digits in this base stand before the first such byte, and the text after that byte. `None` where these are no
/// digits, have a leading zero, or write a number above `most`.
pub fn number_before(base: u64, most: u64, byte: u8, text: &[u8]) -> Option<(u64, &[u8])>
    requires base { 2 ≤ base }
    requires byte { byte < 48 }
    ensures some { IfSome result (λ found. (text.now ≡ numeral base found.0 ++ byte ∷ found.1.now) × (found.0 ≤ most)) }
    ensures all { (n : ℕ) (rest : List ℕ) → n ≤ most → text.now ≡ numeral base n ++ byte ∷ rest
        → MatchOption result ⊥ (λ found. (found.0 ≡ n) × (found.1.now ≡ rest)) }
{
    let (digits, after) = split_once(text, byte)?;
    let number = number_in(base, most, digits)?;
    Some((number, after))
}
