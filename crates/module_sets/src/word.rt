//! The bits of one word.
ghost use Rattle.std.specs.Prelude.{ℕ, ◌<◌, ◌≤◌, IfSome, IsNone};
ghost use Rattle.module_sets.specs.{IsSet, IsFirstBit};

/// The first bit of a word, from bit `from` on, that is 1. `None` where there is none.
pub(crate) fn first_bit(word: u64, from: u32) -> Option<u32>
    ensures first { IfSome result (λ bit. IsFirstBit word from bit) }
    ensures inside { IfSome result (λ bit. bit < 64) }
    ensures none { IsNone result → (bit : ℕ) → from ≤ bit → IsSet word bit → ⊥ }
{
    let after = word.checked_shr(from)?;
    if after == 0 {
        None
    } else {
        Some(from + after.trailing_zeros())
    }
}
