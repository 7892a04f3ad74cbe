//! A few modules whose numbers lie close together.

/// Up to 64 modules: bit `k` of `bits` stands for module `64 * word + k`.
#[derive(Clone, Copy, Debug, PartialEq, Eq)]
pub struct Mask {
    pub word: u32,
    pub bits: u64,
}
