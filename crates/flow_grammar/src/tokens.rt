//! The tokens of a line, and what they are.
ghost use Rattle.std.specs.Prelude.{◌≡◌, ◌<◌, ◌≤◌, position, [], ◌∷◌, length, map, IfOk, IfSome, MatchOption};
ghost use Rattle.std.specs.List.{position_or_len};
ghost use Rattle.flow_grammar.specs.{tokens_of, is_separator, is_filler};

use flow_word::OutOfMemory;
use std::alloc::Global;

/// Whether a byte separates tokens: a tab, a carriage return or a space.
fn is_separator(byte: u8) -> bool
    ensures { result ≡ is_separator byte }
{
    matches!(byte, 9 | 13 | 32)
}

/// The place of the first byte that separates nothing. `None` where there is none.
fn filler_at(line: &[u8]) -> Option<usize>
    ensures { result ≡ position is_filler line.now }
{
    line.iter().position(|byte| !is_separator(*byte))
}

/// The place of the first byte that separates tokens. `None` where there is none.
fn separator_at(line: &[u8]) -> Option<usize>
    ensures { result ≡ position is_separator line.now }
{
    line.iter().position(|byte| is_separator(*byte))
}

/// Where the first token or comment of a line begins.
#[tactic(auto, using(crate::proofs::TokenLemmas::first_places))]
fn word_start(line: &[u8]) -> usize
    ensures value { result ≡ position_or_len is_filler line.now }
    ensures within { result ≤ length line.now }
{
    filler_at(line).unwrap_or(line.len())
}

/// Where the token ends with which a line begins.
#[tactic(auto, using(crate::proofs::TokenLemmas::first_places))]
fn word_end(line: &[u8]) -> usize
    ensures value { result ≡ position_or_len is_separator line.now }
    ensures within { result ≤ length line.now }
{
    separator_at(line).unwrap_or(line.len())
}

/// The first token of a line, and the line after it. `None` where there is no token.
fn first_token(line: &[u8]) -> Option<(&[u8], &[u8])>
    ensures token { MatchOption result (tokens_of line.now ≡ []) (λ found. tokens_of line.now ≡ found.0.now ∷ tokens_of found.1.now) }
    ensures shorter { IfSome result (λ found. length found.1.now < length line.now) }
{
    let (_, filled) = line.split_at(word_start(line));
    let (token, rest) = filled.split_at(word_end(filled));
    if token.is_empty() {
        return None;
    }
    if token[0] == b'#' {
        return None;
    }
    Some((token, rest))
}

/// The tokens of a line. `OutOfMemory` where memory ran out.
pub fn tokens_in(alloc: Global, line: &[u8]) -> Result<Vec<&[u8]>, OutOfMemory>
    ensures { IfOk result (λ tokens. map (λ t. t.now) tokens.items ≡ tokens_of line.now) }
{
    let mut tokens = Vec::new(alloc);
    let mut rest = line;
    while let Some((token, after)) = first_token(rest) {
        tokens.push(token)?;
        rest = after;
    }
    Ok(tokens)
}
