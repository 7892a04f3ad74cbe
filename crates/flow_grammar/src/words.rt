//! Tests of a token: whether it is a word, a number or a name.
ghost use Rattle.std.specs.{Prelude.◌≡◌, Prelude.true, List.list_all, Char.is_ascii_digit};
ghost use Rattle.flow_grammar.specs.{is_word, is_number, token_is_name, number_of, number_within};

use flow_word::{Width, read_number};

/// Whether a token is the given word.
pub fn is_word(token: &[u8], word: &[u8]) -> bool
    ensures { result ≡ is_word token.now word.now }
{
    token == word
}

/// Whether a token is a number: digits, and at least one.
#[tactic(auto, using(crate::proofs::Numbers::number_tests))]
pub fn is_numeral(token: &[u8]) -> bool
    ensures { result ≡ is_number token.now }
{
    if token.is_empty() {
        false
    } else {
        all_digits(token)
    }
}

/// Whether each byte is a digit.
fn all_digits(token: &[u8]) -> bool
    ensures { result ≡ list_all is_ascii_digit token.now }
{
    token.iter().all(|byte| byte.is_ascii_digit())
}

/// Whether a token is a name.
#[tactic(auto, unfolding(crate::specs::Tokens::token_is_name))]
pub fn is_identifier(token: &[u8]) -> bool
    ensures { result ≡ token_is_name token.now }
{
    flow_design::is_name(token)
}

/// The number that a token writes, if it is from `least` to `most`; else `None`. Leading zeros are allowed, and the number may have
/// more than 64 bits.
#[tactic(auto, using(crate::proofs::Numbers::number_read))]
pub fn number_in(token: &[u8], least: u64, most: u64) -> Option<u64>
    requires { is_number token.now ≡ true }
    ensures { result ≡ number_within least most (number_of token.now) }
{
    match read_number(token) {
        Ok(value) => {
            if least <= value && value <= most {
                Some(value)
            } else {
                None
            }
        }
        Err(_) => None,
    }
}

/// The width that a token writes, which is a number. `None` where it is not from 1 to 64.
#[tactic(auto, using(crate::proofs::Numbers::number_read))]
pub fn width_of(token: &[u8]) -> Option<Width>
    requires { is_number token.now ≡ true }
    ensures { result ≡ number_within 1 64 (number_of token.now) }
{
    match read_number(token) {
        Ok(value) => Width::new(value),
        Err(_) => None,
    }
}
