//! Numbers and single lines.
ghost use Rattle.std.specs.Prelude.{◌≡◌, ◌∷◌, ◌++◌, decimal, map, OnOk, OnErr};
ghost use Rattle.std.specs.Io.{StartsWith};
ghost use Rattle.report_text.specs.{line, verdict_tokens, runs_tokens, spaced};

use crate::names::verdict_words;
use flow_design::Verdict;
use flow_word::{List, OutOfMemory};
use itoa::Buffer;

/// Adds a number in decimal digits, without leading zeros. After `OutOfMemory` the text is as it was.
pub fn push_number(text: &mut List<u8>, number: u64) -> Result<(), OutOfMemory>
    ensures ok { OnOk result (text.new ≡ text.old ++ decimal number) }
    ensures err { OnErr result (text.new ≡ text.old) }
{
    let mut buffer = Buffer::new();
    text.extend_from_slice(buffer.format(number).as_bytes())
}

/// Adds a line of a word and numbers. After `OutOfMemory` the text may end with a part of it.
#[tactic(auto, using(crate::proofs::LineLemmas::word_line))]
pub fn print_numbers(text: &mut List<u8>, word: &[u8], numbers: &[u64]) -> Result<(), OutOfMemory>
    ensures ok { OnOk result (text.new ≡ text.old ++ line (word.now ∷ map decimal numbers.now)) }
    ensures err { OnErr result (StartsWith text.new text.old) }
{
    text.extend_from_slice(word)?;
    push_values(text, numbers)?;
    text.push(b'\n')
}

/// Adds the line `runs K`. After `OutOfMemory` the text may end with a part of it.
pub fn print_runs(text: &mut List<u8>, runs: u64) -> Result<(), OutOfMemory>
    ensures ok { OnOk result (text.new ≡ text.old ++ line (runs_tokens runs)) }
    ensures err { OnErr result (StartsWith text.new text.old) }
{
    print_numbers(text, b"runs", &[runs])
}

/// Adds the line `verdict VERDICT C`. After `OutOfMemory` the text may end with a part of it.
#[tactic(auto, using(crate::proofs::LineLemmas::line_of_three, crate::proofs::LineLemmas::still_starts))]
pub fn print_verdict(text: &mut List<u8>, verdict: Verdict) -> Result<(), OutOfMemory>
    ensures ok { OnOk result (text.new ≡ text.old ++ line (verdict_tokens verdict)) }
    ensures err { OnErr result (StartsWith text.new text.old) }
{
    text.extend_from_slice(b"verdict")?;
    let (word, clock) = verdict_words(verdict);
    push_token(text, word)?;
    push_value(text, clock)?;
    text.push(b'\n')
}

/// Adds numbers, each with a space before it. After `OutOfMemory` the text may end with a part of them.
#[tactic(auto, using(crate::proofs::LineLemmas::spaced_more, crate::proofs::LineLemmas::still_starts))]
pub fn push_values(text: &mut List<u8>, numbers: &[u64]) -> Result<(), OutOfMemory>
    ensures ok { OnOk result (text.new ≡ text.old ++ spaced numbers.now) }
    ensures err { OnErr result (StartsWith text.new text.old) }
{
    for number in numbers {
        push_value(text, *number)?;
    }
    Ok(())
}

/// Adds a space and a number. After `OutOfMemory` the text may end with a part of them.
pub fn push_value(text: &mut List<u8>, number: u64) -> Result<(), OutOfMemory>
    ensures ok { OnOk result (text.new ≡ text.old ++ 32 ∷ decimal number) }
    ensures err { OnErr result (StartsWith text.new text.old) }
{
    text.push(b' ')?;
    push_number(text, number)
}

/// Adds a space and a token. After `OutOfMemory` the text may end with a part of them.
pub fn push_token(text: &mut List<u8>, token: &[u8]) -> Result<(), OutOfMemory>
    ensures ok { OnOk result (text.new ≡ text.old ++ 32 ∷ token.now) }
    ensures err { OnErr result (StartsWith text.new text.old) }
{
    text.push(b' ')?;
    text.extend_from_slice(token)
}
