//! Binary digits.
ghost use Rattle.std.specs.Prelude.{◌≡◌, ◌++◌, OnOk};
ghost use Rattle.vcd_wave.specs.{numeral};

use flow_word::{List, OutOfMemory};

/// Adds a number in binary digits, without leading zeros. After `OutOfMemory` the text may have part of it.
#[tactic(auto, using(crate::proofs::BinaryLemmas::binary_small, crate::proofs::BinaryLemmas::binary_step))]
pub fn push_binary(text: &mut List<u8>, number: u64) -> Result<(), OutOfMemory>
    ensures { OnOk result (text.new ≡ text.old ++ numeral 2 number) }
{
    if number > 1 {
        push_binary(text, number / 2)?;
    }
    text.push(b'0' + (number % 2) as u8)
}
