//! The lines that tell depths.
ghost use Rattle.std.specs.Prelude.{◌≡◌, ◌++◌, length, OnOk};
ghost use Rattle.depth_advice.specs.{line, text_of_lines, depth_lines, depth_tokens};

use flow_design::Channel;
use flow_word::{List, OutOfMemory};
use report_text::{push_token, push_value};

/// Adds the line `depth NAME D` for each FIFO, from the channels and a depth for each. After `OutOfMemory` the text may have some
/// of the lines.
pub fn print_depths(
    text: &mut List<u8>,
    channels: &[Channel],
    depths: &[u64],
) -> Result<(), OutOfMemory>
    requires { length depths.now ≡ length channels.now }
    ensures { OnOk result (text.new ≡ text.old ++ text_of_lines (depth_lines channels.now depths.now)) }
{
    for at in 0..channels.len() {
        if channels[at].kind.is_fifo() {
            print_depth(text, &channels[at], depths[at])?;
        }
    }
    Ok(())
}

/// Adds the line `depth NAME D` of a FIFO. After `OutOfMemory` the text may have part of it.
#[tactic(auto, using(report_text::proofs::LineLemmas::line_of_three))]
fn print_depth(text: &mut List<u8>, channel: &Channel, depth: u64) -> Result<(), OutOfMemory>
    ensures { OnOk result (text.new ≡ text.old ++ line (depth_tokens (channel.now, depth))) }
{
    text.extend_from_slice(b"depth")?;
    push_token(text, channel.name.bytes())?;
    push_value(text, depth)?;
    text.push(b'\n')
}
