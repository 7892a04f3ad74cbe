//! The lines of the text on the latency: for each module, channel and link.
ghost use Rattle.std.specs.Prelude.{◌≡◌, ◌<◌, ◌^◌, ◌++◌, length, slice_index, All, OnOk};
ghost use Rattle.path_text.specs.{line, text_of_lines, at_sides, spend_lines, cross_lines, all_spend_lines, channel_lines, link_tokens};
ghost use Rattle.path_text.specs.{link_lines, polled_lines};

use depth_order::Link;
use flow_design::Design;
use flow_word::{List, OutOfMemory, Side};
use report_text::{channel_name, module_name, push_token, push_value, stall_word};

/// Adds the line `spend NAME N` of a module in which the chain spends N clocks, if N is not 0. After `OutOfMemory` the text may
/// have part of it.
fn print_spent(text: &mut List<u8>, name: &[u8], clocks: u64) -> Result<(), OutOfMemory>
    ensures { OnOk result (text.new ≡ text.old ++ text_of_lines (spend_lines name.now clocks)) }
{
    if clocks == 0 {
        return Ok(());
    }
    text.extend_from_slice(b"spend")?;
    push_token(text, name)?;
    push_value(text, clocks)?;
    text.push(b'\n')
}

/// Adds the line of a channel that the chain crosses at this side, with how often it does, if it does. After `OutOfMemory` the text
/// may have part of it.
fn print_crossed(
    text: &mut List<u8>,
    side: Side,
    name: &[u8],
    times: u64,
) -> Result<(), OutOfMemory>
    ensures { OnOk result (text.new ≡ text.old ++ text_of_lines (cross_lines side name.now times)) }
{
    if times == 0 {
        return Ok(());
    }
    text.extend_from_slice(b"cross")?;
    push_token(text, stall_word(side))?;
    push_token(text, name)?;
    push_value(text, times)?;
    text.push(b'\n')
}

/// Adds a line for each module in which the chain spends clocks. After `OutOfMemory` the text may have some of them.
pub(crate) fn print_modules(
    text: &mut List<u8>,
    design: &Design,
    clocks: &[u64],
) -> Result<(), OutOfMemory>
    requires few { length design.now.modules < 2 ^ 32 }
    requires count { length clocks.now ≡ length design.now.modules }
    ensures { OnOk result (text.new ≡ text.old ++ text_of_lines (all_spend_lines design.now (slice_index clocks.now))) }
{
    for number in 0..clocks.len() {
        print_spent(text, module_name(design, number as u32), clocks[number])?;
    }
    Ok(())
}

/// Adds the lines of each channel. The lists have one entry per channel: how often the chain crosses it where a module could not
/// pop, and where one could not push; how often the chain goes back to a push there that was polled for; and how many clocks the
/// elements that were polled for waited. After `OutOfMemory` the text may have some of the lines.
pub(crate) fn print_channels(
    text: &mut List<u8>,
    design: &Design,
    popped: &[u64],
    pushed: &[u64],
    polled: &[u64],
    waited: &[u64],
) -> Result<(), OutOfMemory>
    requires few { length design.now.channels < 2 ^ 32 }
    requires popped { length popped.now ≡ length design.now.channels }
    requires pushed { length pushed.now ≡ length design.now.channels }
    requires polled { length polled.now ≡ length design.now.channels }
    requires waited { length waited.now ≡ length design.now.channels }
    ensures { OnOk result (text.new ≡ text.old ++ text_of_lines (channel_lines design.now (at_sides popped.now pushed.now)
        (slice_index polled.now) (slice_index waited.now))) }
{
    for number in 0..popped.len() {
        let name = channel_name(design, number as u32);
        print_crossed(text, Side::Pop, name, popped[number])?;
        print_crossed(text, Side::Push, name, pushed[number])?;
        print_polled(text, name, polled[number], waited[number])?;
    }
    Ok(())
}

/// Adds the line of a channel with elements that were polled for: how many, and how many clocks they waited. It adds nothing where
/// there are none.
fn print_polled(
    text: &mut List<u8>,
    name: &[u8],
    times: u64,
    waited: u64,
) -> Result<(), OutOfMemory>
    ensures { OnOk result (text.new ≡ text.old ++ text_of_lines (polled_lines name.now times waited)) }
{
    if times == 0 {
        return Ok(());
    }
    text.extend_from_slice(b"poll empty")?;
    push_token(text, name)?;
    push_value(text, times)?;
    push_value(text, waited)?;
    text.push(b'\n')
}

/// Adds the line `link NAME X T` of a link from clock X to clock T. After `OutOfMemory` the text may have part of it.
fn print_link(text: &mut List<u8>, design: &Design, link: &Link) -> Result<(), OutOfMemory>
    requires { link.now.module < length design.now.modules }
    ensures { OnOk result (text.new ≡ text.old ++ line (link_tokens design.now link.now)) }
{
    text.extend_from_slice(b"link")?;
    push_token(text, module_name(design, link.module))?;
    push_value(text, link.first)?;
    push_value(text, link.last)?;
    text.push(b'\n')
}

/// Adds a line for each link of a chain, in order of time, if asked for. The chain itself has its latest link first.
pub(crate) fn print_links(
    text: &mut List<u8>,
    design: &Design,
    asked: bool,
    links: &[Link],
) -> Result<(), OutOfMemory>
    requires { All (λ l. l.module < length design.now.modules) links.now }
    ensures { OnOk result (text.new ≡ text.old ++ text_of_lines (link_lines design.now asked links.now)) }
{
    if !asked {
        return Ok(());
    }
    for at in (0..links.len()).rev() {
        print_link(text, design, &links[at])?;
    }
    Ok(())
}
