//! The text of a report.
ghost use Rattle.std.specs.Prelude.{◌≡◌, ◌<◌, ◌++◌, length, All, OnOk, OnErr};
ghost use Rattle.std.specs.Io.{StartsWith};
ghost use Rattle.report_text.specs.{line, text_of_lines, IsReportOf, report_text_of, sink_names, output_tokens, output_lines, held_lines};
ghost use Rattle.report_text.specs.{held_tokens, event_lines, event_tokens, tells_held, is_sink};

use crate::lines::{print_numbers, print_verdict, push_token, push_value, push_values};
use crate::names::{channel_name, kind_word, module_name};
use flow_design::{Channel, Design, EventLine, Held, Report, Verdict};
use flow_word::{List, OutOfMemory, Words};

/// Adds the text of report `number`, with its events if asked. It must be a report of this design: its module and channel numbers
/// are the design's, and it has one output for each sink. After `OutOfMemory` the text may end with a part of it.
#[tactic(auto, using(crate::proofs::LineLemmas::all_parts, crate::proofs::LineLemmas::still_starts), unfolding(crate::specs::ReportText::report_text_of))]
pub fn print_report(
    text: &mut List<u8>,
    design: &Design,
    report: &Report,
    number: u64,
    events: bool,
) -> Result<(), OutOfMemory>
    requires { IsReportOf design.now report.now }
    ensures ok { OnOk result (text.new ≡ text.old ++ report_text_of design.now report.now number events) }
    ensures err { OnErr result (StartsWith text.new text.old) }
{
    print_numbers(text, b"report", &[number])?;
    print_verdict(text, report.verdict)?;
    print_outputs(text, design.channels.as_slice(), report.outputs.as_slice())?;
    print_all_held(text, design, report.verdict, report.held.as_slice())?;
    print_events(text, design, events, report.events.as_slice())
}

/// Whether a report with this verdict tells held modules.
fn tells_held(verdict: Verdict) -> bool
    ensures { result ≡ tells_held verdict }
{
    matches!(verdict, Verdict::Deadlock(_) | Verdict::Ops(_))
}

/// Adds a line for each sink.
#[tactic(auto, using(crate::proofs::OutputLemmas::has_output, crate::proofs::OutputLemmas::passed_more, crate::proofs::OutputLemmas::printed_more, crate::proofs::LineLemmas::still_starts))]
fn print_outputs(
    text: &mut List<u8>,
    channels: &[Channel],
    outputs: &[Words],
) -> Result<(), OutOfMemory>
    requires { length outputs.now ≡ length (sink_names channels.now) }
    ensures ok { OnOk result (text.new ≡ text.old ++ text_of_lines (output_lines channels.now outputs.now)) }
    ensures err { OnErr result (StartsWith text.new text.old) }
{
    let mut at = 0;
    for channel in channels {
        if channel.kind.is_sink() {
            print_output(text, channel.name.bytes(), outputs[at].as_slice())?;
            at += 1;
        }
    }
    Ok(())
}

/// Adds the line of one sink.
#[tactic(auto, using(crate::proofs::LineLemmas::numbers_line, crate::proofs::LineLemmas::still_starts))]
fn print_output(text: &mut List<u8>, name: &[u8], values: &[u64]) -> Result<(), OutOfMemory>
    ensures ok { OnOk result (text.new ≡ text.old ++ line (output_tokens (name.now, values.now))) }
    ensures err { OnErr result (StartsWith text.new text.old) }
{
    text.extend_from_slice(b"out")?;
    push_token(text, name)?;
    push_values(text, values)?;
    text.push(b'\n')
}

/// Adds a line for each held module, if a report with this verdict tells them.
#[tactic(auto, using(crate::proofs::LineLemmas::lines_more, crate::proofs::LineLemmas::still_starts))]
fn print_all_held(
    text: &mut List<u8>,
    design: &Design,
    verdict: Verdict,
    held: &[Held],
) -> Result<(), OutOfMemory>
    requires { All (λ h. (h.module < length design.now.modules) × (h.channel < length design.now.channels)) held.now }
    ensures ok { OnOk result (text.new ≡ text.old ++ text_of_lines (held_lines design.now verdict held.now)) }
    ensures err { OnErr result (StartsWith text.new text.old) }
{
    if !tells_held(verdict) {
        return Ok(());
    }
    for one in held {
        print_held(text, design, one)?;
    }
    Ok(())
}

/// Adds the line of one held module.
#[tactic(auto, using(crate::proofs::LineLemmas::line_of_four, crate::proofs::LineLemmas::still_starts))]
fn print_held(text: &mut List<u8>, design: &Design, held: &Held) -> Result<(), OutOfMemory>
    requires module { held.now.module < length design.now.modules }
    requires channel { held.now.channel < length design.now.channels }
    ensures ok { OnOk result (text.new ≡ text.old ++ line (held_tokens design.now held.now)) }
    ensures err { OnErr result (StartsWith text.new text.old) }
{
    text.extend_from_slice(b"held")?;
    push_token(text, module_name(design, held.module))?;
    push_token(text, if held.full { b"full" } else { b"empty" })?;
    push_token(text, channel_name(design, held.channel))?;
    text.push(b'\n')
}

/// Adds a line for each event, if they are asked for.
#[tactic(auto, using(crate::proofs::LineLemmas::lines_more, crate::proofs::LineLemmas::still_starts))]
fn print_events(
    text: &mut List<u8>,
    design: &Design,
    asked: bool,
    events: &[EventLine],
) -> Result<(), OutOfMemory>
    requires { All (λ e. (e.module < length design.now.modules) × (e.channel < length design.now.channels)) events.now }
    ensures ok { OnOk result (text.new ≡ text.old ++ text_of_lines (event_lines design.now asked events.now)) }
    ensures err { OnErr result (StartsWith text.new text.old) }
{
    if !asked {
        return Ok(());
    }
    for event in events {
        print_event(text, design, event)?;
    }
    Ok(())
}

/// Adds the line of one event.
#[tactic(auto, using(crate::proofs::LineLemmas::line_of_five, crate::proofs::LineLemmas::still_starts))]
fn print_event(text: &mut List<u8>, design: &Design, event: &EventLine) -> Result<(), OutOfMemory>
    requires module { event.now.module < length design.now.modules }
    requires channel { event.now.channel < length design.now.channels }
    ensures ok { OnOk result (text.new ≡ text.old ++ line (event_tokens design.now event.now)) }
    ensures err { OnErr result (StartsWith text.new text.old) }
{
    text.extend_from_slice(b"event")?;
    push_token(text, module_name(design, event.module))?;
    push_token(text, kind_word(event.kind))?;
    push_token(text, channel_name(design, event.channel))?;
    push_value(text, event.cycle)?;
    text.push(b'\n')
}
