//! The names of channels and modules by number, and the words for kinds, stalls and verdicts.
ghost use Rattle.std.specs.Prelude.{◌≡◌, ◌<◌, ◌∷◌, [], decimal, length};
ghost use Rattle.report_text.specs.{verdict_words, channel_name, module_name, kind_token, stall_word};

use flow_design::{Design, Verdict};
use flow_word::{Kind, Side};

/// The name of the channel with this number.
pub fn channel_name(design: &Design, number: u32) -> &[u8]
    requires { number < length design.now.channels }
    ensures { result.now ≡ channel_name design.now number }
{
    design.channels.as_slice()[number as usize].name.bytes()
}

/// The name of the module with this number.
pub fn module_name(design: &Design, number: u32) -> &[u8]
    requires { number < length design.now.modules }
    ensures { result.now ≡ module_name design.now number }
{
    design.modules.as_slice()[number as usize].name.bytes()
}

/// The word for a kind of access.
pub fn kind_word(kind: Kind) -> &'static [u8]
    ensures { result.now ≡ kind_token kind }
{
    match kind {
        Kind::Read => b"read",
        Kind::Write => b"write",
        Kind::TryRead => b"tryread",
        Kind::TryWrite => b"trywrite",
        Kind::Empty => b"empty",
        Kind::Full => b"full",
    }
}

/// The word for why a module stalls at this side of a channel: it is empty, or full.
pub fn stall_word(side: Side) -> &'static [u8]
    ensures { result.now ≡ stall_word side }
{
    match side {
        Side::Pop => b"empty",
        Side::Push => b"full",
    }
}

/// The word of a verdict, and its clock.
pub fn verdict_words(verdict: Verdict) -> (&'static [u8], u64)
    ensures { verdict_words verdict ≡ result.0.now ∷ decimal result.1 ∷ [] }
{
    match verdict {
        Verdict::Done(clock) => (b"done", clock),
        Verdict::Deadlock(clock) => (b"deadlock", clock),
        Verdict::Cycles(clock) => (b"cycles", clock),
        Verdict::Ops(clock) => (b"ops", clock),
    }
}
