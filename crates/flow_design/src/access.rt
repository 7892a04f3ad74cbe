//! Where an operation stands, and what it does there.
ghost use Rattle.std.specs.Prelude.{◌≡◌};
ghost use Rattle.flow_design.specs.{kind_and_channel, port_of, used_port};

use crate::expr::Op;
use flow_word::{Kind, Port};

impl Op<u32> {
    /// The kind and the channel of a FIFO operation. `None` for any other operation.
    pub fn access(&self) -> Option<(Kind, u32)>
        ensures { result ≡ kind_and_channel self.now }
    {
        match self {
            Op::Set(_, _) | Op::Load { .. } | Op::Store { .. } => None,
            Op::Read { channel, .. } => Some((Kind::Read, *channel)),
            Op::Write(channel, _) => Some((Kind::Write, *channel)),
            Op::TryRead { channel, .. } => Some((Kind::TryRead, *channel)),
            Op::TryWrite { channel, .. } => Some((Kind::TryWrite, *channel)),
            Op::Empty { channel, .. } => Some((Kind::Empty, *channel)),
            Op::Full { channel, .. } => Some((Kind::Full, *channel)),
        }
    }

    /// The port at which a FIFO operation stands. `None` for any other operation.
    pub fn port(&self) -> Option<Port>
        ensures { result ≡ port_of self.now }
    {
        let (kind, channel) = self.access()?;
        Some(Port {
            side: kind.side(),
            channel,
        })
    }

    /// The port at which an operation pops or pushes. `None` where it does neither.
    pub fn used_port(&self) -> Option<Port>
        ensures { result ≡ used_port self.now }
    {
        match self.access() {
            Some((kind, _)) if kind.takes() => self.port(),
            Some(_) | None => None,
        }
    }
}
