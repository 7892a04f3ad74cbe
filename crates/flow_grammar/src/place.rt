//! Places of a session, between its statements.
ghost use Rattle.std.specs.Prelude.{◌≡◌};
ghost use Rattle.flow_grammar.specs.Places as places;

/// A place of a session, by the sort of the last statement before it. It determines which statements may follow.
#[derive(Clone, Copy, Debug, PartialEq, Eq)]
pub enum SessionPlace {
    /// There is no statement before.
    AtStart,
    /// The last statement is `flow` or a channel.
    AmongChannels,
    /// The last statement is a module, a register or a memory.
    AmongRegisters,
    /// The last statement is a block, a loop or a temp.
    AmongTemps,
    /// The last statement is an operation.
    AmongOperations,
    /// The last statement is a terminator.
    AfterBody,
    /// The last statement is an `input`.
    AmongInputs,
    /// The last statement is `limits` or a `depth`.
    AmongEdits,
    /// The last statement is `end`.
    AtEnd,
}

impl SessionPlace {
    /// Whether `flow` may follow.
    pub fn takes_flow(self) -> bool
        ensures { result ≡ places.takes_flow self }
    {
        matches!(self, SessionPlace::AtStart)
    }

    /// Whether a source, a sink or a FIFO may follow.
    pub fn takes_channels(self) -> bool
        ensures { result ≡ places.takes_channels self }
    {
        matches!(self, SessionPlace::AmongChannels)
    }

    /// Whether a module may follow.
    pub fn takes_modules(self) -> bool
        ensures { result ≡ places.takes_modules self }
    {
        matches!(self, SessionPlace::AmongChannels | SessionPlace::AfterBody)
    }

    /// Whether a register or a memory may follow.
    pub fn takes_registers(self) -> bool
        ensures { result ≡ places.takes_registers self }
    {
        matches!(self, SessionPlace::AmongRegisters)
    }

    /// Whether a block or a loop may follow.
    pub fn takes_blocks(self) -> bool
        ensures { result ≡ places.takes_blocks self }
    {
        matches!(self, SessionPlace::AmongRegisters | SessionPlace::AfterBody)
    }

    /// Whether a temp may follow.
    pub fn takes_temps(self) -> bool
        ensures { result ≡ places.takes_temps self }
    {
        matches!(self, SessionPlace::AmongTemps)
    }

    /// Whether an operation or a terminator may follow.
    pub fn takes_operations(self) -> bool
        ensures { result ≡ places.takes_operations self }
    {
        matches!(
            self,
            SessionPlace::AmongTemps | SessionPlace::AmongOperations
        )
    }

    /// Whether `input` or `limits` may follow.
    pub fn takes_inputs(self) -> bool
        ensures { result ≡ places.takes_inputs self }
    {
        matches!(
            self,
            SessionPlace::AmongChannels | SessionPlace::AfterBody | SessionPlace::AmongInputs
        )
    }

    /// Whether `depth` or `end` may follow.
    pub fn takes_edits(self) -> bool
        ensures { result ≡ places.takes_edits self }
    {
        matches!(
            self,
            SessionPlace::AmongChannels
                | SessionPlace::AfterBody
                | SessionPlace::AmongInputs
                | SessionPlace::AmongEdits
        )
    }

    /// Whether the session is over.
    pub fn is_end(self) -> bool
        ensures { result ≡ places.is_end self }
    {
        matches!(self, SessionPlace::AtEnd)
    }
}
