//! The turns of passes.

/// What a pass did in one turn. Passes and modules are named by their numbers.
#[derive(Clone, Copy, Debug, PartialEq, Eq)]
pub enum HubTurn {
    /// The run of this module was lent to the pass.
    Lent { pass: u32, module: u32 },
    /// The pass made this many Runs of the module that it was lent, and gave the run back.
    Ran { pass: u32, module: u32, runs: u64 },
    /// The pass made this many actions, none of them a Run.
    Timed { pass: u32, actions: u64 },
    /// The pass found that memory ran out.
    Short(u32),
}
