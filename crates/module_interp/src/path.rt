//! How far a module's own run has come.
use flow_design::{Module, ModuleState};
use flow_word::{Access, List, Words};
use module_code::{BlockCode, Notes};
use std::alloc::Global;

/// What is left to do of the move at which a module stands.
#[derive(Clone, Copy, Debug)]
pub enum Stage {
    /// The whole move is left: its local clock has only begun.
    Begun,
    /// The whole move is left, and waits for the replies to its FIFO operations.
    Asked,
    /// The loop's decision and the block's end are left: the due operations have committed, and the local clock has gone up.
    Ticked,
}

/// A module with its code and its state, on its way to its next rest.
#[derive(Drop)]
pub struct Path {
    pub alloc: Global,
    pub of: Module,
    /// The operation limit.
    pub limit: u64,
    /// The code of each block.
    pub codes: List<BlockCode>,
    pub state: ModuleState,
    pub stage: Stage,
    /// How many local clocks the current one is after the last step, or after local clock 0 where there was no step.
    pub since: u64,
    /// The notes of the due operations of the current local clock.
    pub notes: Notes,
    /// The requests of the FIFO operations that are due in the current local clock, as accesses. Those of a step that was given have
    /// their ordinals.
    pub asked: List<Access>,
    /// Memory for the results of expressions. Its words mean nothing.
    pub scratch: Words,
}
