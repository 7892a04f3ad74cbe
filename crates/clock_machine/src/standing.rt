//! What all modules are given in a clock.
use flow_design::{CheckedPlan, Element};
use flow_word::{List, Queue};
use module_code::BlockCode;
use std::alloc::Global;

/// A plan with the code of its blocks, module by module.
#[derive(Clone, Copy)]
pub struct Compiled<'a> {
    pub plan: &'a CheckedPlan,
    pub codes: &'a [List<BlockCode>],
}

/// A clock of a plan, and what the channels hold before its modules move.
#[derive(Clone, Copy)]
pub struct AtClock<'a> {
    pub alloc: Global,
    pub of: &'a Compiled<'a>,
    /// Whether events are kept.
    pub keep: bool,
    pub clock: u64,
    pub contents: &'a [Queue<Element>],
}
