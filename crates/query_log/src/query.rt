//! A query, named by its number.
use flow_word::Kind;

/// A query of a module: its number, and what it asks.
#[derive(Clone, Copy, Debug, PartialEq, Eq)]
pub struct Query {
    pub module: u32,
    /// The number of the query among the module's queries, counted from 0.
    pub number: u64,
    pub kind: Kind,
    /// The number of the channel.
    pub channel: u32,
    /// The number, from 1, of the element that the query pops or pushes, or would pop or push.
    pub ordinal: u64,
}
