//! FIFO accesses, the ports at which they stand, and the steps that they make up.
ghost use Rattle.std.specs.Prelude.{◌≡◌};
ghost use Rattle.flow_word.specs.{other_side, side_of, is_blocking, is_taking};

use crate::accesses::Accesses;

/// The side of a channel at which an access stands.
#[derive(Clone, Copy, Debug, PartialEq, Eq, Hash)]
pub enum Side {
    /// Elements leave here.
    Pop,
    /// Elements come in here.
    Push,
}

/// One side of one channel. In a plan that keeps the static rules at most one module has accesses at a port.
#[derive(Clone, Copy, Debug, PartialEq, Eq, Hash)]
pub struct Port {
    pub side: Side,
    /// The number of the channel.
    pub channel: u32,
}

/// What an access does to its channel.
///
/// `Read` and `Write` block their module while they cannot be done. The other four never block: they are the queries,
/// whose outcome tells whether the access was done, or whether the channel was empty or full.
#[derive(Clone, Copy, Debug, Default, PartialEq, Eq)]
pub enum Kind {
    #[default]
    Read,
    Write,
    TryRead,
    TryWrite,
    Empty,
    Full,
}

impl Side {
    /// The other side of the channel.
    pub fn other(self) -> Side
        ensures { result ≡ other_side self }
    {
        match self {
            Side::Pop => Side::Push,
            Side::Push => Side::Pop,
        }
    }
}

impl Kind {
    /// The side of its channel at which the access stands.
    pub fn side(self) -> Side
        ensures { result ≡ side_of self }
    {
        match self {
            Kind::Read | Kind::TryRead | Kind::Empty => Side::Pop,
            Kind::Write | Kind::TryWrite | Kind::Full => Side::Push,
        }
    }

    /// Whether the access blocks: it stalls its module while it cannot be done. An access that does not block is a
    /// query.
    pub fn is_blocking(self) -> bool
        ensures { result ≡ is_blocking self }
    {
        match self {
            Kind::Read | Kind::Write => true,
            Kind::TryRead | Kind::TryWrite | Kind::Empty | Kind::Full => false,
        }
    }

    /// Whether the access pops or pushes an element when it is done. `Empty` and `Full` only test.
    pub fn takes(self) -> bool
        ensures { result ≡ is_taking self }
    {
        match self {
            Kind::Read | Kind::Write | Kind::TryRead | Kind::TryWrite => true,
            Kind::Empty | Kind::Full => false,
        }
    }
}

/// One access of a channel by a module.
#[derive(Clone, Copy, Debug, Default, PartialEq, Eq)]
pub struct Access {
    pub kind: Kind,
    /// The number of the channel.
    pub channel: u32,
    /// The number, from 1, of the element that the access pops or pushes, or would pop or push.
    pub ordinal: u64,
    /// What a write or a tried write pushes, cut to the channel's width; 0 for the other kinds.
    pub value: u64,
}

/// One local clock of a module with at least one access.
#[derive(Debug)]
pub struct Step {
    /// How many local clocks the step comes after the module's previous step, or after its local clock 0 where it is
    /// the first.
    pub gap: u64,
    /// The accesses, in commit order.
    pub accesses: Accesses,
    /// How many queries the module made before this step.
    pub first_query: u64,
}

impl Drop for Step {
    fn drop(self) {
        let Step {
            gap: _gap,
            accesses: _accesses,
            first_query: _first_query,
        } = self;
    }
}

/// A step by its module and its number: the steps of a module are numbered from 0.
#[derive(Clone, Copy, Debug, PartialEq, Eq)]
pub struct Place {
    pub module: u32,
    pub step: u64,
}
