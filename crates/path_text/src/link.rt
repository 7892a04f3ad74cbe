//! The links of a chain that follows polls.
use depth_order::Link;
use flow_word::List;

/// An element for which a module polled.
#[derive(Clone, Copy, Debug, PartialEq, Eq)]
pub struct Polled {
    pub channel: u32,
    /// The clock in which the element was pushed.
    pub pushed: u64,
    /// The clock of the query that found the element.
    pub found: u64,
}

/// The clocks that the chain spends in one module, and how it goes on to earlier clocks.
#[derive(Clone, Copy, Debug, PartialEq, Eq)]
pub struct PolledLink {
    /// The clocks and the crossed port. Where the module polled, the first clock is that of the query that found the element, and
    /// no port is crossed.
    pub link: Link,
    /// The element that the module polled for; `None` where the chain goes on as it does without polls.
    pub polled: Option<Polled>,
}

/// A chain of clocks. Its lists begin with what is latest in time.
#[derive(Drop)]
pub struct Chain {
    pub links: List<Link>,
    /// The elements that were polled for and to whose pushes the chain goes back.
    pub polls: List<Polled>,
}
