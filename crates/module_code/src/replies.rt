//! What a reply tells, and what tells the replies of a local clock.
ghost use Rattle.std.specs.Prelude.{◌≡◌, List as Items, drop, slice_index_or};
ghost use Rattle.module_code.specs.{Reply as ReplyOf, is_yes, value_in};

use flow_design::Reply;

/// The replies to the FIFO operations that are due in a local clock, told one after the other, in commit order.
pub trait Replies {
    /// Whether the replies may be asked for.
    ghost known: { Self → Type 0 };

    /// The replies that are still to be told.
    ghost left: { Self → Items ReplyOf };

    /// Tells the next reply: that to a write where none is left.
    fn next(&mut self) -> Reply
        requires { known self.old }
        ensures known { known self.new }
        ensures reply { result ≡ slice_index_or (left self.old) 0 Reply.Done }
        ensures left { left self.new ≡ drop 1 (left self.old) };

    /// Passes over the next reply, if one is left.
    fn skip(&mut self)
        requires { known self.old }
        ensures known { known self.new }
        ensures left { left self.new ≡ drop 1 (left self.old) };
}

/// Replies in a list.
#[derive(Drop)]
pub struct ReplyList<'a> {
    replies: &'a [Reply],
}

impl<'a> ReplyList<'a> {
    /// These replies, of which none is told yet.
    #[inline(always)]
    pub fn new(replies: &'a [Reply]) -> ReplyList<'a>
        ensures { result.replies.now ≡ replies.now }
    {
        ReplyList { replies }
    }
}

impl<'a> Replies for ReplyList<'a> {
    ghost known = { λ _. Unit {0} };

    ghost left = { λ list. list.replies.now };

    #[inline(always)]
    fn next(&mut self) -> Reply {
        match self.replies.split_first() {
            Some((reply, rest)) => {
                self.replies = rest;
                *reply
            }
            None => Reply::Done,
        }
    }

    #[inline(always)]
    fn skip(&mut self) {
        if let Some((_reply, rest)) = self.replies.split_first() {
            self.replies = rest;
        }
    }
}

/// Whether a reply says that the operation was done, or that the test held.
#[inline(always)]
pub fn is_yes(reply: Reply) -> bool
    ensures { result ≡ is_yes reply }
{
    match reply {
        Reply::Done | Reply::Value(_) | Reply::Took(_) => true,
        Reply::Flag(yes) => yes,
        Reply::Missed => false,
    }
}

/// The value in a reply to an operation that popped one, else 0.
#[inline(always)]
pub(crate) fn value_in(reply: Reply) -> u64
    ensures { result ≡ value_in reply }
{
    match reply {
        Reply::Value(value) | Reply::Took(value) => value,
        Reply::Done | Reply::Flag(_) | Reply::Missed => 0,
    }
}
