//! How many elements a module has popped and pushed, and how many queries it has made.
ghost use Rattle.std.specs.Prelude.{◌≡◌, ℕ, ◌+◌, ◌<◌, ◌≤◌, ◌^◌, ◌++◌, ◌∷◌, [], false, List as Items, length, map, drop, slice_index_or};
ghost use Rattle.std.specs.Prelude.{All, IfOk};
ghost use Rattle.module_interp.specs.{is_blocking, side_of, is_yes, access_of, request_from, paired, Exchange, moved_by, popped_value};
ghost use Rattle.module_interp.specs.{pushed_value, HasPort, CountsOneMore, IsTallyOf, KnowsPorts};
ghost use Rattle.flow_word.specs.declared.access.Side.TheVariants.{Pop, Push};

use crate::answers::queries_of;
use crate::counts::Counts;
use flow_design::{Module, Reply, Request};
use flow_word::{Access, Kind, List, OutOfMemory, Side};
use module_code::{Replies, is_yes};
use std::alloc::Global;

/// The pops and pushes of each of a module's channels, and its queries, in the steps that have their replies.
#[derive(Drop)]
pub struct Tally {
    pub popped: Counts,
    pub pushed: Counts,
    pub queries: u64,
}

impl Tally {
    /// The tally of a module before its first step. `OutOfMemory` where memory ran out.
    pub fn new(alloc: Global, of: &Module) -> Result<Tally, OutOfMemory>
        ensures tally { IfOk result (λ tally. IsTallyOf [] tally) }
        ensures ports { IfOk result (λ tally. KnowsPorts of.now tally) }
    {
        Ok(Tally {
            popped: Counts::new(alloc, of, Side::Pop)?,
            pushed: Counts::new(alloc, of, Side::Push)?,
            queries: 0,
        })
    }

    /// Sets all counts to 0, as before the first step of the module.
    pub fn clear(&mut self)
        requires tally { (before : Items Exchange) × IsTallyOf before self.old }
        ensures tally { IsTallyOf [] self.new }
        ensures popped { self.new.popped.channels ≡ self.old.popped.channels }
        ensures pushed { self.new.pushed.channels ≡ self.old.pushed.channels }
    {
        self.popped.clear();
        self.pushed.clear();
        self.queries = 0;
    }

    /// Gives each of these accesses the ordinal of its element, whatever ordinal it had. It takes no memory.
    #[inline(always)]
    pub fn number_all(&self, accesses: &mut List<Access>)
        requires tally { (before : Items Exchange) × (IsTallyOf before self.now × (length before < 2 ^ 40)) }
        ensures { (before : Items Exchange) → IsTallyOf before self.now
            → accesses.new ≡ map (access_of before) (map request_from accesses.old) }
    {
        let items = accesses.as_mut_slice();
        for access in items.iter_mut() {
            self.number(access);
        }
    }

    /// Gives an access the ordinal of its element.
    #[inline(always)]
    fn number(&self, access: &mut Access)
        requires tally { (before : Items Exchange) × (IsTallyOf before self.now × (length before < 2 ^ 40)) }
        ensures { (before : Items Exchange) → IsTallyOf before self.now → access.new ≡ access_of before (request_from access.old) }
    {
        access.ordinal = 1 + self.count_of(access.kind, access.channel);
    }

    /// How many elements an access of this kind finds already popped, or pushed, at its side of the channel.
    #[inline(always)]
    fn count_of(&self, kind: Kind, channel: u32) -> u64
        ensures { (before : Items Exchange) → IsTallyOf before self.now → result ≡ length (moved_by (side_of kind) channel before) }
    {
        match kind.side() {
            Side::Pop => self.popped.of(channel),
            Side::Push => self.pushed.of(channel),
        }
    }

    /// Counts the operations of a step, which stand at ports of the module.
    #[inline(always)]
    pub fn count_step<R: Replies>(&mut self, accesses: &[Access], replies: &mut R)
        requires tally { (before : Items Exchange) × (IsTallyOf before self.old × (length before + length accesses.now < 2 ^ 40)) }
        requires ports { All (λ a. HasPort (side_of a.kind) a.channel self.old) accesses.now }
        requires known { R.known replies.old }
        ensures tally { (before : Items Exchange) → IsTallyOf before self.old
            → IsTallyOf (before ++ paired (map request_from accesses.now) (R.left replies.old)) self.new }
        ensures popped { self.new.popped.channels ≡ self.old.popped.channels }
        ensures pushed { self.new.pushed.channels ≡ self.old.pushed.channels }
    {
        for access in accesses {
            let reply = deciding_reply(access.kind, replies);
            self.count(request_from(access), reply);
        }
    }

    /// Counts an operation that was done.
    #[inline(always)]
    fn count(&mut self, request: Request, reply: Reply)
        requires tally { (before : Items Exchange) × (IsTallyOf before self.old × (length before < 2 ^ 40)) }
        requires port { HasPort (side_of request.kind) request.channel self.old }
        ensures tally { (before : Items Exchange) → IsTallyOf before self.old
            → IsTallyOf (before ++ record { request = request; reply = reply } ∷ []) self.new }
        ensures popped { self.new.popped.channels ≡ self.old.popped.channels }
        ensures pushed { self.new.pushed.channels ≡ self.old.pushed.channels }
    {
        self.count_moved(request, reply);
        self.queries += queries_of(request.kind);
    }

    /// Counts the element that an operation popped or pushed, if it did.
    #[inline(always)]
    fn count_moved(&mut self, request: Request, reply: Reply)
        requires tally { (before : Items Exchange) × (IsTallyOf before self.old × (length before < 2 ^ 40)) }
        requires port { HasPort (side_of request.kind) request.channel self.old }
        ensures popped { CountsOneMore Pop (record { request = request; reply = reply }) self.old.popped self.new.popped }
        ensures pushed { CountsOneMore Push (record { request = request; reply = reply }) self.old.pushed self.new.pushed }
        ensures queries { self.new.queries ≡ self.old.queries }
    {
        match request.kind.side() {
            Side::Pop => self
                .popped
                .add(request.channel, popped(request.kind, reply)),
            Side::Push => self
                .pushed
                .add(request.channel, pushed(request.kind, reply)),
        }
    }
}

/// The request that an access makes.
#[inline(always)]
fn request_from(access: &Access) -> Request
    ensures { result ≡ request_from access.now }
{
    Request {
        kind: access.kind,
        channel: access.channel,
        value: access.value,
    }
}

/// The next reply, to an operation of this kind. A blocking operation is counted whatever its reply is: then it is passed over, and
/// the answer says nothing.
#[inline(always)]
fn deciding_reply<R: Replies>(kind: Kind, replies: &mut R) -> Reply
    requires { R.known replies.old }
    ensures known { R.known replies.new }
    ensures reply { is_blocking kind ≡ false → result ≡ slice_index_or (R.left replies.old) 0 Reply.Done }
    ensures left { R.left replies.new ≡ drop 1 (R.left replies.old) }
{
    if kind.is_blocking() {
        replies.skip();
        return Reply::Done;
    }
    replies.next()
}

/// How many elements an operation popped: 0 or 1.
#[inline(always)]
fn popped(kind: Kind, reply: Reply) -> u64
    ensures count { (value : ℕ) → result ≡ length (popped_value kind (is_yes reply) value) }
    ensures most { result ≤ 1 }
{
    match kind {
        Kind::Read => 1,
        Kind::TryRead => is_yes(reply) as u64,
        Kind::Write | Kind::TryWrite | Kind::Empty | Kind::Full => 0,
    }
}

/// How many elements an operation pushed: 0 or 1.
#[inline(always)]
fn pushed(kind: Kind, reply: Reply) -> u64
    ensures count { (value : ℕ) → result ≡ length (pushed_value kind (is_yes reply) value) }
    ensures most { result ≤ 1 }
{
    match kind {
        Kind::Write => 1,
        Kind::TryWrite => is_yes(reply) as u64,
        Kind::Read | Kind::TryRead | Kind::Empty | Kind::Full => 0,
    }
}
