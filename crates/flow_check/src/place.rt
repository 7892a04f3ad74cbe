//! The statement of a session that a part of its plan comes from.
ghost use Rattle.std.specs.Prelude.{◌≡◌, ◌<◌, ◌^◌, []};
ghost use Rattle.flow_check.specs.{counts, counts_more, in_last_module, in_last_block, item_after, same_spot, same_item, is_item};
ghost use Rattle.flow_check.specs.{item_place, line_of};

use crate::item::{Item, Spot};
use flow_design::Statement;

/// How many channels and modules of the session come before a statement, how many blocks of its module, and how many operations of
/// its body.
#[derive(Clone, Copy)]
pub struct CountsBefore {
    pub channels: u64,
    pub modules: u64,
    pub blocks: u64,
    pub operations: u64,
}

/// The counts before the first statement: all are 0.
fn nothing() -> CountsBefore
    ensures { result ≡ counts [] }
{
    CountsBefore {
        channels: 0,
        modules: 0,
        blocks: 0,
        operations: 0,
    }
}

/// The counts before the next statement.
fn counts_more(before: CountsBefore, statement: &Statement) -> CountsBefore
    requires channels { before.channels < 2 ^ 63 }
    requires modules { before.modules < 2 ^ 63 }
    requires blocks { before.blocks < 2 ^ 63 }
    requires operations { before.operations < 2 ^ 63 }
    ensures { result ≡ counts_more before statement.now }
{
    let mut after = before;
    match statement {
        Statement::Source(_, _) | Statement::Sink(_, _) | Statement::Fifo { .. } => {
            after.channels += 1;
        }
        Statement::Module(_) => {
            after.modules += 1;
            after.blocks = 0;
        }
        Statement::Block(_, _) | Statement::Loop { .. } => {
            after.blocks += 1;
            after.operations = 0;
        }
        Statement::At(_, _, _) => after.operations += 1,
        _ => {}
    }
    after
}

/// A spot of a block of the last module. `None` where there is no module.
fn in_last_module(before: CountsBefore, block: u64, spot: Spot) -> Option<Item>
    ensures { result ≡ in_last_module before block spot }
{
    if before.modules == 0 {
        return None;
    }
    Some(Item::InModule(before.modules - 1, (block, spot)))
}

/// A spot of the last block. `None` where there is none.
fn in_last_block(before: CountsBefore, spot: Spot) -> Option<Item>
    ensures { result ≡ in_last_block before spot }
{
    if before.blocks == 0 {
        return None;
    }
    in_last_module(before, before.blocks - 1, spot)
}

/// The item that comes from a statement. `None` where none does.
fn item_after(before: CountsBefore, statement: &Statement) -> Option<Item>
    ensures { result ≡ item_after before statement.now }
{
    match statement {
        Statement::Limits { .. } => Some(Item::Limits),
        Statement::Source(_, _) | Statement::Sink(_, _) | Statement::Fifo { .. } => {
            Some(Item::Channel(before.channels))
        }
        Statement::Block(_, _) | Statement::Loop { .. } => {
            in_last_module(before, before.blocks, Spot::Head)
        }
        Statement::At(_, _, _) => in_last_block(before, Spot::Operation(before.operations)),
        Statement::Goto(_) | Statement::Branch { .. } | Statement::Stop => {
            in_last_block(before, Spot::Terminator)
        }
        _ => None,
    }
}

/// Whether two spots are the same.
fn same_spot(a: Spot, b: Spot) -> bool
    ensures { result ≡ same_spot a b }
{
    match (a, b) {
        (Spot::Head, Spot::Head) | (Spot::Terminator, Spot::Terminator) => true,
        (Spot::Operation(j), Spot::Operation(k)) => j == k,
        _ => false,
    }
}

/// Whether two items are the same.
fn same_item(a: &Item, b: &Item) -> bool
    ensures { result ≡ same_item a.now b.now }
{
    match (a, b) {
        (Item::Limits, Item::Limits) => true,
        (Item::Channel(f), Item::Channel(g)) => *f == *g,
        (Item::InModule(m, (b, spot)), Item::InModule(n, (c, other))) => {
            *m == *n && *b == *c && same_spot(*spot, *other)
        }
        _ => false,
    }
}

/// Whether a statement's item, if it has one, is the given one.
fn is_item(item: &Item, stands: &Option<Item>) -> bool
    ensures { result ≡ is_item item.now stands.now }
{
    match stands {
        Some(other) => same_item(item, other),
        None => false,
    }
}

/// The place of the first statement that an item comes from, or the number of statements where there is none.
fn place_of(statements: &[Statement], item: &Item) -> usize
    ensures { result ≡ item_place statements.now item.now }
{
    let mut before = nothing();
    for (at, statement) in statements.iter().enumerate() {
        let stands = item_after(before, statement);
        if is_item(item, &stands) {
            return at;
        }
        before = counts_more(before, statement);
    }
    statements.len()
}

/// The line of the statement that an item comes from.
pub(crate) fn line_of(statements: &[Statement], lines: &[u64], item: &Item) -> u64
    ensures { result ≡ line_of statements.now lines.now item.now }
{
    match lines.get(place_of(statements, item)) {
        Some(line) => *line,
        None => 0,
    }
}
