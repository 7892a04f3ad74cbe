//! Modules and their blocks.
ghost use Rattle.std.specs.{Prelude.◌≡◌, Prelude.List as Items, Prelude.[], Prelude.map, Prelude.IfOk, List.filter_map};
ghost use Rattle.session_plan.specs.{scope_at, timed, terminator, sections, declared_width, first_or, kind_of, len_of, block, memory};
ghost use Rattle.session_plan.specs.{name_declared, scope_of, plan_module, Name as SpecName};
ghost use Rattle.flow_design.specs.declared.design.Next.TheVariants as next;
ghost use Rattle.session_plan.specs.declared.section.Level.TheVariants as level;

use crate::names::DeclaredNames;
use crate::numbering::{BodyScope, terminator};
use crate::scope::{ModuleNames, names_of};
use crate::section::{Level, Sort, begins, body_of, declared_width};
use flow_design::{Block, BlockKind, Memory, Module, Name, Next, Statement, Timed};
use flow_word::{List, OutOfMemory, TryCopy, Width};
use std::alloc::Global;

/// The widths of the registers, or temps, that these statements declare, in order.
fn widths_of(alloc: Global, sort: Sort, body: &[Statement]) -> Result<List<Width>, OutOfMemory>
    ensures { IfOk result (λ widths. widths ≡ filter_map (declared_width sort) body.now) }
{
    let mut widths = List::new(alloc);
    for statement in body {
        if let Some(width) = declared_width(sort, statement) {
            widths.push(width)?;
        }
    }
    Ok(widths)
}

/// The memories that these statements declare, in order.
fn memories_of(alloc: Global, body: &[Statement]) -> Result<List<Memory>, OutOfMemory>
    ensures { IfOk result (λ memories. memories ≡ filter_map memory body.now) }
{
    let mut memories = List::new(alloc);
    for statement in body {
        if let Statement::Mem(_, width, len) = statement {
            memories.push(Memory {
                width: *width,
                len: *len,
            })?;
        }
    }
    Ok(memories)
}

/// The operations of a body, in order.
fn operations_of(scope: &BodyScope, body: &[Statement]) -> Result<List<Timed>, OutOfMemory>
    ensures { IfOk result (λ ops. ops ≡ filter_map (timed scope.now) body.now) }
{
    let mut ops = List::new(scope.alloc);
    for statement in body {
        if let Some(op) = scope.timed(statement)? {
            ops.push(op)?;
        }
    }
    Ok(ops)
}

/// The first terminator of a body.
fn next_of(own: &ModuleNames, body: &[Statement]) -> Next
    ensures { result ≡ first_or next.Stop (filter_map (terminator (scope_at [] own.now [])) body.now) }
{
    for statement in body {
        if let Some(next) = terminator(own, statement) {
            return next;
        }
    }
    Next::Stop
}

/// The kind of the block that a statement begins.
fn kind_of(own: &ModuleNames, head: &Statement) -> BlockKind
    ensures { result ≡ kind_of (scope_at [] own.now []) head.now }
{
    match head {
        Statement::Loop {
            interval,
            again,
            ..
        } => BlockKind::Loop {
            ii: *interval,
            again: own.registers.number(again.bytes()),
        },
        _ => BlockKind::Plain,
    }
}

/// The LEN of the block that a statement begins.
fn len_of(head: &Statement) -> u64
    ensures { result ≡ len_of head.now }
{
    match head {
        Statement::Block(_, len) | Statement::Loop { len, .. } => *len,
        _ => 0,
    }
}

/// A block of a module, from the statement that begins it and its body.
#[tactic(auto, unfolding(crate::specs::Plans::block))]
fn block_of(
    alloc: Global,
    channels: &DeclaredNames,
    own: &ModuleNames,
    head: &Statement,
    body: &[Statement],
) -> Result<Block, OutOfMemory>
    ensures { IfOk result (λ b. b ≡ block (scope_at channels.now own.now []) (head.now, body.now)) }
{
    let temps = names_of(alloc, Sort::Temps, body)?;
    let scope = BodyScope {
        alloc,
        channels,
        own,
        temps: &temps,
    };
    Ok(Block {
        kind: kind_of(own, head),
        len: len_of(head),
        temps: widths_of(alloc, Sort::Temps, body)?,
        ops: operations_of(&scope, body)?,
        next: next_of(own, body),
    })
}

/// The blocks of a module.
fn blocks_of(
    alloc: Global,
    channels: &DeclaredNames,
    own: &ModuleNames,
    body: &[Statement],
) -> Result<List<Block>, OutOfMemory>
    ensures { IfOk result (λ blocks. blocks ≡ map (block (scope_at channels.now own.now [])) (sections level.Blocks body.now)) }
{
    let mut blocks = List::new(alloc);
    for (i, head) in body.iter().enumerate() {
        if begins(Level::Blocks, head) {
            let own_body = body_of(Level::Blocks, &body[i + 1..]);
            blocks.push(block_of(alloc, channels, own, head, own_body)?)?;
        }
    }
    Ok(blocks)
}

/// The names that a module declares.
fn names_in<'a>(alloc: Global, body: &'a [Statement]) -> Result<ModuleNames<'a>, OutOfMemory>
    ensures { IfOk result (λ own. (channels : Items SpecName) → scope_at channels own [] ≡ scope_of channels body.now) }
{
    Ok(ModuleNames {
        registers: names_of(alloc, Sort::Registers, body)?,
        memories: names_of(alloc, Sort::Memories, body)?,
        blocks: names_of(alloc, Sort::Blocks, body)?,
    })
}

/// The blocks of a module, given the names that it declares.
fn blocks_in(
    alloc: Global,
    channels: &DeclaredNames,
    body: &[Statement],
) -> Result<List<Block>, OutOfMemory>
    ensures { IfOk result (λ blocks. blocks ≡ map (block (scope_of channels.now body.now)) (sections level.Blocks body.now)) }
{
    let own = names_in(alloc, body)?;
    let blocks = blocks_of(alloc, channels, &own, body);
    drop(own);
    blocks
}

/// The name of the module that a statement begins.
fn name_of(alloc: Global, head: &Statement) -> Result<Name, OutOfMemory>
    ensures { IfOk result (λ name. name ≡ name_declared head.now) }
{
    match head {
        Statement::Module(name) => name.try_copy(alloc),
        _ => Name::new(alloc, &[]),
    }
}

/// A module, from the statement that begins it and the statements up to the next module.
#[tactic(auto, unfolding(crate::specs::Plans::plan_module))]
fn module_of(
    alloc: Global,
    channels: &DeclaredNames,
    head: &Statement,
    body: &[Statement],
) -> Result<Module, OutOfMemory>
    ensures { IfOk result (λ m. m ≡ plan_module channels.now (head.now, body.now)) }
{
    Ok(Module {
        name: name_of(alloc, head)?,
        registers: widths_of(alloc, Sort::Registers, body)?,
        memories: memories_of(alloc, body)?,
        blocks: blocks_in(alloc, channels, body)?,
    })
}

/// The modules of a session.
pub(crate) fn modules_of(
    alloc: Global,
    channels: &DeclaredNames,
    statements: &[Statement],
) -> Result<List<Module>, OutOfMemory>
    ensures { IfOk result (λ ms. ms ≡ map (plan_module channels.now) (sections level.Modules statements.now)) }
{
    let mut modules = List::new(alloc);
    for (i, head) in statements.iter().enumerate() {
        if begins(Level::Modules, head) {
            let body = body_of(Level::Modules, &statements[i + 1..]);
            modules.push(module_of(alloc, channels, head, body)?)?;
        }
    }
    Ok(modules)
}
