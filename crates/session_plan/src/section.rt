//! The sections of a session, and what its statements declare.
ghost use Rattle.std.specs.Prelude.{◌≡◌, option_map};
ghost use Rattle.session_plan.specs.{begins, body_of, declared_width, Sections.declared};

use flow_design::Statement;
use flow_word::Width;

/// Whether a section is a module or a block.
#[derive(Clone, Copy, Debug, PartialEq, Eq)]
pub enum Level {
    Modules,
    Blocks,
}

/// What a declared name stands for.
#[derive(Clone, Copy, Debug, PartialEq, Eq)]
pub enum Sort {
    Channels,
    Registers,
    Memories,
    Blocks,
    Temps,
}

/// Whether a statement begins a section of this level.
pub(crate) fn begins(level: Level, statement: &Statement) -> bool
    ensures { result ≡ begins level statement.now }
{
    match (level, statement) {
        (Level::Modules, Statement::Module(_)) => true,
        (Level::Blocks, Statement::Block(_, _) | Statement::Loop { .. }) => true,
        _ => false,
    }
}

/// The statements up to the next section of this level.
pub(crate) fn body_of<'a>(level: Level, rest: &'a [Statement]) -> &'a [Statement]
    ensures { result.now ≡ body_of level rest.now }
{
    for (i, statement) in rest.iter().enumerate() {
        if begins(level, statement) {
            return &rest[..i];
        }
    }
    rest
}

/// The name that a statement declares for something of this sort. `None` where it declares none.
pub(crate) fn declared<'a>(sort: Sort, statement: &'a Statement) -> Option<&'a [u8]>
    ensures { option_map (λ n. n.now) result ≡ declared sort statement.now }
{
    match (sort, statement) {
        (
            Sort::Channels,
            Statement::Source(name, _) | Statement::Sink(name, _) | Statement::Fifo { name, .. },
        ) => Some(name.bytes()),
        (Sort::Registers, Statement::Reg(name, _)) => Some(name.bytes()),
        (Sort::Memories, Statement::Mem(name, _, _)) => Some(name.bytes()),
        (Sort::Blocks, Statement::Block(name, _) | Statement::Loop { name, .. }) => {
            Some(name.bytes())
        }
        (Sort::Temps, Statement::Temp(name, _)) => Some(name.bytes()),
        _ => None,
    }
}

/// The width of the register, or temp, that a statement declares. `None` where it declares none.
pub(crate) fn declared_width(sort: Sort, statement: &Statement) -> Option<Width>
    ensures { result ≡ declared_width sort statement.now }
{
    match (sort, statement) {
        (Sort::Registers, Statement::Reg(_, width)) => Some(*width),
        (Sort::Temps, Statement::Temp(_, width)) => Some(*width),
        _ => None,
    }
}
