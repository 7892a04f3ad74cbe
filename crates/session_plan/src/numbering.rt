//! Replacing names by numbers.
ghost use Rattle.std.specs.Prelude.{◌≡◌, [], option_map, IfOk};
ghost use Rattle.session_plan.specs.{name_number, scope_at, numbered_expr, operation, places, timed, terminator};

use crate::names::DeclaredNames;
use crate::scope::ModuleNames;
use flow_design::{Expr, Name, Next, Op, Statement, Timed};
use flow_word::{Boxed, OutOfMemory};
use std::alloc::Global;
use std::marker::Model;

/// The names that the operations of a body may use, and where their expressions are made. Contracts see the names.
#[derive(Drop)]
pub(crate) struct BodyScope<'a> {
    pub(crate) alloc: Global,
    pub(crate) channels: &'a DeclaredNames<'a>,
    pub(crate) own: &'a ModuleNames<'a>,
    pub(crate) temps: &'a DeclaredNames<'a>,
}

impl<'a> Model for BodyScope<'a> {
    ghost use Rattle.session_plan.specs.{Names.Scope, Tables.scope_at};

    ghost Value = { Scope };

    ghost view = { λ scope. scope_at scope.channels.now scope.own.now scope.temps.now };
}

impl<'a> BodyScope<'a> {
    /// The number of a register or temp: temps are numbered after the registers.
    #[tactic(auto, using(crate::proofs::NameLemmas::number_after, crate::proofs::NameLemmas::number_among))]
    fn place(&self, name: &Name) -> u32
        ensures { result ≡ name_number (places self.now) name.now }
    {
        let number = self.own.registers.number(name.bytes());
        if number < self.own.registers.len() {
            number
        } else {
            self.own.registers.len() + self.temps.number(name.bytes())
        }
    }

    /// The number of a channel.
    fn channel(&self, name: &Name) -> u32
        ensures { result ≡ name_number self.now.channels name.now }
    {
        self.channels.number(name.bytes())
    }

    /// The number of a memory.
    fn memory(&self, name: &Name) -> u32
        ensures { result ≡ name_number self.now.memories name.now }
    {
        self.own.memories.number(name.bytes())
    }

    /// An expression with its names replaced by numbers.
    #[tactic(auto, using(crate::proofs::Trees::the_numbered))]
    fn numbered(&self, expr: &Expr<Name>) -> Result<Expr<u32>, OutOfMemory>
        ensures { IfOk result (λ e. e ≡ numbered_expr (places self.now) expr.now) }
    {
        match expr {
            Expr::Number(value) => Ok(Expr::Number(*value)),
            Expr::Var(name) => Ok(Expr::Var(self.place(name))),
            Expr::Unary(op, a) => Ok(Expr::Unary(
                *op,
                Boxed::new(self.alloc, self.numbered(a.get())?)?,
            )),
            Expr::Binary(op, a, b) => {
                let a = Boxed::new(self.alloc, self.numbered(a.get())?)?;
                let b = Boxed::new(self.alloc, self.numbered(b.get())?)?;
                Ok(Expr::Binary(*op, a, b))
            }
            Expr::Sext(width, a) => Ok(Expr::Sext(
                *width,
                Boxed::new(self.alloc, self.numbered(a.get())?)?,
            )),
            Expr::Pick(a, b, c) => {
                let a = Boxed::new(self.alloc, self.numbered(a.get())?)?;
                let b = Boxed::new(self.alloc, self.numbered(b.get())?)?;
                let c = Boxed::new(self.alloc, self.numbered(c.get())?)?;
                Ok(Expr::Pick(a, b, c))
            }
        }
    }

    /// An operation with its names replaced by numbers.
    fn operation(&self, op: &Op<Name>) -> Result<Op<u32>, OutOfMemory>
        ensures { IfOk result (λ o. o ≡ operation self.now op.now) }
    {
        match op {
            Op::Set(target, value) => Ok(Op::Set(self.place(target), self.numbered(value)?)),
            Op::Load {
                target,
                memory,
                address,
            } => self.load(target, memory, address),
            Op::Store {
                memory,
                address,
                value,
            } => self.store(memory, address, value),
            Op::Read { channel, target } => Ok(Op::Read {
                channel: self.channel(channel),
                target: self.place(target),
            }),
            Op::Write(channel, value) => self.write(channel, value),
            Op::TryRead {
                channel,
                target,
                outcome,
            } => Ok(self.try_read(channel, target, outcome)),
            Op::TryWrite {
                channel,
                outcome,
                value,
            } => self.try_write(channel, outcome, value),
            Op::Empty { channel, target } => Ok(Op::Empty {
                channel: self.channel(channel),
                target: self.place(target),
            }),
            Op::Full { channel, target } => Ok(Op::Full {
                channel: self.channel(channel),
                target: self.place(target),
            }),
        }
    }

    /// A `load` with its names replaced by numbers.
    fn load(
        &self,
        target: &Name,
        memory: &Name,
        address: &Expr<Name>,
    ) -> Result<Op<u32>, OutOfMemory>
        ensures { IfOk result (λ o. o ≡ operation self.now (Op.Load target.now memory.now address.now)) }
    {
        Ok(Op::Load {
            target: self.place(target),
            memory: self.memory(memory),
            address: self.numbered(address)?,
        })
    }

    /// A `store` with its names replaced by numbers.
    fn store(
        &self,
        memory: &Name,
        address: &Expr<Name>,
        value: &Expr<Name>,
    ) -> Result<Op<u32>, OutOfMemory>
        ensures { IfOk result (λ o. o ≡ operation self.now (Op.Store memory.now address.now value.now)) }
    {
        Ok(Op::Store {
            memory: self.memory(memory),
            address: self.numbered(address)?,
            value: self.numbered(value)?,
        })
    }

    /// A `write` with its names replaced by numbers.
    fn write(&self, channel: &Name, value: &Expr<Name>) -> Result<Op<u32>, OutOfMemory>
        ensures { IfOk result (λ o. o ≡ operation self.now (Op.Write channel.now value.now)) }
    {
        Ok(Op::Write(self.channel(channel), self.numbered(value)?))
    }

    /// A `tryread` with its names replaced by numbers.
    fn try_read(&self, channel: &Name, target: &Name, outcome: &Name) -> Op<u32>
        ensures { result ≡ operation self.now (Op.TryRead channel.now target.now outcome.now) }
    {
        Op::TryRead {
            channel: self.channel(channel),
            target: self.place(target),
            outcome: self.place(outcome),
        }
    }

    /// A `trywrite` with its names replaced by numbers.
    fn try_write(
        &self,
        channel: &Name,
        outcome: &Name,
        value: &Expr<Name>,
    ) -> Result<Op<u32>, OutOfMemory>
        ensures { IfOk result (λ o. o ≡ operation self.now (Op.TryWrite channel.now outcome.now value.now)) }
    {
        Ok(Op::TryWrite {
            channel: self.channel(channel),
            outcome: self.place(outcome),
            value: self.numbered(value)?,
        })
    }

    /// The number of a guard, if there is one.
    fn guard(&self, name: &Option<Name>) -> Option<u32>
        ensures { result ≡ option_map (name_number (places self.now)) name.now }
    {
        match name {
            Some(name) => Some(self.place(name)),
            None => None,
        }
    }

    /// The operation that an `at` schedules, with its offset and guard. `None` for any other statement.
    pub(crate) fn timed(&self, statement: &Statement) -> Result<Option<Timed>, OutOfMemory>
        ensures { IfOk result (λ t. t ≡ timed self.now statement.now) }
    {
        match statement {
            Statement::At(offset, name, op) => {
                Ok(Some(Timed {
                    offset: *offset,
                    guard: self.guard(name),
                    op: self.operation(op)?,
                }))
            }
            _ => Ok(None),
        }
    }
}

/// The terminator that a statement is. `None` where it is none.
pub(crate) fn terminator(own: &ModuleNames, statement: &Statement) -> Option<Next>
    ensures { result ≡ terminator (scope_at [] own.now []) statement.now }
{
    match statement {
        Statement::Goto(to) => Some(Next::Goto(own.blocks.number(to.bytes()))),
        Statement::Branch {
            register,
            first,
            second,
        } => {
            Some(Next::Branch {
                register: own.registers.number(register.bytes()),
                first: own.blocks.number(first.bytes()),
                second: own.blocks.number(second.bytes()),
            })
        }
        Statement::Stop => Some(Next::Stop),
        _ => None,
    }
}
