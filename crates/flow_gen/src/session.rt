//! The statements of the generated session.
ghost use Rattle.std.specs.Prelude.{◌≡◌, ◌++◌, ◌≤◌, ◌<◌, IfOk, OnOk};
ghost use Rattle.flow_design.specs.declared.limits.TheConstants.{STANDARD};
ghost use Rattle.flow_gen.specs.{drawn, each, fifo_after, fifo_name, first_clock, head_of, input_channel, generated_name};
ghost use Rattle.flow_gen.specs.{module_statements, output_of, second_clock, session, generated_values};

use crate::draws::{Drawn, draw_module};
use flow_design::{BinOp, Expr, Name, Op, Session, Statement};
use flow_word::{Boxed, List, OutOfMemory, Width, Words};
use std::alloc::Global;

/// How many values the source has.
const VALUES: u64 = 1000;

/// The session with `modules` modules that a seed gives. `OutOfMemory` where memory ran out.
#[tactic(auto, unfolding(crate::specs::Generated::session))]
pub fn generate_session(alloc: Global, seed: u64, modules: u64) -> Result<Session, OutOfMemory>
    requires seed { seed ≤ 65_535 }
    requires some { 1 ≤ modules }
    requires most { modules ≤ STANDARD.modules }
    ensures { IfOk result (λ made. made.statements ≡ session seed modules) }
{
    let mut statements = List::new(alloc);
    statements.push(Statement::Flow(1))?;
    statements.push(Statement::Source(Name::new(alloc, b"a")?, width(32)))?;
    statements.push(Statement::Sink(Name::new(alloc, b"y")?, width(32)))?;
    let mut maker = Maker { alloc, statements };
    maker.push_fifos(seed, modules - 1)?;
    maker.push_modules(seed, modules)?;
    let Maker { mut statements, .. } = maker;
    statements.push(Statement::Input(Name::new(alloc, b"a")?, values(alloc)?))?;
    statements.push(Statement::End)?;
    Ok(Session { statements })
}

/// A session while it is made.
#[derive(Drop)]
struct Maker {
    alloc: Global,
    statements: List<Statement>,
}

impl Maker {
    /// Adds the FIFOs after the first `fifos` modules.
    #[tactic(auto, using(crate::proofs::Steps::pushing))]
    fn push_fifos(&mut self, seed: u64, fifos: u64) -> Result<(), OutOfMemory>
        requires seed { seed ≤ 65_535 }
        requires most { fifos ≤ STANDARD.modules }
        ensures { OnOk result (self.new.statements ≡ self.old.statements ++ each fifo_after (drawn seed) fifos) }
    {
        let mut state = seed;
        for k in 0..fifos {
            self.push_fifo(k, draw_module(&mut state))?;
        }
        Ok(())
    }

    /// Adds the modules, in order.
    #[tactic(auto, using(crate::proofs::Steps::pushing))]
    fn push_modules(&mut self, seed: u64, modules: u64) -> Result<(), OutOfMemory>
        requires seed { seed ≤ 65_535 }
        requires most { modules ≤ STANDARD.modules }
        ensures { OnOk result (self.new.statements ≡ self.old.statements ++ each (module_statements modules) (drawn seed) modules) }
    {
        let mut state = seed;
        for k in 0..modules {
            self.push_module(modules, k, draw_module(&mut state))?;
        }
        Ok(())
    }

    /// Adds the FIFO after module k.
    fn push_fifo(&mut self, k: u64, drawn: Drawn) -> Result<(), OutOfMemory>
        requires { k < STANDARD.modules }
        ensures { OnOk result (self.new.statements ≡ self.old.statements ++ fifo_after k drawn) }
    {
        let depth = u64::from(drawn.depth);
        let name = fifo_name(self.alloc, k + 1)?;
        self.statements.push(Statement::Fifo {
            name,
            width: width(32),
            depth,
            delay: 1,
        })
    }

    /// Adds the statements of module k.
    fn push_module(&mut self, modules: u64, k: u64, drawn: Drawn) -> Result<(), OutOfMemory>
        requires { k < STANDARD.modules }
        ensures { OnOk result (self.new.statements ≡ self.old.statements ++ module_statements modules k drawn) }
    {
        self.push_head(k, u64::from(drawn.interval))?;
        let (input, output) = (input_of(self.alloc, k)?, output_of(self.alloc, modules, k)?);
        self.push_first_clock(input, output)?;
        let output = output_of(self.alloc, modules, k)?;
        self.push_second_clock(output, u64::from(drawn.addend))
    }

    /// Adds a module with its registers, and the beginning of its loop.
    #[tactic(auto, unfolding(crate::specs::Generated::head_of))]
    fn push_head(&mut self, k: u64, interval: u64) -> Result<(), OutOfMemory>
        requires { interval ≤ 255 }
        ensures { OnOk result (self.new.statements ≡ self.old.statements ++ head_of (generated_name k) interval) }
    {
        self.statements
            .push(Statement::Module(module_name(self.alloc, k)?))?;
        self.statements
            .push(Statement::Reg(Name::new(self.alloc, b"x")?, width(32)))?;
        self.statements
            .push(Statement::Reg(Name::new(self.alloc, b"n")?, width(32)))?;
        self.statements
            .push(Statement::Reg(Name::new(self.alloc, b"g")?, width(1)))?;
        self.statements
            .push(Statement::Reg(Name::new(self.alloc, b"e")?, width(1)))?;
        let (name, again) = (Name::new(self.alloc, b"l")?, Name::new(self.alloc, b"g")?);
        self.statements.push(Statement::Loop {
            name,
            interval,
            len: interval + 1,
            again,
        })
    }

    /// Adds the operations at offset 0.
    #[tactic(auto, unfolding(crate::specs::Generated::first_clock))]
    fn push_first_clock(&mut self, input: Name, output: Name) -> Result<(), OutOfMemory>
        ensures { OnOk result (self.new.statements ≡ self.old.statements ++ first_clock input output) }
    {
        let count = binary(
            self.alloc,
            BinOp::Add,
            variable(self.alloc, b"n")?,
            Expr::Number(1),
        )?;
        let again = binary(
            self.alloc,
            BinOp::LtU,
            variable(self.alloc, b"n")?,
            Expr::Number(999),
        )?;
        self.statements.push(Statement::At(
            0,
            None,
            Op::Read {
                channel: input,
                target: Name::new(self.alloc, b"x")?,
            },
        ))?;
        self.statements.push(Statement::At(
            0,
            None,
            Op::Full {
                channel: output,
                target: Name::new(self.alloc, b"e")?,
            },
        ))?;
        self.statements.push(Statement::At(0, None, Op::Set(Name::new(self.alloc, b"n")?, count)))?;
        self.statements.push(Statement::At(0, None, Op::Set(Name::new(self.alloc, b"g")?, again)))
    }

    /// Adds the operation at offset 1, and the end of the loop.
    #[tactic(auto, unfolding(crate::specs::Generated::second_clock))]
    fn push_second_clock(&mut self, output: Name, addend: u64) -> Result<(), OutOfMemory>
        ensures { OnOk result (self.new.statements ≡ self.old.statements ++ second_clock output addend) }
    {
        let added = binary(
            self.alloc,
            BinOp::Add,
            Expr::Number(addend),
            variable(self.alloc, b"e")?,
        )?;
        let sum = binary(self.alloc, BinOp::Add, variable(self.alloc, b"x")?, added)?;
        self.statements
            .push(Statement::At(1, None, Op::Write(output, sum)))?;
        self.statements.push(Statement::Stop)
    }
}

/// The channel that module k pops: the source, or the FIFO before it.
fn input_of(alloc: Global, k: u64) -> Result<Name, OutOfMemory>
    ensures { IfOk result (λ name. name ≡ input_channel k) }
{
    if k == 0 {
        Name::new(alloc, b"a")
    } else {
        fifo_name(alloc, k)
    }
}

/// The channel that module k pushes: the sink, or the FIFO after it.
fn output_of(alloc: Global, modules: u64, k: u64) -> Result<Name, OutOfMemory>
    requires { k < STANDARD.modules }
    ensures { IfOk result (λ name. name ≡ output_of modules k) }
{
    if k + 1 == modules {
        Name::new(alloc, b"y")
    } else {
        fifo_name(alloc, k + 1)
    }
}

/// The name of FIFO k: `fK`.
fn fifo_name(alloc: Global, k: u64) -> Result<Name, OutOfMemory>
    ensures { IfOk result (λ name. name ≡ fifo_name k) }
{
    Name::new(alloc, format!(in alloc; "f{k}")?.as_bytes())
}

/// The name of module k: `mK`.
fn module_name(alloc: Global, k: u64) -> Result<Name, OutOfMemory>
    ensures { IfOk result (λ name. name ≡ generated_name k) }
{
    Name::new(alloc, format!(in alloc; "m{k}")?.as_bytes())
}

/// The expression of the variable with this name.
fn variable(alloc: Global, name: &[u8]) -> Result<Expr<Name>, OutOfMemory>
    ensures { IfOk result (λ expr. expr ≡ Expr.Var name.now) }
{
    Ok(Expr::Var(Name::new(alloc, name)?))
}

/// The expression of an operator on two expressions.
fn binary(alloc: Global, op: BinOp, a: Expr<Name>, b: Expr<Name>) -> Result<Expr<Name>, OutOfMemory>
    ensures { IfOk result (λ expr. expr ≡ Expr.Binary op a b) }
{
    Ok(Expr::Binary(op, Boxed::new(alloc, a)?, Boxed::new(alloc, b)?))
}

/// The width of `bits` bits.
fn width(bits: u64) -> Width
    requires some { 1 ≤ bits }
    requires most { bits ≤ 64 }
    ensures { result ≡ bits }
{
    match Width::new(bits) {
        Some(width) => width,
        None => unreachable!(),
    }
}

/// The values of the source: the numbers from 0 to 999.
#[tactic(auto, using(crate::proofs::Steps::range_more), unfolding(crate::specs::Generated::generated_values))]
fn values(alloc: Global) -> Result<Words, OutOfMemory>
    ensures { IfOk result (λ words. words ≡ generated_values) }
{
    let mut words = List::new(alloc);
    for value in 0..VALUES {
        words.push(value)?;
    }
    Ok(words)
}
