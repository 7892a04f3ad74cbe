//! A core at the beginning.
ghost use Rattle.std.specs.Prelude.{◌≡◌, ℕ, ◌<◌, true, false, None, map, length, replicate, IfOk, IfSome, slice_index_or, slice_set};
ghost use Rattle.sim_core.specs.{cut_to, opening_core, AllVerified, design, Own, first_rest, StandsAt, waits, kind_in, kinds_of};
ghost use Rattle.sim_core.specs.{AreFirstRuns, AreOlderRuns, theory_of};

use crate::due::DueModules;
use crate::machine::{Core, Scratch};
use crate::unread::nothing_unread;
use crate::wiring::find_wiring;
use engine_view::Engine;
use event_graph::Graph;
use fifo_table::{FifoTable, TableChannel};
use flow_design::{Advance, ChannelKind, CheckedPlan};
use flow_word::{List, OutOfMemory, Width, Words, cut};
use module_interp::ModuleRun;
use query_log::QueryLog;
use query_resolve::CandidateList;
use std::alloc::Global;

impl Core {
    /// A core of a plan in which nothing is emitted yet, with the runs of all modules. None of its outcomes is assumed, so `drive`
    /// finds none that differs.
    ///
    /// After `OutOfMemory` the plan is lost.
    pub fn new(alloc: Global, plan: CheckedPlan) -> Result<Core, OutOfMemory>
        ensures plan { IfOk result (λ core. core.plan ≡ plan) }
        ensures opening { IfOk result (λ core. theory_of core ≡ opening_core (design plan)) }
        ensures verified { IfOk result (λ core. AllVerified (theory_of core)) }
        ensures own { IfOk result (λ core. (m : ℕ) → m < length plan.design.modules → slice_index_or core.lent m true ≡ false) }
    {
        let runs = first_runs(alloc, &plan, Vec::new(alloc))?;
        begin(alloc, plan, runs)
    }

    /// A core of the same plan in which nothing is emitted yet. It takes over the plan, and the runs of the modules, whose blocks are
    /// not compiled again; of a module whose run is lent it has a new run. All else is dropped before memory is taken, so that the
    /// two simulations are not held at once.
    ///
    /// After `OutOfMemory` the plan is lost.
    pub fn again(self, alloc: Global) -> Result<Core, OutOfMemory>
        ensures plan { IfOk result (λ core. core.plan ≡ self.plan) }
        ensures opening { IfOk result (λ core. theory_of core ≡ opening_core (design self.plan)) }
        ensures verified { IfOk result (λ core. AllVerified (theory_of core)) }
        ensures own { IfOk result (λ core. (m : ℕ) → m < length self.plan.design.modules → slice_index_or core.lent m true ≡ false) }
    {
        let (plan, older) = self.into_plan_and_runs();
        let runs = first_runs(alloc, &plan, older)?;
        begin(alloc, plan, runs)
    }
}

/// A core of a plan in which nothing is emitted yet, with the runs of all modules at their first rests.
fn begin(
    alloc: Global,
    plan: CheckedPlan,
    runs: Vec<Option<ModuleRun>>,
) -> Result<Core, OutOfMemory>
    requires { AreFirstRuns plan runs.items (length plan.design.modules) }
    ensures plan { IfOk result (λ core. core.plan ≡ plan) }
    ensures opening { IfOk result (λ core. theory_of core ≡ opening_core (design plan)) }
    ensures verified { IfOk result (λ core. AllVerified (theory_of core)) }
    ensures own { IfOk result (λ core. (m : ℕ) → m < length plan.design.modules → slice_index_or core.lent m true ≡ false) }
{
    plan.fits();
    let modules = plan.modules().len() as u32;
    let kinds = make_kinds(alloc, &plan)?;
    let fifos = FifoTable::new(alloc, kinds)?;
    let graph = Graph::new(alloc, modules)?;
    let log = QueryLog::new(alloc, modules)?;
    let ends = no_ends(alloc, modules)?;
    let credits = vec![in alloc; 0; modules as usize]?;
    let engine = Engine {
        graph,
        fifos,
        log,
        ends,
        credits,
    };
    let wiring = find_wiring(alloc, &plan)?;
    let unread = nothing_unread(alloc, plan.channels().len() as u64)?;
    let due = DueModules::all(alloc, modules)?;
    let candidates = CandidateList::new(alloc, modules)?;
    Ok(Core {
        plan: plan.into_plan(),
        engine,
        runs,
        wiring,
        unread,
        due,
        candidates,
        scratch: Scratch::new(alloc),
    })
}

/// The runs of all modules, each at its first rest. The runs of an older core are used again, as far as they are there.
fn first_runs(
    alloc: Global,
    plan: &CheckedPlan,
    older: Vec<Option<ModuleRun>>,
) -> Result<Vec<Option<ModuleRun>>, OutOfMemory>
    requires { AreOlderRuns plan.now older.items }
    ensures { IfOk result (λ runs. AreFirstRuns plan.now runs.items (length plan.now.design.modules)) }
{
    plan.fits();
    let modules = plan.modules().len() as u32;
    let mut runs = Vec::with_capacity(alloc, modules as usize)?;
    let mut older = older;
    for number in 0..modules {
        let run = first_run(alloc, plan, number, take_run(&mut older, number as usize))?;
        runs.push(Some(run))?;
    }
    Ok(runs)
}

/// A module's run at its first rest: the older run, put back, if there is one, else a new one.
fn first_run(
    alloc: Global,
    plan: &CheckedPlan,
    number: u32,
    older: Option<ModuleRun>,
) -> Result<ModuleRun, OutOfMemory>
    requires owner { number < length plan.now.design.modules }
    requires older { IfSome older (λ run. (o : Own) × StandsAt plan.now number o run) }
    ensures stands { IfOk result (λ run. StandsAt plan.now number (first_rest plan.now number) run) }
    ensures waits { IfOk result (λ run. waits run ≡ false) }
{
    match older {
        Some(run) => run.again(alloc),
        None => ModuleRun::new(alloc, plan, number),
    }
}

/// Takes the run at a place out of the list. `None` where none is there.
fn take_run(runs: &mut Vec<Option<ModuleRun>>, at: usize) -> Option<ModuleRun>
    ensures run { result ≡ slice_index_or runs.old.items at None }
    ensures left { runs.new.items ≡ slice_set runs.old.items at None }
{
    if at < runs.len() {
        runs[at].take()
    } else {
        None
    }
}

/// One entry for each of `modules` modules: no end mark yet. `OutOfMemory` where memory ran out.
fn no_ends(alloc: Global, modules: u32) -> Result<Vec<Option<Advance>>, OutOfMemory>
    ensures { IfOk result (λ ends. ends.items ≡ replicate modules None) }
{
    let mut ends = Vec::with_capacity(alloc, modules as usize)?;
    for _ in 0..modules {
        ends.push(None)?;
    }
    Ok(ends)
}

/// The plan's channels as the table has them.
fn make_kinds(alloc: Global, plan: &CheckedPlan) -> Result<Vec<TableChannel>, OutOfMemory>
    ensures { IfOk result (λ kinds. kinds.items ≡ kinds_of plan.now) }
{
    let count = plan.channels().len();
    let mut kinds = Vec::with_capacity(alloc, count)?;
    for i in 0..count {
        kinds.push(make_kind(alloc, plan, i)?)?;
    }
    Ok(kinds)
}

/// The kind of the plan's channel i, in the form that the table needs.
fn make_kind(alloc: Global, plan: &CheckedPlan, i: usize) -> Result<TableChannel, OutOfMemory>
    requires { i < length plan.now.design.channels }
    ensures { IfOk result (λ kind. kind ≡ kind_in plan.now i) }
{
    plan.fits();
    let channel = &plan.channels()[i];
    match channel.kind {
        ChannelKind::Source => Ok(TableChannel::Source(cut_values(
            alloc,
            channel.width,
            plan.inputs()[i].as_slice(),
        )?)),
        ChannelKind::Sink => Ok(TableChannel::Sink),
        ChannelKind::Fifo { delay, .. } => Ok(TableChannel::Fifo {
            depth: plan.depths()[i],
            delay,
        }),
    }
}

/// The values, each cut to a width.
fn cut_values(alloc: Global, width: Width, values: &[u64]) -> Result<Words, OutOfMemory>
    ensures { IfOk result (λ words. words ≡ map (cut_to width) values.now) }
{
    let mut words = List::with_room(alloc, values.len() as u64)?;
    for value in values {
        words.push(cut(*value, width))?;
    }
    Ok(words)
}
