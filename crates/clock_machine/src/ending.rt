//! The verdict of a settled clock, and the report.
ghost use Rattle.std.specs.Prelude.{◌≡◌, ℕ, ◌<◌, [], ◌∷◌, ◌++◌, map, find, filter, filter_map, length, slice_index_or, IfOk, OnOk};
ghost use Rattle.std.specs.List.{list_any, list_all};
ghost use Rattle.clock_machine.specs.{kind_at, is_sink, ClockState as StateOf, is_spent, nobody, sinks, stalls, all_ready, values};
ghost use Rattle.clock_machine.specs.{contents_of, settled_verdict, held_at, held_by, held_modules, held, AreFitInTime, AreCodes};
ghost use Rattle.clock_machine.specs.{report_from, MachineStands};
ghost use Rattle.flow_design.specs.declared.report.Verdict.TheVariants.{Cycles};

use crate::asking::{is_over, note_one, state_at};
use crate::channels::stalls_ever;
use crate::standing::Compiled;
use flow_design::{
    ChannelKind, CheckedPlan, ClockState, Element, EventLine, Held, ModuleState, Report, Request,
    Verdict,
};
use flow_word::{Flags, List, OutOfMemory, Queue, Side, Words};
use module_code::{Notes, is_spent};
use std::alloc::Global;

/// What a run collected on its way, for the report.
#[derive(Drop)]
pub struct Told {
    /// The events of all clocks, or none where events are not kept.
    pub events: List<EventLine>,
    /// The outcomes of each module's queries.
    pub answers: List<Flags>,
}

/// Memory for the notes of one module, used for one after another.
#[derive(Drop)]
struct Room {
    /// The notes of the due operations, in commit order.
    notes: Notes,
    /// The requests of the due FIFO operations, in commit order.
    requests: List<Request>,
    /// Memory for the results of expressions.
    words: Words,
}

impl Room {
    /// Empty lists, which take no memory.
    fn new(alloc: Global) -> Room {
        Room {
            notes: Notes::new(alloc),
            requests: List::new(alloc),
            words: List::new(alloc),
        }
    }
}

/// Whether all modules are ended.
fn all_ended(states: &[ModuleState]) -> bool
    ensures { result ≡ list_all (λ state. state.ended) states.now }
{
    states.iter().all(|state| state.ended)
}

/// Whether a module is spent.
fn any_spent(ops: u64, states: &[ModuleState]) -> bool
    ensures { result ≡ list_any (is_spent ops) states.now }
{
    states.iter().any(|state| is_spent(ops, state))
}

/// The verdict of a settled clock: done where all modules are ended, else ops where one is spent, else deadlock.
fn settled_verdict(plan: &CheckedPlan, clock: u64, state: &ClockState) -> Verdict
    ensures { result ≡ settled_verdict plan.now clock state.now }
{
    if all_ended(state.modules.as_slice()) {
        Verdict::Done(clock)
    } else if any_spent(plan.ops(), state.modules.as_slice()) {
        Verdict::Ops(clock)
    } else {
        Verdict::Deadlock(clock)
    }
}

/// The first of these operations that blocks and could not be done even if every element could be popped.
fn first_stall(
    plan: &CheckedPlan,
    contents: &[Queue<Element>],
    requests: &[Request],
) -> Option<Request>
    ensures { result ≡ find (stalls plan.now 0 (all_ready contents.now)) requests.now }
{
    requests
        .iter()
        .copied()
        .find(|request| stalls_ever(plan, contents, request))
}

/// Module i as held by a request.
fn hold_by(i: u32, request: Request) -> Held
    ensures { result ≡ held_at i request }
{
    let full = match request.kind.side() {
        Side::Pop => false,
        Side::Push => true,
    };
    Held {
        module: i,
        full,
        channel: request.channel,
    }
}

/// Adds module i to the held modules, if it is held.
fn hold_one(
    of: &Compiled<'_>,
    state: &ClockState,
    i: usize,
    room: &mut Room,
    held: &mut List<Held>,
) -> Result<(), OutOfMemory>
    requires codes { AreCodes of.now.plan.now of.now.codes.now }
    requires fit { AreFitInTime of.now.plan.now state.now.modules }
    requires within { i < length state.now.modules }
    ensures { OnOk result (held.new
        ≡ held.old ++ filter_map (held_by of.now.plan.now 0 (all_ready state.now.contents))
        ((i, slice_index_or state.now.modules i nobody) ∷ [])) }
{
    of.plan.fits();
    let module = state_at(state, i);
    if is_over(of.plan, module) {
        return Ok(());
    }
    note_one(
        of,
        i,
        module,
        &mut room.words,
        &mut room.notes,
        &mut room.requests,
    )?;
    let contents = state.contents.as_slice();
    if let Some(request) = first_stall(of.plan, contents, room.requests.as_slice()) {
        held.push(hold_by(i as u32, request))?;
    }
    Ok(())
}

/// The modules that are held in this state, in order, each with what holds it.
fn hold_all(alloc: Global, of: &Compiled<'_>, state: &ClockState) -> Result<List<Held>, OutOfMemory>
    requires codes { AreCodes of.now.plan.now of.now.codes.now }
    requires fit { AreFitInTime of.now.plan.now state.now.modules }
    ensures { IfOk result (λ list. (clock : ℕ) → list ≡ held_modules of.now.plan.now clock state.now) }
{
    let mut held = List::new(alloc);
    let mut room = Room::new(alloc);
    let count = state.modules.as_slice().len();
    for i in 0..count {
        hold_one(of, state, i, &mut room, &mut held)?;
    }
    Ok(held)
}

/// The held modules of a report with this verdict. There are none where all modules are ended, or at the cycle limit.
fn held_with(
    alloc: Global,
    of: &Compiled<'_>,
    verdict: Verdict,
    state: &ClockState,
) -> Result<List<Held>, OutOfMemory>
    requires { MachineStands of.now.plan.now of.now.codes.now state.now.modules }
    ensures { IfOk result (λ list. list ≡ held of.now.plan.now verdict state.now) }
{
    match verdict {
        Verdict::Done(_) | Verdict::Cycles(_) => Ok(List::new(alloc)),
        Verdict::Deadlock(_) | Verdict::Ops(_) => {
            let held = hold_all(alloc, of, state)?;
            Ok(held)
        }
    }
}

/// The values of a queue's elements, moved into a list.
fn drain(alloc: Global, queue: &mut Queue<Element>) -> Result<Words, OutOfMemory>
    ensures { IfOk result (λ words. words ≡ values queue.old) }
{
    let mut words = List::with_room(alloc, queue.len())?;
    while let Some(element) = queue.pop() {
        words.push(element.value)?;
    }
    Ok(words)
}

/// The values that channel i holds, moved into a list. The other channels keep their values.
fn drain_channel(
    alloc: Global,
    contents: &mut [Queue<Element>],
    i: usize,
) -> Result<Words, OutOfMemory>
    ensures values { IfOk result (λ words. words ≡ values (contents_of contents.old i)) }
    ensures others { (k : ℕ) → i < k → contents_of contents.new k ≡ contents_of contents.old k }
{
    if i < contents.len() {
        drain(alloc, &mut contents[i])
    } else {
        Ok(List::new(alloc))
    }
}

/// Adds the values of channel i to the outputs, if it is a sink. The other channels keep their values.
fn output_one(
    alloc: Global,
    plan: &CheckedPlan,
    contents: &mut [Queue<Element>],
    i: usize,
    outputs: &mut List<Words>,
) -> Result<(), OutOfMemory>
    requires within { i < length plan.now.design.channels }
    ensures values { OnOk result (outputs.new
        ≡ outputs.old ++ map (λ f. values (contents_of contents.old f)) (filter (λ f. is_sink (kind_at plan.now f)) (i ∷ []))) }
    ensures others { OnOk result ((k : ℕ) → i < k → contents_of contents.new k ≡ contents_of contents.old k) }
{
    if kind_of(plan, i).is_sink() {
        let words = drain_channel(alloc, contents, i)?;
        outputs.push(words)?;
    }
    Ok(())
}

/// The kind of channel i.
fn kind_of(plan: &CheckedPlan, i: usize) -> ChannelKind
    requires { i < length plan.now.design.channels }
    ensures { result ≡ kind_at plan.now i }
{
    plan.channels()[i].kind
}

/// The values of all sinks, in order.
fn outputs(
    alloc: Global,
    plan: &CheckedPlan,
    contents: &mut [Queue<Element>],
) -> Result<List<Words>, OutOfMemory>
    ensures { IfOk result (λ outputs. outputs ≡ map (λ f. values (contents_of contents.old f)) (sinks plan.now)) }
{
    let mut outputs = List::new(alloc);
    let count = plan.channels().len();
    for i in 0..count {
        output_one(alloc, plan, contents, i, &mut outputs)?;
    }
    Ok(outputs)
}

/// The report of a run, from its verdict, its outputs, its held modules, and what it collected.
fn report_of(
    alloc: Global,
    plan: &CheckedPlan,
    verdict: Verdict,
    held: List<Held>,
    contents: &mut [Queue<Element>],
    told: Told,
) -> Result<Report, OutOfMemory>
    ensures { IfOk result (λ report. report ≡ record {
      verdict = verdict;
      outputs = map (λ f. values (contents_of contents.old f)) (sinks plan.now);
      held = held;
      events = told.events;
      answers = told.answers;
    }) }
{
    let outputs = outputs(alloc, plan, contents)?;
    let Told { events, answers } = told;
    Ok(Report {
        verdict,
        outputs,
        held,
        events,
        answers,
    })
}

/// The report of a run that comes to a settled clock. `OutOfMemory` where memory ran out.
pub fn settled_report(
    alloc: Global,
    of: &Compiled<'_>,
    clock: u64,
    mut state: ClockState,
    told: Told,
) -> Result<Report, OutOfMemory>
    requires { MachineStands of.now.plan.now of.now.codes.now state.modules }
    ensures { IfOk result (λ report. report
        ≡ report_from of.now.plan.now (settled_verdict of.now.plan.now clock state) state told.events told.answers) }
{
    let verdict = settled_verdict(of.plan, clock, &state);
    let held = held_with(alloc, of, verdict, &state)?;
    let contents = state.contents.as_mut_slice();
    let report = report_of(alloc, of.plan, verdict, held, contents, told)?;
    Ok(report)
}

/// The report of a run that comes to the cycle limit without a settled clock. No module counts as held then. `OutOfMemory` where memory
/// ran out.
pub fn limit_report(
    alloc: Global,
    plan: &CheckedPlan,
    contents: &mut [Queue<Element>],
    told: Told,
) -> Result<Report, OutOfMemory>
    ensures { IfOk result (λ report. (st : StateOf) → st.contents ≡ contents.old
        → report ≡ report_from plan.now (Cycles plan.now.cycles) st told.events told.answers) }
{
    let verdict = Verdict::Cycles(plan.cycles());
    let report = report_of(alloc, plan, verdict, List::new(alloc), contents, told)?;
    Ok(report)
}
