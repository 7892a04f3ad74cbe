//! The state at clock 0.
ghost use Rattle.std.specs.Prelude.{◌≡◌, ◌<◌, [], map, length, replicate, IfOk};
ghost use Rattle.std.specs.List.{range_with_len};
ghost use Rattle.clock_machine.specs.{cut_to, opened, element_from, module_at, inputs_of, opening, IsFit, AreFit, AreCodes};

use crate::asking::module_at;
use flow_design::{CheckedPlan, ClockState, Element, ModuleState};
use flow_word::{Flags, List, OutOfMemory, Queue, Width, cut};
use module_code::{BlockCode, codes_of, open};
use std::alloc::Global;

/// The first state of module i.
fn open_one(alloc: Global, plan: &CheckedPlan, i: usize) -> Result<ModuleState, OutOfMemory>
    requires within { i < length plan.now.design.modules }
    ensures state { IfOk result (λ state. state ≡ opened (module_at plan.now i)) }
    ensures fit { IfOk result (λ state. IsFit plan.now 0 (i, state)) }
{
    plan.fits();
    let state = open(alloc, module_at(plan, i))?;
    Ok(state)
}

/// The first states of all modules.
fn open_modules(alloc: Global, plan: &CheckedPlan) -> Result<List<ModuleState>, OutOfMemory>
    ensures states { IfOk result (λ states. states ≡ map opened plan.now.design.modules) }
    ensures fit { IfOk result (λ states. AreFit plan.now 0 states) }
{
    let count = plan.modules().len();
    let mut states = List::with_room(alloc, count as u64)?;
    for i in 0..count {
        states.push(open_one(alloc, plan, i)?)?;
    }
    Ok(states)
}

/// A queue of values, each cut to a width, as elements that can be popped from clock 0 on.
fn queue_of(alloc: Global, width: Width, values: &[u64]) -> Result<Queue<Element>, OutOfMemory>
    ensures { IfOk result (λ queue. queue ≡ map (λ v. element_from 0 (cut_to width v)) values.now) }
{
    let mut queue = Queue::new(alloc);
    for value in values {
        queue.push(Element {
            value: cut(*value, width),
            since: 0,
        })?;
    }
    Ok(queue)
}

/// What channel i holds at clock 0: a source its inputs, and any other channel nothing.
fn fill_one(alloc: Global, plan: &CheckedPlan, i: usize) -> Result<Queue<Element>, OutOfMemory>
    requires within { i < length plan.now.design.channels }
    ensures { IfOk result (λ queue. queue ≡ inputs_of plan.now i) }
{
    plan.fits();
    let width = plan.channels()[i].width;
    let values = plan.inputs()[i].as_slice();
    queue_of(alloc, width, values)
}

/// What the channels hold at clock 0.
fn fill_channels(alloc: Global, plan: &CheckedPlan) -> Result<List<Queue<Element>>, OutOfMemory>
    ensures { IfOk result (λ contents. contents ≡ map (inputs_of plan.now) (range_with_len 0 (length plan.now.design.channels))) }
{
    let count = plan.channels().len();
    let mut contents = List::with_room(alloc, count as u64)?;
    for i in 0..count {
        contents.push(fill_one(alloc, plan, i)?)?;
    }
    Ok(contents)
}

/// The code of all blocks, module by module. It is the same after an edit of a depth. `OutOfMemory` where memory ran out.
pub fn codes_of_all(alloc: Global, plan: &CheckedPlan) -> Result<List<List<BlockCode>>, OutOfMemory>
    ensures { IfOk result (AreCodes plan.now) }
{
    plan.fits();
    let count = plan.modules().len();
    let channels = plan.channels();
    let mut codes = List::with_room(alloc, count as u64)?;
    for i in 0..count {
        codes.push(codes_of(alloc, channels, module_at(plan, i))?)?;
    }
    Ok(codes)
}

/// The state at clock 0. `OutOfMemory` where memory ran out.
pub fn open_all(alloc: Global, plan: &CheckedPlan) -> Result<ClockState, OutOfMemory>
    ensures state { IfOk result (λ state. state ≡ opening plan.now) }
    ensures fit { IfOk result (λ state. AreFit plan.now 0 state.modules) }
{
    let modules = open_modules(alloc, plan)?;
    let contents = fill_channels(alloc, plan)?;
    Ok(ClockState { modules, contents })
}

/// One empty list of answers for each of `modules` modules. `OutOfMemory` where memory ran out.
pub fn no_answers(alloc: Global, modules: u64) -> Result<List<Flags>, OutOfMemory>
    ensures { IfOk result (λ answers. answers ≡ replicate modules []) }
{
    let mut answers = List::new(alloc);
    for _ in 0..modules {
        answers.push(List::new(alloc))?;
    }
    Ok(answers)
}
