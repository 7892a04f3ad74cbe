//! The contents of the channels after a clock.
ghost use Rattle.std.specs.Prelude.{◌≡◌, ◌==◌, if◌then◌else◌, [], ◌∷◌, ◌++◌, map, drop, OnOk, ◌≤◌};
ghost use Rattle.std.specs.List.{enumerate_from};
ghost use Rattle.clock_machine.specs.{after_pops, after_pushes};

use crate::channels::delay;
use crate::memo::PushedValue;
use flow_design::{CheckedPlan, Element};
use flow_word::{OutOfMemory, Queue};

/// Takes the element at a channel's front off.
#[inline(always)]
fn pop_front(contents: &mut [Queue<Element>], channel: u32)
    ensures { contents.new ≡ map (λ f. if channel == f.0 then drop 1 f.1 else f.1) (enumerate_from 0 contents.old) }
{
    let channel = channel as usize;
    if channel < contents.len() {
        contents[channel].pop();
    }
}

/// Puts an element at a channel's back.
#[inline(always)]
fn push_back(
    contents: &mut [Queue<Element>],
    channel: u32,
    element: Element,
) -> Result<(), OutOfMemory>
    ensures { OnOk result (contents.new ≡ map (λ f. if channel == f.0 then f.1 ++ element ∷ [] else f.1) (enumerate_from 0 contents.old)) }
{
    let channel = channel as usize;
    if channel < contents.len() {
        contents[channel].push(element)?;
    }
    Ok(())
}

/// Takes off the channels what is popped in a clock.
pub fn pop_all(contents: &mut [Queue<Element>], pops: &[u32])
    ensures { contents.new ≡ map (after_pops pops.now) (enumerate_from 0 contents.old) }
{
    for channel in pops {
        pop_front(contents, *channel);
    }
}

/// Puts into the channels what is pushed in a clock. After `OutOfMemory` some of it may be missing.
pub fn push_all(
    plan: &CheckedPlan,
    clock: u64,
    contents: &mut [Queue<Element>],
    pushes: &[PushedValue],
) -> Result<(), OutOfMemory>
    requires early { clock ≤ plan.now.cycles }
    ensures { OnOk result (contents.new ≡ map (after_pushes plan.now clock pushes.now) (enumerate_from 0 contents.old)) }
{
    plan.fits();
    for pushed in pushes {
        let since = clock + delay(plan, pushed.channel);
        let element = Element {
            value: pushed.value,
            since,
        };
        push_back(contents, pushed.channel, element)?;
    }
    Ok(())
}
