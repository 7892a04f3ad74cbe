//! Which modules may be given a cycle or an answer, and which modules share a channel.
ghost use Rattle.std.specs.Prelude.{◌≡◌, ◌≢◌, ◌<◌, ℕ, All, true, false, length, IfOk};
ghost use Rattle.sim_core.specs.{other_side, Has, HasMask, IsAdded, IsRemoved, capacity, design, is_progress, Lacks, SetHasRoom, AreAcross};
ghost use Rattle.sim_core.specs.{AreBeside, has_acted, IsSpread, IsWoken, AreOwnPorts, AreReaders, AreUsers};
ghost use Rattle.flow_word.specs.declared.access.Side.TheVariants.{Push};
ghost use Rattle.engine_view.specs.declared.turn.Timing.TheVariants.{Nothing};

use crate::due::DueModules;
use crate::timings::TimedSteps;
use crate::visit::Visit;
use crate::wiring::ports_of;
use engine_view::Timing;
use flow_design::CheckedPlan;
use flow_word::{List, OutOfMemory, Port, Side};
use module_sets::{Mask, ModuleSet};
use std::alloc::Global;

/// The module at the other side of a port's channel, or the number of modules where there is none.
fn across(plan: &CheckedPlan, port: Port, readers: &[u32], writers: &[u32]) -> u32
    requires within { port.channel < length plan.now.design.channels }
    requires readers { AreReaders plan.now readers.now }
    requires writers { AreUsers plan.now Push writers.now }
    ensures { result ≡ (design plan.now).owner (other_side port.side) port.channel }
{
    let at = port.channel as usize;
    match port.side {
        Side::Pop => writers[at],
        Side::Push => readers[at],
    }
}

/// Adds the modules at the other sides of these ports' channels to a set.
fn add_across(
    plan: &CheckedPlan,
    ports: &[Port],
    readers: &[u32],
    writers: &[u32],
    set: &mut ModuleSet,
)
    requires within { All (λ port. port.channel < length plan.now.design.channels) ports.now }
    requires readers { AreReaders plan.now readers.now }
    requires writers { AreUsers plan.now Push writers.now }
    requires room { SetHasRoom plan.now set.old }
    ensures across { AreAcross plan.now ports.now set.new }
    ensures room { SetHasRoom plan.now set.new }
{
    for port in ports {
        set.add(across(plan, *port, readers, writers));
    }
}

/// For each module the masks of the modules at the other sides of its channels.
pub(crate) fn find_beside(
    alloc: Global,
    plan: &CheckedPlan,
    ports: &List<List<Port>>,
    readers: &[u32],
    writers: &[u32],
) -> Result<List<List<Mask>>, OutOfMemory>
    requires ports { AreOwnPorts plan.now (length plan.now.design.modules) ports.now }
    requires readers { AreReaders plan.now readers.now }
    requires writers { AreUsers plan.now Push writers.now }
    ensures { IfOk result (λ beside. AreBeside plan.now beside) }
{
    plan.fits();
    let mut set = ModuleSet::new(alloc, ports.len() as u32)?;
    let mut beside = List::with_room(alloc, ports.len())?;
    for owner in 0..ports.len() as u32 {
        set.clear();
        add_across(plan, ports_of(ports, owner), readers, writers, &mut set);
        let masks = set.masks(alloc)?;
        beside.push(masks)?;
    }
    Ok(beside)
}

/// Keeps the set of modules that may be given a cycle or an answer, after a turn at module `owner`. Where something was done, that module
/// and those that share a channel with it come in. Where nothing was permitted, the module goes out, and its candidate is then not listed.
#[inline(always)]
pub(crate) fn ask_after(
    asking: &mut ModuleSet,
    unlisted: &mut ModuleSet,
    beside: &[Mask],
    owner: u32,
    timing: &Timing,
)
    ensures room { length asking.new ≡ length asking.old }
    ensures others { (n : ℕ) → n ≢ owner → Lacks asking.new n → Lacks asking.old n }
    ensures own { timing.now ≢ Nothing → Lacks asking.new owner → Lacks asking.old owner }
    ensures acted { is_progress timing.now ≡ true → owner < capacity asking.old → Has asking.new owner }
    ensures beside { is_progress timing.now ≡ true → (n : ℕ) → n < capacity asking.old → Lacks asking.new n → HasMask beside.now n → ⊥ }
    ensures unlisted_room { length unlisted.new ≡ length unlisted.old }
    ensures listed { (n : ℕ) → n < capacity unlisted.old → Lacks asking.new n → Lacks unlisted.new n
        → Lacks asking.old n × Lacks unlisted.old n }
{
    match timing {
        Timing::Assigned(_) | Timing::Answered(_) => {
            asking.add_masks(beside);
            asking.add(owner);
        }
        Timing::Differs(_) => {}
        Timing::Nothing => {
            asking.remove(owner);
            unlisted.add(owner);
        }
    }
}

/// Keeps the set of modules that may run, after a turn at module `owner`. After an Answer that module and those beside it come in: the
/// outcomes may be all that it waits for, or bring values to the others.
#[inline(always)]
pub(crate) fn wake_after(running: &mut ModuleSet, beside: &[Mask], owner: u32, timing: &Timing)
    ensures { IsWoken timing.now running.old beside.now owner running.new }
{
    match timing {
        Timing::Answered(_) => spread(running, beside, owner),
        Timing::Assigned(_) | Timing::Differs(_) | Timing::Nothing => {}
    }
}

/// Keeps the modules of which something may be permitted, after `count` Runs of module `owner`: that module and those beside it come in,
/// and the others stay.
#[inline(always)]
pub(crate) fn wake_ran(due: &mut DueModules, beside: &[Mask], owner: u32, count: u32)
    ensures none { count ≡ 0 → due.new ≡ due.old }
    ensures asking { 0 < count → IsAdded due.old.asking owner due.new.asking }
    ensures running { 0 < count → IsSpread due.old.running beside.now owner due.new.running }
    ensures unlisted { due.new.unlisted ≡ due.old.unlisted }
{
    if count == 0 {
        return;
    }
    due.asking.add(owner);
    spread(&mut due.running, beside, owner);
}

/// Keeps the modules of which something may be permitted, after a stretch of Assigns and Answers of module `owner`: that module and those
/// beside it come in, and the others stay. An Answer may let Runs of them go on.
#[inline(always)]
pub(crate) fn wake_timed(due: &mut DueModules, beside: &[Mask], owner: u32, timed: TimedSteps)
    ensures none { has_acted timed.visit ≡ false → due.new ≡ due.old }
    ensures asking { has_acted timed.visit ≡ true → IsSpread due.old.asking beside.now owner due.new.asking }
    ensures running { has_acted timed.visit ≡ true → 0 < timed.answers → IsSpread due.old.running beside.now owner due.new.running }
    ensures no_answer { timed.answers ≡ 0 → due.new.running ≡ due.old.running }
    ensures unlisted { due.new.unlisted ≡ due.old.unlisted }
{
    match timed.visit {
        Visit::Acted { .. } => {
            spread(&mut due.asking, beside, owner);
            if timed.answers > 0 {
                spread(&mut due.running, beside, owner);
            }
        }
        Visit::Differs(_) | Visit::Idle => {}
    }
}

/// Notes that a module, if it is `idle`, is not asking. Its candidate is then not listed.
#[inline(always)]
pub(crate) fn unask(due: &mut DueModules, owner: u32, idle: bool)
    ensures none { idle ≡ false → due.new ≡ due.old }
    ensures asking { idle ≡ true → IsRemoved due.old.asking owner due.new.asking }
    ensures running { due.new.running ≡ due.old.running }
    ensures unlisted { idle ≡ true → IsAdded due.old.unlisted owner due.new.unlisted }
{
    if idle {
        due.asking.remove(owner);
        due.unlisted.add(owner);
    }
}

/// Adds a module to a set, with those beside it.
#[inline(always)]
pub(crate) fn spread(set: &mut ModuleSet, beside: &[Mask], owner: u32)
    ensures { IsSpread set.old beside.now owner set.new }
{
    set.add_masks(beside);
    set.add(owner);
}
