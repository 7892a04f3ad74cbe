//! Runs of one module, one after the other.
ghost use Rattle.std.specs.Prelude.{◌≡◌, ◌<◌, ◌≤◌, Bool, true, false, length, slice_index_or, IfOk, OnErr};
ghost use Rattle.sim_core.specs.{waits, Acts, ActsAll, MayRun, runs as runs_of, design, over_of, core_in, ForSomeCore, ForEachCore};
ghost use Rattle.sim_core.specs.{IsMemberOf, IsMemberOut, IsOutOf, IsRunOut, IsHeldAlike, is_short};
ghost use Rattle.event_timing.specs.Actions.Action.{Run};

use crate::back::emit_mark;
use engine_view::Engine;
use flow_word::{OutOfMemory, Port};
use module_interp::ModuleRun;
use run_ahead::{KnownReplies, find_replies};

/// A module, with what stays the same at each of its Runs.
#[derive(Drop)]
pub(crate) struct Member<'a> {
    pub(crate) number: u32,
    /// The ports of the module.
    pub(crate) ports: &'a [Port],
    /// The most operations that one of its bodies has. Each makes one query of a step at most.
    pub(crate) body: u64,
}

/// Why a stretch of Runs has no further one.
#[derive(Clone, Copy, Debug, PartialEq, Eq)]
pub(crate) enum StretchEnd {
    /// The stretch has as many Runs as it may have; or, where it `asks`, the module's newest step ends with a query whose outcome is not
    /// there.
    On { asks: bool },
    /// No further Run is permitted.
    Still,
    /// Memory ran out.
    Short,
}

impl StretchEnd {
    /// Whether memory ran out.
    #[inline(always)]
    pub(crate) fn is_short(self) -> bool
        ensures { result ≡ is_short self }
    {
        match self {
            StretchEnd::Short => true,
            StretchEnd::On { .. } | StretchEnd::Still => false,
        }
    }
}

/// A stretch of Runs: how many they were, and why there is no further one.
#[derive(Clone, Copy, Debug, PartialEq, Eq)]
pub(crate) struct Stretch {
    pub(crate) runs: u32,
    pub(crate) end: StretchEnd,
}

/// Does a stretch of Runs of a module, whose run must be there, up to some number.
#[inline(always)]
pub(crate) fn run_held(
    engine: &mut Engine,
    member: &Member<'_>,
    held: &mut Option<ModuleRun>,
    most: u32,
) -> Stretch
    requires out { ForSomeCore (λ p runs. IsRunOut p engine.old runs member.now.number held.old × IsMemberOf p member.now) }
    requires some { 0 < most }
    ensures out { ForEachCore (λ p runs. IsRunOut p engine.old runs member.now.number held.old × IsMemberOf p member.now)
        (λ p runs. IsRunOut p engine.new runs member.now.number held.new) }
    ensures acts { ForEachCore (λ p runs. IsRunOut p engine.old runs member.now.number held.old × IsMemberOf p member.now)
        (λ p runs. ActsAll (design p) p.cycles (core_in p engine.old) (runs_of result.runs member.now.number) (core_in p engine.new)) }
    ensures still { result.end ≡ StretchEnd.Still
        → ForEachCore (λ p runs. IsRunOut p engine.old runs member.now.number held.old × IsMemberOf p member.now)
        (λ p runs. MayRun (design p) (core_in p engine.new) member.now.number → ⊥) }
    ensures most { result.runs ≤ most }
    ensures on { (asks : Bool) → result.end ≡ StretchEnd.On asks → 0 < result.runs }
    ensures short { result.end ≡ StretchEnd.Short → result.runs < most }
    ensures permitted { result.end ≡ StretchEnd.Short
        → ForEachCore (λ p runs. IsRunOut p engine.old runs member.now.number held.old × IsMemberOf p member.now)
        (λ p runs. MayRun (design p) (core_in p engine.new) member.now.number) }
    ensures none { result.runs ≡ 0 → IsHeldAlike engine.old engine.new }
{
    match held {
        Some(run) => run_many(engine, member, run, most),
        None => Stretch {
            runs: 0,
            end: StretchEnd::Still,
        },
    }
}

/// Does a stretch of Runs of a module with its run, which is out of the core, up to some number.
#[inline(always)]
fn run_many(engine: &mut Engine, member: &Member<'_>, run: &mut ModuleRun, most: u32) -> Stretch
    requires out { ForSomeCore (λ p runs. IsMemberOut p engine.old runs member.now run.old) }
    requires some { 0 < most }
    ensures out { ForEachCore (λ p runs. IsMemberOut p engine.old runs member.now run.old)
        (λ p runs. IsOutOf p engine.new runs member.now.number run.new) }
    ensures acts { ForEachCore (λ p runs. IsMemberOut p engine.old runs member.now run.old)
        (λ p runs. ActsAll (design p) p.cycles (core_in p engine.old) (runs_of result.runs member.now.number) (core_in p engine.new)) }
    ensures still { result.end ≡ StretchEnd.Still → ForEachCore (λ p runs. IsMemberOut p engine.old runs member.now run.old)
        (λ p runs. MayRun (design p) (core_in p engine.new) member.now.number → ⊥) }
    ensures most { result.runs ≤ most }
    ensures on { (asks : Bool) → result.end ≡ StretchEnd.On asks → 0 < result.runs }
    ensures short { result.end ≡ StretchEnd.Short → result.runs < most }
    ensures permitted { result.end ≡ StretchEnd.Short → ForEachCore (λ p runs. IsMemberOut p engine.old runs member.now run.old)
        (λ p runs. MayRun (design p) (core_in p engine.new) member.now.number) }
    ensures none { result.runs ≡ 0 → IsHeldAlike engine.old engine.new }
{
    let told = engine.log.len(member.number);
    let mut runs = 0;
    while runs < most {
        match run_once(engine, member, run) {
            Ok(true) => runs += 1,
            Ok(false) => return Stretch {
                runs,
                end: StretchEnd::Still,
            },
            Err(OutOfMemory) => return Stretch {
                runs,
                end: StretchEnd::Short,
            },
        }
        if has_asked(run, told) {
            return Stretch {
                runs,
                end: StretchEnd::On { asks: true },
            };
        }
    }
    Stretch {
        runs,
        end: StretchEnd::On { asks: false },
    }
}

/// Whether the step that waits ends with a query whose outcome is not among the module's first `told` ones.
#[inline(always)]
fn has_asked(run: &ModuleRun, told: u64) -> bool {
    run.queries() >= told
        && run
            .listed()
            .last()
            .is_some_and(|access| !access.kind.is_blocking())
}

/// Does a module's Run, if it is permitted, with its run, which is out of the core. Returns whether the Run was permitted. It takes
/// memory only where it is. After `OutOfMemory` nothing has changed but the room.
#[inline(always)]
fn run_once(
    engine: &mut Engine,
    member: &Member<'_>,
    run: &mut ModuleRun,
) -> Result<bool, OutOfMemory>
    requires out { ForSomeCore (λ p runs. IsMemberOut p engine.old runs member.now run.old) }
    ensures out { ForEachCore (λ p runs. IsMemberOut p engine.old runs member.now run.old)
        (λ p runs. IsOutOf p engine.new runs member.now.number run.new) }
    ensures acts { IfOk result (λ ran. ran ≡ true → ForEachCore (λ p runs. IsMemberOut p engine.old runs member.now run.old)
        (λ p runs. Acts (design p) p.cycles (core_in p engine.old) (Run member.now.number) (core_in p engine.new))) }
    ensures not_permitted { IfOk result (λ ran. ran ≡ false
        → ForEachCore (λ p runs. IsOutOf p engine.old runs member.now.number run.old)
        (λ p runs. MayRun (design p) (core_in p engine.old) member.now.number → ⊥)) }
    ensures unchanged { IfOk result (λ ran. ran ≡ false → IsHeldAlike engine.old engine.new) }
    ensures no_memory { OnErr result (IsHeldAlike engine.old engine.new) }
    ensures permitted { OnErr result (ForEachCore (λ p runs. IsMemberOut p engine.old runs member.now run.old)
        (λ p runs. MayRun (design p) (core_in p engine.old) member.now.number)) }
{
    if is_over(engine, member.number) {
        return Ok(false);
    }
    let fed = feed(engine, member.number, run);
    if !fed {
        return Ok(false);
    }
    engine.make_room(member.number, member.ports, member.body)?;
    emit_mark(engine, member.number, run)?;
    Ok(true)
}

/// Whether a module's end was emitted.
#[inline(always)]
pub(crate) fn is_over(engine: &Engine, owner: u32) -> bool
    requires { owner < length engine.now.ends.items }
    ensures { result ≡ slice_index_or (over_of engine.now.ends.items) owner false }
{
    engine.ends[owner as usize].is_some()
}

/// Gives a module's run, if it waits, the replies to the module's newest step, if all of them are there. Returns whether the run
/// does not wait then. It is out of the core.
#[inline(always)]
fn feed(engine: &Engine, owner: u32, run: &mut ModuleRun) -> bool
    requires out { ForSomeCore (λ p runs. IsOutOf p engine.now runs owner run.old) }
    ensures out { ForEachCore (λ p runs. IsOutOf p engine.now runs owner run.old)
        (λ p runs. IsOutOf p engine.now runs owner run.new) }
    ensures fed { result ≡ true → waits run.new ≡ false }
    ensures not_fed { result ≡ false → ForEachCore (λ p runs. IsOutOf p engine.now runs owner run.old)
        (λ p runs. MayRun (design p) (core_in p engine.now) owner → ⊥) }
{
    if !run.is_waiting() {
        return true;
    }
    let outcomes = engine.log.outcomes(owner);
    let told = run.queries();
    let Some(_told) = find_replies(outcomes, &engine.fifos, told, run.waiting()) else {
        return false;
    };
    run.feed(&KnownReplies::new(outcomes, &engine.fifos, told));
    true
}
