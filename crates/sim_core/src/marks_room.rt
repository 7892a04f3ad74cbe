//! Room for the marks with which a run comes back.
ghost use Rattle.std.specs.Prelude.{◌≡◌, ◌+◌, ◌*◌, ◌^◌, ◌<◌, ◌≤◌, ◌⊎◌, slice_index, OnOk};
ghost use Rattle.sim_core.specs.{AreInParts, marks_of, HasPlacesForMarks, IsHeldAlike, IsMemberOf, IsCore, ForSomeCore, ForEachCore};

use crate::stretch::Member;
use crate::taken::count_taken;
use engine_view::Engine;
use flow_word::OutOfMemory;
use module_interp::MarkParts;

/// For how many marks room is made at once, whatever they take. What more marks take is counted first.
const MARKS: u64 = 256;

/// For how many places at each port room is made for a few marks, of which each takes two at most. Where the credit does not
/// suffice, it is for many marks at once, so that memory is seldom asked for.
fn places_for(credit: u64, marks: u64) -> u64
    requires { (marks ≤ 256) ⊎ (2 * marks ≤ credit) }
    ensures wanted { 2 * marks ≤ result }
    ensures few { result + 1 < 2 ^ 64 }
{
    if marks <= credit / 2 {
        2 * marks
    } else {
        2 * MARKS
    }
}

/// Makes room for the next marks of a module, which are these.
///
/// For a few marks it is as for Runs: so many places at each port that memory is seldom asked for. Where there are many, it is at each
/// port for what the marks take there, since a module may have many ports of which a mark takes few. All else stays, after
/// `OutOfMemory` too.
pub(crate) fn make_room_for_marks(
    engine: &mut Engine,
    member: &Member<'_>,
    marks: &MarkParts,
) -> Result<(), OutOfMemory>
    requires parts { AreInParts marks.now }
    requires core { ForSomeCore (λ p runs. IsCore p engine.old runs × IsMemberOf p member.now) }
    ensures core { ForEachCore (λ p runs. IsCore p engine.old runs × IsMemberOf p member.now)
        (λ p runs. IsCore p engine.new runs) }
    ensures alike { IsHeldAlike engine.old engine.new }
    ensures ends { engine.new.ends ≡ engine.old.ends }
    ensures places { OnOk result (ForEachCore (λ p runs. IsCore p engine.old runs × IsMemberOf p member.now)
        (λ p runs. HasPlacesForMarks p engine.new member.now.number (marks_of marks.now))) }
    ensures queries { OnOk result (member.now.body ≤ slice_index engine.new.log.rooms member.now.number) }
{
    let count = marks.heads.len() as u64;
    let credit = engine.credits[member.number as usize];
    if count > MARKS && count > credit / 2 {
        let taken = count_taken(*engine.credits.allocator(), member.ports, marks)?;
        return engine.make_room_at(
            member.number,
            member.ports,
            taken.as_slice(),
            count,
            member.body,
        );
    }
    engine.make_room_for(
        member.number,
        member.ports,
        member.body,
        places_for(credit, count),
    )
}
