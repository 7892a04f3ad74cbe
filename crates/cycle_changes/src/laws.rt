//! The laws of changes.
ghost use Rattle.std.specs.Prelude.{ℕ, ◌<◌, List, length};
ghost use Rattle.cycle_changes.specs.{Edit, Place as place, IsFifo, channel_at, Engine, held_in, IsSomeCore, KeepsRoomEdited};
ghost use Rattle.cycle_changes.specs.{HasOtherCycles, AreRightChanges, StaysRight, LosesNoRoom};

/// An engine with a new depth and new cycles is a core of the edited design, and has the room that the credits promise.
pub fn changes_are_cores()
    ensures core { (s t : Engine) (e : Edit) → e.channel < length s.fifos.channels
        → IsFifo (channel_at s.fifos.channels e.channel).kind → HasOtherCycles (held_in s) (held_in t) e → LosesNoRoom s t
        → IsSomeCore s → IsSomeCore t }
    ensures room { (s t : Engine) (e : Edit) → e.channel < length s.fifos.channels
        → IsFifo (channel_at s.fifos.channels e.channel).kind → HasOtherCycles (held_in s) (held_in t) e → LosesNoRoom s t
        → KeepsRoomEdited e s t }
{}

/// From a right record, new cycles that the check finds right make a right record of the edited design.
pub fn changes_are_right()
    ensures { (s t : Engine) (e : Edit) (limit : ℕ) (seeds puts : List place) → e.channel < length s.fifos.channels
        → IsFifo (channel_at s.fifos.channels e.channel).kind → AreRightChanges s t e limit seeds puts → StaysRight e limit s t }
{}
