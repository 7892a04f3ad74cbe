//! The laws of looks, for any design `d` over states of any type `S`.
ghost use Rattle.std.specs.Prelude.{◌↔◌, ℕ, ◌<◌, ◌≤◌, length, List, slice_index};
ghost use Rattle.cycle_changes.specs.{Side, Edit, lane_at, IsFifo, channel_at, RoomedChannels, Design, IsDesign, edited, IsRight};
ghost use Rattle.cycle_changes.specs.{with_cycles, IsLooked, cycle_held, HasOtherCycles, core_of, IsKept, IsNow, HasRoom, room_of, IsSound};
ghost use Rattle.engine_view.specs.Held.{Held};

/// A step with a cycle is right exactly where a look at it, by the graph and the table, finds its cycle and its outcomes.
pub fn looks_are_right<S>()
    ensures { (d : Design S) → IsDesign d → (h : Held) → IsSound d h → (m k : ℕ) → k < length (lane_at h.lanes m).cycles
        → IsLooked h m k ↔ IsRight d (core_of d h) m k }
{}

/// What is held with another depth of a FIFO and other cycles is the core with these cycles, kept for the edited design. No room is
/// lost.
pub fn other_cycles_are_held<S>()
    ensures now { (d : Design S) (h : Held) → IsKept d h → (e : Edit) → e.channel < length h.channels
        → IsFifo (channel_at h.channels e.channel).kind → (g : Held) → HasOtherCycles h g e
        → IsNow (edited d e.channel e.depth) g (with_cycles (core_of d h) (cycle_held g)) }
    ensures room { (d : Design S) (h : Held) → IsKept d h → (e : Edit) → e.channel < length h.channels
        → IsFifo (channel_at h.channels e.channel).kind → (g : Held) → HasOtherCycles h g e
        → (lanes lanes_left : List ℕ) (table table_left : RoomedChannels) (logs credits : List ℕ)
        → HasRoom d h lanes table logs credits → ((k : ℕ) → slice_index lanes k ≤ slice_index lanes_left k)
        → ((side : Side) (c : ℕ) → room_of table side c ≤ room_of table_left side c)
        → HasRoom (edited d e.channel e.depth) g lanes_left table_left logs credits }
{}
