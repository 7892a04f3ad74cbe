//! The law of a port's clocks.
ghost use Rattle.std.specs.Prelude.{◌≡◌, ◌+◌, ◌<◌, ◌≤◌, ℕ, true, length, List as Items};
ghost use Rattle.port_clocks.specs.{Port, Plan, is_fifo, kind_at, FitsEngine, fill, last_clock, before, ArePortClocks};
ghost use Rattle.flow_word.specs.declared.access.Side.TheVariants.{Pop, Push};

/// A port has exactly one list of clocks. In each clock up to the verdict's a FIFO holds as many elements as clocks of its pushes
/// come before that clock, less the clocks of its pops.
pub fn clocks_tell_fills()
    ensures one { (p : Plan) (port : Port) (xs ys : Items ℕ) → ArePortClocks p port xs → ArePortClocks p port ys → xs ≡ ys }
    ensures fills { (p : Plan) → FitsEngine p → (f : ℕ) → f < length p.design.channels → is_fifo (kind_at p f) ≡ true
        → (pops pushes : Items ℕ) → ArePortClocks p (record { side = Pop; channel = f }) pops
        → ArePortClocks p (record { side = Push; channel = f }) pushes
        → (clock : ℕ) → clock ≤ last_clock p → fill p f clock + before pops clock ≡ before pushes clock }
{}
