//! What the turn lock of a hub protects.
ghost use Rattle.std.specs.{Prelude.vec_capacity, Coded.codes};
ghost use Rattle.std.proofs.Props.{props};
ghost use Rattle.sim_hub.specs.Kept.{KeepsTurns};

use sim_core::Core;
use timing_bridge::HubTurn;

mod desks;
mod timing;

/// A core with the turns that led to it. There is room for a turn for each desk that is out, and for one more unless memory ran out
/// before.
#[derive(Drop)]
pub struct HubLedger {
    pub(crate) core: Core,
    pub(crate) turns: Vec<HubTurn>,
    /// A bound for how many desks are out.
    pub(crate) out: usize,
    /// Whether memory ran out.
    pub(crate) short: bool,
    ghost kept: { KeepsTurns core turns.items out short (vec_capacity turns) } by { Prim.hlevel (codes, props) },
}
