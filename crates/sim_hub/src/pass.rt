//! The passes of a hub.
ghost use Rattle.std.specs.Prelude.{◌≡◌, ◌+◌};
ghost use Rattle.turn_lock.specs.Passes.{view_of};
ghost use Rattle.sim_hub.specs.Places.{IsPlace, HasMadeAll, HasModule};

use crate::kept::BoxedLedger;
use turn_lock::Pass;

/// A pass of the turn lock, with its number. What it has seen is a legal history.
#[derive(Drop)]
pub struct NumberedPass {
    pub(crate) pass: Pass<BoxedLedger>,
    pub(crate) number: u32,
    ghost numbered: { (view_of pass).number ≡ number },
    ghost good: { ∥ IsPlace number (view_of pass) ∥₁ },
}

/// The performance pass, whose number is 0.
#[derive(Drop)]
pub struct PerfPass {
    pub(crate) place: NumberedPass,
    ghost first: { place.number ≡ 0 },
    ghost made: { ∥ HasMadeAll (view_of place.pass) ∥₁ },
}

/// The pass of a module. Its number is one more than the module's.
#[derive(Drop)]
pub struct ModulePass {
    pub(crate) place: NumberedPass,
    pub(crate) which: u32,
    ghost is: { place.number ≡ which + 1 },
    ghost within: { HasModule which (view_of place.pass).seen },
}

impl ModulePass {
    /// The module whose pass this is.
    pub fn which(&self) -> u32
        ensures { result ≡ self.now.which }
    {
        self.which
    }
}
