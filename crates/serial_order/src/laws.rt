//! The law of serial modules.
ghost use Rattle.std.specs.Prelude.{◌≡◌, ℕ};
ghost use Rattle.serial_order.specs.{Design as Designed, order_of, DesignHasModule, EqualsPlainLoops, KeepsToPlainLoops};
ghost use Rattle.serial_order.specs.declared.order.Order.TheVariants.{Serial};

/// A serial module does what it would do with the iterations of its loops one after another, whatever values the channels give.
///
/// If the module's own run on these values ends, the serial run ends too: with the same pushes on each channel in the same order,
/// the same number of pops of each channel, and the same registers and memories. An own run that has not ended, or never ends, has
/// pushed on each channel, and popped from it, a prefix of what the serial run pushes and pops there.
pub fn serial_modules_equal_plain_loops()
    ensures ends { (design : Designed) (i : ℕ) → DesignHasModule design i → order_of design i ≡ Serial → EqualsPlainLoops design i }
    ensures goes { (design : Designed) (i : ℕ) → DesignHasModule design i → order_of design i ≡ Serial → KeepsToPlainLoops design i }
{}
