//! The numbers drawn for each module.
ghost use Rattle.std.specs.Prelude.{◌≡◌, ◌<◌};
ghost use Rattle.flow_gen.specs.{drawn_from, next};

/// A draw is a number modulo this prime.
const MODULUS: u64 = 65_537;

/// The numbers that are drawn for one module.
#[derive(Clone, Copy)]
pub struct Drawn {
    /// The module's II: the clocks between the starts of two iterations.
    pub interval: u8,
    /// The number that the module adds to each value.
    pub addend: u8,
    /// The depth of the FIFO after the module. There is none after the last module.
    pub depth: u8,
}

/// Draws the three numbers for one module.
pub fn draw_module(state: &mut u64) -> Drawn
    requires { state.old < 65_537 }
    ensures drawn { result ≡ drawn_from state.old }
    ensures after { state.new ≡ next (next (next state.old)) }
    ensures below { state.new < 65_537 }
{
    Drawn {
        interval: 1 + (draw(state) % 3) as u8,
        addend: (draw(state) % 256) as u8,
        depth: 1 + (draw(state) % 4) as u8,
    }
}

/// Draws once: the answer is the new state.
fn draw(state: &mut u64) -> u64
    requires { state.old < 65_537 }
    ensures drawn { result ≡ next state.old }
    ensures after { state.new ≡ result }
    ensures below { state.new < 65_537 }
{
    *state = (75 * *state + 74) % MODULUS;
    *state
}
