// Numbers that are drawn one after another, the same each time.

ghost use Rattle.std.specs.Prelude.{◌≡◌};
ghost use Rattle.tb_gen.specs.Draws.{after, draw};

use std::marker::Model;

// The generator's multiplier and increment, and what its state is below.
const MULTIPLIER: u64 = 1_664_525;

const INCREMENT: u64 = 1_013_904_223;

const STATES: u64 = 1 << 32;

/// A linear congruential generator, seen as its state.
#[derive(Drop)]
pub(crate) struct Draws {
    state: u32,
}

impl Model for Draws {
    ghost use Rattle.std.specs.Prelude.{ℕ};

    ghost Value = { ℕ };

    ghost view = { λ d. d.state };
}

impl Draws {
    /// Draws that begin at this state.
    pub(crate) fn from(state: u32) -> Draws
        ensures { result ≡ state }
    {
        Draws { state }
    }

    /// The next draw, which is below 65,536.
    #[inline]
    #[tactic(auto, unfolding(crate::specs::Draws::after))]
    pub(crate) fn draw(&mut self) -> u32
        ensures value { result ≡ draw 1 self.old }
        ensures state { self.new ≡ after 1 self.old }
    {
        self.state = ((MULTIPLIER * u64::from(self.state) + INCREMENT) % STATES) as u32;
        self.state / 65_536
    }
}
