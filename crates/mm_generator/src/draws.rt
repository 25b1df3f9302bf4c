//! Numbers that are drawn from a seed.

ghost use Rattle.std.specs.Prelude.{◌≡◌, ◌<◌, ◌^◌};
ghost use Rattle.mm_generator.specs.Generator.{drawn, draw as number_drawn};

use std::marker::Model;

/// Knuth's multiplier for MMIX.
const MULTIPLIER: u64 = 6_364_136_223_846_793_005;

/// Knuth's increment for MMIX.
const INCREMENT: u64 = 1_442_695_040_888_963_407;

/// Draws, seen as their state.
#[derive(Drop)]
pub(crate) struct Draws {
    state: u64,
}

impl Model for Draws {
    ghost use Rattle.std.specs.Prelude.{ℕ};
    ghost use Rattle.std.specs.Coded.{coded_ℕ};

    ghost Value = { ℕ };

    ghost coded = { coded_ℕ };

    ghost view = { λ d. d.state };
}

impl Draws {
    /// Draws that begin with a seed.
    pub fn new(seed: u64) -> Draws
        ensures { result ≡ seed }
    {
        Draws { state: seed }
    }

    /// The next number, of 31 bits.
    #[tactic(auto, unfolding(crate::specs::Generator::drawn, crate::specs::Generator::draw))]
    pub fn draw(&mut self) -> u32
        ensures number { result ≡ number_drawn self.old }
        ensures state { self.new ≡ drawn self.old }
        ensures small { result < 2 ^ 31 }
    {
        self.state = self.state.wrapping_mul(MULTIPLIER).wrapping_add(INCREMENT);
        (self.state >> 33) as u32
    }
}
