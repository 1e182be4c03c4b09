//! The numbers that calls are drawn from: a linear congruential generator of 64 bits.
ghost use Rattle.std.specs.Prelude.{◌≡◌};
ghost use Rattle.bd_gen.specs.Draws.{next_number};

/// What the number before is multiplied by (docs/FORMATS.md).
const MULTIPLIER: u64 = 6_364_136_223_846_793_005;

/// What is then added.
const INCREMENT: u64 = 1_442_695_040_888_963_407;

/// The last number that was drawn; at first the number that all is made from.
#[derive(Debug, Drop)]
pub(crate) struct Draws {
    pub(crate) last: u64,
}

impl Draws {
    /// Draws the next number.
    pub(crate) fn draw(&mut self) -> u64
        ensures value { result ≡ next_number self.old.last }
        ensures last { self.new.last ≡ result }
    {
        self.last = self.last.wrapping_mul(MULTIPLIER).wrapping_add(INCREMENT);
        self.last
    }
}
