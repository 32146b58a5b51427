//! Draws of a linear congruential generator.
ghost use Rattle.std.specs.Prelude.{◌≡◌, ◌<◌};
ghost use Rattle.tor_sample.specs.Draws.{draw};

/// A generator of 64 bits. What it draws is determined by its seed.
#[derive(Drop)]
pub(crate) struct Draws {
    state: u64,
}

impl Draws {
    /// The generator that begins with this seed.
    pub fn new(seed: u64) -> Draws
        ensures { result.state ≡ seed }
    {
        Draws { state: seed }
    }

    /// The next draw, a number below the bound.
    pub fn below(&mut self, bound: u16) -> u16
        requires { 0 < bound }
        ensures drawn { draw bound self.old.state ≡ (result, self.new.state) }
        ensures within { result < bound }
    {
        self.state = self
            .state
            .wrapping_mul(6_364_136_223_846_793_005)
            .wrapping_add(1_442_695_040_888_963_407);
        ((self.state >> 33) % u64::from(bound)) as u16
    }
}
