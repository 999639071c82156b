ghost use Rattle.std.specs.Prelude.{◌≡◌, ◌<◌, ◌^◌};
ghost use Rattle.ark_work.specs.Generated.{drawn, next};

/// Numbers below 2^31 that look random: a linear congruential generator with the multiplier and the increment of Knuth's
/// MMIX, of which the upper 31 bits are drawn.
#[derive(Drop)]
pub struct Draws {
    pub state: u64,
}

impl Draws {
    /// Draws a number.
    pub fn draw(&mut self) -> u32
        ensures state { self.new.state ≡ next self.old.state }
        ensures drawn { result ≡ drawn self.new.state }
        ensures small { result < 2 ^ 31 }
    {
        self.state = self
            .state
            .wrapping_mul(6_364_136_223_846_793_005)
            .wrapping_add(1_442_695_040_888_963_407);
        (self.state >> 33) as u32
    }
}
