//! In which order actors make their steps.
ghost use Rattle.std.specs.Prelude.{◌≡◌};
ghost use Rattle.rand_core.specs.Pcg32Seed.{pcg32_seed};
ghost use Rattle.rand_pcg.specs.Pcg.{pcg32_of_seed};

use rand_core::SeedableRng;
use rand_pcg::Lcg64Xsh32;

/// Whose turn it is among the actors that can step. A generator stays in it from phase to phase, so
/// that a whole run draws from one.
#[derive(Drop)]
pub enum Schedule {
    /// The one with the lowest number.
    Order,
    /// The one that the generator's next word draws.
    Seed(Lcg64Xsh32),
}

impl Schedule {
    /// Draws by the generator that a number seeds. It takes no memory.
    pub fn seeded(n: u64) -> Schedule
        ensures { result ≡ Schedule.Seed (pcg32_of_seed (pcg32_seed 16 n)) }
    {
        Schedule::Seed(Lcg64Xsh32::seed_from_u64(n))
    }
}
