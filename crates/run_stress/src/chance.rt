//! Numbers by chance.
ghost use Rattle.std.specs.Prelude.{◌<◌};

use rand_core::utils::NextWord;
use rand_pcg::Pcg32;

/// Numbers by chance, the same ones in each run.
#[derive(Drop)]
pub(crate) struct Dice {
    words: Pcg32,
}

impl Dice {
    /// By the generator of this number, in a stream of its own.
    pub(crate) fn new(seed: u64, stream: u64) -> Dice {
        Dice {
            words: Pcg32::new(seed, stream),
        }
    }

    /// A number below `sides`, which is 0 where that is 0.
    pub(crate) fn roll(&mut self, sides: u32) -> u32
        ensures below { 0 < sides → result < sides }
    {
        self.words.next_word() % sides.max(1)
    }
}
