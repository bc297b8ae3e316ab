//! Concepts as numbers.
ghost use Rattle.std.specs.Prelude.{◌≡◌, ℕ, ◌<◌, ◌^◌};
ghost use Rattle.dim_hierarchy.specs.Concept.{level_of, number_of, id_of};

use std::marker::Model;

/// A concept of a dimension, as one number: its level in the top 4 bits, and in the lower 28 its
/// number within that level, from 0 in the order in which the level's concepts were added.
///
/// Level 0 has `ALL` alone. The first concept of level 2 is `0x2000_0000`.
#[derive(Clone, Copy, Debug, Default, PartialEq, Eq, PartialOrd, Ord)]
pub struct ConceptId(pub u32);

impl Model for ConceptId {
    ghost Value = { ℕ };

    ghost view = { λ c. c.0 };

    ghost inverse = { λ n. record { 0 = n } };
}

impl ConceptId {
    /// The concept on top of each dimension, which every other is under.
    pub const ALL: ConceptId = ConceptId(0);

    /// The concept with this level, at most 15, and this number, below 2^28.
    pub fn new(level: u8, number: u32) -> ConceptId
        requires level { level < 16 }
        requires number { number < 2 ^ 28 }
        ensures { result ≡ id_of level number }
    {
        ConceptId(u32::from(level) * 0x1000_0000 + number)
    }

    /// The level, 0 for `ALL`.
    pub fn level(&self) -> u8
        ensures value { result ≡ level_of self.now }
        ensures few { result < 16 }
    {
        (self.0 / 0x1000_0000) as u8
    }

    /// The number within the level.
    pub fn number(&self) -> u32
        ensures value { result ≡ number_of self.now }
        ensures few { result < 2 ^ 28 }
    {
        self.0 % 0x1000_0000
    }
}
