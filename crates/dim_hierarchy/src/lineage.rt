//! The ancestors of concepts, kept by level.
ghost use Rattle.std.specs.Prelude.{◌≡◌, ◌<◌, [], IfOk, length, replicate};
ghost use Rattle.dim_hierarchy.specs.Concept.{level_of, number_of};
ghost use Rattle.dim_hierarchy.specs.Lineage.{lineages_at, lineage_of};

use crate::concept::ConceptId;
use std::alloc::{AllocError, Global};
use std::marker::Model;

/// A concept's ancestors by their level, itself at its own, and `ALL` past that.
pub(crate) type Lineage = [ConceptId; 9];

/// The lineages of the concepts of one level, by number.
#[derive(Drop)]
pub(crate) struct LevelLineages {
    pub(crate) all: Vec<Lineage>,
}

impl Model for LevelLineages {
    ghost use Rattle.std.specs.Prelude.{List, ℕ};

    ghost Value = { List (List ℕ) };

    ghost view = { λ l. l.all.items };
}

/// The lineages of a dimension's concepts. Levels that it lacks have none. They stand in an array, so that where
/// they are shared a level is found by no more reads than in a `Vec` that is not.
pub(crate) type Lineages = [LevelLineages; 9];

/// The lineage of a concept.
pub(crate) fn lineage_of(lineages: &Lineages, id: ConceptId) -> &Lineage
    requires level { level_of id < length lineages.now }
    requires number { number_of id < length (lineages_at lineages.now (level_of id)) }
    ensures { result.now ≡ lineage_of lineages.now id }
{
    let level = &lineages[usize::from(id.level())];
    &level.all[id.number() as usize]
}

impl LevelLineages {
    /// None.
    pub(crate) fn new(alloc: Global) -> LevelLineages
        ensures { result ≡ [] }
    {
        LevelLineages {
            all: Vec::new(alloc),
        }
    }
}

/// No lineages.
pub(crate) fn none(alloc: Global) -> Lineages
    ensures { result ≡ replicate 9 [] }
{
    [
        LevelLineages::new(alloc),
        LevelLineages::new(alloc),
        LevelLineages::new(alloc),
        LevelLineages::new(alloc),
        LevelLineages::new(alloc),
        LevelLineages::new(alloc),
        LevelLineages::new(alloc),
        LevelLineages::new(alloc),
        LevelLineages::new(alloc),
    ]
}

/// A copy of lineages.
pub(crate) fn copied(alloc: Global, lineages: &Lineages) -> Result<Lineages, AllocError>
    requires { length lineages.now ≡ 9 }
    ensures { IfOk result (λ copy. copy ≡ lineages.now) }
{
    let mut copy = none(alloc);
    for level in 0..9 {
        let from = &lineages[level];
        let all = Vec::from_slice(alloc, from.all.as_slice())?;
        copy[level] = LevelLineages { all };
    }
    Ok(copy)
}
