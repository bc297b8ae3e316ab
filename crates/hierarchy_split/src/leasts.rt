//! The level of a cut, and the concept by which each item is ordered there.
ghost use Rattle.std.specs.Prelude.{◌≡◌, ◌<◌, ◌≤◌, ◌↔◌, ℕ, length, All, IsTrue, IfSome, IfNone};
ghost use Rattle.dim_hierarchy.specs.Concept.{level_of};
ghost use Rattle.dim_hierarchy.specs.Tree.{IsConcept};
ghost use Rattle.dim_hierarchy.specs.Dimension.{tree};
ghost use Rattle.describing_set.specs.DescSet.{part_at};
ghost use Rattle.describing_set.specs.Sets.{IsDescSetOf};
ghost use Rattle.hierarchy_split.specs.Order.{least, AreEqual};
ghost use Rattle.hierarchy_split.specs.Cut.{lifted, leasts, IsAbove, IsCutLevel};
ghost use Rattle.hierarchy_split.specs.Limits.{most_items};

use crate::limits::MOST_ITEMS;
use arrayvec::ArrayVec;
use describing_set::{DescSet, Part};
use dim_hierarchy::{ConceptId, Hierarchy};

/// A level of a dimension, and the least lifted concept of each item there.
#[derive(Drop)]
pub struct Lift {
    pub level: u8,
    pub leasts: ArrayVec<ConceptId, MOST_ITEMS>,
}

/// The part of a set in a dimension.
pub fn part<'a>(set: &'a DescSet, h: &Hierarchy, dim: u8) -> &'a Part
    requires dim { dim < length h.now }
    requires set { IsDescSetOf h.now set.now }
    ensures value { result.now ≡ part_at set.now dim }
    ensures concepts { All (IsConcept (tree h.now dim)) result.now.ids.items }
    ensures level { All (λ id. level_of id ≡ result.now.level) result.now.ids.items }
    ensures few { result.now.level ≤ 8 }
{
    &set.parts.as_slice()[usize::from(dim)]
}

/// The least of a set's lifted concepts, `ALL` where it has none.
pub fn least(set: &DescSet, h: &Hierarchy, dim: u8, level: u8) -> ConceptId
    requires dim { dim < length h.now }
    requires set { IsDescSetOf h.now set.now }
    requires level { level ≤ (part_at set.now dim).level }
    ensures { result ≡ least (lifted h.now dim level set.now) }
{
    let ids = part(set, h, dim).ids.as_slice();
    if ids.is_empty() {
        return ConceptId::ALL;
    }
    let mut least = h.up(dim, ids[0], level);
    for id in &ids[1..] {
        let ancestor = h.up(dim, *id, level);
        if ancestor < least {
            least = ancestor;
        }
    }
    least
}

/// The least lifted concept of each item.
pub fn leasts(
    sets: &[DescSet],
    h: &Hierarchy,
    dim: u8,
    level: u8,
) -> ArrayVec<ConceptId, MOST_ITEMS>
    requires dim { dim < length h.now }
    requires few { length sets.now ≤ most_items }
    requires sets { All (IsDescSetOf h.now) sets.now }
    requires level { IsAbove sets.now dim level }
    ensures { result.items ≡ leasts h.now sets.now dim level }
{
    let mut leasts = ArrayVec::new();
    for set in sets {
        leasts.push(least(set, h, dim, level));
    }
    leasts
}

/// The lowest-numbered of the items' own levels in a dimension.
fn highest_level(sets: &[DescSet], h: &Hierarchy, dim: u8) -> u8
    requires dim { dim < length h.now }
    requires some { 0 < length sets.now }
    requires sets { All (IsDescSetOf h.now) sets.now }
    ensures above { IsAbove sets.now dim result }
    ensures lowest { (level : ℕ) → IsAbove sets.now dim level → level ≤ result }
    ensures few { result ≤ 8 }
{
    let mut level = part(&sets[0], h, dim).level;
    for set in sets {
        level = level.min(part(set, h, dim).level);
    }
    level
}

/// Whether each concept is the first.
fn are_equal(leasts: &[ConceptId]) -> bool
    ensures { IsTrue result ↔ AreEqual leasts.now }
{
    for least in leasts {
        if *least != leasts[0] {
            return false;
        }
    }
    true
}

/// The level of a dimension's cut.
pub fn cut_level(sets: &[DescSet], h: &Hierarchy, dim: u8) -> Option<Lift>
    requires dim { dim < length h.now }
    requires some { 0 < length sets.now }
    requires few { length sets.now ≤ most_items }
    requires sets { All (IsDescSetOf h.now) sets.now }
    ensures level { IfSome result (λ lift. IsCutLevel h.now sets.now dim lift.level) }
    ensures leasts { IfSome result (λ lift. lift.leasts.items ≡ leasts h.now sets.now dim lift.level) }
    ensures none { IfNone result ((level : ℕ) → ¬ IsCutLevel h.now sets.now dim level) }
{
    // On level 0 all are `ALL`.
    for level in 1..highest_level(sets, h, dim) + 1 {
        let leasts = leasts(sets, h, dim, level);
        if !are_equal(leasts.as_slice()) {
            return Some(Lift { level, leasts });
        }
    }
    None
}
