//! Which items of a head have a lifted concept that an item has too which no head cut keeps beside them.
ghost use Rattle.std.specs.Prelude.{◌≡◌, ◌++◌, ◌∷◌, [], ◌<◌, ◌≤◌, length, map, List, All};
ghost use Rattle.describing_set.specs.DescSet.{part_at};
ghost use Rattle.describing_set.specs.Sets.{IsDescSetOf};
ghost use Rattle.describing_set.specs.declared.set.DescSet.{DescSet};
ghost use Rattle.hierarchy_split.specs.Cut.{lifted, IsAbove};
ghost use Rattle.hierarchy_split.specs.Crossing.{has_lifted, is_crossed_in_head, is_crossed};
ghost use Rattle.hierarchy_split.specs.Limits.{most_items};

use crate::leasts::{least, part};
use crate::limits::MOST_ITEMS;
use crate::overlap::add_lifted;
use arrayvec::ArrayVec;
use describing_set::{DescSet, MOST_OF_SET};
use dim_hierarchy::{ConceptId, Hierarchy};

/// The lifted concepts of a set.
fn lifted(set: &DescSet, h: &Hierarchy, dim: u8, level: u8) -> ArrayVec<ConceptId, MOST_OF_SET>
    requires dim { dim < length h.now }
    requires set { IsDescSetOf h.now set.now }
    requires level { level ≤ (part_at set.now dim).level }
    ensures { result.items ≡ lifted h.now dim level set.now }
{
    let mut concepts = ArrayVec::new();
    add_lifted(&mut concepts, set, h, dim, level);
    concepts
}

/// Whether one of a set's lifted concepts is among these.
fn has_lifted(set: &DescSet, h: &Hierarchy, dim: u8, level: u8, concepts: &[ConceptId]) -> bool
    requires dim { dim < length h.now }
    requires set { IsDescSetOf h.now set.now }
    requires level { level ≤ (part_at set.now dim).level }
    ensures { result ≡ has_lifted h.now dim level set.now concepts.now }
{
    part(set, h, dim)
        .ids
        .as_slice()
        .iter()
        .any(|id| concepts.contains(&h.up(dim, *id, level)))
}

/// Whether an item of the head with another least concept has one of the set's lifted concepts.
fn is_crossed_in_head(set: &DescSet, head: &[DescSet], h: &Hierarchy, dim: u8, level: u8) -> bool
    requires dim { dim < length h.now }
    requires set { IsDescSetOf h.now set.now }
    requires level { level ≤ (part_at set.now dim).level }
    requires head { All (IsDescSetOf h.now) head.now }
    requires above { IsAbove head.now dim level }
    ensures { result ≡ is_crossed_in_head h.now head.now dim level set.now }
{
    let own = least(set, h, dim, level);
    let concepts = lifted(set, h, dim, level);
    let concepts = concepts.as_slice();
    head.iter().any(|other| {
        least(other, h, dim, level) != own && has_lifted(other, h, dim, level, concepts)
    })
}

/// For each item of a head, whether another item of it has one of its lifted concepts, and another
/// least one.
pub fn crossed_in_head(
    head: &[DescSet],
    h: &Hierarchy,
    dim: u8,
    level: u8,
) -> ArrayVec<bool, MOST_ITEMS>
    requires dim { dim < length h.now }
    requires few { length head.now ≤ most_items }
    requires head { All (IsDescSetOf h.now) head.now }
    requires level { IsAbove head.now dim level }
    ensures { result.items ≡ map (is_crossed_in_head h.now head.now dim level) head.now }
{
    let mut crossed = ArrayVec::new();
    for set in head {
        crossed.push(is_crossed_in_head(set, head, h, dim, level));
    }
    crossed
}

/// For each item of a head, whether it is crossed, where an item of another block comes to those that
/// were known.
pub fn crossed_with(
    crossed: &[bool],
    head: &[DescSet],
    h: &Hierarchy,
    dim: u8,
    level: u8,
    other: &DescSet,
) -> ArrayVec<bool, MOST_ITEMS>
    requires dim { dim < length h.now }
    requires few { length head.now ≤ most_items }
    requires head { All (IsDescSetOf h.now) head.now }
    requires level { IsAbove head.now dim level }
    requires other { IsDescSetOf h.now other.now }
    requires other_level { level ≤ (part_at other.now dim).level }
    requires crossed { length crossed.now ≡ length head.now }
    ensures { (others : List DescSet)
        → crossed.now ≡ map (is_crossed h.now head.now others dim level) head.now
        → result.items ≡ map (is_crossed h.now head.now (others ++ other.now ∷ []) dim level) head.now }
{
    let concepts = lifted(other, h, dim, level);
    let mut now = ArrayVec::new();
    for (i, set) in head.iter().enumerate() {
        now.push(crossed[i] || has_lifted(set, h, dim, level, concepts.as_slice()));
    }
    now
}
