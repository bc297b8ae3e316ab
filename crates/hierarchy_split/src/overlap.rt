//! How many concepts the two sides of a cut share.
ghost use Rattle.std.specs.Prelude.{◌≡◌, ◌+◌, ◌<◌, ◌≤◌, ◌++◌, [], length, All};
ghost use Rattle.describing_set.specs.DescSet.{part_at};
ghost use Rattle.describing_set.specs.Sets.{IsDescSetOf};
ghost use Rattle.describing_set.specs.Ascending.{most_of_set};
ghost use Rattle.hierarchy_split.specs.Order.{shared_count};
ghost use Rattle.hierarchy_split.specs.Cut.{lifted, IsAbove, concepts_of};
ghost use Rattle.hierarchy_split.specs.Limits.{most_items, most_of_items};

use crate::leasts::part;
use crate::limits::MOST_OF_ITEMS;
use arrayvec::ArrayVec;
use describing_set::DescSet;
use dim_hierarchy::{ConceptId, Hierarchy};

/// Adds a set's lifted concepts to a list.
pub fn add_lifted<const MOST: usize>(
    concepts: &mut ArrayVec<ConceptId, MOST>,
    set: &DescSet,
    h: &Hierarchy,
    dim: u8,
    level: u8,
)
    requires dim { dim < length h.now }
    requires set { IsDescSetOf h.now set.now }
    requires level { level ≤ (part_at set.now dim).level }
    requires room { length concepts.old.items + most_of_set ≤ MOST }
    ensures added { concepts.new.items ≡ concepts.old.items ++ lifted h.now dim level set.now }
    ensures few { length concepts.new.items ≤ length concepts.old.items + most_of_set }
{
    for id in part(set, h, dim).ids.as_slice() {
        concepts.push(h.up(dim, *id, level));
    }
}

/// Puts the lifted concepts of the items at some places into an empty list, which is lent, as a list
/// that is returned is copied.
fn concepts_of(
    sets: &[DescSet],
    h: &Hierarchy,
    dim: u8,
    level: u8,
    places: &[u8],
    concepts: &mut ArrayVec<ConceptId, MOST_OF_ITEMS>,
)
    requires dim { dim < length h.now }
    requires sets { All (IsDescSetOf h.now) sets.now }
    requires level { IsAbove sets.now dim level }
    requires places { All (λ place. place < length sets.now) places.now }
    requires few { length places.now ≤ most_items }
    requires empty { concepts.old.items ≡ [] }
    ensures { concepts.new.items ≡ concepts_of h.now sets.now dim level places.now }
{
    for place in places {
        add_lifted(concepts, &sets[usize::from(*place)], h, dim, level);
    }
}

/// How many different concepts of the first list the second has too. Each counts where it stands
/// for the last time.
fn shared_count(left: &[ConceptId], right: &[ConceptId]) -> usize
    ensures value { result ≡ shared_count left.now right.now }
    ensures few { result ≤ length left.now }
{
    let mut count = 0;
    for (i, id) in left.iter().enumerate() {
        if right.contains(id) && !left[i + 1..].contains(id) {
            count += 1;
        }
    }
    count
}

/// How many concepts of a level the lifted items at places on both sides have.
pub fn overlap(
    sets: &[DescSet],
    h: &Hierarchy,
    dim: u8,
    level: u8,
    left: &[u8],
    right: &[u8],
) -> usize
    requires dim { dim < length h.now }
    requires sets { All (IsDescSetOf h.now) sets.now }
    requires level { IsAbove sets.now dim level }
    requires left { All (λ place. place < length sets.now) left.now }
    requires right { All (λ place. place < length sets.now) right.now }
    requires few_left { length left.now ≤ most_items }
    requires few_right { length right.now ≤ most_items }
    ensures value { result
        ≡ shared_count (concepts_of h.now sets.now dim level left.now)
        (concepts_of h.now sets.now dim level right.now) }
    ensures few { result ≤ most_of_items }
{
    let mut on_left = ArrayVec::new();
    let mut on_right = ArrayVec::new();
    concepts_of(sets, h, dim, level, left, &mut on_left);
    concepts_of(sets, h, dim, level, right, &mut on_right);
    shared_count(on_left.as_slice(), on_right.as_slice())
}
