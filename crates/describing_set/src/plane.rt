//! Planes, by which the rows of a shard are divided.
ghost use Rattle.std.specs.Prelude.{◌≡◌, ℕ, ◌<◌, ◌⊎◌, ◌↔◌, length, IsTrue, IsNone, IfSome};
ghost use Rattle.dim_hierarchy.specs.Row.{IsCoordOf};

use crate::few::FewConcepts;
use crate::part::Part;
use crate::set::DescSet;
use dim_hierarchy::{Coord, Hierarchy};

/// A level of a dimension, and the concepts of it whose rows go left, ascending.
#[derive(Debug, Default, Drop, PartialEq)]
pub struct Plane {
    pub dim: u8,
    pub level: u8,
    pub left: FewConcepts,
}

impl Plane {
    /// The same plane, without taking memory.
    pub fn copy(&self) -> Plane
        ensures { result ≡ self.now }
    {
        Plane {
            dim: self.dim,
            level: self.level,
            left: self.left,
        }
    }
}

/// Whether the part has more concepts than the other, or as many at a lower-numbered level.
fn is_before(part: &Part, other: &Part) -> bool
    ensures { IsTrue result
        ↔ ((length other.now.ids.items < length part.now.ids.items)
        ⊎ ((length part.now.ids.items ≡ length other.now.ids.items) × (part.now.level < other.now.level))) }
{
    let count = part.ids.len();
    let other_count = other.ids.len();
    other_count < count || (count == other_count && part.level < other.level)
}

ghost use Rattle.describing_set.specs.Plane.{count_at, IsPlaneOf, IsHierarchyPlane, GoesLeft, goes_left};

/// The plane by which the coordinates of a set are divided: of the dimension with the most concepts,
/// then of the lower-numbered level, then of the lower number. The first half of its concepts by
/// id, rounded down, is on the left.
pub fn plane_of(set: &DescSet) -> Option<Plane>
    ensures none { IsNone result
        ↔ ((dim : ℕ) → dim < length set.now.parts.items → count_at set.now dim < 2) }
    ensures some { IfSome result (IsPlaneOf set.now) }
{
    let parts = set.parts.as_slice();
    if parts.is_empty() {
        return None;
    }
    let mut best = 0;
    for dim in 0..parts.len() {
        if is_before(&parts[dim], &parts[best]) {
            best = dim;
        }
    }
    let part = &parts[best];
    if part.ids.len() < 2 {
        return None;
    }
    let mut left = FewConcepts::new();
    for id in &part.ids.as_slice()[..part.ids.len() / 2] {
        left.push(*id);
    }
    Some(Plane {
        dim: best as u8,
        level: part.level,
        left,
    })
}

/// Whether the coordinate's ancestor at the plane's level is in the left list.
pub fn goes_left(h: &Hierarchy, plane: &Plane, at: &Coord) -> bool
    requires plane { IsHierarchyPlane h.now plane.now }
    requires at { IsCoordOf h.now at.now }
    ensures test { result ≡ goes_left h.now plane.now at.now }
    ensures meaning { IsTrue result ↔ GoesLeft h.now plane.now at.now }
{
    let id = at.concept(plane.dim);
    let ancestor = h.up(plane.dim, id, plane.level);
    plane.left.has(ancestor)
}
