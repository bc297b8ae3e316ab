//! What a set tells of the rows that it is the set of.
ghost use Rattle.std.specs.Prelude.{◌≡◌, ◌≢◌, ◌<◌, ◌≤◌, length, List, All, IfSome, IfNone};
ghost use Rattle.dim_hierarchy.specs.Dimension.{tree};
ghost use Rattle.dim_hierarchy.specs.Rows.{IsRowOf};
ghost use Rattle.dim_hierarchy.specs.Tree.{up};
ghost use Rattle.dim_hierarchy.specs.declared.row.Row.{Row};
ghost use Rattle.dc_node.specs.Summary.{coords};
ghost use Rattle.describing_set.specs.DescSet.{IsSetOf, part_at};
ghost use Rattle.describing_set.specs.Sets.{IsDescSetOf};
ghost use Rattle.group_answer.specs.Groups.{IsQuestion};
ghost use Rattle.group_answer.specs.Telling.{AreBelow, HaveOneAncestor, IsCommon, IsNarrow, IsOfAll, IsTold};

use crate::asked::Asked;
use describing_set::{DescSet, Part};
use dim_hierarchy::{ConceptId, Hierarchy};

/// What is told of some rows.
#[derive(Clone, Copy, Debug, PartialEq)]
pub(crate) enum Told {
    /// None of them matches.
    NoRow,
    /// There are some, and all match and are under this concept.
    Under(ConceptId),
    /// It takes a look at them.
    Unknown,
}

/// The part of a set in a dimension.
fn part_of<'a>(h: &Hierarchy, set: &'a DescSet, dim: u8) -> &'a Part
    requires dim { dim < length h.now }
    requires set { IsDescSetOf h.now set.now }
    ensures { result.now ≡ part_at set.now dim }
{
    let _ = h.dims();
    &set.parts.as_slice()[usize::from(dim)]
}

/// The ancestor at a level that these concepts have, where it is the same of all and there is one.
fn ancestor_of(h: &Hierarchy, dim: u8, level: u8, ids: &[ConceptId]) -> Option<ConceptId>
    requires dim { dim < length h.now }
    requires below { AreBelow (tree h.now dim) level ids.now }
    ensures some { IfSome result (λ id. All (λ x. up (tree h.now dim) x level ≡ id) ids.now) }
    ensures any { IfSome result (λ id. 0 < length ids.now) }
    ensures none { IfNone result (0 < length ids.now → ¬ HaveOneAncestor (tree h.now dim) level ids.now) }
{
    if ids.is_empty() {
        return None;
    }
    let ancestor = h.up(dim, ids[0], level);
    for id in ids {
        if h.up(dim, *id, level) != ancestor {
            return None;
        }
    }
    Some(ancestor)
}

/// The concept that all rows of a set are under, where the set tells that they all match and that there is
/// one such concept.
fn common(asked: &Asked, set: &DescSet, part: &Part) -> Option<ConceptId>
    requires question { IsQuestion asked.now }
    requires set { IsDescSetOf asked.now.hierarchy set.now }
    requires part { part.now ≡ part_at set.now asked.now.dim }
    ensures some { IfSome result (IsCommon asked.now set.now) }
    ensures none { IfNone result (0 < length part.now.ids.items → IsOfAll asked.now → ¬ IsNarrow asked.now set.now) }
{
    if part.level < asked.level {
        return None;
    }
    if !set.inside(asked.h, asked.filter) {
        return None;
    }
    ancestor_of(asked.h, asked.dim, asked.level, part.ids.as_slice())
}

/// What a set tells of the rows that it is the set of.
pub(crate) fn tells(asked: &Asked, set: &DescSet) -> Told
    requires question { IsQuestion asked.now }
    requires set { IsDescSetOf asked.now.hierarchy set.now }
    ensures rows { (rows : List Row) → All (IsRowOf asked.now.hierarchy) rows
        → IsSetOf asked.now.hierarchy (coords rows) set.now → IsTold asked.now rows result }
    ensures known { IsOfAll asked.now → IsNarrow asked.now set.now → result ≢ Told.Unknown }
{
    let part = part_of(asked.h, set, asked.dim);
    if part.ids.is_empty() {
        return Told::NoRow;
    }
    if let Some(id) = common(asked, set, part) {
        return Told::Under(id);
    }
    if set.overlaps(asked.h, asked.filter) {
        Told::Unknown
    } else {
        Told::NoRow
    }
}
