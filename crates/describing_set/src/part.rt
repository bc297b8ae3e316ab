//! One dimension of a describing set.
ghost use Rattle.std.specs.Prelude.{◌≡◌, ◌<◌, ◌≤◌, ◌-◌, [], ◌∷◌, length, All};
ghost use Rattle.std.specs.List.{list_any};
ghost use Rattle.std.specs.Bool.{OnTrue};
ghost use Rattle.dim_hierarchy.specs.Concept.{level_of};
ghost use Rattle.dim_hierarchy.specs.Tree.{IsConcept, is_under, leaf_level};
ghost use Rattle.dim_hierarchy.specs.Dimension.{tree, IsHierarchy};
ghost use Rattle.dim_hierarchy.specs.Row.{concept_at};
ghost use Rattle.dim_hierarchy.specs.Filter.{pick_at, IsPickOf, is_picked};
ghost use Rattle.dim_hierarchy.specs.Compiled.{AreOfLevel};
ghost use Rattle.describing_set.specs.Filter.{are_related};

use crate::few::FewConcepts;
use dim_hierarchy::{CompiledFilter, ConceptId, CoordLineages, Hierarchy, Pick};

/// One dimension of a describing set: a level, and at most 6 concepts of it, ascending.
#[derive(Clone, Copy, Debug, Default, Drop, PartialEq)]
pub struct Part {
    pub level: u8,
    pub ids: FewConcepts,
}

impl Part {
    ghost use Rattle.describing_set.specs.Part.{part, ancestors, has_ancestor};
    ghost use Rattle.describing_set.specs.Parts.{IsPart, GrowsPart, JoinsParts};
    ghost use Rattle.describing_set.specs.Filter.{is_part_inside, is_part_met};

    /// One concept of a level.
    pub(crate) fn of(level: u8, id: ConceptId) -> Part
        ensures { result ≡ part level (id ∷ []) }
    {
        let mut ids = FewConcepts::new();
        ids.push(id);
        Part { level, ids }
    }

    /// Each concept becomes its parent.
    fn lift(&mut self, h: &Hierarchy, dim: u8)
        requires dim { dim < length h.now }
        requires part { IsPart (tree h.now dim) self.old }
        requires below { 0 < self.old.level }
        ensures level { self.new.level ≡ self.old.level - 1 }
        ensures ids { self.new.ids.items
            ≡ ancestors (tree h.now dim) (self.old.level - 1) self.old.ids.items }
    {
        let level = self.level - 1;
        let mut ids = FewConcepts::new();
        for id in self.ids.as_slice() {
            let parent = h.up(dim, *id, level);
            let _fits = ids.put(parent);
        }
        self.level = level;
        self.ids = ids;
    }

    /// Adds a concept's ancestor. While it would be the seventh concept, each becomes its parent.
    pub(crate) fn add(&mut self, h: &Hierarchy, dim: u8, id: ConceptId)
        requires hierarchy { IsHierarchy h.now }
        requires dim { dim < length h.now }
        requires part { IsPart (tree h.now dim) self.old }
        requires concept { IsConcept (tree h.now dim) id }
        requires level { self.old.level ≤ level_of id }
        ensures part { IsPart (tree h.now dim) self.new }
        ensures level { self.new.level ≤ self.old.level }
        ensures grown { GrowsPart (tree h.now dim) id self.old self.new }
    {
        loop {
            let ancestor = h.up(dim, id, self.level);
            if self.ids.add(ancestor) {
                return;
            }
            self.lift(h, dim);
        }
    }

    /// Whether a concept's ancestor at the part's level is in the part. Where it is, the part stays as it
    /// is when the concept is added.
    pub(crate) fn has_ancestor(&self, h: &Hierarchy, dim: u8, id: ConceptId) -> bool
        requires hierarchy { IsHierarchy h.now }
        requires dim { dim < length h.now }
        requires part { IsPart (tree h.now dim) self.now }
        requires concept { IsConcept (tree h.now dim) id }
        requires level { self.now.level ≤ level_of id }
        ensures test { result ≡ has_ancestor (tree h.now dim) self.now id }
        ensures kept { OnTrue result (GrowsPart (tree h.now dim) id self.now self.now) }
    {
        let ancestor = h.up(dim, id, self.level);
        self.ids.has(ancestor)
    }

    /// This part with the concepts of one that is at its level or deeper.
    fn join_deeper(&self, h: &Hierarchy, dim: u8, deeper: &Part) -> Part
        requires hierarchy { IsHierarchy h.now }
        requires dim { dim < length h.now }
        requires left { IsPart (tree h.now dim) self.now }
        requires right { IsPart (tree h.now dim) deeper.now }
        requires level { self.now.level ≤ deeper.now.level }
        ensures { JoinsParts (tree h.now dim) self.now deeper.now result }
    {
        let mut part = *self;
        for id in deeper.ids.as_slice() {
            part.add(h, dim, *id);
        }
        part
    }

    /// The part of both parts' concepts.
    pub(crate) fn join(&self, h: &Hierarchy, dim: u8, other: &Part) -> Part
        requires hierarchy { IsHierarchy h.now }
        requires dim { dim < length h.now }
        requires left { IsPart (tree h.now dim) self.now }
        requires right { IsPart (tree h.now dim) other.now }
        ensures { JoinsParts (tree h.now dim) self.now other.now result }
    {
        if other.level < self.level {
            other.join_deeper(h, dim, self)
        } else {
            self.join_deeper(h, dim, other)
        }
    }

    /// Whether the ancestor of a coordinate's concept at the part's level is in the part.
    pub(crate) fn covers(&self, h: &Hierarchy, dim: u8, at: &CoordLineages) -> bool
        requires dim { dim < length h.now }
        requires at { at.now.hierarchy ≡ h.now }
        requires level { self.now.level ≤ leaf_level (tree h.now dim) }
        ensures { result ≡ has_ancestor (tree h.now dim) self.now (concept_at at.now.coord dim) }
    {
        self.ids.has(at.up(dim, self.level))
    }

    /// Whether the filter picks each concept of the part.
    pub(crate) fn is_inside(&self, wanted: &CompiledFilter, dim: u8) -> bool
        requires dim { dim < length wanted.now.hierarchy }
        requires level { self.now.level < length (tree wanted.now.hierarchy dim) }
        requires concepts { AreOfLevel (tree wanted.now.hierarchy dim) self.now.level self.now.ids.items }
        ensures { result
            ≡ is_part_inside (tree wanted.now.hierarchy dim) self.now (pick_at wanted.now.picks dim) }
    {
        wanted.has_all(dim, self.level, self.ids.as_slice())
    }

    /// As `is_inside`, by a pick that is not compiled.
    pub(crate) fn is_inside_of(&self, h: &Hierarchy, dim: u8, pick: &Pick) -> bool
        requires dim { dim < length h.now }
        requires concepts { All (IsConcept (tree h.now dim)) self.now.ids.items }
        requires pick { IsPickOf (tree h.now dim) pick.now }
        ensures { result ≡ is_part_inside (tree h.now dim) self.now pick.now }
    {
        self.ids
            .as_slice()
            .iter()
            .all(|id| is_picked(h, dim, *id, pick))
    }

    /// Whether the filter picks a concept of the part or lists one that is under it.
    pub(crate) fn is_met(&self, wanted: &CompiledFilter, dim: u8) -> bool
        requires dim { dim < length wanted.now.hierarchy }
        requires level { self.now.level < length (tree wanted.now.hierarchy dim) }
        requires concepts { AreOfLevel (tree wanted.now.hierarchy dim) self.now.level self.now.ids.items }
        ensures { result
            ≡ is_part_met (tree wanted.now.hierarchy dim) self.now (pick_at wanted.now.picks dim) }
    {
        wanted.meets_any(dim, self.level, self.ids.as_slice())
    }

    /// As `is_met`, by a pick that is not compiled: whether the part has a concept, and the pick is all
    /// or lists a concept of which one of the part's is an ancestor or a descendant.
    pub(crate) fn is_met_by(&self, h: &Hierarchy, dim: u8, pick: &Pick) -> bool
        requires dim { dim < length h.now }
        requires concepts { All (IsConcept (tree h.now dim)) self.now.ids.items }
        requires pick { IsPickOf (tree h.now dim) pick.now }
        ensures { result ≡ is_part_met (tree h.now dim) self.now pick.now }
    {
        match pick {
            Pick::All => !self.ids.is_empty(),
            Pick::Ids(tops) => self.is_related_to_any(h, dim, tops.as_slice()),
        }
    }

    /// Whether one of the part's concepts is an ancestor or a descendant of one of these.
    fn is_related_to_any(&self, h: &Hierarchy, dim: u8, tops: &[ConceptId]) -> bool
        requires dim { dim < length h.now }
        requires concepts { All (IsConcept (tree h.now dim)) self.now.ids.items }
        requires tops { All (IsConcept (tree h.now dim)) tops.now }
        ensures { result
            ≡ list_any (λ id. list_any (are_related (tree h.now dim) id) tops.now) self.now.ids.items }
    {
        self.ids
            .as_slice()
            .iter()
            .any(|id| is_any_related(h, dim, *id, tops))
    }
}

/// Whether the pick is all or lists a concept that this one is under.
fn is_picked(h: &Hierarchy, dim: u8, id: ConceptId, pick: &Pick) -> bool
    requires dim { dim < length h.now }
    requires concept { IsConcept (tree h.now dim) id }
    requires pick { IsPickOf (tree h.now dim) pick.now }
    ensures { result ≡ is_picked (tree h.now dim) pick.now id }
{
    match pick {
        Pick::All => true,
        Pick::Ids(tops) => is_under_any(h, dim, id, tops.as_slice()),
    }
}

/// Whether the concept is under one of these.
fn is_under_any(h: &Hierarchy, dim: u8, id: ConceptId, tops: &[ConceptId]) -> bool
    requires dim { dim < length h.now }
    requires concept { IsConcept (tree h.now dim) id }
    requires tops { All (IsConcept (tree h.now dim)) tops.now }
    ensures { result ≡ list_any (is_under (tree h.now dim) id) tops.now }
{
    tops.iter().any(|top| h.is_under(dim, id, *top))
}

/// Whether the concept is an ancestor or a descendant of one of these.
fn is_any_related(h: &Hierarchy, dim: u8, id: ConceptId, tops: &[ConceptId]) -> bool
    requires dim { dim < length h.now }
    requires concept { IsConcept (tree h.now dim) id }
    requires tops { All (IsConcept (tree h.now dim)) tops.now }
    ensures { result ≡ list_any (are_related (tree h.now dim) id) tops.now }
{
    tops.iter().any(|top| are_related(h, dim, id, *top))
}

/// Whether one of two concepts is under the other.
fn are_related(h: &Hierarchy, dim: u8, id: ConceptId, other: ConceptId) -> bool
    requires dim { dim < length h.now }
    requires concept { IsConcept (tree h.now dim) id }
    requires other { IsConcept (tree h.now dim) other }
    ensures { result ≡ are_related (tree h.now dim) id other }
{
    h.is_under(dim, id, other) || h.is_under(dim, other, id)
}
