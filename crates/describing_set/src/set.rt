//! Describing sets.
ghost use Rattle.std.specs.Prelude.{◌≡◌, ◌<◌, ◌≤◌, ◌↔◌, [], ◌∷◌, length, IsTrue, List, All, Contains, IfSome, IfNone};
ghost use Rattle.std.specs.Bool.{OnFalse, OnTrue};
ghost use Rattle.dim_hierarchy.specs.Tree.{IsConcept, leaf_level};
ghost use Rattle.dim_hierarchy.specs.Dimension.{tree};
ghost use Rattle.dim_hierarchy.specs.Row.{IsCoordOf};
ghost use Rattle.dim_hierarchy.specs.Filter.{IsFilterOf, pick_at, in_each};
ghost use Rattle.dim_hierarchy.specs.Meaning.{Matches};
ghost use Rattle.dim_hierarchy.specs.Compiled.{AreOfLevel};

use crate::bearing::Bearing;
use crate::few::FewConcepts;
use crate::part::Part;
use crate::part_list::PartList;
use dim_hierarchy::{CompiledFilter, Coord, CoordLineages, Filter, Hierarchy, Pick};

/// A part for each dimension. No call on sets takes memory.
#[derive(Debug, Default, Drop, PartialEq)]
pub struct DescSet {
    pub parts: PartList,
}

impl DescSet {
    ghost use Rattle.dim_hierarchy.specs.declared.row.Coord.{Coord};
    ghost use Rattle.describing_set.specs.declared.set.DescSet.{DescSet};
    ghost use Rattle.describing_set.specs.Parts.{IsPart};
    ghost use Rattle.describing_set.specs.DescSet.{part_at, IsSetOf, covers};
    ghost use Rattle.describing_set.specs.Sets.{IsDescSetOf, GrowsBy, JoinsTo, Covers, growth_of, size_of, Describes, AreAmong};
    ghost use Rattle.describing_set.specs.declared.bearing.Bearing.TheVariants.{Inside, Apart};
    ghost use Rattle.describing_set.specs.Filter.{IsInside, is_inside, Overlaps, overlaps, is_part_met, IsMetFrom, IsBearing, bearing};

    /// The set of no coordinate: the leaf level and no concept everywhere.
    pub fn empty(h: &Hierarchy) -> DescSet
        ensures set_of { IsSetOf h.now [] result }
        ensures valid { IsDescSetOf h.now result }
    {
        let mut parts = PartList::new();
        for dim in 0..h.dims() {
            parts.push(Part {
                level: h.levels(dim),
                ids: FewConcepts::new(),
            });
        }
        DescSet { parts }
    }

    /// The set of one coordinate.
    pub fn of_coord(h: &Hierarchy, at: &Coord) -> DescSet
        requires { IsCoordOf h.now at.now }
        ensures set_of { IsSetOf h.now (at.now ∷ []) result }
        ensures valid { IsDescSetOf h.now result }
    {
        let mut parts = PartList::new();
        for dim in 0..h.dims() {
            parts.push(Part::of(h.levels(dim), at.concept(dim)));
        }
        DescSet { parts }
    }

    /// Lets the set be that of one coordinate, where it stands, whatever it was before. A set that has
    /// a part for each dimension already is written part by part, without another set beside it.
    pub fn set_to_coord(&mut self, h: &Hierarchy, at: &Coord)
        requires { IsCoordOf h.now at.now }
        ensures set_of { IsSetOf h.now (at.now ∷ []) self.new }
        ensures valid { IsDescSetOf h.now self.new }
    {
        self.fit(h);
        for dim in 0..h.dims() {
            self.parts
                .set(dim, Part::of(h.levels(dim), at.concept(dim)));
        }
    }

    /// Lets the set have a part for each dimension.
    fn fit(&mut self, h: &Hierarchy)
        ensures { length self.new.parts.items ≡ length h.now }
    {
        if self.parts.as_slice().len() != usize::from(h.dims()) {
            *self = DescSet::empty(h);
        }
    }

    /// Adds a coordinate: in each dimension its ancestor at the set's level joins the concepts.
    /// While it would be the seventh, the level falls by one and each concept becomes its parent.
    pub fn grow(&mut self, h: &Hierarchy, at: &Coord)
        requires set { IsDescSetOf h.now self.old }
        requires at { IsCoordOf h.now at.now }
        ensures grown { GrowsBy h.now at.now self.old self.new }
        ensures valid { IsDescSetOf h.now self.new }
    {
        for dim in 0..h.dims() {
            self.parts.add(h, dim, at.concept(dim));
        }
    }

    /// Whether the set stays as it is when a coordinate is added, which it covers then.
    pub fn keeps(&self, h: &Hierarchy, at: &Coord) -> bool
        requires set { IsDescSetOf h.now self.now }
        requires at { IsCoordOf h.now at.now }
        ensures { OnTrue result (GrowsBy h.now at.now self.now self.now) }
    {
        for dim in 0..h.dims() {
            if !self.part(h, dim).has_ancestor(h, dim, at.concept(dim)) {
                return false;
            }
        }
        true
    }

    /// The set of the coordinates of both sets.
    pub fn join(&self, h: &Hierarchy, other: &DescSet) -> DescSet
        requires set { IsDescSetOf h.now self.now }
        requires other { IsDescSetOf h.now other.now }
        ensures joined { JoinsTo h.now self.now other.now result }
        ensures valid { IsDescSetOf h.now result }
    {
        let mut parts = PartList::new();
        for dim in 0..h.dims() {
            parts.push(self.part(h, dim).join(h, dim, other.part(h, dim)));
        }
        DescSet { parts }
    }

    /// Whether in each dimension the coordinate's ancestor at the set's level is in the set.
    pub fn covers(&self, h: &Hierarchy, at: &CoordLineages) -> bool
        requires set { IsDescSetOf h.now self.now }
        requires at { at.now.hierarchy ≡ h.now }
        ensures test { result ≡ covers h.now self.now at.now.coord }
        ensures meaning { IsTrue result ↔ Covers h.now self.now at.now.coord }
        ensures members { (rows : List Coord)
            → IsSetOf h.now rows self.now → Contains rows at.now.coord → IsTrue result }
    {
        at.law();
        for dim in 0..h.dims() {
            if !self.part(h, dim).covers(h, dim, at) {
                return false;
            }
        }
        true
    }

    /// How the set lies to the filter: it is inside where in each dimension the filter picks each of
    /// its concepts, so a set of none is; else it overlaps as `overlaps` says.
    #[inline(always)]
    pub fn bearing(&self, wanted: &CompiledFilter) -> Bearing
        requires { IsDescSetOf wanted.now.hierarchy self.now }
        ensures test { result ≡ bearing wanted.now.hierarchy self.now wanted.now.picks }
        ensures meaning { IsBearing wanted.now.hierarchy self.now wanted.now.picks result }
        ensures all_match { result ≡ Inside
            → (at : Coord) → Covers wanted.now.hierarchy self.now at
            → Matches wanted.now.hierarchy wanted.now.picks at }
        ensures none_match { result ≡ Apart
            → (at : Coord) → Covers wanted.now.hierarchy self.now at
            → ¬ Matches wanted.now.hierarchy wanted.now.picks at }
    {
        for dim in 0..wanted.dims() {
            if !self.part_for(wanted, dim).is_inside(wanted, dim) {
                // The set has a concept then, so it is met in the dimensions before, as it is inside.
                return if self.is_met_from(wanted, dim) {
                    Bearing::Overlaps
                } else {
                    Bearing::Apart
                };
            }
        }
        Bearing::Inside
    }

    /// Whether in each dimension the filter is all, or each concept of the set is one that it lists or
    /// under one, so a set of none is inside. Then the filter matches each coordinate that the set
    /// covers.
    pub fn inside(&self, h: &Hierarchy, filter: &Filter) -> bool
        requires set { IsDescSetOf h.now self.now }
        requires filter { IsFilterOf h.now filter.now }
        ensures test { result ≡ is_inside h.now self.now filter.now }
        ensures meaning { IsTrue result ↔ IsInside h.now self.now filter.now }
        ensures all_match { OnTrue result
            ((at : Coord) → Covers h.now self.now at → Matches h.now filter.now at) }
    {
        for dim in 0..h.dims() {
            if !self.part(h, dim).is_inside_of(h, dim, pick(filter, dim)) {
                return false;
            }
        }
        true
    }

    /// Whether the set is not empty, and in each dimension the filter is all or lists a concept of
    /// which one of the set's is an ancestor or a descendant. Else the filter matches no coordinate
    /// that the set covers. False where there is no dimension.
    pub fn overlaps(&self, h: &Hierarchy, filter: &Filter) -> bool
        requires set { IsDescSetOf h.now self.now }
        requires filter { IsFilterOf h.now filter.now }
        ensures test { result ≡ overlaps h.now self.now filter.now }
        ensures meaning { IsTrue result ↔ Overlaps h.now self.now filter.now }
        ensures none_match { OnFalse result (0 < length h.now
            → (at : Coord) → Covers h.now self.now at → ¬ Matches h.now filter.now at) }
    {
        h.dims() > 0 && self.is_met_by(h, filter)
    }

    /// Whether in each dimension the set is not empty, and the filter is all or lists a concept of
    /// which one of the set's is an ancestor or a descendant.
    fn is_met_by(&self, h: &Hierarchy, filter: &Filter) -> bool
        requires set { IsDescSetOf h.now self.now }
        requires filter { IsFilterOf h.now filter.now }
        ensures { result ≡ in_each is_part_met h.now self.now.parts.items filter.now }
    {
        for dim in 0..h.dims() {
            if !self.part(h, dim).is_met_by(h, dim, pick(filter, dim)) {
                return false;
            }
        }
        true
    }

    /// Whether in each dimension from this one on the set is not empty, and the filter is all or lists
    /// a concept of which one of the set's is an ancestor or a descendant.
    fn is_met_from(&self, wanted: &CompiledFilter, first: u8) -> bool
        requires { IsDescSetOf wanted.now.hierarchy self.now }
        ensures { IsTrue result
            ↔ IsMetFrom wanted.now.hierarchy self.now wanted.now.picks first }
    {
        for dim in first..wanted.dims() {
            if !self.part_for(wanted, dim).is_met(wanted, dim) {
                return false;
            }
        }
        true
    }

    /// In how many dimensions the coordinate is not covered.
    pub fn growth(&self, h: &Hierarchy, at: &CoordLineages) -> u32
        requires set { IsDescSetOf h.now self.now }
        requires at { at.now.hierarchy ≡ h.now }
        ensures { result ≡ growth_of h.now self.now at.now.coord }
    {
        let mut growth = 0;
        for dim in 0..h.dims() {
            if !self.part(h, dim).covers(h, dim, at) {
                growth += 1;
            }
        }
        growth
    }

    /// In how many dimensions the coordinate is not covered, where these are at most `most`. It stops
    /// at the first one beyond.
    pub fn growth_within(&self, h: &Hierarchy, at: &CoordLineages, most: u32) -> Option<u32>
        requires set { IsDescSetOf h.now self.now }
        requires at { at.now.hierarchy ≡ h.now }
        ensures some { IfSome result (λ growth. growth ≡ growth_of h.now self.now at.now.coord) }
        ensures few { IfSome result (λ growth. growth ≤ most) }
        ensures none { IfNone result (most < growth_of h.now self.now at.now.coord) }
    {
        let mut growth = 0;
        for dim in 0..h.dims() {
            if !self.part(h, dim).covers(h, dim, at) {
                if growth == most {
                    return None;
                }
                growth += 1;
            }
        }
        Some(growth)
    }

    /// The sum over the dimensions of 8 for each level from the set's down to the leaves, and 1
    /// for each concept.
    pub fn size(&self, h: &Hierarchy) -> u32
        requires { IsDescSetOf h.now self.now }
        ensures { result ≡ size_of h.now self.now }
    {
        let mut size = 0;
        for dim in 0..h.dims() {
            let part = self.part(h, dim);
            size += 8 * u32::from(h.levels(dim) - part.level) + part.ids.len() as u32;
        }
        size
    }

    /// The same set, without taking memory.
    pub fn copy(&self) -> DescSet
        ensures { result ≡ self.now }
    {
        DescSet { parts: self.parts }
    }

    /// Laws of sets, with no code: what the set of some coordinates is, that it depends on which of
    /// them occur alone, and that the set of more coordinates covers more.
    pub fn laws(h: &Hierarchy)
        ensures describes { (rows : List Coord) (set : DescSet)
            → All (IsCoordOf h.now) rows → IsSetOf h.now rows set → Describes h.now rows set }
        ensures unique { (rows : List Coord) (set other : DescSet)
            → IsSetOf h.now rows set → IsSetOf h.now rows other → set ≡ other }
        ensures same { (rows others : List Coord) (set : DescSet)
            → AreAmong rows others → AreAmong others rows
            → IsSetOf h.now rows set → IsSetOf h.now others set }
        ensures wider { (rows more : List Coord) (set other : DescSet) (at : Coord)
            → All (IsCoordOf h.now) more → AreAmong rows more → IsCoordOf h.now at
            → IsSetOf h.now rows set → IsSetOf h.now more other
            → Covers h.now set at → Covers h.now other at }
        ensures members { (rows some : List Coord) (set : DescSet)
            → AreAmong some rows → IsSetOf h.now rows set → All (Covers h.now set) some }
        ensures test { (set : DescSet) (at : Coord)
            → IsDescSetOf h.now set → IsCoordOf h.now at
            → IsTrue (covers h.now set at) ↔ Covers h.now set at }
    {
        // This call says that it is a hierarchy.
        let _dims = h.dims();
    }

    /// The part in a dimension.
    fn part(&self, h: &Hierarchy, dim: u8) -> &Part
        requires dim { dim < length h.now }
        requires set { IsDescSetOf h.now self.now }
        ensures value { result.now ≡ part_at self.now dim }
        ensures part { IsPart (tree h.now dim) result.now }
        ensures concepts { All (IsConcept (tree h.now dim)) result.now.ids.items }
        ensures level { result.now.level ≤ leaf_level (tree h.now dim) }
    {
        &self.parts.as_slice()[usize::from(dim)]
    }

    /// The part in a dimension of a compiled filter's hierarchy.
    fn part_for(&self, wanted: &CompiledFilter, dim: u8) -> &Part
        requires dim { dim < length wanted.now.hierarchy }
        requires set { IsDescSetOf wanted.now.hierarchy self.now }
        ensures value { result.now ≡ part_at self.now dim }
        ensures level { result.now.level < length (tree wanted.now.hierarchy dim) }
        ensures concepts { AreOfLevel (tree wanted.now.hierarchy dim) result.now.level result.now.ids.items }
    {
        &self.parts.as_slice()[usize::from(dim)]
    }
}

/// The pick of a filter in a dimension.
fn pick(filter: &Filter, dim: u8) -> &Pick
    requires { dim < length filter.now }
    ensures { result.now ≡ pick_at filter.now dim }
{
    &filter.as_slice()[usize::from(dim)]
}
