//! Filters made ready for many questions.
ghost use Rattle.std.specs.Prelude.{◌≡◌, ◌<◌, ◌↔◌, All, filter, length, option_map, slice_index, IsTrue, IfOk};
ghost use Rattle.dim_hierarchy.specs.Tree.{IsConcept, IsLeaf};
ghost use Rattle.std.specs.List.{list_all, list_any};
ghost use Rattle.dim_hierarchy.specs.Dimension.{tree};
ghost use Rattle.dim_hierarchy.specs.Row.{IsCoordOf};
ghost use Rattle.dim_hierarchy.specs.Filter.{IsFilterOf, matches, is_picked, pick_at};
ghost use Rattle.dim_hierarchy.specs.Meaning.{Matches};

use crate::column::{Column, RowPlaces};
use crate::concept::ConceptId;
use crate::dim_marks::DimMarks;
use crate::filter::{Filter, Pick};
use crate::hierarchy::Hierarchy;
use crate::marks::UNDER;
use crate::row::Coord;
use std::alloc::{AllocError, Global};
use std::marker::Model;
use std::snapshot::Snapshot;

/// A filter made ready for many questions, with marks of concepts of the dimensions in which it lists
/// some. Contracts see its picks, and the hierarchy over which it was made.
///
/// It takes a byte for each concept of such a dimension, or some for each that is listed where these are few, so
/// it is made for a query and let go with it, and what is kept is the filter. It knows no concept that was
/// added later.
#[derive(Drop)]
pub struct CompiledFilter {
    hierarchy: Snapshot<Hierarchy>,
    picks: Snapshot<Filter>,
    dims: Vec<DimMarks>,
}

impl Model for CompiledFilter {
    ghost use Rattle.dim_hierarchy.specs.Compiled.{Compiled, compiled_code, AreFilterMarks};

    ghost Value = { Compiled };

    ghost coded = { compiled_code };

    ghost view = { λ c. record { hierarchy = c.hierarchy.value; picks = c.picks.value } };

    ghost invariant = { λ c. AreFilterMarks c.hierarchy.value c.picks.value c.dims.items };
}

impl Hierarchy {
    ghost use Rattle.dim_hierarchy.specs.Compiled.{compiled, AreDimMarks};

    /// The filter with its marks.
    pub fn compile(&self, alloc: Global, filter: &Filter) -> Result<CompiledFilter, AllocError>
        requires { IsFilterOf self.now filter.now }
        ensures { IfOk result (λ c. c ≡ compiled self.now filter.now) }
    {
        let mut dims = Vec::with_capacity(alloc, usize::from(self.dims()))?;
        for dim in 0..self.dims() {
            let marks = self.dim_marks(alloc, filter, dim)?;
            dims.push(marks)?;
        }
        Ok(CompiledFilter {
            hierarchy: Snapshot::of(self),
            picks: Snapshot::of(filter),
            dims,
        })
    }

    /// The marks of a dimension.
    fn dim_marks(&self, alloc: Global, filter: &Filter, dim: u8) -> Result<DimMarks, AllocError>
        requires filter { IsFilterOf self.now filter.now }
        requires dim { dim < length self.now }
        ensures { IfOk result (AreDimMarks (tree self.now dim) (pick_at filter.now dim)) }
    {
        match &filter.as_slice()[usize::from(dim)] {
            Pick::All => Ok(DimMarks::All),
            Pick::Ids(ids) => self.table(dim).marks(alloc, ids.as_slice()),
        }
    }
}

impl CompiledFilter {
    ghost use Rattle.dim_hierarchy.specs.Compiled.{is_related, AreDimMarks, AreOfLevel};

    /// How many dimensions the hierarchy has.
    pub fn dims(&self) -> u8
        ensures value { result ≡ length self.now.hierarchy }
        ensures valid { IsFilterOf self.now.hierarchy self.now.picks }
    {
        self.dims.len() as u8
    }

    /// The marks of a dimension.
    fn marks(&self, dim: u8) -> &DimMarks
        requires { dim < length self.now.hierarchy }
        ensures marks { AreDimMarks (tree self.now.hierarchy dim) (pick_at self.now.picks dim) result.now }
        ensures valid { IsFilterOf self.now.hierarchy self.now.picks }
    {
        &self.dims[usize::from(dim)]
    }

    /// Whether the filter picks the concept in its dimension: it is under a listed one, or all are.
    fn has(&self, dim: u8, id: ConceptId) -> bool
        requires dim { dim < length self.now.hierarchy }
        requires concept { IsConcept (tree self.now.hierarchy dim) id }
        ensures { result ≡ is_picked (tree self.now.hierarchy dim) (pick_at self.now.picks dim) id }
    {
        match self.marks(dim) {
            DimMarks::All => true,
            DimMarks::Full(marks) => marks.mark(id) == UNDER,
            DimMarks::Few(marks) => marks.mark(id) == UNDER,
        }
    }

    /// Whether the filter picks each of these concepts of a level: it is under a listed one, or all
    /// are.
    pub fn has_all(&self, dim: u8, level: u8, ids: &[ConceptId]) -> bool
        requires dim { dim < length self.now.hierarchy }
        requires level { level < length (tree self.now.hierarchy dim) }
        requires concepts { AreOfLevel (tree self.now.hierarchy dim) level ids.now }
        ensures { result
            ≡ list_all (is_picked (tree self.now.hierarchy dim) (pick_at self.now.picks dim)) ids.now }
    {
        match self.marks(dim) {
            DimMarks::All => true,
            DimMarks::Full(marks) => marks.level(level).are_under(ids),
            DimMarks::Few(marks) => marks.are_under(ids),
        }
    }

    /// Whether the filter picks one of these concepts of a level or lists one that is under one of
    /// them.
    pub fn meets_any(&self, dim: u8, level: u8, ids: &[ConceptId]) -> bool
        requires dim { dim < length self.now.hierarchy }
        requires level { level < length (tree self.now.hierarchy dim) }
        requires concepts { AreOfLevel (tree self.now.hierarchy dim) level ids.now }
        ensures { result
            ≡ list_any (is_related (tree self.now.hierarchy dim) (pick_at self.now.picks dim)) ids.now }
    {
        match self.marks(dim) {
            DimMarks::All => !ids.is_empty(),
            DimMarks::Full(marks) => marks.level(level).is_any_related(ids),
            DimMarks::Few(marks) => marks.is_any_related(ids),
        }
    }

    /// Keeps the places at which the filter picks the column's leaf concept.
    pub fn keep(&self, dim: u8, column: &Column, places: &mut RowPlaces)
        requires dim { dim < length self.now.hierarchy }
        requires leaves { All (λ place. IsLeaf (tree self.now.hierarchy dim) (slice_index column.now place)) places.old }
        ensures { places.new
            ≡ filter (λ place. is_picked (tree self.now.hierarchy dim) (pick_at self.now.picks dim) (slice_index column.now place)) places.old }
    {
        match self.marks(dim) {
            DimMarks::All => {}
            DimMarks::Full(marks) => marks.leaves().keep(column, places),
            DimMarks::Few(marks) => marks.keep(column, places),
        }
    }

    /// Whether in each dimension the filter picks all, or a concept that the coordinate's is under.
    pub fn matches(&self, at: &Coord) -> bool
        requires { IsCoordOf self.now.hierarchy at.now }
        ensures test { result ≡ matches self.now.hierarchy self.now.picks at.now }
        ensures meaning { IsTrue result ↔ Matches self.now.hierarchy self.now.picks at.now }
    {
        for dim in 0..self.dims() {
            if !self.has(dim, at.concept(dim)) {
                return false;
            }
        }
        true
    }
}
