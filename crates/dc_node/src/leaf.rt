//! The rows of a leaf.
ghost use Rattle.std.specs.Prelude.{◌≡◌, ◌==◌, ◌+◌, ◌<◌, ◌≤◌, [], ◌∷◌, ◌++◌, All, filter, length, slice_get, IfSome};
ghost use Rattle.dim_hierarchy.specs.Filter.{matches};
ghost use Rattle.dim_hierarchy.specs.Rows.{IsRowOf};
ghost use Rattle.measure_agg.specs.Aggregate.{agg};
ghost use Rattle.describing_set.specs.DescSet.{IsSetOf};
ghost use Rattle.describing_set.specs.Sets.{IsDescSetOf};
ghost use Rattle.dc_node.specs.Limits.{most_of_leaf};
ghost use Rattle.dc_node.specs.Summary.{coords};

use crate::blanks::Blanks;
use crate::boxed::RowBox;
use describing_set::DescSet;
use dim_hierarchy::{COLUMN_PLACES, CompiledFilter, Hierarchy, Row};
use measure_agg::Agg;
use std::marker::Model;

/// The rows of a leaf. They have no box until the first row comes, so that an empty leaf takes no
/// memory.
#[derive(Drop)]
pub struct LeafRows {
    list: Option<RowBox>,
}

impl Model for LeafRows {
    ghost use Rattle.arrayvec.specs.ArrayVec.{ArrayVec as Items};
    ghost use Rattle.dim_hierarchy.specs.declared.row.Row.{Row};
    ghost use Rattle.dc_node.specs.Leaf.{rows_of};

    ghost Value = { Items Row };

    ghost view = { λ a. record { items = rows_of a.list } };
}

impl LeafRows {
    /// No rows, without a box.
    pub fn new() -> LeafRows
        ensures { result.items ≡ [] }
    {
        LeafRows { list: None }
    }

    /// The rows of a box.
    pub fn of(rows: RowBox) -> LeafRows
        ensures { result.items ≡ rows.items }
    {
        LeafRows { list: Some(rows) }
    }

    /// How many there are.
    pub fn len(&self) -> usize
        ensures value { result ≡ length self.now.items }
        ensures few { result ≤ most_of_leaf }
    {
        match &self.list {
            Some(rows) => rows.len(),
            None => 0,
        }
    }

    /// Whether there is no room for a further one.
    pub fn is_full(&self) -> bool
        ensures value { result ≡ (length self.now.items == most_of_leaf) }
        ensures few { length self.now.items ≤ most_of_leaf }
    {
        self.len() == COLUMN_PLACES
    }

    /// The row at a place.
    pub fn row(&self, place: usize) -> Option<Row>
        ensures { result ≡ slice_get self.now.items place }
    {
        match &self.list {
            Some(rows) if place < rows.len() => Some(rows.row(place)),
            _ => None,
        }
    }

    /// Adds a copy of the row at a place to a box, where there is room.
    pub fn copy_row(&self, place: usize, other: &mut RowBox)
        requires place { place < length self.now.items }
        requires room { length other.old.items < most_of_leaf }
        ensures items { IfSome (slice_get self.now.items place)
            (λ row. other.new.items ≡ other.old.items ++ row ∷ []) }
        ensures len { length other.new.items ≡ length other.old.items + 1 }
    {
        if let Some(rows) = &self.list {
            rows.copy_row(place, other);
        }
    }

    /// The describing set of the row at a place.
    pub fn set_at(&self, place: usize, h: &Hierarchy) -> DescSet
        requires place { place < length self.now.items }
        requires rows { All (IsRowOf h.now) self.now.items }
        ensures set { IfSome (slice_get self.now.items place)
            (λ row. IsSetOf h.now (row.at ∷ []) result) }
        ensures valid { IsDescSetOf h.now result }
    {
        match &self.list {
            Some(rows) => rows.set_at(place, h),
            None => DescSet::empty(h),
        }
    }

    /// The describing set of all rows.
    pub fn set(&self, h: &Hierarchy) -> DescSet
        requires { All (IsRowOf h.now) self.now.items }
        ensures set { IsSetOf h.now (coords self.now.items) result }
        ensures valid { IsDescSetOf h.now result }
    {
        match &self.list {
            Some(rows) => rows.set(h),
            None => DescSet::empty(h),
        }
    }

    /// The aggregate of all rows.
    pub fn total(&self) -> Agg
        ensures { result ≡ agg self.now.items }
    {
        match &self.list {
            Some(rows) => rows.total(),
            None => Agg::EMPTY,
        }
    }

    /// The aggregate of the rows that a filter matches.
    pub fn matching(&self, wanted: &CompiledFilter) -> Agg
        requires { All (IsRowOf wanted.now.hierarchy) self.now.items }
        ensures value { result ≡ agg (filter (λ r. matches wanted.now.hierarchy wanted.now.picks r.at) self.now.items) }
        ensures few { result.count ≤ length self.now.items }
    {
        match &self.list {
            Some(rows) => rows.matching(wanted),
            None => Agg::EMPTY,
        }
    }

    /// The box of the rows; none where they have none.
    pub(crate) fn into_box(self) -> Option<RowBox> {
        self.list
    }

    /// The box of the rows, where they have none a blank one.
    fn take(&mut self, blanks: &mut Blanks) -> RowBox
        requires { 0 < blanks.old }
        ensures rows { result.items ≡ self.old.items }
        ensures blanks { blanks.old ≤ blanks.new + 1 }
    {
        match self.list.take() {
            Some(rows) => rows,
            None => blanks.leaf(),
        }
    }

    /// Adds a row at the end, where there is room.
    pub(crate) fn push(&mut self, row: &Row, blanks: &mut Blanks)
        requires room { length self.old.items < most_of_leaf }
        requires blanks { 0 < blanks.old }
        ensures rows { self.new.items ≡ self.old.items ++ row.now ∷ [] }
        ensures blanks { blanks.old ≤ blanks.new + 1 }
    {
        let mut rows = self.take(blanks);
        rows.push(row);
        self.list = Some(rows);
    }
}
