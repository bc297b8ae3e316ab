//! The boxes in which a block keeps its items.
ghost use Rattle.std.specs.Prelude.{◌≡◌, ◌==◌, ◌+◌, ◌<◌, ◌≤◌, ◌^◌, [], ◌∷◌, ◌++◌, All, filter, length, slice_get, slice_set, insert, IfOk, IfSome};
ghost use Rattle.dim_hierarchy.specs.Filter.{matches};
ghost use Rattle.dim_hierarchy.specs.Rows.{IsRowOf};
ghost use Rattle.measure_agg.specs.Aggregate.{agg};
ghost use Rattle.describing_set.specs.DescSet.{IsSetOf};
ghost use Rattle.describing_set.specs.Sets.{IsDescSetOf};
ghost use Rattle.dc_node.specs.Limits.{most_of_leaf, most_of_directory};
ghost use Rattle.dc_node.specs.Entry.{HasRowMore};
ghost use Rattle.dc_node.specs.Summary.{coords};

use crate::columns::Columns;
use crate::entry::Entry;
use arrayvec::ArrayVec;
use describing_set::DescSet;
use dim_hierarchy::{CompiledFilter, Hierarchy, Row};
use measure_agg::Agg;
use std::alloc::{AllocError, Global};
use std::marker::Model;

/// The rows of a leaf by columns in a box of their own. Contracts see the list of rows, as
/// of an `ArrayVec`.
#[derive(Drop)]
pub struct RowBox {
    count: usize,
    columns: Box<Columns>,
}

impl Model for RowBox {
    ghost use Rattle.std.specs.Prelude.{◌≤◌};
    ghost use Rattle.arrayvec.specs.ArrayVec.{ArrayVec as Items};
    ghost use Rattle.dim_hierarchy.specs.declared.row.Row.{Row};
    ghost use Rattle.dc_node.specs.Limits.{most_of_leaf};
    ghost use Rattle.dc_node.specs.Columns.{rows_in_columns};

    ghost Value = { Items Row };

    ghost view = { λ b. record { items = rows_in_columns b.columns.value b.count } };

    ghost invariant = { λ b. b.count ≤ most_of_leaf };
}

impl RowBox {
    /// No row.
    pub fn new(alloc: Global) -> Result<RowBox, AllocError>
        ensures { IfOk result (λ b. b.items ≡ []) }
    {
        let columns = Box::new(alloc, Columns::new())?;
        Ok(RowBox { count: 0, columns })
    }

    /// How many rows there are.
    #[tactic(auto, using(crate::proofs::Rows::length_rows))]
    pub fn len(&self) -> usize
        ensures value { result ≡ length self.now.items }
        ensures few { result ≤ most_of_leaf }
    {
        self.count
    }

    /// The row at a place.
    #[tactic(auto, using(crate::proofs::Rows::length_rows, crate::proofs::Rows::row_of_rows))]
    pub fn row(&self, place: usize) -> Row
        requires { place < length self.now.items }
        ensures { slice_get self.now.items place ≡ Some result }
    {
        self.columns.row(place)
    }

    /// Adds a row at the end. There must be room.
    #[tactic(auto, using(crate::proofs::Rows::length_rows))]
    pub fn push(&mut self, row: &Row)
        requires { length self.old.items < most_of_leaf }
        ensures items { self.new.items ≡ self.old.items ++ row.now ∷ [] }
        ensures len { length self.new.items ≡ length self.old.items + 1 }
    {
        self.columns.put(self.count, row);
        self.count += 1;
    }

    /// Drops every row.
    pub fn clear(&mut self)
        ensures { self.new.items ≡ [] }
    {
        self.count = 0;
    }

    /// Adds a copy of the row at a place to another box, where there is room.
    #[tactic(auto, using(crate::proofs::Rows::length_rows, crate::proofs::Rows::row_of_rows))]
    pub fn copy_row(&self, place: usize, other: &mut RowBox)
        requires place { place < length self.now.items }
        requires room { length other.old.items < most_of_leaf }
        ensures items { IfSome (slice_get self.now.items place)
            (λ row. other.new.items ≡ other.old.items ++ row ∷ []) }
        ensures len { length other.new.items ≡ length other.old.items + 1 }
    {
        self.columns
            .copy_row(place, &mut other.columns, other.count);
        other.count += 1;
    }

    /// The describing set of the row at a place.
    #[tactic(auto, using(crate::proofs::Rows::length_rows, crate::proofs::Rows::row_of_rows))]
    pub fn set_at(&self, place: usize, h: &Hierarchy) -> DescSet
        requires place { place < length self.now.items }
        requires rows { All (IsRowOf h.now) self.now.items }
        ensures set { IfSome (slice_get self.now.items place)
            (λ row. IsSetOf h.now (row.at ∷ []) result) }
        ensures valid { IsDescSetOf h.now result }
    {
        self.columns.set_at(place, h)
    }

    /// The describing set of all rows.
    pub fn set(&self, h: &Hierarchy) -> DescSet
        requires { All (IsRowOf h.now) self.now.items }
        ensures set { IsSetOf h.now (coords self.now.items) result }
        ensures valid { IsDescSetOf h.now result }
    {
        self.columns.set(self.count, h)
    }

    /// The aggregate of all rows.
    pub fn total(&self) -> Agg
        ensures { result ≡ agg self.now.items }
    {
        self.columns.total(self.count)
    }

    /// The aggregate of the rows that a filter matches.
    pub fn matching(&self, wanted: &CompiledFilter) -> Agg
        requires { All (IsRowOf wanted.now.hierarchy) self.now.items }
        ensures { result ≡ agg (filter (λ r. matches wanted.now.hierarchy wanted.now.picks r.at) self.now.items) }
    {
        self.columns.matching(self.count, wanted)
    }
}

/// How many entries a directory has at most.
pub const MOST_OF_DIRECTORY: usize = 16;

/// The entries of a directory in a box of their own. Contracts see the same as of an `ArrayVec`.
#[derive(Drop)]
pub struct EntryBox {
    list: Box<ArrayVec<Entry, MOST_OF_DIRECTORY>>,
}

impl Model for EntryBox {
    ghost use Rattle.arrayvec.specs.ArrayVec.{ArrayVec as Items};
    ghost use Rattle.dc_node.specs.declared.entry.Entry.{Entry};

    ghost Value = { Items Entry };

    ghost view = { λ b. b.list.value };
}

impl EntryBox {
    /// No element.
    pub fn new(alloc: Global) -> Result<EntryBox, AllocError>
        ensures { IfOk result (λ b. b.items ≡ []) }
    {
        let list = Box::new(alloc, ArrayVec::new())?;
        Ok(EntryBox { list })
    }

    /// The number of elements.
    pub fn len(&self) -> usize
        ensures { result ≡ length self.now.items }
    {
        self.list.len()
    }

    /// Whether there is no room left.
    pub fn is_full(&self) -> bool
        ensures value { result ≡ (length self.now.items == most_of_directory) }
        ensures few { length self.now.items ≤ most_of_directory }
    {
        self.list.is_full()
    }

    /// The elements.
    pub fn as_slice(&self) -> &[Entry]
        ensures value { result.now ≡ self.now.items }
        ensures few { length result.now ≤ most_of_directory }
    {
        self.list.as_slice()
    }

    /// Appends an element. There must be room.
    pub fn push(&mut self, element: Entry)
        requires { length self.old.items < most_of_directory }
        ensures items { self.new.items ≡ self.old.items ++ element ∷ [] }
        ensures len { length self.new.items ≡ length self.old.items + 1 }
    {
        self.list.push(element);
    }

    /// Inserts an element at a place, and moves the later ones up. There must be room.
    pub fn insert(&mut self, index: usize, element: Entry)
        requires within { index ≤ length self.old.items }
        requires room { length self.old.items < most_of_directory }
        ensures { self.new.items ≡ insert self.old.items index element }
    {
        self.list.insert(index, element);
    }

    /// Counts a row beneath the entry at a place, where it stands.
    pub fn add_row(&mut self, index: usize, h: &Hierarchy, row: &Row)
        requires within { index < length self.old.items }
        requires set { IfSome (slice_get self.old.items index) (λ e. IsDescSetOf h.now e.set) }
        requires row { IsRowOf h.now row.now }
        requires few { IfSome (slice_get self.old.items index) (λ e. e.agg.count + 1 < 2 ^ 63) }
        ensures { HasRowMore h.now row.now index self.old.items self.new.items }
    {
        let entry = &mut self.list[index];
        entry.add_row(h, row);
    }

    /// Puts an element in place of the one at a place.
    pub fn set(&mut self, index: usize, element: Entry)
        requires { index < length self.old.items }
        ensures { self.new.items ≡ slice_set self.old.items index element }
    {
        self.list[index] = element;
    }

    /// Drops every element.
    pub fn clear(&mut self)
        ensures { self.new.items ≡ [] }
    {
        self.list.clear();
    }
}
