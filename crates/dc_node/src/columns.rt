//! Rows by columns: a column of concepts for each dimension, and beside them the rows' numbers and
//! measures. A query reads the columns of the dimensions that it asks for, and the measures of the
//! rows that match.
ghost use Rattle.std.specs.Prelude.{◌≡◌, ◌+◌, ◌<◌, ◌≤◌, ◌^◌, ◌∷◌, ◌++◌, [], All, filter, length, map};
ghost use Rattle.dim_hierarchy.specs.Filter.{matches};
ghost use Rattle.dim_hierarchy.specs.Rows.{IsRowOf};
ghost use Rattle.measure_agg.specs.Aggregate.{agg};
ghost use Rattle.measure_agg.specs.Joining.{join};
ghost use Rattle.describing_set.specs.DescSet.{IsSetOf};
ghost use Rattle.describing_set.specs.Sets.{IsDescSetOf};
ghost use Rattle.dc_node.specs.Limits.{most_of_leaf};
ghost use Rattle.dc_node.specs.Summary.{coords};
ghost use Rattle.dc_node.specs.Columns.{coord_at, row_at, rows_in_columns, IsPut};

use describing_set::DescSet;
use dim_hierarchy::{
    COLUMN_PLACES, Column, CompiledFilter, ConceptId, Coord, Hierarchy, Measures, Row, RowPlaces,
};
use measure_agg::Agg;

/// Rows by places. How many of the first ones are in use stands with the box, as a query goes over
/// many leaves, and else would wait for the box before it could ask for a column.
#[derive(Drop)]
pub struct Columns {
    concepts: [Column; 8],
    measures: [Measures; COLUMN_PLACES],
    numbers: [u64; COLUMN_PLACES],
}

impl Columns {
    /// Places of which none is in use.
    pub fn new() -> Columns {
        Columns {
            concepts: [[ConceptId::ALL; COLUMN_PLACES]; 8],
            measures: [0; COLUMN_PLACES],
            numbers: [0; COLUMN_PLACES],
        }
    }

    /// Puts a row behind the first `count`.
    pub fn put(&mut self, count: usize, row: &Row)
        requires { count < most_of_leaf }
        ensures { rows_in_columns self.new (count + 1) ≡ rows_in_columns self.old count ++ row.now ∷ [] }
    {
        self.numbers[count] = row.no;
        self.measures[count] = row.measures;
        put(&mut self.concepts, count, &row.at.at);
    }

    /// The row at a place.
    pub fn row(&self, place: usize) -> Row
        requires { place < most_of_leaf }
        ensures { result ≡ row_at self.now place }
    {
        Row {
            no: self.numbers[place],
            at: coord(&self.concepts, place),
            measures: self.measures[place],
        }
    }

    /// Puts a copy of the row at a place behind the first `count` of other ones.
    pub fn copy_row(&self, place: usize, other: &mut Columns, count: usize)
        requires place { place < most_of_leaf }
        requires room { count < most_of_leaf }
        ensures { rows_in_columns other.new (count + 1) ≡ rows_in_columns other.old count ++ row_at self.now place ∷ [] }
    {
        other.put(count, &self.row(place));
    }

    /// The describing set of the row at a place.
    pub fn set_at(&self, place: usize, h: &Hierarchy) -> DescSet
        requires place { place < most_of_leaf }
        requires row { IsRowOf h.now (row_at self.now place) }
        ensures set { IsSetOf h.now ((row_at self.now place).at ∷ []) result }
        ensures valid { IsDescSetOf h.now result }
    {
        DescSet::of_coord(h, &coord(&self.concepts, place))
    }

    /// The describing set of the first `count` rows.
    pub fn set(&self, count: usize, h: &Hierarchy) -> DescSet
        requires count { count ≤ most_of_leaf }
        requires rows { All (IsRowOf h.now) (rows_in_columns self.now count) }
        ensures set { IsSetOf h.now (coords (rows_in_columns self.now count)) result }
        ensures valid { IsDescSetOf h.now result }
    {
        DescSet::laws(h);
        let mut set = DescSet::empty(h);
        for place in 0..count {
            set.grow(h, &coord(&self.concepts, place));
        }
        set
    }

    /// The aggregate of the first `count` rows.
    pub fn total(&self, count: usize) -> Agg
        requires { count ≤ most_of_leaf }
        ensures { result ≡ agg (rows_in_columns self.now count) }
    {
        let places = RowPlaces::first(count);
        self.total_at(places.as_slice())
    }

    /// The aggregate of those of the first `count` rows that a filter matches.
    pub fn matching(&self, count: usize, wanted: &CompiledFilter) -> Agg
        requires count { count ≤ most_of_leaf }
        requires rows { All (IsRowOf wanted.now.hierarchy) (rows_in_columns self.now count) }
        ensures { result ≡ agg (filter (λ r. matches wanted.now.hierarchy wanted.now.picks r.at) (rows_in_columns self.now count)) }
    {
        let mut places = RowPlaces::first(count);
        for dim in 0..wanted.dims() {
            wanted.keep(dim, &self.concepts[usize::from(dim)], &mut places);
        }
        self.total_at(places.as_slice())
    }

    /// The aggregate of the rows at some places.
    fn total_at(&self, places: &[u8]) -> Agg
        requires few { length places.now ≤ most_of_leaf }
        requires within { All (λ place. place < most_of_leaf) places.now }
        ensures { result ≡ agg (map (row_at self.now) places.now) }
    {
        measure_agg::laws();
        let mut total = Agg::EMPTY;
        for place in places {
            self.add_to(&mut total, *place);
        }
        total
    }

    /// Adds the row at a place to an aggregate.
    fn add_to(&self, total: &mut Agg, place: u8)
        requires place { place < most_of_leaf }
        requires few { total.old.count + 1 < 2 ^ 63 }
        ensures total { total.new ≡ join total.old (agg (row_at self.now place ∷ [])) }
        ensures count { total.new.count ≡ total.old.count + 1 }
    {
        *total = total.join(&Agg::one(self.measures[usize::from(place)]));
    }
}

/// Writes concepts, one for each dimension, at a place of the columns.
fn put(columns: &mut [Column; 8], place: usize, ids: &[ConceptId; 8])
    requires { place < most_of_leaf }
    ensures { IsPut columns.old columns.new place ids.now }
{
    for dim in 0..8 {
        columns[dim][place] = ids[dim];
    }
}

/// Reads the coordinate at a place of the columns.
fn coord(columns: &[Column; 8], place: usize) -> Coord
    requires { place < most_of_leaf }
    ensures { result ≡ coord_at columns.now place }
{
    Coord {
        at: [
            columns[0][place],
            columns[1][place],
            columns[2][place],
            columns[3][place],
            columns[4][place],
            columns[5][place],
            columns[6][place],
            columns[7][place],
        ],
    }
}
