//! The order in which rows are put to leaves.
ghost use Rattle.std.specs.Prelude.{◌≡◌, length, IsPermutation};
ghost use Rattle.std.specs.List.Sorted.{IsSortedBy};
ghost use Rattle.shard_build.specs.Building.{comes_before};

use dim_hierarchy::Row;

/// The rows in order: by coordinate, dimension by dimension, then by number.
pub fn in_order(rows: Vec<Row>) -> Vec<Row>
    ensures permutation { IsPermutation rows.items result.items }
    ensures sorted { IsSortedBy comes_before result.items }
    ensures len { length result.items ≡ length rows.items }
{
    let mut rows = rows;
    put_in_order(rows.as_mut_slice());
    rows
}

/// Puts rows in order.
fn put_in_order(rows: &mut [Row])
    ensures permutation { IsPermutation rows.old rows.new }
    ensures sorted { IsSortedBy comes_before rows.new }
    ensures len { length rows.new ≡ length rows.old }
{
    rows.sort_unstable_by_key(|row| (row.at.at, row.no));
}
