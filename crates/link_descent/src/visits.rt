//! What a query does at a block.
ghost use Rattle.std.specs.Prelude.{◌≡◌, ◌≢◌, ◌+◌, ◌<◌, ◌≤◌, ◌^◌, ◌∷◌, ◌++◌, [], if◌then◌else◌, length, All, IsSome};
ghost use Rattle.dim_hierarchy.specs.Rows.{IsRowOf};
ghost use Rattle.measure_agg.specs.Aggregate.{agg};
ghost use Rattle.measure_agg.specs.Joining.{join};
ghost use Rattle.describing_set.specs.Sets.{IsDescSetOf};
ghost use Rattle.describing_set.specs.Filter.{is_inside};
ghost use Rattle.dc_node.specs.Block.{IsBodyOf};
ghost use Rattle.dc_node.specs.Summary.{row_count, joined, aggs};
ghost use Rattle.link_descent.specs.Visit.{most_noted, matching, taken, noted, counted, noted_in, noted_right};

use dc_node::{Block, Body, Entry, Item, LeafRows, Todo};
use describing_set::Bearing;
use dim_hierarchy::CompiledFilter;
use measure_agg::Agg;

/// How many blocks a visit notes at most: the children of a directory, and the block to the right.
pub const MOST_NOTED: u64 = 17;

/// What a query does at a block, at which a walk that ends at `stamp` has come. It adds the matching
/// rows of a leaf, and of a directory the aggregates of the entries whose sets are inside the
/// filter. It notes the children whose sets else overlap the filter, and the block to the right
/// unless the walk ends here. Takes no memory: there is room for as many noted blocks
/// as a visit may note.
pub fn visit(block: &Block, stamp: u64, wanted: &CompiledFilter, agg: &mut Agg, todo: &mut Todo)
    requires body { IsBodyOf wanted.now.hierarchy block.now.body }
    requires room { most_noted ≤ todo.old.room }
    requires link { block.now.stamp ≢ stamp → IsSome block.now.right }
    requires few { agg.old.count + row_count block.now.body < 2 ^ 63 }
    ensures agg { agg.new ≡ join agg.old (counted wanted.now.hierarchy wanted.now.picks block.now.body) }
    ensures todo { todo.new.items
        ≡ todo.old.items ++ noted_in wanted.now.hierarchy wanted.now.picks block.now.body ++ noted_right block.now stamp }
{
    match &block.body {
        Body::Rows(rows) => visit_leaf(rows, wanted, agg),
        Body::Entries(entries) => visit_entries(entries.as_slice(), wanted, agg, todo),
    }
    visit_right(block, stamp, todo);
}

/// Adds the rows of a leaf that the filter matches.
fn visit_leaf(rows: &LeafRows, wanted: &CompiledFilter, total: &mut Agg)
    requires rows { All (IsRowOf wanted.now.hierarchy) rows.now.items }
    requires few { total.old.count + length rows.now.items < 2 ^ 63 }
    ensures { total.new
        ≡ join total.old (agg (matching wanted.now.hierarchy wanted.now.picks rows.now.items)) }
{
    *total = total.join(&rows.matching(wanted));
}

/// Adds the entries inside the filter, and notes the children of those that else overlap it.
fn visit_entries(entries: &[Entry], wanted: &CompiledFilter, total: &mut Agg, todo: &mut Todo)
    requires sets { All (λ e. IsDescSetOf wanted.now.hierarchy e.set) entries.now }
    requires few { total.old.count + (joined (aggs entries.now)).count < 2 ^ 63 }
    requires room { length entries.now ≤ todo.old.room }
    ensures total { total.new ≡ join total.old (joined (aggs (taken wanted.now.hierarchy wanted.now.picks entries.now))) }
    ensures todo { todo.new.items ≡ todo.old.items ++ noted wanted.now.hierarchy wanted.now.picks entries.now }
    ensures room { todo.old.room ≤ todo.new.room + length entries.now }
{
    measure_agg::laws();
    dc_node::agg_laws();
    for entry in entries {
        visit_entry(entry, wanted, total, todo);
    }
}

/// Adds an entry inside the filter, or notes the child of one that else overlaps it. A query asks this of
/// each entry of a directory, so it is no call.
#[inline(always)]
pub(crate) fn visit_entry(entry: &Entry, wanted: &CompiledFilter, total: &mut Agg, todo: &mut Todo)
    requires set { IsDescSetOf wanted.now.hierarchy entry.now.set }
    requires few { total.old.count + entry.now.agg.count < 2 ^ 63 }
    requires room { 0 < todo.old.room }
    ensures total { total.new ≡ (if is_inside wanted.now.hierarchy entry.now.set wanted.now.picks then join total.old entry.now.agg else total.old) }
    ensures todo { todo.new.items ≡ todo.old.items ++ noted wanted.now.hierarchy wanted.now.picks (entry.now ∷ []) }
    ensures room { todo.old.room ≤ todo.new.room + 1 }
{
    match entry.set.bearing(wanted) {
        Bearing::Inside => *total = total.join(&entry.agg),
        Bearing::Overlaps => todo.push(Item {
            cell: entry.child,
            stamp: entry.stamp,
        }),
        Bearing::Apart => {}
    }
}

/// Notes the block to the right, unless the walk ends here.
fn visit_right(block: &Block, stamp: u64, todo: &mut Todo)
    requires room { 0 < todo.old.room }
    requires link { block.now.stamp ≢ stamp → IsSome block.now.right }
    ensures { todo.new.items ≡ todo.old.items ++ noted_right block.now stamp }
{
    if block.stamp == stamp {
        return;
    }
    if let Some(cell) = block.right {
        todo.push(Item { cell, stamp });
    }
}
