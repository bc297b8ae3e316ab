//! What a query does at a gate.
ghost use Rattle.std.specs.Prelude.{◌≡◌, ◌+◌, ◌<◌, ◌≤◌, ◌^◌, ◌++◌, All, length};
ghost use Rattle.dim_hierarchy.specs.Rows.{IsRowOf};
ghost use Rattle.measure_agg.specs.Aggregate.{agg};
ghost use Rattle.measure_agg.specs.Joining.{join};
ghost use Rattle.describing_set.specs.Sets.{IsDescSetOf};
ghost use Rattle.shard_store.specs.Gate.{IsQueueOf};
ghost use Rattle.link_descent.specs.GateRead.{queue_part, tree_part, root_items};
ghost use Rattle.link_descent.specs.Visit.{matching};

use crate::descend::root_entry;
use crate::visits::visit_entry;
use dc_node::Todo;
use describing_set::Bearing;
use dim_hierarchy::{CompiledFilter, Row};
use measure_agg::Agg;
use shard_store::{Gate, Queue};

/// What a query does at a gate, in one step: it adds what it takes of the queue and of the tree, and
/// notes the root where it has to go down. Takes no memory: there is room for one noted block.
pub fn read_gate(gate: &Gate, wanted: &CompiledFilter, agg: &mut Agg, todo: &mut Todo)
    requires queue { IsQueueOf wanted.now.hierarchy gate.now.queue }
    requires set { IsDescSetOf wanted.now.hierarchy gate.now.set }
    requires few { agg.old.count + gate.now.queue.agg.count + gate.now.agg.count < 2 ^ 63 }
    requires room { 0 < todo.old.room }
    ensures agg { agg.new
        ≡ join (join agg.old (queue_part wanted.now.hierarchy wanted.now.picks gate.now.queue)) (tree_part wanted.now.hierarchy wanted.now.picks gate.now) }
    ensures todo { todo.new.items ≡ todo.old.items ++ root_items wanted.now.hierarchy wanted.now.picks gate.now }
{
    measure_agg::laws();
    visit_queue(&gate.queue, wanted, agg);
    visit_entry(&root_entry(gate), wanted, agg, todo);
}

/// Adds what a query takes of a queue.
fn visit_queue(queue: &Queue, wanted: &CompiledFilter, total: &mut Agg)
    requires queue { IsQueueOf wanted.now.hierarchy queue.now }
    requires few { total.old.count + queue.now.agg.count < 2 ^ 63 }
    ensures total { total.new ≡ join total.old (queue_part wanted.now.hierarchy wanted.now.picks queue.now) }
    ensures few { total.new.count ≤ total.old.count + queue.now.agg.count }
{
    measure_agg::laws();
    match queue.set.bearing(wanted) {
        Bearing::Inside => *total = total.join(&queue.agg),
        Bearing::Overlaps => visit_rows(queue.rows.as_slice(), wanted, total),
        Bearing::Apart => {}
    }
}

/// Adds the rows of a list that the filter matches.
fn visit_rows(rows: &[Row], wanted: &CompiledFilter, total: &mut Agg)
    requires rows { All (IsRowOf wanted.now.hierarchy) rows.now }
    requires few { total.old.count + length rows.now < 2 ^ 63 }
    ensures { total.new ≡ join total.old (agg (matching wanted.now.hierarchy wanted.now.picks rows.now)) }
{
    measure_agg::laws();
    for row in rows {
        let matched = wanted.matches(&row.at);
        if matched {
            *total = total.join(&Agg::one(row.measures));
        }
    }
}
