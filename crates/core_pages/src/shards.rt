//! The page of all shards that stand.
ghost use Rattle.std.specs.Prelude.{◌≡◌, IfOk};
ghost use Rattle.core_pages.specs.Looks.{IsValid, cells_in, gate_in};
ghost use Rattle.core_pages.specs.Seen.{AreSeenIn, IsQuietIn};
ghost use Rattle.core_pages.specs.Shards.{HasGateAt, IsLineOf};

use crate::leads::{led_at, spot_count};
use crate::looks::Cells;
use core_image::volap_cell::Cell;
use describing_set::Spot;
use dim_hierarchy::Hierarchy;
use row_ledger::{ShardLine, ShardList};
use std::alloc::{AllocError, Global};

/// The line of a spot, by the gate in a cell: how many rows it has in the tree and in the queue, and the
/// set of them all.
fn line_at<C: Cells>(h: &Hierarchy, cells: &mut C, spot: &Spot, at: u32) -> ShardLine
    requires gate { HasGateAt h.now (cells_in (C.state cells.old) at) }
    ensures same { C.state cells.new ≡ C.state cells.old }
    ensures line { IsLineOf h.now spot.now (gate_in (cells_in (C.state cells.old) at)) result }
{
    match cells.look(at) {
        Cell::Gate(gate) => ShardLine {
            shard: spot.shard,
            worker: spot.worker,
            rows: gate.agg.count(),
            queued: gate.queue.rows.len() as u64,
            set: gate.set.join(h, &gate.queue.set),
        },
        _ => unreachable!(),
    }
}

/// The shards that stand, in the order in which the registry has them, where there are so many servers and
/// nobody is at a part. Looks at three cells a shard. Takes memory for the lines.
pub fn shards_page<C: Cells>(
    alloc: Global,
    h: &Hierarchy,
    cells: &mut C,
    servers: u8,
) -> Result<ShardList, AllocError>
    requires state { IsValid h.now (C.state cells.old) }
    requires quiet { IsQuietIn servers (C.state cells.old) }
    ensures same { C.state cells.new ≡ C.state cells.old }
    ensures page { IfOk result (λ lines. AreSeenIn h.now (C.state cells.old) lines) }
{
    let mut lines = ShardList::new(alloc);
    for place in 0..spot_count(cells) {
        let (spot, at) = led_at(cells, servers, place);
        lines.push(line_at(h, cells, &spot, at))?;
    }
    Ok(lines)
}
