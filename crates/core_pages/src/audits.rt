//! The page of an audit: all rows of all shards together.
ghost use Rattle.std.specs.Prelude.{List, ◌≡◌, ◌+◌, ◌<◌, ◌^◌, IsSome};
ghost use Rattle.core_pages.specs.Looks.{IsValid, cells_in, gate_in};
ghost use Rattle.core_pages.specs.Seen.{IsAuditedIn, IsQuietIn};
ghost use Rattle.core_pages.specs.Shards.{agg_of_gate};
ghost use Rattle.dim_hierarchy.specs.Dimension.{Dimension};
ghost use Rattle.measure_agg.specs.Joining.{join};
ghost use Rattle.core_image.specs.volap_cell.specs.Cells.{gate_shard};

use crate::leads::{led_at, spot_count};
use crate::looks::Cells;
use core_image::volap_cell::Cell;
use measure_agg::Agg;
use row_ledger::AuditLine;

/// An aggregate, joined with that of the rows of the gate in a cell: those in its tree, and those in its queue.
fn joined_at<C: Cells>(cells: &mut C, at: u32, agg: &Agg) -> Agg
    requires gate { IsSome (gate_shard (cells_in (C.state cells.old) at)) }
    requires few { agg.now.count + (agg_of_gate (gate_in (cells_in (C.state cells.old) at))).count < 2 ^ 63 }
    ensures same { C.state cells.new ≡ C.state cells.old }
    ensures value { result ≡ join agg.now (agg_of_gate (gate_in (cells_in (C.state cells.old) at))) }
{
    match cells.look(at) {
        Cell::Gate(gate) => agg.join(&gate.agg.join(&gate.queue.agg)),
        _ => unreachable!(),
    }
}

/// The aggregate of the rows of all shards that stand, and how many these are, where there are so many
/// servers and nobody is at a part. No two shards have a row in common, so there are no more rows than
/// events, and their number and their sum have room. Looks at three cells a shard. Takes no memory.
pub fn audit_page<C: Cells>(cells: &mut C, servers: u8) -> AuditLine
    requires state { (h : List Dimension) × IsValid h (C.state cells.old) }
    requires quiet { IsQuietIn servers (C.state cells.old) }
    ensures same { C.state cells.new ≡ C.state cells.old }
    ensures page { IsAuditedIn (C.state cells.old) result }
{
    let shards = spot_count(cells);
    let mut agg = Agg::EMPTY;
    for place in 0..shards {
        let (_, at) = led_at(cells, servers, place);
        agg = joined_at(cells, at, &agg);
    }
    AuditLine {
        agg,
        shards: shards as u64,
    }
}
