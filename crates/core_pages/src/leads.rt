//! The spots of the registry, and to which gate the table of a spot's worker leads.
ghost use Rattle.std.specs.Prelude.{◌≡◌, ◌<◌, Some, IsSome, length, slice_get};
ghost use Rattle.core_pages.specs.Looks.{cells_in};
ghost use Rattle.core_pages.specs.Shards.{CanLead, frontier_in, gate_place, table_place};
ghost use Rattle.core_image.specs.volap_cell.specs.Cells.{where_in};
ghost use Rattle.core_image.specs.volap_cell.specs.Setting.{registry_cell};

use crate::looks::Cells;
use core_image::volap_cell::Cell;
use describing_set::Spot;
use mapping_table::Where;

/// How many spots the registry has.
pub fn spot_count<C: Cells>(cells: &mut C) -> usize
    requires stands { IsSome ((C.state cells.old).cells registry_cell) }
    ensures same { C.state cells.new ≡ C.state cells.old }
    ensures value { result ≡ length (frontier_in (cells_in (C.state cells.old))) }
{
    match cells.look(2) {
        Cell::Registry(registry) => registry.spots().len(),
        _ => 0,
    }
}

/// The spot at a place of the registry.
fn spot_at<C: Cells>(cells: &mut C, place: usize) -> Spot
    requires stands { IsSome ((C.state cells.old).cells registry_cell) }
    requires within { place < length (frontier_in (cells_in (C.state cells.old))) }
    ensures same { C.state cells.new ≡ C.state cells.old }
    ensures value { slice_get (frontier_in (cells_in (C.state cells.old))) place ≡ Some result }
{
    match cells.look(2) {
        Cell::Registry(registry) => registry.spots()[place].copy(),
        _ => unreachable!(),
    }
}

/// The cell of a worker's table, where there are so many servers.
fn table_place(servers: u8, worker: u8) -> u32
    ensures { result ≡ table_place servers worker }
{
    3 + u32::from(servers) + u32::from(servers) + u32::from(worker)
}

/// The cell of the gate to which the table of a spot's worker leads, where there are so many servers.
fn gate_place<C: Cells>(cells: &mut C, servers: u8, spot: &Spot) -> u32
    requires leads { IsSome (where_in (cells_in (C.state cells.old) (table_place servers spot.now.worker)) spot.now.shard) }
    ensures same { C.state cells.new ≡ C.state cells.old }
    ensures value { result ≡ gate_place servers (cells_in (C.state cells.old)) spot.now }
{
    match cells.look(table_place(servers, spot.worker)) {
        Cell::Map { map, .. } => match map.look(spot.shard) {
            Some(Where::Gate(at)) => *at,
            _ => 0,
        },
        _ => 0,
    }
}

/// The spot at a place of the registry, and the cell of the gate to which the table of its worker leads,
/// where there are so many servers. Looks at two cells.
pub fn led_at<C: Cells>(cells: &mut C, servers: u8, place: usize) -> (Spot, u32)
    requires leads { CanLead servers (C.state cells.old) }
    requires within { place < length (frontier_in (cells_in (C.state cells.old))) }
    ensures same { C.state cells.new ≡ C.state cells.old }
    ensures spot { slice_get (frontier_in (cells_in (C.state cells.old))) place ≡ Some result.0 }
    ensures gate { result.1 ≡ gate_place servers (cells_in (C.state cells.old)) result.0 }
{
    let spot = spot_at(cells, place);
    let at = gate_place(cells, servers, &spot);
    (spot, at)
}
