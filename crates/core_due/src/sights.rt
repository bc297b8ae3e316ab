//! Cells as a thread sees them that holds them all.
ghost use Rattle.std.specs.Prelude.{◌≡◌, [], option_copied, length};
ghost use Rattle.dc_node.specs.Block.{is_leaf};
ghost use Rattle.core_due.specs.Look.{cell_at, setting_by};
ghost use Rattle.core_steps.specs.volap_cell.specs.Filling.{cell_or};
ghost use Rattle.core_steps.specs.volap_cell.specs.Cells.{block_in, ledger_in, where_in};
ghost use Rattle.core_steps.specs.volap_cell.specs.Setting.{desk_cell, ledger_cell, map_cell};

use core_steps::volap_cell::Cell;
use core_steps::{desk_place, ledger_place, map_place};
use mapping_table::Where;
use row_ledger::Use;

/// The cell of a server's desk, as it is seen.
pub fn desk_at(with: &Use, server: u8) -> u32
    ensures { result ≡ desk_cell (setting_by [] with.now) server }
{
    desk_place(with, server)
}

/// The cell of a worker's table, as it is seen.
pub fn map_at(with: &Use, worker: u8) -> u32
    ensures { result ≡ map_cell (setting_by [] with.now) worker }
{
    map_place(with, worker)
}

/// The cell with this number, none where it is out or isn't there.
pub fn cell_at(cells: &[Option<Cell>], at: u32) -> Option<&Cell>
    ensures { cell_or (option_copied result) ≡ cell_at cells.now at }
{
    match cells.get(at as usize) {
        Some(Some(cell)) => Some(cell),
        _ => None,
    }
}

/// Whether the block in a cell is a leaf; what isn't a block counts as one.
pub fn is_leaf_at(cells: &[Option<Cell>], at: u32) -> bool
    ensures { result ≡ is_leaf (block_in (cell_at cells.now at)).body }
{
    match cell_at(cells, at) {
        Some(Cell::Block(block)) => block.is_leaf(),
        _ => true,
    }
}

/// How many events the history has.
pub fn events(cells: &[Option<Cell>]) -> u64
    ensures { result ≡ length (ledger_in (cell_at cells.now ledger_cell)).history }
{
    match cell_at(cells, ledger_place()) {
        Some(Cell::Ledger(ledger)) => ledger.len(),
        _ => 0,
    }
}

/// Where the table in a cell has a shard.
pub fn where_at(cells: &[Option<Cell>], at: u32, shard: u32) -> Option<&Where>
    ensures { option_copied result ≡ where_in (cell_at cells.now at) shard }
{
    match cell_at(cells, at) {
        Some(Cell::Map { map, .. }) => map.look(shard),
        _ => None,
    }
}
