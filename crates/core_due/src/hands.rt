//! For whom parts wait.
ghost use Rattle.std.specs.{List.{list_any}, Prelude.{◌≡◌, [], false, IfSome, None}};
ghost use Rattle.core_due.specs.{Awaited.{IsAwaited}, Due.{any_below}, Look.{cell_at, setting_by}};
ghost use Rattle.query_router.specs.Desk.{waits_for};
ghost use Rattle.core_steps.specs.volap_cell.specs.{Cells.{desk_in}, Setting.{desk_cell}};

use crate::sights::{cell_at, desk_at};
use core_steps::volap_cell::Cell;
use row_ledger::Use;

/// Whether a part on the desk in a cell waits for the worker.
fn is_awaited_at(cells: &[Option<Cell>], at: u32, worker: u8) -> bool
    ensures { result ≡ list_any (waits_for worker) (desk_in (cell_at cells.now at)).parts }
{
    match cell_at(cells, at) {
        Some(Cell::Desk { desk, .. }) => desk.awaits(worker),
        _ => false,
    }
}

/// The first server on whose desk a part waits for the worker, if there is one.
pub fn awaiting(with: &Use, cells: &[Option<Cell>], worker: u8) -> Option<u8>
    ensures some { IfSome result (IsAwaited with.now cells.now worker) }
    ensures none { result ≡ None → any_below with.now.servers (λ server. list_any (waits_for worker) (desk_in (cell_at cells.now (desk_cell (setting_by [] with.now) server))).parts) ≡ false }
{
    for server in 0..with.servers {
        if is_awaited_at(cells, desk_at(with, server), worker) {
            return Some(server);
        }
    }
    None
}
