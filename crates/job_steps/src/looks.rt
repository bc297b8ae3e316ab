//! What is seen at a gate that the administrator holds.
ghost use Rattle.std.specs.Prelude.{◌≡◌, ◌==◌};
ghost use mathlib.Core.Option.{some};
ghost use Rattle.seat_steps.specs.core_due.specs.Reuses.{is_released};
ghost use Rattle.seat_steps.specs.core_due.specs.Works.{has_more};
ghost use Rattle.job_steps.specs.Reuses.{last_gone};
ghost use Rattle.seat_steps.specs.Floors.{IsSeated};
ghost use Rattle.seat_steps.specs.Looks.{Sees};
ghost use Rattle.turn_table.specs.Numbered.{value_of};
ghost use Rattle.seat_steps.specs.volap_cell.specs.Cells.{active_in, cell_of, phase_of};
ghost use Rattle.seat_steps.specs.volap_cell.specs.declared.cell.Cell.{Cell};

use seat_steps::of_shard_store::Phase;
use seat_steps::of_volap_cell::Cell;
use seat_steps::{Floor, Player};

/// Whether no insert is in the tree of the gate in a cell.
fn is_drained_in(cell: &Cell) -> bool
    ensures { result ≡ (active_in (cell_of cell.now) == 0) }
{
    match cell {
        Cell::Gate(gate) => gate.active == 0,
        _ => true,
    }
}

/// Whether the queue, as it was when the shard of the gate in a cell was frozen, has a row more.
fn has_more_in(cell: &Cell, queued: u64) -> bool
    ensures { result ≡ has_more queued (phase_of (cell_of cell.now)) }
{
    match cell {
        Cell::Gate(gate) => match gate.phase {
            Phase::Frozen { upto } => queued < upto,
            Phase::Open | Phase::Gone => false,
        },
        _ => false,
    }
}

/// Whether the gate in a cell is gone, and no query is pinned to it.
fn is_released_in(cell: &Cell) -> bool
    ensures { result ≡ is_released (cell_of cell.now) }
{
    match cell {
        Cell::Gate(gate) => match gate.phase {
            Phase::Gone => gate.pins == 0,
            Phase::Open | Phase::Frozen { .. } => false,
        },
        _ => false,
    }
}

/// The cell of the block that stands last in the list of the gate in a cell.
fn last_gone_in(cell: &Cell) -> Option<u32>
    ensures { result ≡ last_gone (cell_of cell.now) }
{
    match cell {
        Cell::Gate(gate) => match gate.gone.as_slice().last() {
            Some(block) => Some(*block),
            None => None,
        },
        _ => None,
    }
}

/// Whether no insert is in the tree of the gate in a held cell.
pub(crate) fn is_drained_at(floor: &Floor, player: &mut Player, gate: u32) -> bool
    requires seated { IsSeated floor.now player.old }
    requires held { (c : Cell) × (value_of player.old.seat.view.held gate ≡ some c) }
    ensures seen { Sees player.old gate (λ cell. result ≡ (active_in cell == 0)) }
    ensures same { player.new ≡ player.old }
{
    is_drained_in(player.seat.see(&floor.table, gate))
}

/// Whether the queue, as it was when the shard of the gate in a held cell was frozen, has a row more.
pub(crate) fn has_more_at(floor: &Floor, player: &mut Player, gate: u32, queued: u64) -> bool
    requires seated { IsSeated floor.now player.old }
    requires held { (c : Cell) × (value_of player.old.seat.view.held gate ≡ some c) }
    ensures seen { Sees player.old gate (λ cell. result ≡ has_more queued (phase_of cell)) }
    ensures same { player.new ≡ player.old }
{
    has_more_in(player.seat.see(&floor.table, gate), queued)
}

/// Whether the gate in a held cell is gone, and no query is pinned to it.
pub(crate) fn is_released_at(floor: &Floor, player: &mut Player, gate: u32) -> bool
    requires seated { IsSeated floor.now player.old }
    requires held { (c : Cell) × (value_of player.old.seat.view.held gate ≡ some c) }
    ensures seen { Sees player.old gate (λ cell. result ≡ is_released cell) }
    ensures same { player.new ≡ player.old }
{
    is_released_in(player.seat.see(&floor.table, gate))
}

/// The cell of the block that stands last in the list of the gate in a held cell.
pub(crate) fn last_gone_at(floor: &Floor, player: &mut Player, gate: u32) -> Option<u32>
    requires seated { IsSeated floor.now player.old }
    requires held { (c : Cell) × (value_of player.old.seat.view.held gate ≡ some c) }
    ensures seen { Sees player.old gate (λ cell. result ≡ last_gone cell) }
    ensures same { player.new ≡ player.old }
{
    last_gone_in(player.seat.see(&floor.table, gate))
}
