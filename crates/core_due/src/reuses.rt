//! Which cell of the gates that are gone is used again next.
ghost use Rattle.std.specs.Prelude.{◌≡◌, ◌-◌, None, length, slice_get};
ghost use Rattle.core_due.specs.Look.{cell_at, world_by};
ghost use Rattle.core_due.specs.Reuses.{earlier, earlier_released, first_by, is_before, is_released, reuse_at, reuse_due, shard_in};
ghost use Rattle.core_steps.specs.volap_cell.specs.Cells.{gone_in};
ghost use Rattle.core_steps.specs.volap_cell.specs.Values.{actor_of};

use crate::sights::cell_at;
use core_steps::ReuseStep;
use core_steps::shard_store::Phase;
use core_steps::volap_cell::{Actor, Cell, Role};

/// Whether the gate in a cell is gone, and no query is pinned to it.
fn is_released(cells: &[Option<Cell>], at: u32) -> bool
    ensures { result ≡ is_released (cell_at cells.now at) }
{
    match cell_at(cells, at) {
        Some(Cell::Gate(gate)) => match gate.phase {
            Phase::Gone => gate.pins == 0,
            Phase::Open | Phase::Frozen { .. } => false,
        },
        _ => false,
    }
}

/// The shard of the gate in a cell.
fn shard_in(cells: &[Option<Cell>], at: u32) -> u32
    ensures { result ≡ shard_in (cell_at cells.now at) }
{
    match cell_at(cells, at) {
        Some(Cell::Gate(gate)) => gate.shard,
        _ => 0,
    }
}

/// Whether of two gates the one in this cell comes first.
fn is_before(cells: &[Option<Cell>], x: u32, y: u32) -> bool
    ensures { result ≡ is_before (world_by cells.now) x y }
{
    let (one, other) = (shard_in(cells, x), shard_in(cells, y));
    one < other || (one == other && x < y)
}

/// The first of a gate that is known, if one is, and of another one.
fn earlier(cells: &[Option<Cell>], best: Option<u32>, at: u32) -> Option<u32>
    ensures { result ≡ earlier (world_by cells.now) best at }
{
    let Some(known) = best else {
        return Some(at);
    };
    if is_before(cells, at, known) {
        Some(at)
    } else {
        Some(known)
    }
}

/// The first of a gate that is known, if one is, and of another one where that one is released.
fn earlier_released(cells: &[Option<Cell>], best: Option<u32>, at: u32) -> Option<u32>
    ensures { result ≡ earlier_released (world_by cells.now) best at }
{
    if is_released(cells, at) {
        earlier(cells, best, at)
    } else {
        best
    }
}

/// The gate whose cells are used again next: of those that are gone and to which no query is pinned that of the lowest
/// shard, and of one shard that in the lowest cell.
fn released(cells: &[Option<Cell>], gates: &[u32]) -> Option<u32>
    ensures { result ≡ first_by (world_by cells.now) None gates.now }
{
    let mut best = None;
    for at in gates {
        best = earlier_released(cells, best, *at);
    }
    best
}

/// The step by which a cell of this gate is used again.
fn reuse_at(cells: &[Option<Cell>], gate: u32) -> ReuseStep
    ensures { result ≡ reuse_at (world_by cells.now) gate }
{
    match last_gone(cells, gate) {
        Some(block) => ReuseStep::Block { gate, block },
        None => ReuseStep::Gate { gate },
    }
}

/// The cell that stands last in the list of the gate in a cell.
fn last_gone(cells: &[Option<Cell>], gate: u32) -> Option<u32>
    ensures { result ≡ slice_get (gone_in (cell_at cells.now gate)) (length (gone_in (cell_at cells.now gate)) - 1) }
{
    match cell_at(cells, gate) {
        Some(Cell::Gate(gate)) => match gate.gone.as_slice().last() {
            Some(block) => Some(*block),
            None => None,
        },
        _ => None,
    }
}

/// What is due for an actor without a command, before it begins the next one: the administrator uses a cell of a gate
/// again that is gone, if it can. Takes no memory.
pub fn reuse_due(cells: &[Option<Cell>], actor: &Actor) -> Option<ReuseStep>
    ensures { result ≡ reuse_due (world_by cells.now) (actor_of actor.now) }
{
    match actor.role {
        Role::Admin => match released(cells, actor.gone_gates.as_slice()) {
            Some(gate) => Some(reuse_at(cells, gate)),
            None => None,
        },
        _ => None,
    }
}
