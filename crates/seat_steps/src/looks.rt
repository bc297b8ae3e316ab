//! What is seen in a cell that an actor holds, where it stands.
ghost use Rattle.std.specs.Prelude.{◌≡◌};
ghost use mathlib.Core.Option.{some};
ghost use Rattle.core_due.specs.Due.{may_enter};
ghost use Rattle.dc_node.specs.Block.{is_leaf};
ghost use Rattle.seat_steps.specs.Floors.{IsSeated};
ghost use Rattle.seat_steps.specs.Looks.{Sees, lead_of};
ghost use Rattle.turn_table.specs.Numbered.{value_of};
ghost use Rattle.core_due.specs.volap_cell.specs.Cells.{block_in, cell_of, where_in};
ghost use Rattle.core_due.specs.volap_cell.specs.Values.{actor_of};
ghost use Rattle.core_due.specs.volap_cell.specs.declared.cell.Cell.{Cell};

use crate::floor::{Floor, Player};
use core_due::lets_in;
use core_due::volap_cell::{Actor, Cell};
use mapping_table::Where;

/// Where the table of a worker has a shard.
#[derive(Clone, Copy)]
pub enum Lead {
    Gate(u32),
    /// At its children.
    Split,
    /// With another worker.
    Moved,
    Nowhere,
}

/// Where the table in a cell has the shard.
fn lead_in(cell: &Cell, shard: u32) -> Lead
    ensures { result ≡ lead_of (where_in (cell_of cell.now) shard) }
{
    match cell {
        Cell::Map { map, .. } => match map.look(shard) {
            Some(Where::Gate(gate)) => Lead::Gate(*gate),
            Some(Where::Split { .. }) => Lead::Split,
            Some(Where::Moved(_)) => Lead::Moved,
            None => Lead::Nowhere,
        },
        _ => Lead::Nowhere,
    }
}

/// Whether rows come in at the gate in a cell, and the actor has spares for each level of its tree.
fn may_enter_in(cell: &Cell, actor: &Actor) -> bool
    ensures { result ≡ may_enter (cell_of cell.now) (actor_of actor.now) }
{
    match cell {
        Cell::Gate(gate) => lets_in(gate, actor),
        _ => false,
    }
}

/// Whether the block in a cell is a leaf; what isn't a block counts as one.
fn is_leaf_in(cell: &Cell) -> bool
    ensures { result ≡ is_leaf (block_in (cell_of cell.now)).body }
{
    match cell {
        Cell::Block(block) => block.is_leaf(),
        _ => true,
    }
}

/// Where the table in a held cell has the shard.
pub fn lead_at(floor: &Floor, player: &mut Player, map: u32, shard: u32) -> Lead
    requires seated { IsSeated floor.now player.old }
    requires held { (c : Cell) × (value_of player.old.seat.view.held map ≡ some c) }
    ensures seen { Sees player.old map (λ cell. result ≡ lead_of (where_in cell shard)) }
    ensures same { player.new ≡ player.old }
{
    lead_in(player.seat.see(&floor.table, map), shard)
}

/// Whether rows come in at the gate in a held cell, and the actor has spares for each level of its tree.
pub fn may_enter_at(floor: &Floor, player: &mut Player, gate: u32) -> bool
    requires seated { IsSeated floor.now player.old }
    requires held { (c : Cell) × (value_of player.old.seat.view.held gate ≡ some c) }
    ensures seen { Sees player.old gate (λ cell. result ≡ may_enter cell (actor_of player.old.actor)) }
    ensures same { player.new ≡ player.old }
{
    may_enter_in(player.seat.see(&floor.table, gate), &player.actor)
}

/// Whether the block in a held cell is a leaf; what isn't a block counts as one.
pub fn is_leaf_at(floor: &Floor, player: &mut Player, block: u32) -> bool
    requires seated { IsSeated floor.now player.old }
    requires held { (c : Cell) × (value_of player.old.seat.view.held block ≡ some c) }
    ensures seen { Sees player.old block (λ cell. result ≡ is_leaf (block_in cell).body) }
    ensures same { player.new ≡ player.old }
{
    is_leaf_in(player.seat.see(&floor.table, block))
}
