//! The step of a row into a queue.
ghost use Rattle.std.specs.Prelude.{◌≡◌, [], ◌∷◌, OnErr, OnOk};
ghost use Rattle.core_tree.specs.DueAtGates.{CanEnterQueue};
ghost use Rattle.volap_cell.specs.Cells.{cell_of};
ghost use Rattle.volap_cell.specs.Steps.{IsHere, Makes};
ghost use Rattle.volap_cell.specs.Values.{actor_of};
ghost use Rattle.volap_cell.specs.World.{change, held};
ghost use Rattle.volap_cell.specs.declared.kind.Kind.TheVariants.{EnterQueue};

use dim_hierarchy::Hierarchy;
use std::alloc::{AllocError, Global};
use volap_cell::{Actor, Cell, Way, gate_in, go_on, row_in};

/// Puts the actor's row behind the others in the queue of its shard's gate, to which the worker's table
/// leads. The row has its place then, and its part's path. Where memory is wanting, it changes nothing.
pub fn enter_queue(
    alloc: Global,
    h: &Hierarchy,
    map_at: u32,
    map: &mut Cell,
    gate_at: u32,
    gate: &mut Cell,
    actor: &mut Actor,
) -> Result<(), AllocError>
    requires here { IsHere h.now (held map_at (cell_of map.old) ∷ held gate_at (cell_of gate.old) ∷ []) (actor_of actor.old) }
    requires due { CanEnterQueue map_at (cell_of map.old) gate_at (cell_of gate.old) (actor_of actor.old) }
    ensures made { OnOk result (Makes h.now EnterQueue
        (change map_at (cell_of map.old) (cell_of map.new) ∷ change gate_at (cell_of gate.old) (cell_of gate.new) ∷ [])
        (actor_of actor.old) (actor_of actor.new)) }
    ensures refused { OnErr result ((map.new ≡ map.old) × (gate.new ≡ gate.old) × (actor_of actor.new ≡ actor_of actor.old)) }
{
    let _ = alloc;
    let _ = map;
    let going = row_in(&actor.errand);
    gate_in(gate).enqueue(h, &going.row)?;
    go_on(&mut actor.errand, Way::Placed);
    Ok(())
}
