//! What a worker's table and a gate say is looked up.
ghost use Rattle.std.specs.Prelude.{◌≡◌, [], ◌∷◌};
ghost use Rattle.core_shard.specs.Due.{CanLookUp};
ghost use Rattle.volap_cell.specs.Cells.{cell_of};
ghost use Rattle.volap_cell.specs.Steps.{IsHere, Makes};
ghost use Rattle.volap_cell.specs.Values.{actor_of};
ghost use Rattle.volap_cell.specs.World.{change, held};
ghost use Rattle.volap_cell.specs.declared.kind.Kind.TheVariants.{LookUp};

use dim_hierarchy::Hierarchy;
use volap_cell::{Actor, Cell, Way, gate_seen, go_on, row_in};

/// Notes the height of the tree of the gate to which the table leads the actor's row, so that the purse
/// can be filled by it. The cells stay as they are. Takes no memory.
pub fn look_up(
    h: &Hierarchy,
    map_at: u32,
    map: &mut Cell,
    gate_at: u32,
    gate: &mut Cell,
    actor: &mut Actor,
)
    requires here { IsHere h.now (held map_at (cell_of map.old) ∷ held gate_at (cell_of gate.old) ∷ []) (actor_of actor.old) }
    requires due { CanLookUp (cell_of map.old) gate_at (cell_of gate.old) (actor_of actor.old) }
    ensures made { Makes h.now LookUp
        (change map_at (cell_of map.old) (cell_of map.new) ∷ change gate_at (cell_of gate.old) (cell_of gate.new) ∷ [])
        (actor_of actor.old) (actor_of actor.new) }
{
    let _ = h;
    let _ = map;
    let height = gate_seen(gate).height;
    let going = row_in(&actor.errand);
    let Way::Before { filled, .. } = going.way else {
        unreachable!()
    };
    let known = Way::Before {
        height: Some(height),
        filled,
    };
    go_on(&mut actor.errand, known);
}
