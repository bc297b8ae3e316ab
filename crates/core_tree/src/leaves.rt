//! The step at which a gate counts an insert no more.
ghost use Rattle.std.specs.Prelude.{[], ◌∷◌};
ghost use Rattle.core_tree.specs.DueAtGates.{CanLeaveTree};
ghost use Rattle.volap_cell.specs.Cells.{cell_of};
ghost use Rattle.volap_cell.specs.Steps.{IsHere, Makes};
ghost use Rattle.volap_cell.specs.Values.{actor_of};
ghost use Rattle.volap_cell.specs.World.{change, held};
ghost use Rattle.volap_cell.specs.declared.kind.Kind.TheVariants.{LeaveTree};

use dim_hierarchy::Hierarchy;
use volap_cell::{Actor, Cell, Way, gate_in, go_on};

/// Counts the actor's insert, whose row is in its leaf, at its gate no more. Takes no memory.
pub fn leave_tree(h: &Hierarchy, gate_at: u32, gate: &mut Cell, actor: &mut Actor)
    requires here { IsHere h.now (held gate_at (cell_of gate.old) ∷ []) (actor_of actor.old) }
    requires due { CanLeaveTree gate_at (actor_of actor.old) }
    ensures made { Makes h.now LeaveTree (change gate_at (cell_of gate.old) (cell_of gate.new) ∷ []) (actor_of actor.old) (actor_of actor.new) }
{
    let _ = h;
    gate_in(gate).leave();
    go_on(&mut actor.errand, Way::Placed);
}
