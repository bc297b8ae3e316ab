//! The step of a row into its leaf.
ghost use Rattle.std.specs.Prelude.{[], ◌∷◌};
ghost use Rattle.core_tree.specs.Due.{CanPutInLeaf};
ghost use Rattle.volap_cell.specs.Cells.{cell_of};
ghost use Rattle.volap_cell.specs.Steps.{IsHere, Makes};
ghost use Rattle.volap_cell.specs.Values.{actor_of};
ghost use Rattle.volap_cell.specs.World.{change, held};
ghost use Rattle.volap_cell.specs.declared.kind.Kind.TheVariants.{PutInLeaf};

use dim_hierarchy::Hierarchy;
use volap_cell::tree_shape::{collect_laws, frame_law, insert_laws};
use volap_cell::{Actor, Cell, Way, block_in, go_on, row_in};

/// Puts the row that the actor carries behind the rows of its leaf. It is carried no more. Takes no memory.
pub fn put_in_leaf(h: &Hierarchy, at: u32, cell: &mut Cell, actor: &mut Actor)
    requires here { IsHere h.now (held at (cell_of cell.old) ∷ []) (actor_of actor.old) }
    requires due { CanPutInLeaf at (cell_of cell.old) (actor_of actor.old) }
    ensures made { Makes h.now PutInLeaf (change at (cell_of cell.old) (cell_of cell.new) ∷ []) (actor_of actor.old) (actor_of actor.new) }
{
    let _ = h;
    frame_law();
    collect_laws();
    insert_laws();
    let going = row_in(&actor.errand);
    let Way::Carried { gate, .. } = going.way else {
        unreachable!()
    };
    let leaf = block_in(cell);
    actor.boxes.put_leaf(leaf, &going.row);
    go_on(&mut actor.errand, Way::Put { gate });
}
