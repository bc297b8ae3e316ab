//! The step of a row in at a gate.
ghost use Rattle.std.specs.Prelude.{◌≡◌, ◌∷◌, ◌++◌, option_map, is_some};
ghost use Rattle.core_tree.specs.Descent.{CanEnterTree, CanComeIn, CameIn, blocks_if, two_if};
ghost use Rattle.volap_cell.specs.Cells.{cell_of};
ghost use Rattle.volap_cell.specs.Steps.{IsHere, Makes};
ghost use Rattle.volap_cell.specs.Values.{actor_of};
ghost use Rattle.volap_cell.specs.World.{change, change_if, held};
ghost use Rattle.volap_cell.specs.declared.kind.Kind.TheVariants.{EnterTree};

use crate::downs::add_behind;
use cell_stock::Purse;
use dc_node::Block;
use dim_hierarchy::{Hierarchy, Row};
use volap_cell::link_descent::{Tail, pass_root};
use volap_cell::shard_store::Gate;
use volap_cell::tree_shape::{collect_laws, frame_law, insert_laws, tree_laws};
use volap_cell::{Actor, Boxes, Cell, Way, block_in, gate_in, go_on, row_in};

/// Takes a row in at an open gate, with the blocks behind the root that are held, and counts the insert
/// there. Where the root has room the row is counted at the gate, and that is all. Tells where the row is
/// carried then.
fn come_in(
    gate: &mut Gate,
    root: &mut Block,
    first: &Option<Cell>,
    second: &Option<Cell>,
    fresh: &mut Option<Cell>,
    top: &mut Option<Cell>,
    purse: &mut Purse,
    boxes: &mut Boxes,
    h: &Hierarchy,
    row: &Row,
) -> u32
    requires { CanComeIn h.now row.now gate.old root.old (blocks_if (option_map cell_of first.now) (option_map cell_of second.now)) purse.old.spares boxes.old }
    ensures { CameIn h.now row.now (blocks_if (option_map cell_of first.now) (option_map cell_of second.now)) gate.old gate.new root.old root.new
        purse.old purse.new (option_map cell_of fresh.old) (option_map cell_of top.old) (option_map cell_of fresh.new) (option_map cell_of top.new)
        boxes.old boxes.new result }
{
    let active = gate.active + 1;
    if !root.is_full() {
        let at = gate.root;
        pass_root(gate, h, row);
        gate.active = active;
        return at;
    }
    let mut tail = Tail::none();
    add_behind(&mut tail, first);
    add_behind(&mut tail, second);
    let at = boxes.enter_root(gate, root, &tail, fresh, top, purse, h, row);
    gate.active = active;
    at
}

/// Takes the actor's row in at the open gate of its part's shard, and counts the insert there. The root's
/// head is divided where it is full. Then the next two blocks of its group are lent too, as many as there
/// are, and the cells of the last two spares are held: the first one for the new block, the second one for
/// a new root. Takes no memory.
pub fn enter_tree(
    h: &Hierarchy,
    map_at: u32,
    map: &mut Cell,
    gate_at: u32,
    gate: &mut Cell,
    root_at: u32,
    root: &mut Cell,
    first_at: u32,
    first: &mut Option<Cell>,
    second_at: u32,
    second: &mut Option<Cell>,
    fresh_at: u32,
    fresh: &mut Option<Cell>,
    top_at: u32,
    top: &mut Option<Cell>,
    actor: &mut Actor,
)
    requires here { IsHere h.now (held map_at (cell_of map.old) ∷ held gate_at (cell_of gate.old) ∷ held root_at (cell_of root.old)
        ∷ two_if first_at (option_map cell_of first.old) second_at (option_map cell_of second.old)
        ++ two_if fresh_at (option_map cell_of fresh.old) top_at (option_map cell_of top.old)) (actor_of actor.old) }
    requires due { CanEnterTree h.now map_at (cell_of map.old) gate_at (cell_of gate.old) root_at (cell_of root.old)
        (two_if first_at (option_map cell_of first.old) second_at (option_map cell_of second.old))
        (two_if fresh_at (option_map cell_of fresh.old) top_at (option_map cell_of top.old)) (actor_of actor.old) }
    ensures made { Makes h.now EnterTree (change map_at (cell_of map.old) (cell_of map.new) ∷ change gate_at (cell_of gate.old) (cell_of gate.new)
        ∷ change root_at (cell_of root.old) (cell_of root.new)
        ∷ (change_if first_at (option_map cell_of first.old) (option_map cell_of first.new) ++ change_if second_at (option_map cell_of second.old) (option_map cell_of second.new))
        ++ (change_if fresh_at (option_map cell_of fresh.old) (option_map cell_of fresh.new) ++ change_if top_at (option_map cell_of top.old) (option_map cell_of top.new)))
        (actor_of actor.old) (actor_of actor.new) }
    ensures behind { (is_some first.new ≡ is_some first.old) × (is_some second.new ≡ is_some second.old) }
    ensures held { (is_some fresh.new ≡ is_some fresh.old) × (is_some top.new ≡ is_some top.old) }
{
    let _ = map;
    frame_law();
    collect_laws();
    insert_laws();
    tree_laws();
    let going = row_in(&actor.errand);
    let gate = gate_in(gate);
    let root = block_in(root);
    let (purse, boxes) = (&mut actor.purse, &mut actor.boxes);
    let block = come_in(
        gate, root, first, second, fresh, top, purse, boxes, h, &going.row,
    );
    go_on(
        &mut actor.errand,
        Way::Carried {
            gate: gate_at,
            block,
        },
    );
}
