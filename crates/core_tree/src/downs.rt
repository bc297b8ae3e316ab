//! The step of a row from a directory down to a child.
ghost use Rattle.std.specs.Prelude.{◌≡◌, ◌+◌, ◌<◌, ◌∷◌, ◌++◌, Some, length, map, option_map, is_some, slice_get};
ghost use Rattle.dc_node.specs.Block.{entries_in};
ghost use Rattle.dc_node.specs.declared.entry.Entry.{Entry};
ghost use Rattle.core_tree.specs.Descent.{CanDown, CanStep, block_if, blocks_if, two_if};
ghost use Rattle.volap_cell.specs.link_descent.specs.Pick.{IsPick};
ghost use Rattle.volap_cell.specs.Cells.{cell_of};
ghost use Rattle.volap_cell.specs.NewBlocks.{WentDown};
ghost use Rattle.volap_cell.specs.Steps.{IsHere, Makes};
ghost use Rattle.volap_cell.specs.Values.{actor_of};
ghost use Rattle.volap_cell.specs.World.{change, change_if, held, held_if};
ghost use Rattle.volap_cell.specs.declared.kind.Kind.TheVariants.{Down};

use cell_stock::Purse;
use dc_node::Block;
use dim_hierarchy::{Hierarchy, Row};
use volap_cell::link_descent::{Tail, pass_down};
use volap_cell::tree_shape::{collect_laws, frame_law, insert_laws, tree_laws};
use volap_cell::{Actor, Boxes, Cell, Way, block_in, go_on, row_in};

/// Lends the block of a cell that is held behind a head, where there is one, behind those of the tail.
pub(crate) fn add_behind<'a>(tail: &mut Tail<'a>, cell: &'a Option<Cell>)
    requires room { length tail.old + length (block_if (option_map cell_of cell.now)) < 3 }
    ensures { tail.new ≡ tail.old ++ block_if (option_map cell_of cell.now) }
{
    if let Some(Cell::Block(block)) = cell {
        tail.add(block);
    }
}

/// The child to which the entry at a place of a directory leads.
fn child_at(parent: &Block, place: u8) -> u32
    requires { place < length (entries_in parent.now.body) }
    ensures { (entry : Entry) × (slice_get (entries_in parent.now.body) place ≡ Some entry) × (result ≡ entry.child) }
{
    parent.entries()[usize::from(place)].child
}

/// Takes a row from a directory down to the child to which the entry at a place leads, the one that comes
/// first for it, with the blocks behind the child that are held. Where the child has room the row is counted
/// beneath its entry, and that is all. Tells where the row is carried then.
fn step(
    parent: &mut Block,
    place: u8,
    child: &mut Block,
    first: &Option<Cell>,
    second: &Option<Cell>,
    fresh: &mut Option<Cell>,
    purse: &mut Purse,
    boxes: &mut Boxes,
    h: &Hierarchy,
    row: &Row,
) -> u32
    requires can { CanStep h.now row.now parent.old child.old (blocks_if (option_map cell_of first.now) (option_map cell_of second.now)) purse.old.spares boxes.old }
    requires picked { IsPick h.now row.now.at (map (λ e. e.set) (entries_in parent.old.body)) place }
    ensures { WentDown h.now row.now place (blocks_if (option_map cell_of first.now) (option_map cell_of second.now))
        parent.old parent.new child.old child.new purse.old purse.new
        (option_map cell_of fresh.old) (option_map cell_of fresh.new) boxes.old boxes.new result }
{
    if !child.is_full() {
        let at = child_at(parent, place);
        pass_down(parent, place, h, row);
        return at;
    }
    let mut tail = Tail::none();
    add_behind(&mut tail, first);
    add_behind(&mut tail, second);
    boxes.step_down(parent, place, child, &tail, fresh, purse, h, row)
}

/// Takes the row that the actor carries down to the child that comes first for it, to which the entry at a
/// place leads. The head of the child's group is divided where it is full. Then the next two blocks of the
/// group are lent too, as many as there are, and the cell of the last spare is held for the new block. Takes
/// no memory.
pub fn down(
    h: &Hierarchy,
    parent_at: u32,
    parent: &mut Cell,
    place: u8,
    child_at: u32,
    child: &mut Cell,
    first_at: u32,
    first: &mut Option<Cell>,
    second_at: u32,
    second: &mut Option<Cell>,
    fresh_at: u32,
    fresh: &mut Option<Cell>,
    actor: &mut Actor,
)
    requires here { IsHere h.now (held parent_at (cell_of parent.old) ∷ held child_at (cell_of child.old)
        ∷ two_if first_at (option_map cell_of first.old) second_at (option_map cell_of second.old) ++ held_if fresh_at (option_map cell_of fresh.old)) (actor_of actor.old) }
    requires due { CanDown h.now parent_at (cell_of parent.old) place child_at (cell_of child.old)
        (two_if first_at (option_map cell_of first.old) second_at (option_map cell_of second.old)) (held_if fresh_at (option_map cell_of fresh.old)) (actor_of actor.old) }
    ensures made { Makes h.now Down (change parent_at (cell_of parent.old) (cell_of parent.new) ∷ change child_at (cell_of child.old) (cell_of child.new)
        ∷ (change_if first_at (option_map cell_of first.old) (option_map cell_of first.new) ++ change_if second_at (option_map cell_of second.old) (option_map cell_of second.new))
        ++ change_if fresh_at (option_map cell_of fresh.old) (option_map cell_of fresh.new)) (actor_of actor.old) (actor_of actor.new) }
    ensures behind { (is_some first.new ≡ is_some first.old) × (is_some second.new ≡ is_some second.old) }
    ensures held { is_some fresh.new ≡ is_some fresh.old }
{
    frame_law();
    collect_laws();
    insert_laws();
    tree_laws();
    let going = row_in(&actor.errand);
    let Way::Carried { gate, .. } = going.way else {
        unreachable!()
    };
    let parent = block_in(parent);
    let child = block_in(child);
    let (purse, boxes) = (&mut actor.purse, &mut actor.boxes);
    let block = step(
        parent, place, child, first, second, fresh, purse, boxes, h, &going.row,
    );
    go_on(&mut actor.errand, Way::Carried { gate, block });
}
