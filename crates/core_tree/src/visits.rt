//! The step of a query at a block.
ghost use Rattle.std.specs.Prelude.{◌≡◌, ◌≤◌, [], ◌∷◌, IsOk, OnOk, OnErr};
ghost use Rattle.core_tree.specs.ReadDue.{CanBlockVisit, CanVisit, Visits, IsAtBlock, VisitsFor, room_in_task, room_to_note};
ghost use Rattle.volap_cell.specs.link_descent.specs.Visit.{most_noted};
ghost use Rattle.volap_cell.specs.Cells.{cell_of};
ghost use Rattle.volap_cell.specs.Steps.{IsHere, Makes};
ghost use Rattle.volap_cell.specs.Values.{actor_of, errand_of, reading_of};
ghost use Rattle.volap_cell.specs.World.{change, held};
ghost use Rattle.volap_cell.specs.declared.kind.Kind.TheVariants.{BlockVisit};

use dc_node::Block;
use dim_hierarchy::Hierarchy;
use std::alloc::AllocError;
use volap_cell::link_descent::{MOST_NOTED, visit};
use volap_cell::tree_shape::{query_laws, tree_laws};
use volap_cell::{Actor, Cell, Errand, Reading, Task, block_seen, lent};

/// Visits the block that the actor's query noted last: counts what it must there, and notes what it has
/// still to visit. Takes memory only where there is not room to note as many blocks as a visit may.
pub fn block_visit(
    h: &Hierarchy,
    at: u32,
    cell: &mut Cell,
    actor: &mut Actor,
) -> Result<(), AllocError>
    requires here { IsHere h.now (held at (cell_of cell.old) ∷ []) (actor_of actor.old) }
    requires due { CanBlockVisit at (actor_of actor.old) }
    ensures made { OnOk result (Makes h.now BlockVisit (change at (cell_of cell.old) (cell_of cell.new) ∷ []) (actor_of actor.old) (actor_of actor.new)) }
    ensures refused { OnErr result ((cell.new ≡ cell.old) × (actor_of actor.new ≡ actor_of actor.old)) }
    ensures enough { most_noted ≤ room_to_note actor.old → IsOk result }
{
    let _ = h;
    tree_laws();
    query_laws();
    let errand = lent(&mut actor.errand);
    visit_part(block_seen(cell), errand)
}

/// Visits the block, which the part noted last. A function of its own, since a function is not told what became of a
/// value that it lent two enums deep.
fn visit_part(block: &Block, errand: &mut Errand) -> Result<(), AllocError>
    requires due { IsAtBlock block.now (errand_of errand.old) }
    ensures made { OnOk result (VisitsFor block.now (errand_of errand.old) (errand_of errand.new)) }
    ensures refused { OnErr result (errand_of errand.new ≡ errand_of errand.old) }
    ensures enough { most_noted ≤ room_in_task errand.old.task → IsOk result }
{
    let Task::Read(reading) = &mut errand.task else {
        unreachable!()
    };
    visit_last(block, reading)
}

/// Visits the block, which was noted last. Room for what it notes comes first.
fn visit_last(block: &Block, reading: &mut Reading) -> Result<(), AllocError>
    requires due { CanVisit block.now (reading_of reading.old) }
    ensures made { OnOk result (Visits block.now (reading_of reading.old) (reading_of reading.new)) }
    ensures refused { OnErr result (reading_of reading.new ≡ reading_of reading.old) }
    ensures enough { most_noted ≤ reading.old.todo.room → IsOk result }
{
    reading.todo.reserve(MOST_NOTED)?;
    let item = reading.todo.pop().unwrap();
    visit(
        block,
        item.stamp,
        &reading.wanted,
        &mut reading.agg,
        &mut reading.todo,
    );
    Ok(())
}
