//! The cells of a gate that is gone are free again, one at a step.
ghost use Rattle.std.specs.Prelude.{ℕ, ◌≡◌, ◌≢◌, [], ◌∷◌, ◌++◌, List};
ghost use Rattle.core_admin.specs.ReuseDue.{CanReuseBlock, CanReuseGate};
ghost use Rattle.core_tree.specs.volap_cell.specs.Cells.{FreeCell, cell_of};
ghost use Rattle.core_tree.specs.volap_cell.specs.Steps.{IsHere, Makes};
ghost use Rattle.core_tree.specs.volap_cell.specs.Values.{actor_of};
ghost use Rattle.core_tree.specs.volap_cell.specs.World.{change, held};
ghost use Rattle.core_tree.specs.volap_cell.specs.declared.kind.Kind.TheVariants.{Reuse};

use core_tree::shard_store::{CellList, Gate};
use core_tree::tree_shape::frame_law;
use core_tree::volap_cell::{Actor, Cell, gate_in, stock_in};
use dim_hierarchy::Hierarchy;
use std::alloc::Global;
use std::mem;

/// Uses the cell again of the block that stands last in the list of a gate that is gone, and to which no query is
/// pinned: it is the stock's. Takes no memory; the allocator is that of the list.
pub fn reuse_block(
    alloc: Global,
    h: &Hierarchy,
    gate_at: u32,
    gate: &mut Cell,
    at: u32,
    block: &mut Cell,
    stock_at: u32,
    stock: &mut Cell,
    actor: &mut Actor,
)
    requires here { IsHere h.now (held gate_at (cell_of gate.old) ∷ held at (cell_of block.old) ∷ held stock_at (cell_of stock.old) ∷ []) (actor_of actor.old) }
    requires due { CanReuseBlock at (cell_of gate.old) (cell_of stock.old) (actor_of actor.old) }
    ensures made { Makes h.now Reuse
        (change gate_at (cell_of gate.old) (cell_of gate.new) ∷ change at (cell_of block.old) (cell_of block.new) ∷ change stock_at (cell_of stock.old) (cell_of stock.new) ∷ [])
        (actor_of actor.old) (actor_of actor.new) }
{
    let _ = h;
    let _ = actor;
    frame_law();
    let gate = gate_in(gate);
    let stock = stock_in(stock);
    shorten(alloc, gate);
    free(block);
    stock.put(at);
}

/// Uses the cell of a gate again that is gone, to which no query is pinned and of whose tree no block is left: it is
/// the stock's, and the gate on the actor's list no more. Takes no memory.
pub fn reuse_gate(
    h: &Hierarchy,
    gate_at: u32,
    gate: &mut Cell,
    stock_at: u32,
    stock: &mut Cell,
    actor: &mut Actor,
)
    requires here { IsHere h.now (held gate_at (cell_of gate.old) ∷ held stock_at (cell_of stock.old) ∷ []) (actor_of actor.old) }
    requires due { CanReuseGate (cell_of gate.old) (cell_of stock.old) (actor_of actor.old) }
    ensures made { Makes h.now Reuse
        (change gate_at (cell_of gate.old) (cell_of gate.new) ∷ change stock_at (cell_of stock.old) (cell_of stock.new) ∷ [])
        (actor_of actor.old) (actor_of actor.new) }
{
    let _ = h;
    frame_law();
    let stock = stock_in(stock);
    free(gate);
    stock.put(gate_at);
    actor.gone_gates.take_off(gate_at);
}

/// Takes the last cell off the list of a gate. The list is empty in between, which takes no memory.
fn shorten(alloc: Global, gate: &mut Gate)
    requires some { gate.old.gone ≢ [] }
    ensures last { (cell : ℕ) × (gate.old.gone ≡ gate.new.gone ++ cell ∷ []) }
    ensures same { gate.new ≡ record gate.old { gone = gate.new.gone } }
{
    let mut cells = mem::replace(&mut gate.gone, CellList::new(alloc)).into_vec();
    cells.take_last();
    gate.gone = CellList::from_vec(cells);
}

/// The cell is free. What it had goes.
fn free(cell: &mut Cell)
    ensures { cell_of cell.new ≡ FreeCell }
{
    mem::replace(cell, Cell::Free);
}
