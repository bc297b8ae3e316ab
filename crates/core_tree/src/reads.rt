//! The step of a query at a gate.
ghost use Rattle.std.specs.Prelude.{◌≡◌, [], ◌∷◌, IfOk, OnOk, OnErr};
ghost use Rattle.core_tree.specs.ReadDue.{CanGateRead, CanBegin, IsAtGate, BeginsFor, OfAllLaw, begun_reading};
ghost use Rattle.volap_cell.specs.Cells.{cell_of};
ghost use Rattle.volap_cell.specs.Steps.{IsHere, Makes};
ghost use Rattle.volap_cell.specs.Values.{actor_of, errand_of, reading_of};
ghost use Rattle.volap_cell.specs.World.{change, held};
ghost use Rattle.volap_cell.specs.declared.kind.Kind.TheVariants.{GateRead};

use dc_node::Todo;
use dim_hierarchy::{Filter, Hierarchy};
use measure_agg::Agg;
use std::alloc::{AllocError, Global};
use volap_cell::link_descent::read_gate;
use volap_cell::shard_store::Gate;
use volap_cell::tree_shape::{frame_law, query_laws, tree_laws};
use volap_cell::{Actor, Cell, Errand, Reading, Task, gate_in, lent};

/// Reads queue and tree of the gate to which the worker of the part leads: what lies inside the filter is
/// counted whole, matching rows of the queue one by one, and where the tree only overlaps the filter its root is
/// noted and the part is pinned to the gate. The filter is compiled here, and that takes memory.
pub fn gate_read(
    alloc: Global,
    h: &Hierarchy,
    map_at: u32,
    map: &mut Cell,
    gate_at: u32,
    gate: &mut Cell,
    actor: &mut Actor,
) -> Result<(), AllocError>
    requires here { IsHere h.now (held map_at (cell_of map.old) ∷ held gate_at (cell_of gate.old) ∷ []) (actor_of actor.old) }
    requires due { CanGateRead (cell_of map.old) gate_at (actor_of actor.old) }
    ensures made { OnOk result (Makes h.now GateRead
        (change map_at (cell_of map.old) (cell_of map.new) ∷ change gate_at (cell_of gate.old) (cell_of gate.new) ∷ [])
        (actor_of actor.old) (actor_of actor.new)) }
    ensures refused { OnErr result ((map.new ≡ map.old) × (gate.new ≡ gate.old) × (actor_of actor.new ≡ actor_of actor.old)) }
{
    let _ = map_at;
    frame_law();
    tree_laws();
    query_laws();
    let errand = lent(&mut actor.errand);
    read_part(alloc, h, gate_at, gate_in(gate), errand)
}

/// Reads the gate for a part that has read nothing. What can fail comes first.
fn read_part(
    alloc: Global,
    h: &Hierarchy,
    gate_at: u32,
    gate: &mut Gate,
    errand: &mut Errand,
) -> Result<(), AllocError>
    requires due { IsAtGate h.now gate.old (errand_of errand.old) }
    ensures made { OnOk result (BeginsFor h.now gate_at gate.old gate.new (errand_of errand.old) (errand_of errand.new)) }
    ensures refused { OnErr result ((gate.new ≡ gate.old) × (errand_of errand.new ≡ errand_of errand.old)) }
{
    let Task::Unread(filter) = &errand.task else {
        unreachable!()
    };
    let reading = Box::new(alloc, begin(alloc, h, gate_at, gate, filter)?)?;
    if reading.pin.is_some() {
        gate.pins += 1;
    }
    errand.task = Task::Read(reading);
    Ok(())
}

/// What a query has when it has read the gate.
fn begin(
    alloc: Global,
    h: &Hierarchy,
    gate_at: u32,
    gate: &Gate,
    filter: &Filter,
) -> Result<Reading, AllocError>
    requires due { CanBegin h.now gate.now filter.now }
    ensures { IfOk result (λ reading. reading_of reading ≡ begun_reading h.now gate_at filter.now gate.now) }
{
    let wanted = h.compile(alloc, filter)?;
    let mut todo = Todo::new(alloc);
    todo.reserve(1)?;
    let mut agg = Agg::EMPTY;
    read_gate(gate, &wanted, &mut agg, &mut todo);
    let pin = if todo.is_empty() { None } else { Some(gate_at) };
    Ok(Reading {
        wanted,
        agg,
        todo,
        pin,
    })
}

/// A query whose filter is All in each dimension takes the aggregates of queue and tree whole: it tests no row, and
/// notes no block.
pub fn all_is_read_at_the_gate()
    ensures { OfAllLaw }
{}
