//! Cells of gates that are gone, which are used again at the seat that has all actors. Nobody is at a part there, so no query is pinned
//! to such a gate, and each of them can be.
ghost use Rattle.std.specs.Prelude.{◌≡◌, [], ◌∷◌, None, Some, IfNone, IfSome};
ghost use mathlib.Core.Option.{some};
ghost use Rattle.call_steps.specs.core_steps.specs.Places.{numbers};
ghost use Rattle.call_steps.specs.core_steps.specs.Reuses.{reuse_places};
ghost use Rattle.core_pages.specs.volap_cell.specs.Cells.{cell_of};
ghost use Rattle.core_pages.specs.volap_cell.specs.Values.{actor_of};
ghost use Rattle.core_pages.specs.volap_cell.specs.declared.cell.Cell.{Cell};
ghost use Rattle.job_steps.specs.Reuses.{IsBetween, IsReleasedAt, IsReuseDue, last_gone};
ghost use Rattle.list_words.specs.Counts.{Among};
ghost use Rattle.turn_table.specs.Numbered.{numbers_of, value_of};
ghost use Rattle.whole_steps.specs.Reuses.{HasReusedCell, HasReusedSole};
ghost use Rattle.whole_steps.specs.Seats.{HasEveryone};
ghost use Rattle.whole_steps.specs.Sole.{IsSole, StandsSole, player};

use crate::turns::{give_turns, take_turn};
use call_steps::of_core_steps::{ReuseStep, stock_place};
use call_steps::of_seat_steps::Floor;
use call_steps::of_volap_turns::{Volap, step};
use core_pages::volap_cell::{Actor, Cell};
use std::alloc::Global;
use std::sync::Wait;
use turn_table::{Seat, TurnTable};

/// The ranks that are told for a gate, a block and the stock.
const GATE: u8 = 2;

const BLOCK: u8 = 3;

const STOCK: u8 = 7;

/// A gate of the actor's list of those that are gone.
fn some_gone(actor: &Actor) -> Option<u32>
    ensures some { IfSome result (λ gate. Among gate (actor_of actor.now).gone_gates) }
    ensures none { IfNone result ((actor_of actor.now).gone_gates ≡ []) }
{
    match actor.gone_gates.as_slice() {
        [gate, ..] => Some(*gate),
        [] => None,
    }
}

/// The cell of the block that stands last in the list of the gate in a cell.
fn last_gone(cell: &Cell) -> Option<u32>
    ensures { result ≡ last_gone (cell_of cell.now) }
{
    match cell {
        Cell::Gate(gate) => match gate.gone.as_slice().last() {
            Some(block) => Some(*block),
            None => None,
        },
        _ => None,
    }
}

/// The same in the cell of this number, which is held.
fn last_gone_at(table: &TurnTable<Volap>, seat: &mut Seat<Volap>, gate: u32) -> Option<u32>
    requires everyone { HasEveryone table.now seat.old }
    requires held { (c : Cell) × (value_of seat.old.view.held gate ≡ some c) }
    ensures last { (c : Cell) → value_of seat.old.view.held gate ≡ some c → result ≡ last_gone (cell_of c) }
    ensures same { seat.new ≡ seat.old }
{
    last_gone(seat.see(table, gate))
}

/// The actor makes the step over the cells that the seat holds, and all are given back.
fn make_reuse(
    alloc: Global,
    floor: &Floor,
    seat: &mut Seat<Volap>,
    number: u32,
    actor: &mut Actor,
    what: ReuseStep,
)
    requires sole { IsSole floor.now (player number actor.old seat.old) }
    requires between { IsBetween (player number actor.old seat.old) }
    requires held { numbers_of seat.old.ranks ≡ numbers (reuse_places what) }
    requires due { IsReuseDue floor.now (player number actor.old seat.old) what }
    ensures reused { HasReusedCell floor.now (player number actor.old seat.old) (player number actor.new seat.new) }
{
    let _ = step(
        alloc,
        &floor.hierarchy,
        &floor.table,
        seat,
        number,
        actor,
        what,
    );
    give_turns(&floor.table, seat);
}

/// The cell of the block is used again that stands last in the list of the held gate.
fn reuse_block<R: Wait>(
    rt: &R,
    alloc: Global,
    floor: &Floor,
    seat: &mut Seat<Volap>,
    number: u32,
    actor: &mut Actor,
    gate: u32,
    block: u32,
)
    requires sole { IsSole floor.now (player number actor.old seat.old) }
    requires between { IsBetween (player number actor.old seat.old) }
    requires held { seat.old.ranks ≡ (gate, Some 2) ∷ [] }
    requires released { IsReleasedAt (player number actor.old seat.old) gate (Some block) }
    ensures reused { HasReusedCell floor.now (player number actor.old seat.old) (player number actor.new seat.new) }
{
    take_turn(rt, &floor.table, seat, block, BLOCK);
    take_turn(rt, &floor.table, seat, stock_place(), STOCK);
    make_reuse(
        alloc,
        floor,
        seat,
        number,
        actor,
        ReuseStep::Block { gate, block },
    );
}

/// The own cell of the held gate is used again, in whose list no block is left.
fn reuse_gate<R: Wait>(
    rt: &R,
    alloc: Global,
    floor: &Floor,
    seat: &mut Seat<Volap>,
    number: u32,
    actor: &mut Actor,
    gate: u32,
)
    requires sole { IsSole floor.now (player number actor.old seat.old) }
    requires between { IsBetween (player number actor.old seat.old) }
    requires held { seat.old.ranks ≡ (gate, Some 2) ∷ [] }
    requires released { IsReleasedAt (player number actor.old seat.old) gate None }
    ensures reused { HasReusedCell floor.now (player number actor.old seat.old) (player number actor.new seat.new) }
{
    take_turn(rt, &floor.table, seat, stock_place(), STOCK);
    make_reuse(alloc, floor, seat, number, actor, ReuseStep::Gate { gate });
}

/// One cell of a gate of the actor's list is used again.
fn reuse_cell<R: Wait>(
    rt: &R,
    alloc: Global,
    floor: &Floor,
    seat: &mut Seat<Volap>,
    number: u32,
    actor: &mut Actor,
    gate: u32,
)
    requires stands { StandsSole floor.now (player number actor.old seat.old) }
    requires between { IsBetween (player number actor.old seat.old) }
    requires listed { Among gate (actor_of actor.old).gone_gates }
    ensures reused { HasReusedCell floor.now (player number actor.old seat.old) (player number actor.new seat.new) }
{
    take_turn(rt, &floor.table, seat, gate, GATE);
    match last_gone_at(&floor.table, seat, gate) {
        Some(block) => reuse_block(rt, alloc, floor, seat, number, actor, gate, block),
        None => reuse_gate(rt, alloc, floor, seat, number, actor, gate),
    }
}

/// The administrator, who has nothing to do, uses all cells of gates that are gone again, one after the other. Takes no memory.
pub fn reuse_all<R: Wait>(
    rt: &R,
    alloc: Global,
    floor: &Floor,
    seat: &mut Seat<Volap>,
    number: u32,
    actor: &mut Actor,
)
    requires stands { StandsSole floor.now (player number actor.old seat.old) }
    requires between { IsBetween (player number actor.old seat.old) }
    ensures reused { HasReusedSole floor.now (player number actor.old seat.old) (player number actor.new seat.new) }
    ensures none { (actor_of actor.new).gone_gates ≡ [] }
{
    for _ in rt.forever() {
        let Some(gate) = some_gone(actor) else {
            return;
        };
        reuse_cell(rt, alloc, floor, seat, number, actor, gate);
    }
    unreachable!()
}
