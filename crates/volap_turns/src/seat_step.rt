//! One step of the core at a seat, whatever its kind.
ghost use Rattle.std.specs.Prelude.{◌≡◌, ◌<◌, ◌≤◌, false, length, IsOk, OnErr, OnOk};
ghost use Rattle.core_steps.specs.Places.{values};
ghost use Rattle.turn_table.specs.Numbered.{Extends};
ghost use Rattle.core_told.specs.volap_cell.specs.Values.{actor_of};
ghost use Rattle.volap_turns.specs.Rows.{AreAt, IsRow, cells_for};
ghost use Rattle.volap_turns.specs.Seats.{CanSee, HasStepped, Holds, IsStillHeld};

use crate::counts::Count;
use crate::over::{Over, is_one_more};
use crate::volap::Volap;
use core_steps::{CellStep, Places};
use core_told::volap_cell::{Actor, Cell};
use dim_hierarchy::Hierarchy;
use std::alloc::{AllocError, Global};
use turn_table::{Held, Lot, One, Seat, Three, TurnTable, Two};

/// An actor of a seat makes a step over the cells that the seat holds, as one event; the first of these cells is given
/// back, and the others stay held. It counts the parts of its command that it ends or sends on. Where memory is wanting,
/// nothing changes.
pub fn step<S: CellStep>(
    alloc: Global,
    h: &Hierarchy,
    table: &TurnTable<Volap>,
    seat: &mut Seat<Volap>,
    number: u32,
    actor: &mut Actor,
    what: S,
) -> Result<(), AllocError>
    requires holds { Holds h.now table.now seat.old number actor.old }
    requires some { 0 < length seat.old.view.held }
    requires few { length seat.old.view.held ≤ 7 }
    requires at { AreAt (S.places what) seat.old.view.held }
    requires asked { S.asks what h.now (values (cells_for seat.old.view.held (S.places what))) (actor_of actor.old) }
    requires sees { CanSee h.now seat.old.view number (S.sees what) }
    requires left { IsStillHeld h.now (S.kind what) (S.sees what) (S.tells what) (S.places what) seat.old.view.held (actor_of actor.old) }
    ensures holds { Holds h.now table.now seat.new number actor.new }
    ensures lists { Extends seat.new.view.seen seat.old.view.seen }
    ensures went { OnOk result (HasStepped h.now (S.kind what) (S.sees what) (S.tells what) (S.places what) seat.old seat.new number actor.old actor.new) }
    ensures sure { S.may_fail what ≡ false → IsOk result }
    ensures room { S.has_room what actor.old → IsOk result }
    ensures same { OnErr result ((seat.new ≡ seat.old) × (actor_of actor.new ≡ actor_of actor.old)) }
    ensures uncounted { OnErr result (actor.new.went ≡ actor.old.went) }
{
    match what.places() {
        Places::One(_) => step_over::<S, One<Cell>>(alloc, h, table, seat, number, actor, what),
        Places::Two(_, _) => step_over::<S, Two<Cell>>(alloc, h, table, seat, number, actor, what),
        Places::Many(_, _, others) => {
            if is_one_more(others) {
                step_over::<S, Three<Cell>>(alloc, h, table, seat, number, actor, what)
            } else {
                step_over::<S, Held<Cell>>(alloc, h, table, seat, number, actor, what)
            }
        }
    }
}

/// The same over cells in a form that fits their number.
fn step_over<S: CellStep, L: Lot<Volap> + Over<S>>(
    alloc: Global,
    h: &Hierarchy,
    table: &TurnTable<Volap>,
    seat: &mut Seat<Volap>,
    number: u32,
    actor: &mut Actor,
    what: S,
) -> Result<(), AllocError>
    requires holds { Holds h.now table.now seat.old number actor.old }
    requires some { 0 < length seat.old.view.held }
    requires alike { (c : L) → L.all c ≡ L.cells c }
    requires few { length seat.old.view.held ≤ 7 }
    requires fits { L.fits (length seat.old.view.held) }
    requires named { IsRow (S.places what) }
    requires at { AreAt (S.places what) seat.old.view.held }
    requires asked { S.asks what h.now (values (cells_for seat.old.view.held (S.places what))) (actor_of actor.old) }
    requires sees { CanSee h.now seat.old.view number (S.sees what) }
    requires left { IsStillHeld h.now (S.kind what) (S.sees what) (S.tells what) (S.places what) seat.old.view.held (actor_of actor.old) }
    ensures holds { Holds h.now table.now seat.new number actor.new }
    ensures lists { Extends seat.new.view.seen seat.old.view.seen }
    ensures went { OnOk result (HasStepped h.now (S.kind what) (S.sees what) (S.tells what) (S.places what) seat.old seat.new number actor.old actor.new) }
    ensures sure { S.may_fail what ≡ false → IsOk result }
    ensures room { S.has_room what actor.old → IsOk result }
    ensures same { OnErr result ((seat.new ≡ seat.old) × (actor_of actor.new ≡ actor_of actor.old)) }
    ensures uncounted { OnErr result (actor.new.went ≡ actor.old.went) }
{
    let before = Count::of(actor);
    let (made, cells) = L::made_over(alloc, h, table.lift_lot::<L>(seat), actor, what);
    actor.went = before.after(actor, made.is_ok());
    if made.is_ok() {
        table.commit_lot::<L>(seat, cells, number, actor);
    } else {
        table.put_lot_back::<L>(seat, cells);
    }
    made
}
