//! A step at the seat that has all actors by which the history gets an event.
ghost use Rattle.std.specs.Prelude.{◌≡◌, false, IsOk, OnErr, OnOk};
ghost use Rattle.call_steps.specs.seat_steps.specs.Booked.{IsKeptAnyhow, IsUpToLedger};
ghost use Rattle.whole_steps.specs.Sole.{CanSeeThen, HasMadeSole, HasWaited, IsDueSole, IsSole, player};

use crate::turns::{give_turns, take_turn};
use call_steps::of_core_steps::{CellStep, ledger_place};
use call_steps::of_seat_steps::{Floor, LEDGER};
use call_steps::of_volap_turns::{Volap, step};
use core_pages::volap_cell::Actor;
use std::alloc::{AllocError, Global};
use std::sync::Wait;
use turn_table::Seat;

/// The seat waits for the turn of the ledger behind the cells that it holds, its actor makes the step over them, and all are given
/// back. Where memory is wanting, nothing changes.
pub(crate) fn add<R: Wait, S: CellStep>(
    rt: &R,
    alloc: Global,
    floor: &Floor,
    seat: &mut Seat<Volap>,
    number: u32,
    actor: &mut Actor,
    what: S,
) -> Result<(), AllocError>
    requires sole { IsSole floor.now (player number actor.old seat.old) }
    requires held { IsUpToLedger (player number actor.old seat.old) (S.places what) }
    requires due { IsDueSole floor.now (player number actor.old seat.old) (S.places what) (S.asks what) }
    requires sees { CanSeeThen floor.now.hierarchy (player number actor.old seat.old) (S.sees what) }
    requires kept { IsKeptAnyhow floor.now.hierarchy (S.kind what) (S.sees what) (S.tells what) (S.places what) (player number actor.old seat.old) }
    ensures made { OnOk result (HasMadeSole floor.now (S.kind what) (S.sees what) (S.tells what) (S.places what) (player number actor.old seat.old) (player number actor.new seat.new)) }
    ensures sure { S.may_fail what ≡ false → IsOk result }
    ensures same { OnErr result (HasWaited floor.now (player number actor.old seat.old) (player number actor.new seat.new)) }
{
    take_turn(rt, &floor.table, seat, ledger_place(), LEDGER);
    let made = step(
        alloc,
        &floor.hierarchy,
        &floor.table,
        seat,
        number,
        actor,
        what,
    );
    give_turns(&floor.table, seat);
    made
}
