//! A step by which the history gets an event.
ghost use Rattle.std.specs.Prelude.{ℕ, ◌≡◌, ◌<◌, [], ◌∷◌, false, None, IsOk, OnErr, OnOk, Some};
ghost use Rattle.seat_steps.specs.Booked.{HasBooked, IsAsBefore, IsDue, IsKeptAnyhow, IsUpToLedger};
ghost use Rattle.seat_steps.specs.Floors.{IsSeated, Stands};
ghost use Rattle.seat_steps.specs.Takes.{Takes};
ghost use Rattle.turn_table.specs.Seat.{cell_count};
ghost use Rattle.core_due.specs.volap_cell.specs.Setting.{Setting};
ghost use Rattle.core_due.specs.volap_cell.specs.Values.{actor_of};
ghost use Rattle.core_due.specs.volap_cell.specs.World.{World};

use crate::floor::{Floor, Player};
use crate::made::make;
use crate::takes::take;
use core_due::core_steps::{CellStep, ledger_place};
use std::alloc::{AllocError, Global};
use std::sync::Wait;

/// The rank that is told for the ledger.
pub const LEDGER: u8 = 8;

/// An actor that is at no part waits for the turn of a first cell.
pub fn take_first<R: Wait>(rt: &R, floor: &Floor, player: &mut Player, cell: u32, rank: u8)
    requires stands { Stands floor.now player.old }
    requires no_part { (actor_of player.old.actor).errand ≡ None }
    requires cell { cell < cell_count floor.now.table }
    ensures seated { IsSeated floor.now player.new }
    ensures took { Takes cell rank player.old player.new }
    ensures ranks { player.new.seat.ranks ≡ (cell, Some rank) ∷ [] }
{
    take(rt, floor, player, cell, rank);
}

/// An actor waits for the turn of the ledger behind the cells that it holds, makes the step over them, and keeps none.
/// Where memory is wanting, nothing changes.
pub fn make_booked<R: Wait, S: CellStep>(
    rt: &R,
    alloc: Global,
    floor: &Floor,
    player: &mut Player,
    what: S,
) -> Result<(), AllocError>
    requires seated { IsSeated floor.now player.old }
    requires held { IsUpToLedger player.old (S.places what) }
    requires due { IsDue floor.now player.old (S.places what) (S.asks what) }
    requires sees { (s : Setting) → (w : World) → (n : ℕ) → S.sees what s w n }
    requires kept { IsKeptAnyhow floor.now.hierarchy (S.kind what) (S.sees what) (S.tells what) (S.places what) player.old }
    ensures booked { OnOk result (HasBooked floor.now (S.kind what) (S.sees what) (S.tells what) (S.places what) player.old player.new) }
    ensures sure { S.may_fail what ≡ false → IsOk result }
    ensures same { OnErr result (IsAsBefore floor.now player.old player.new) }
{
    take(rt, floor, player, ledger_place(), LEDGER);
    make(alloc, floor, player, what)
}
