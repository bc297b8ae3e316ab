//! A step of an actor at its seat, whatever its kind.
ghost use Rattle.std.specs.Prelude.{◌≡◌, ◌<◌, ◌≤◌, false, length, IsOk, OnErr, OnOk};
ghost use Rattle.core_due.specs.core_steps.specs.Places.{values};
ghost use Rattle.seat_steps.specs.Floors.{IsSeated, Stands};
ghost use Rattle.seat_steps.specs.Made.{HasMade, IsKeptBy};
ghost use Rattle.seat_steps.specs.Takes.{GaveAll};
ghost use Rattle.turn_table.specs.Numbered.{Extends};
ghost use Rattle.core_due.specs.volap_cell.specs.Values.{actor_of};
ghost use Rattle.volap_turns.specs.Rows.{AreAt, cells_for};
ghost use Rattle.volap_turns.specs.Seats.{CanSee};

use crate::floor::{Floor, Player};
use crate::takes::give_all;
use core_due::core_steps::CellStep;
use std::alloc::{AllocError, Global};
use volap_turns::step;

/// The actor makes a step over the cells that it holds, and gives back all but the one that it then must keep. Where
/// memory is wanting, nothing else changes.
pub fn make<S: CellStep>(
    alloc: Global,
    floor: &Floor,
    player: &mut Player,
    what: S,
) -> Result<(), AllocError>
    requires seated { IsSeated floor.now player.old }
    requires some { 0 < length player.old.seat.view.held }
    requires few { length player.old.seat.view.held ≤ 7 }
    requires at { AreAt (S.places what) player.old.seat.view.held }
    requires asked { S.asks what floor.now.hierarchy (values (cells_for player.old.seat.view.held (S.places what))) (actor_of player.old.actor) }
    requires sees { CanSee floor.now.hierarchy player.old.seat.view player.old.number (S.sees what) }
    requires kept { IsKeptBy floor.now.hierarchy (S.kind what) (S.sees what) (S.tells what) (S.places what) player.old }
    ensures stands { Stands floor.now player.new }
    ensures lists { Extends player.new.seat.view.seen player.old.seat.view.seen }
    ensures made { OnOk result (HasMade floor.now.hierarchy (S.kind what) (S.sees what) (S.tells what) (S.places what) player.old player.new) }
    ensures sure { S.may_fail what ≡ false → IsOk result }
    ensures room { S.has_room what player.old.actor → IsOk result }
    ensures same { OnErr result (player.new.number ≡ player.old.number) }
    ensures same_actor { OnErr result (actor_of player.new.actor ≡ actor_of player.old.actor) }
    ensures same_seen { OnErr result (player.new.seat.view.seen ≡ player.old.seat.view.seen) }
    ensures uncounted { OnErr result (player.new.actor.went ≡ player.old.actor.went) }
{
    let made = step(
        alloc,
        &floor.hierarchy,
        &floor.table,
        &mut player.seat,
        player.number,
        &mut player.actor,
        what,
    );
    give_all(floor, player);
    made
}
