//! How much of the history there is.
ghost use Rattle.std.specs.Prelude.{◌≡◌, length};
ghost use mathlib.Core.Option.{some};
ghost use Rattle.part_steps.specs.seat_steps.specs.Booked.{IsAsBefore};
ghost use Rattle.part_steps.specs.seat_steps.specs.Floors.{IsSeated, Stands};
ghost use Rattle.part_steps.specs.seat_steps.specs.Looks.{Sees};
ghost use Rattle.turn_table.specs.Numbered.{value_of};
ghost use Rattle.part_steps.specs.volap_cell.specs.Cells.{cell_of, ledger_in};
ghost use Rattle.part_steps.specs.volap_cell.specs.ImageKinds.{IsFree};
ghost use Rattle.part_steps.specs.volap_cell.specs.Values.{actor_of};
ghost use Rattle.part_steps.specs.volap_cell.specs.declared.cell.Cell.{Cell};

use part_steps::of_core_steps::ledger_place;
use part_steps::of_seat_steps::{Floor, LEDGER, Player, give_all, take_first};
use part_steps::of_volap_cell::Cell;
use std::sync::Wait;

/// An actor that does nothing waits for the turn of the ledger and sees the whole history, and tells how many events there are. Takes no memory.
pub fn hear<R: Wait>(rt: &R, floor: &Floor, player: &mut Player) -> u64
    requires stands { Stands floor.now player.old }
    requires free { IsFree (actor_of player.old.actor) }
    ensures same { IsAsBefore floor.now player.old player.new }
    ensures count { result ≡ length player.new.seat.view.seen }
{
    let ledger = ledger_place();
    take_first(rt, floor, player, ledger, LEDGER);
    let count = events_at(floor, player, ledger);
    give_all(floor, player);
    count
}

/// How many events the ledger in a held cell has.
fn events_at(floor: &Floor, player: &mut Player, at: u32) -> u64
    requires seated { IsSeated floor.now player.old }
    requires held { (c : Cell) × (value_of player.old.seat.view.held at ≡ some c) }
    ensures seen { Sees player.old at (λ cell. result ≡ length (ledger_in cell).history) }
    ensures same { player.new ≡ player.old }
{
    events_in(player.seat.see(&floor.table, at))
}

/// How many events the ledger in a cell has.
fn events_in(cell: &Cell) -> u64
    ensures { result ≡ length (ledger_in (cell_of cell.now)).history }
{
    match cell {
        Cell::Ledger(ledger) => ledger.len(),
        _ => 0,
    }
}
