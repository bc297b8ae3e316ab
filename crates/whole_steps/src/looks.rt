//! The cells of the whole state, lent one at a time by the seat that knows them.
ghost use Rattle.std.specs.Prelude.{◌≡◌, []};
ghost use mathlib.Core.Option.{some};
ghost use Rattle.turn_table.specs.Numbered.{value_of};
ghost use Rattle.core_pages.specs.volap_cell.specs.declared.cell.Cell.{Cell};
ghost use Rattle.whole_steps.specs.Seats.{HasEveryone, HasTurned, Knows, KnowsAll};

use crate::turns::{ALONE, give_turns, take_turn};
use call_steps::of_volap_turns::Volap;
use core_pages::Cells;
use core_pages::volap_cell::Cell;
use std::marker::{Brand, Model, PhantomData};
use std::sync::Wait;
use turn_table::{Seat, TurnTable};

/// The seat with which the looks begin. A call picks it.
pub(crate) trait Start {
    ghost use Rattle.row_ledger.specs.declared.event.Event.{Event};
    ghost use Rattle.turn_table.specs.Seat.{SeatValue};
    ghost use Rattle.core_pages.specs.volap_cell.specs.declared.actor.Actor.{Actor};
    ghost use Rattle.core_pages.specs.volap_cell.specs.declared.cell.Cell.{Cell};

    ghost seat: { SeatValue Cell Actor Event };
}

impl Start for Brand {
    ghost use Rattle.whole_steps.specs.Seats.{no_seat};

    ghost seat = { no_seat };
}

/// A seat that knows the whole state. It has the turn of the cell that it lends.
#[derive(Drop)]
pub(crate) struct Looks<'a, R: Wait, B: Start> {
    rt: &'a R,
    table: &'a TurnTable<Volap>,
    seat: Seat<Volap>,
    start: PhantomData<B>,
}

impl<'a, R: Wait, B: Start> Model for Looks<'a, R, B> {
    ghost use Rattle.whole_steps.specs.Seats.{IsLooking};

    // Nothing of it changes that contracts may rest on.
    ghost Value = { Unit {0} };

    ghost view = { λ l. tt };

    ghost invariant = { λ l. IsLooking B.seat l.table.now l.seat };
}

impl<'a, R: Wait, B: Start> Looks<'a, R, B> {
    /// The seat looks at cells from now on.
    pub(crate) fn new(rt: &'a R, table: &'a TurnTable<Volap>, seat: Seat<Volap>) -> Looks<'a, R, B>
        requires start { seat ≡ B.seat }
        requires everyone { HasEveryone table.now seat }
        requires knows { KnowsAll table.now seat }
    {
        Looks {
            rt,
            table,
            seat,
            start: PhantomData,
        }
    }

    /// The seat, which holds no cell.
    pub(crate) fn end(self) -> Seat<Volap>
        ensures everyone { HasEveryone (B.seat).table_id result }
        ensures turned { HasTurned B.seat result }
        ensures bare { result.ranks ≡ [] }
    {
        let Looks {
            rt: _,
            table,
            mut seat,
            start: _,
        } = self;
        give_turns(table, &mut seat);
        seat
    }
}

/// The seat, which knows the whole state, has the turn of this cell, and of no other.
fn turn_to<R: Wait>(rt: &R, table: &TurnTable<Volap>, seat: &mut Seat<Volap>, cell: u32)
    requires everyone { HasEveryone table.now seat.old }
    requires knows { Knows seat.old cell }
    ensures everyone { HasEveryone table.now seat.new }
    ensures turned { HasTurned seat.old seat.new }
    ensures held { (c : Cell) × (value_of seat.new.view.held cell ≡ some c) }
    ensures value { value_of seat.new.view.held cell ≡ value_of seat.old.view.known cell }
{
    give_turns(table, seat);
    take_turn(rt, table, seat, cell, ALONE);
}

impl<'a, R: Wait, B: Start> Cells for Looks<'a, R, B> {
    ghost use Rattle.whole_steps.specs.Seats.{state_at};

    ghost state = { λ l. state_at B.seat };

    fn look(&mut self, cell: u32) -> &Cell {
        let table = self.table;
        turn_to(self.rt, table, &mut self.seat, cell);
        self.seat.see(table, cell)
    }
}
