//! The whole history, lent to a reader by the seat that has all actors.
ghost use Rattle.std.specs.Prelude.{◌≡◌, ◌<◌, [], reverse};
ghost use Rattle.turn_table.specs.Seat.{SeatValue, cell_count};
ghost use Rattle.core_pages.specs.volap_cell.specs.Setting.{ledger_cell};
ghost use Rattle.core_pages.specs.volap_cell.specs.declared.actor.Actor.{Actor};
ghost use Rattle.core_pages.specs.volap_cell.specs.declared.cell.Cell.{Cell};
ghost use Rattle.call_steps.specs.volap_turns.specs.Rule.{history_of};
ghost use Rattle.row_ledger.specs.declared.event.Event.{Event};
ghost use Rattle.whole_steps.specs.Seats.{HasEveryone, HasTurned, Knows};

use crate::turns::{ALONE, give_turns, take_turn};
use call_steps::of_core_steps::ledger_place;
use call_steps::of_volap_turns::Volap;
use core_pages::volap_cell::Cell;
use row_ledger::Event;
use std::sync::Wait;
use turn_table::{Seat, TurnTable};

/// What reads a history that is lent to it.
pub trait ReadsHistory {
    ghost use Rattle.std.specs.Prelude.{List};
    ghost use Rattle.row_ledger.specs.declared.event.Event.{Event};

    /// What it asks of the events, the oldest first.
    ghost asks: { Self → List Event → Type 0 };

    /// What it has become by them.
    ghost tells: { Self → List Event → Self → Type 0 };

    /// Reads the events, the oldest first.
    fn read(&mut self, events: &[Event])
        requires asked { asks self.old events.now }
        ensures told { tells self.old events.now self.new };
}

/// The events of a ledger, the oldest first; none of another cell.
fn events_in(cell: &Cell) -> &[Event]
    ensures { reverse result.now ≡ history_of cell.now }
{
    match cell {
        Cell::Ledger(ledger) => ledger.events(),
        _ => &[],
    }
}

/// Lends the whole history to a reader. The seat has the turn of the ledger meanwhile, and gives it back.
pub fn lend_history<R: Wait, T: ReadsHistory>(
    rt: &R,
    table: &TurnTable<Volap>,
    seat: &mut Seat<Volap>,
    reader: &mut T,
)
    requires everyone { HasEveryone table.now seat.old }
    requires bare { seat.old.ranks ≡ [] }
    requires ledger { ledger_cell < cell_count table.now }
    requires asked { (s : SeatValue Cell Actor Event) → HasEveryone table.now s → HasTurned seat.old s → T.asks reader.old (reverse s.view.seen) }
    ensures everyone { HasEveryone table.now seat.new }
    ensures turned { HasTurned seat.old seat.new }
    ensures bare { seat.new.ranks ≡ [] }
    ensures knows { Knows seat.new ledger_cell }
    ensures told { T.tells reader.old (reverse seat.new.view.seen) reader.new }
{
    let ledger = ledger_place();
    take_turn(rt, table, seat, ledger, ALONE);
    reader.read(events_in(seat.see(table, ledger)));
    give_turns(table, seat);
}
