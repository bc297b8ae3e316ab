//! Turns that the seat with all actors takes and gives back.
ghost use Rattle.std.specs.Prelude.{ℕ, ◌≡◌, ◌<◌, [], length, IfNone, IfSome, Option};
ghost use mathlib.Core.Option.{none, some};
ghost use Rattle.turn_table.specs.Numbered.{value_of};
ghost use Rattle.turn_table.specs.Seat.{IsInOrder, cell_count};
ghost use Rattle.whole_steps.specs.Seats.{HasEveryone, HasTurned, KnowsAll, TakesCell};

use call_steps::of_volap_turns::Volap;
use std::sync::Wait;
use turn_table::{Seat, TurnTable};

/// The rank that is told where a cell is held alone.
pub(crate) const ALONE: u8 = 1;

/// The seat waits for the turn of one more cell.
pub fn take_turn<R: Wait>(
    rt: &R,
    table: &TurnTable<Volap>,
    seat: &mut Seat<Volap>,
    cell: u32,
    rank: u8,
)
    requires everyone { HasEveryone table.now seat.old }
    requires cell { cell < cell_count table.now }
    requires other { value_of seat.old.view.held cell ≡ none }
    requires rank { IsInOrder seat.old.ranks cell rank }
    requires room { length seat.old.view.held < 7 }
    ensures everyone { HasEveryone table.now seat.new }
    ensures took { TakesCell cell rank seat.old seat.new }
{
    table.take(rt, seat, cell, rank);
}

/// The cell that was taken first.
fn first_held(seat: &Seat<Volap>) -> Option<u32>
    ensures some { IfSome result (λ cell. (r : Option ℕ) × (value_of seat.now.ranks cell ≡ some r)) }
    ensures none { IfNone result (seat.now.ranks ≡ []) }
{
    match seat.held() {
        [told, ..] => Some(told.0),
        [] => None,
    }
}

/// The seat gives back every cell that it holds, as it is.
pub fn give_turns(table: &TurnTable<Volap>, seat: &mut Seat<Volap>)
    requires everyone { HasEveryone table.now seat.old }
    ensures everyone { HasEveryone table.now seat.new }
    ensures turned { HasTurned seat.old seat.new }
    ensures bare { seat.new.ranks ≡ [] }
{
    while let Some(cell) = first_held(seat) {
        table.release(seat, cell);
    }
}

/// The seat takes each cell once and gives it back. Then it knows the whole state.
pub fn look_round<R: Wait>(rt: &R, table: &TurnTable<Volap>, seat: &mut Seat<Volap>)
    requires everyone { HasEveryone table.now seat.old }
    requires bare { seat.old.ranks ≡ [] }
    ensures everyone { HasEveryone table.now seat.new }
    ensures turned { HasTurned seat.old seat.new }
    ensures bare { seat.new.ranks ≡ [] }
    ensures knows { KnowsAll table.now seat.new }
{
    for at in 0..table.len() {
        take_turn(rt, table, seat, at as u32, ALONE);
        give_turns(table, seat);
    }
}
