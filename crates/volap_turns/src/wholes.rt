//! From a state that one thread holds to a table of turns, and back.
ghost use Rattle.std.specs.Prelude.{◌≡◌, ◌<◌, ◌^◌, List, [], false, filter_map, length, IfOk};
ghost use Rattle.turn_table.specs.Seat.{cell_count};
ghost use Rattle.turn_table.specs.Views.{HasAll, first_view};
ghost use Rattle.core_told.specs.volap_cell.specs.Setting.{ledger_cell};
ghost use Rattle.core_told.specs.volap_cell.specs.declared.cell.Cell.{Cell};
ghost use Rattle.volap_turns.specs.Rule.{all_there, history_of};
ghost use Rattle.volap_turns.specs.Wholes.{AreActorsOf, AreIdle, CanBe, HasHistory, IsWhole};

use crate::volap::Volap;
use core_told::volap_cell::{Actor, Cell, State};
use dim_hierarchy::Hierarchy;
use std::alloc::{AllocError, Global};
use turn_table::{Seat, TurnTable};

/// What stands at the places.
fn all_of<T: Drop>(alloc: Global, places: Vec<Option<T>>) -> Result<Vec<T>, AllocError>
    ensures { IfOk result (λ v. v.items ≡ filter_map (λ place. place) places.items) }
{
    places.into_iter().filter_map(|place| place).collect(alloc)
}

/// A table of turns over the cells of a state, a seat with all its actors that holds no cell, and these actors, which
/// stay with the caller.
pub fn open(
    alloc: Global,
    _h: &Hierarchy,
    state: State,
) -> Result<(TurnTable<Volap>, Seat<Volap>, Vec<Actor>), AllocError>
    requires whole { IsWhole _h.now state.cells.items state.actors.items }
    requires idle { AreIdle state.cells.items state.actors.items }
    requires some { 0 < length state.actors.items }
    requires few { length state.actors.items < 2 ^ 32 }
    ensures table { IfOk result (λ r. cell_count r.0 ≡ length state.cells.items) }
    ensures actors { IfOk result (λ r. all_there r.2.items ≡ state.actors.items) }
    ensures seat { IfOk result (λ r. (cells : List Cell) × (all_there cells ≡ state.cells.items)
        × (r.1 ≡ record { table_id = r.0; lifted = false; ranks = []; view = first_view ledger_cell history_of cells r.2.items })) }
    ensures possible { IfOk result (λ r. CanBe r.1.view) }
{
    let State { cells, actors } = state;
    let actors = all_of(alloc, actors)?;
    let (table, seat) = TurnTable::new(alloc, all_of(alloc, cells)?, &actors)?;
    Ok((table, seat, actors))
}

/// The state that a table has at its end, with the actors of the one seat. Takes no memory.
pub fn close(
    _h: &Hierarchy,
    table: TurnTable<Volap>,
    seat: Seat<Volap>,
    actors: Vec<Option<Actor>>,
) -> State
    requires own { seat.table_id ≡ table }
    requires all { HasAll seat.view.actor_count seat.view }
    requires bare { seat.view.held ≡ [] }
    requires actors { AreActorsOf _h.now seat.view actors.items }
    ensures whole { IsWhole _h.now result.cells.items result.actors.items }
    ensures actors { result.actors ≡ actors }
    ensures history { HasHistory result.cells.items result.actors.items seat.view.seen }
{
    State {
        cells: table.close(seat),
        actors,
    }
}
