//! The start and the end of a table.
ghost use mathlib.Core.Option.{some};
ghost use lib.ListN.{get_elem?};
ghost use Rattle.std.specs.Prelude.{ℕ, ◌≡◌, ◌<◌, ◌≤◌, ◌^◌, ◌-◌, [], false, length, map, replicate, IfOk, Some, vec_len, vec_capacity};
ghost use Rattle.std.specs.Slots.{IsFull, slots_len, slots_items};
ghost use Rattle.turn_table.specs.Views.{first_view, HasAll};
ghost use Rattle.turn_table.specs.Law.{IsClosed, IsPossible};
ghost use Rattle.turn_table.specs.Seat.{cell_count};

use crate::cores::Core;
use crate::rule::Key;
use crate::seat::Seat;
use crate::table::TurnTable;
use crate::waits::nobody;
use arrayvec::ArrayVec;
use atomic_table::{Closed, Table};
use std::alloc::{AllocError, Global};
use std::snapshot::Snapshot;

/// The words of free cells.
fn zeros(alloc: Global, count: usize) -> Result<Vec<u64>, AllocError>
    ensures { IfOk result (λ v. v.items ≡ replicate count 0) }
{
    let mut words = Vec::new(alloc);
    words.resize(count, 0)?;
    Ok(words)
}

/// Slots with these values.
fn filled<T: Drop>(alloc: Global, cells: Vec<T>) -> Result<Vec<Option<T>>, AllocError>
    ensures { IfOk result (λ v. v.items ≡ map (λ x. Some x) cells.items) }
{
    cells.into_iter().map(|x| Some(x)).collect(alloc)
}

impl<C: Core> TurnTable<C> {
    /// A table of free cells, and a seat with all actors, whose number is the last actor's. Every value counts as seen. The
    /// actors are read and stay with the caller; each is idle. All memory is taken here.
    pub fn new(
        alloc: Global,
        cells: Vec<C::Cell>,
        actors: &Vec<C::Actor>,
    ) -> Result<(TurnTable<C>, Seat<C>), AllocError>
        requires valid { C.invariant cells.items actors.now.items }
        requires idle { (i : ℕ) (a : C.Actor) → get_elem? actors.now.items i ≡ some a → C.idle a }
        requires some { (C.log_at < length cells.items) × (0 < length actors.now.items) }
        requires few { length actors.now.items < 2 ^ 32 }
        ensures table { IfOk result (λ r. cell_count r.0 ≡ length cells.items) }
        ensures seat { IfOk result (λ r. r.1 ≡ record {
          table_id = r.0;
          lifted = false;
          ranks = [];
          view = first_view C.log_at C.log cells.items actors.now.items;
        }) }
        ensures possible { IfOk result (λ r. IsPossible C.invariant C.log_at C.log C.needs r.1.view) }
    {
        let key = Key {
            cells: Snapshot::of(&cells),
            actors: Snapshot::of(actors),
        };
        let words = zeros(alloc, cells.len())?;
        let spare = Vec::with_capacity(alloc, cells.len())?;
        let waiting = nobody(alloc, cells.len())?;
        let slots = filled(alloc, cells)?;
        match Table::new(alloc, words.as_slice(), slots, &key) {
            Ok((table, place)) => Ok((
                TurnTable {
                    table,
                    spare,
                    waiting,
                },
                Seat {
                    number: (actors.len() - 1) as u32,
                    row: ArrayVec::new(),
                    lifted: false,
                    ahead: 0,
                    place,
                },
            )),
            Err(_) => Err(AllocError),
        }
    }

    /// The cells, from a seat that has all actors and holds no cell. Each of them is there, and with
    /// the seat's actors they are a state of the core. Takes no memory.
    pub fn close(self, seat: Seat<C>) -> Vec<Option<C::Cell>>
        requires own { seat.table_id ≡ self }
        requires all { HasAll seat.view.actor_count seat.view }
        requires bare { seat.view.held ≡ [] }
        ensures { IsClosed C.invariant C.log_at C.log result.items seat.view }
    {
        let TurnTable {
            table,
            spare,
            waiting: _,
        } = self;
        let Seat {
            number: _,
            row: _,
            lifted: _,
            ahead: _,
            place,
        } = seat;
        taken_apart(table.close_with(place), spare)
    }
}

/// The values in the slots of a table that has ended.
fn taken_apart<S>(mut closed: Closed<S, Global>, mut out: Vec<S>) -> Vec<S>
    requires full { IsFull closed.slots }
    requires room { (vec_len out ≡ 0) × (slots_len closed.slots ≤ vec_capacity out) }
    ensures { result.items ≡ slots_items closed.slots }
{
    for i in 0..closed.slot_count() {
        out.push_reserved(closed.take(i));
    }
    closed.free();
    out
}
