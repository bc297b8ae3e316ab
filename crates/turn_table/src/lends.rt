//! Lends what a held cell contains, where it stands.
ghost use Rattle.std.specs.Prelude.{◌≡◌, ◌∷◌, Some, false};
ghost use Rattle.std.specs.Borrow.{sem};
ghost use Rattle.std.specs.Io.BufRead.{Rests};
ghost use mathlib.Core.Option.{some};
ghost use Rattle.atomic_table.specs.Table.{rest};
ghost use Rattle.atomic_table.specs.contracts.shared.Seat.{the_row as place_row};
ghost use Rattle.std.specs.contracts.option.Option.{the_row as option_row};
ghost use Rattle.turn_table.specs.contracts.seat.Seat.{the_row};
ghost use Rattle.turn_table.specs.Numbered.{value_of};

use crate::cores::Core;
use crate::moves::{position, straighten, turn_by};
use crate::seat::Seat;
use crate::table::TurnTable;
use atomic_table::{Seat as Place, Shared, TableRule};

/// The slot that the seat took last.
fn front_slot<'a, S, V, K, P: TableRule<S, V, K>>(
    place: &'a mut Place<S, V>,
    table: &'a Shared<S, V, K, P>,
    slot: usize,
) -> &'a S
    requires own { place.old.table_id ≡ table.now.table_id }
    requires front { (c : S) × (place.old.me.1 ≡ (slot, c) ∷ rest place.old.me.1) }
    ensures* same { sem 𝓛 (Rests (place_row S.row V.row) place.entry (λ new. new ≡ place.old)) }
    ensures value { place.old.me.1 ≡ (slot, result.now) ∷ rest place.old.me.1 }
{
    place.slot_mut(table, slot)
}

/// The value in the slot that the seat took last.
fn front<'a, T, V, K, P: TableRule<Option<T>, V, K>>(
    place: &'a mut Place<Option<T>, V>,
    table: &'a Shared<Option<T>, V, K, P>,
    slot: usize,
) -> &'a T
    requires own { place.old.table_id ≡ table.now.table_id }
    requires front { (c : T) × (place.old.me.1 ≡ (slot, Some c) ∷ rest place.old.me.1) }
    ensures* same { sem 𝓛 (Rests (place_row (option_row T.row) V.row) place.entry (λ new. new ≡ place.old)) }
    ensures value { place.old.me.1 ≡ (slot, Some result.now) ∷ rest place.old.me.1 }
{
    match front_slot(place, table, slot) {
        Some(value) => value,
        None => unreachable!(),
    }
}

impl<C: Core> Seat<C> {
    /// Lends the value of a held cell where it stands. The seat stays as it is. No word changes.
    pub fn see<'a>(&'a mut self, table: &'a TurnTable<C>, cell: u32) -> &'a C::Cell
        requires own { self.old.table_id ≡ table.now }
        requires held { (c : C.Cell) × (value_of self.old.view.held cell ≡ some c) }
        requires home { self.old.lifted ≡ false }
        ensures* same { sem 𝓛 (Rests (the_row C.row C.Cell.row C.Actor.row C.Entry.row C.Core) self.entry (λ new. new ≡ self.old)) }
        ensures value { value_of self.old.view.held cell ≡ some result.now }
    {
        straighten::<C>(&mut self.place, self.row.len(), self.ahead);
        self.ahead = position(self.row.as_slice(), cell);
        turn_by::<C>(&mut self.place, self.ahead);
        front(&mut self.place, &table.table.shared, cell as usize)
    }
}
