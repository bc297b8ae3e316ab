//! The forms in which the values of held cells are out of their slots: of one cell, of two or three, and of any number.
//! Most changes are of few cells, and a form of its own saves them the places that they don't fill.
ghost use Rattle.std.specs.Prelude.{◌≡◌, ◌≤◌, [], ◌∷◌, length, true, false};
ghost use Rattle.turn_table.specs.Numbered.{numbers_of};
ghost use Rattle.turn_table.specs.Seat.{slots_of, values_of};

use crate::cores::Core;
use crate::held::Held;
use crate::rule::Place;
use crate::table::TurnTable;

/// The values of held cells by number, the first taken first.
pub trait Lot<C: Core> {
    ghost use Rattle.std.specs.Prelude.{ℕ, List};

    // The cells as a list, and how many there can be.
    ghost cells: { Self → List (ℕ × C.Cell) };

    ghost fits: { ℕ → Type 0 };

    /// Takes the values out of all slots.
    fn taken_out(table: &TurnTable<C>, place: &mut Place<C>, row: &[(u32, Option<u8>)]) -> Self
        requires own { place.old.table_id ≡ table.now }
        requires row { (numbers_of row.now ≡ numbers_of (values_of place.old.me.1)) × fits (length row.now) }
        requires full { place.old.me.1 ≡ slots_of false (values_of place.old.me.1) }
        ensures same { (place.new.table_id ≡ place.old.table_id) × (place.new.id ≡ place.old.id) }
        ensures values { cells result ≡ values_of place.old.me.1 }
        ensures slots { place.new.me ≡ (place.old.me.0, slots_of true (values_of place.old.me.1)) };

    /// Puts the values into the slots.
    fn put_in(self, table: &TurnTable<C>, place: &mut Place<C>)
        requires own { place.old.table_id ≡ table.now }
        requires empty { place.old.me.1 ≡ slots_of true (cells self) }
        ensures same { (place.new.table_id ≡ place.old.table_id) × (place.new.id ≡ place.old.id) }
        ensures slots { place.new.me ≡ (place.old.me.0, slots_of false (cells self)) };
}

/// One cell.
pub type One<T> = (u32, T);

/// Two cells.
pub type Two<T> = (One<T>, One<T>);

/// Three cells.
pub type Three<T> = (One<T>, One<T>, One<T>);

impl<C: Core> Lot<C> for One<C::Cell> {
    ghost use Rattle.std.specs.Prelude.{◌≡◌, [], ◌∷◌};

    ghost cells = { λ p. p ∷ [] };

    ghost fits = { λ n. n ≡ 1 };

    fn taken_out(
        table: &TurnTable<C>,
        place: &mut Place<C>,
        row: &[(u32, Option<u8>)],
    ) -> One<C::Cell> {
        table.take_one(place, row)
    }

    fn put_in(self, table: &TurnTable<C>, place: &mut Place<C>) {
        table.fill_one(place, self);
    }
}

impl<C: Core> Lot<C> for Two<C::Cell> {
    ghost use Rattle.std.specs.Prelude.{◌≡◌, [], ◌∷◌};

    ghost cells = { λ p. p.0 ∷ p.1 ∷ [] };

    ghost fits = { λ n. n ≡ 2 };

    fn taken_out(
        table: &TurnTable<C>,
        place: &mut Place<C>,
        row: &[(u32, Option<u8>)],
    ) -> Two<C::Cell> {
        table.take_two(place, row)
    }

    fn put_in(self, table: &TurnTable<C>, place: &mut Place<C>) {
        table.fill_two(place, self.0, self.1);
    }
}

impl<C: Core> Lot<C> for Three<C::Cell> {
    ghost use Rattle.std.specs.Prelude.{◌≡◌, [], ◌∷◌};

    ghost cells = { λ p. p.0 ∷ p.1 ∷ p.2 ∷ [] };

    ghost fits = { λ n. n ≡ 3 };

    fn taken_out(
        table: &TurnTable<C>,
        place: &mut Place<C>,
        row: &[(u32, Option<u8>)],
    ) -> Three<C::Cell> {
        table.take_three(place, row)
    }

    fn put_in(self, table: &TurnTable<C>, place: &mut Place<C>) {
        table.fill_three(place, self.0, self.1, self.2);
    }
}

impl<C: Core> Lot<C> for Held<C::Cell> {
    ghost use Rattle.std.specs.Prelude.{◌≤◌};

    ghost cells = { λ h. h };

    ghost fits = { λ n. n ≤ 7 };

    fn taken_out(
        table: &TurnTable<C>,
        place: &mut Place<C>,
        row: &[(u32, Option<u8>)],
    ) -> Held<C::Cell> {
        table.empty_slots(place, row)
    }

    fn put_in(self, table: &TurnTable<C>, place: &mut Place<C>) {
        table.fill_slots(place, self);
    }
}
