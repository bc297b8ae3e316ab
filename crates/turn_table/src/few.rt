//! The values of one cell, of two or three out of their slots and into them, with no list of them.
ghost use Rattle.std.specs.Prelude.{◌≡◌, ◌<◌, [], ◌∷◌, ◌++◌, length, true, false, Some, None};
ghost use Rattle.turn_table.specs.Numbered.{numbers_of};
ghost use Rattle.turn_table.specs.Seat.{slots_of, told_at, values_of};
ghost use Rattle.atomic_table.specs.Table.{rest};

use crate::cores::Core;
use crate::lots::{One, Three, Two};
use crate::rule::Place;
use crate::table::TurnTable;

impl<C: Core> TurnTable<C> {
    /// Takes the value out of the first slot, which is that of the cell that was told at a place of the row. The slot goes
    /// behind the others.
    fn take_at(&self, place: &mut Place<C>, row: &[(u32, Option<u8>)], at: usize) -> One<C::Cell>
        requires own { place.old.table_id ≡ self.now }
        requires told { at < length row.now }
        requires front { (c : C.Cell) × (place.old.me.1 ≡ (told_at row.now at, Some c) ∷ rest place.old.me.1) }
        ensures same { (place.new.table_id ≡ place.old.table_id) × (place.new.id ≡ place.old.id) }
        ensures number { result.0 ≡ told_at row.now at }
        ensures value { place.old.me.1 ≡ (result.0, Some result.1) ∷ rest place.old.me.1 }
        ensures slots { place.new.me ≡ (place.old.me.0, rest place.old.me.1 ++ (result.0, None) ∷ []) }
    {
        let number = row[at].0;
        let value = self.take_front(place, number);
        (number, value)
    }

    /// Takes the values out of the one slot.
    pub(crate) fn take_one(&self, place: &mut Place<C>, row: &[(u32, Option<u8>)]) -> One<C::Cell>
        requires own { place.old.table_id ≡ self.now }
        requires row { (numbers_of row.now ≡ numbers_of (values_of place.old.me.1)) × (length row.now ≡ 1) }
        requires full { place.old.me.1 ≡ slots_of false (values_of place.old.me.1) }
        ensures same { (place.new.table_id ≡ place.old.table_id) × (place.new.id ≡ place.old.id) }
        ensures values { result ∷ [] ≡ values_of place.old.me.1 }
        ensures slots { place.new.me ≡ (place.old.me.0, slots_of true (values_of place.old.me.1)) }
    {
        self.take_at(place, row, 0)
    }

    /// Puts the value of the cell into the slot.
    pub(crate) fn fill_one(&self, place: &mut Place<C>, a: One<C::Cell>)
        requires own { place.old.table_id ≡ self.now }
        requires empty { place.old.me.1 ≡ slots_of true (a ∷ []) }
        ensures same { (place.new.table_id ≡ place.old.table_id) × (place.new.id ≡ place.old.id) }
        ensures slots { place.new.me ≡ (place.old.me.0, slots_of false (a ∷ [])) }
    {
        self.fill_front(place, a.0, a.1);
    }

    /// Takes the values out of the two slots.
    pub(crate) fn take_two(&self, place: &mut Place<C>, row: &[(u32, Option<u8>)]) -> Two<C::Cell>
        requires own { place.old.table_id ≡ self.now }
        requires row { (numbers_of row.now ≡ numbers_of (values_of place.old.me.1)) × (length row.now ≡ 2) }
        requires full { place.old.me.1 ≡ slots_of false (values_of place.old.me.1) }
        ensures same { (place.new.table_id ≡ place.old.table_id) × (place.new.id ≡ place.old.id) }
        ensures values { result.0 ∷ result.1 ∷ [] ≡ values_of place.old.me.1 }
        ensures slots { place.new.me ≡ (place.old.me.0, slots_of true (values_of place.old.me.1)) }
    {
        let a = self.take_at(place, row, 0);
        let b = self.take_at(place, row, 1);
        (a, b)
    }

    /// Puts the values of the cells into the slots.
    pub(crate) fn fill_two(&self, place: &mut Place<C>, a: One<C::Cell>, b: One<C::Cell>)
        requires own { place.old.table_id ≡ self.now }
        requires empty { place.old.me.1 ≡ slots_of true (a ∷ b ∷ []) }
        ensures same { (place.new.table_id ≡ place.old.table_id) × (place.new.id ≡ place.old.id) }
        ensures slots { place.new.me ≡ (place.old.me.0, slots_of false (a ∷ b ∷ [])) }
    {
        self.fill_front(place, a.0, a.1);
        self.fill_front(place, b.0, b.1);
    }

    /// Takes the values out of the three slots.
    pub(crate) fn take_three(
        &self,
        place: &mut Place<C>,
        row: &[(u32, Option<u8>)],
    ) -> Three<C::Cell>
        requires own { place.old.table_id ≡ self.now }
        requires row { (numbers_of row.now ≡ numbers_of (values_of place.old.me.1)) × (length row.now ≡ 3) }
        requires full { place.old.me.1 ≡ slots_of false (values_of place.old.me.1) }
        ensures same { (place.new.table_id ≡ place.old.table_id) × (place.new.id ≡ place.old.id) }
        ensures values { result.0 ∷ result.1 ∷ result.2 ∷ [] ≡ values_of place.old.me.1 }
        ensures slots { place.new.me ≡ (place.old.me.0, slots_of true (values_of place.old.me.1)) }
    {
        let a = self.take_at(place, row, 0);
        let b = self.take_at(place, row, 1);
        let c = self.take_at(place, row, 2);
        (a, b, c)
    }

    /// Puts the values of the cells into the slots.
    pub(crate) fn fill_three(
        &self,
        place: &mut Place<C>,
        a: One<C::Cell>,
        b: One<C::Cell>,
        c: One<C::Cell>,
    )
        requires own { place.old.table_id ≡ self.now }
        requires empty { place.old.me.1 ≡ slots_of true (a ∷ b ∷ c ∷ []) }
        ensures same { (place.new.table_id ≡ place.old.table_id) × (place.new.id ≡ place.old.id) }
        ensures slots { place.new.me ≡ (place.old.me.0, slots_of false (a ∷ b ∷ c ∷ [])) }
    {
        self.fill_front(place, a.0, a.1);
        self.fill_front(place, b.0, b.1);
        self.fill_front(place, c.0, c.1);
    }
}
