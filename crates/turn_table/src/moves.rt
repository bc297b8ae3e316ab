//! Values into and out of the slots that a seat has, and the slots in turn. No word changes.
ghost use Rattle.std.specs.Prelude.{ℕ, ◌≡◌, ◌≤◌, ◌<◌, [], ◌∷◌, ◌++◌, ◌-◌, length, take, drop, true, false, Option, Some, None};
ghost use mathlib.Core.Option.{some};
ghost use lib.ListN.{get_elem?};
ghost use Rattle.atomic_table.specs.Table.{rest};
ghost use Rattle.turn_table.specs.Numbered.{value_of, numbers_of};
ghost use Rattle.turn_table.specs.Seat.{slots_of, values_of, turned_by};

use crate::cores::Core;
use crate::held::Held;
use crate::rule::Place;
use crate::table::TurnTable;

impl<C: Core> TurnTable<C> {
    /// Takes the value out of the first slot, which goes behind the others.
    pub(crate) fn take_front(&self, place: &mut Place<C>, number: u32) -> C::Cell
        requires own { place.old.table_id ≡ self.now }
        requires front { (c : C.Cell) × (place.old.me.1 ≡ (number, Some c) ∷ rest place.old.me.1) }
        ensures same { (place.new.table_id ≡ place.old.table_id) × (place.new.id ≡ place.old.id) }
        ensures value { place.old.me.1 ≡ (number, Some result) ∷ rest place.old.me.1 }
        ensures slots { place.new.me ≡ (place.old.me.0, rest place.old.me.1 ++ (number, None) ∷ []) }
    {
        let value = self.table.shared.exchange(place, number as usize, None);
        place.turn();
        value.unwrap()
    }

    /// Puts a value into the first slot, which goes behind the others.
    pub(crate) fn fill_front(&self, place: &mut Place<C>, number: u32, value: C::Cell)
        requires own { place.old.table_id ≡ self.now }
        requires front { place.old.me.1 ≡ (number, None) ∷ rest place.old.me.1 }
        ensures same { (place.new.table_id ≡ place.old.table_id) × (place.new.id ≡ place.old.id) }
        ensures slots { place.new.me ≡ (place.old.me.0, rest place.old.me.1 ++ (number, Some value) ∷ []) }
    {
        self.table
            .shared
            .exchange(place, number as usize, Some(value));
        place.turn();
    }

    /// Takes the values out of all slots.
    pub(crate) fn empty_slots(
        &self,
        place: &mut Place<C>,
        row: &[(u32, Option<u8>)],
    ) -> Held<C::Cell>
        requires own { place.old.table_id ≡ self.now }
        requires row { (numbers_of row.now ≡ numbers_of (values_of place.old.me.1)) × (length row.now ≤ 7) }
        requires full { place.old.me.1 ≡ slots_of false (values_of place.old.me.1) }
        ensures same { (place.new.table_id ≡ place.old.table_id) × (place.new.id ≡ place.old.id) }
        ensures values { result ≡ values_of place.old.me.1 }
        ensures slots { place.new.me ≡ (place.old.me.0, slots_of true (values_of place.old.me.1)) }
    {
        let mut held = Held::new();
        for told in row {
            let value = self.take_front(place, told.0);
            held = held.with(told.0, value);
        }
        held
    }

    /// Puts the values into the slots.
    pub(crate) fn fill_slots(&self, place: &mut Place<C>, cells: Held<C::Cell>)
        requires own { place.old.table_id ≡ self.now }
        requires empty { place.old.me.1 ≡ slots_of true cells }
        ensures same { (place.new.table_id ≡ place.old.table_id) × (place.new.id ≡ place.old.id) }
        ensures slots { place.new.me ≡ (place.old.me.0, slots_of false cells) }
    {
        let mut left = cells;
        while let Some(next) = left.split_first() {
            let (entry, others) = next;
            let (number, value) = entry;
            self.fill_front(place, number, value);
            left = others;
        }
    }
}

/// The first slots go behind the others, as many as `count`.
pub(crate) fn turn_by<C: Core>(place: &mut Place<C>, count: usize)
    requires { count ≤ length place.old.me.1 }
    ensures same { (place.new.table_id ≡ place.old.table_id) × (place.new.id ≡ place.old.id) }
    ensures slots { place.new.me ≡ (place.old.me.0, drop count place.old.me.1 ++ take count place.old.me.1) }
{
    for _ in 0..count {
        place.turn();
    }
}

/// The slots stand again as their cells were taken, where the first `ahead` of them stood behind the others.
pub(crate) fn straighten<C: Core>(place: &mut Place<C>, count: usize, ahead: usize)
    requires { (ahead ≤ count) × (count ≤ length place.old.me.1) }
    ensures same { (place.new.table_id ≡ place.old.table_id) × (place.new.id ≡ place.old.id) }
    ensures slots { place.new.me ≡ (place.old.me.0, turned_by (count - ahead) place.old.me.1) }
{
    turn_by::<C>(place, count - ahead);
}

/// Where a held cell stands among those of its seat.
pub(crate) fn position(row: &[(u32, Option<u8>)], cell: u32) -> usize
    requires { (r : Option ℕ) × (value_of row.now cell ≡ some r) }
    ensures { (r : Option ℕ) × (get_elem? row.now result ≡ some (cell, r)) }
{
    for i in 0..row.len() {
        if row[i].0 == cell {
            return i;
        }
    }
    unreachable!()
}
