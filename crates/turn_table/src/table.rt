//! The table, and its steps on a cell's word.
ghost use Rattle.std.specs.Prelude.{◌≡◌, ◌≢◌, ◌+◌, ◌<◌, [], ◌∷◌, Some, ◌≤◌, vec_len, vec_capacity};
ghost use Rattle.atomic_table.specs.Table.{rest};
ghost use mathlib.Core.Option.{some, none};
ghost use Rattle.turn_table.specs.Numbered.{value_of, Extends};
ghost use Rattle.turn_table.specs.Views.{HasAll, after_take, after_refusal};
ghost use Rattle.turn_table.specs.Law.{IsPossible, IsCommit, IsRelease};
ghost use Rattle.turn_table.specs.Seat.{cell_count};

use crate::cores::Core;
use crate::rule::{Inner, Place};
use crate::steps::{Aim, Give, Take};
use crate::view::View;
use std::marker::Model;
use std::sync::atomic::AtomicU64;

/// Cells under turns. A cell's word is 0 where it is free, else the number of the seat that holds it,
/// plus 1.
#[derive(Drop)]
pub struct TurnTable<C: Core> {
    pub(crate) table: Inner<C>,
    /// Room for the cells at the end.
    pub(crate) spare: Vec<Option<C::Cell>>,
    /// For each cell how many threads wait for it, asleep or about to be. It saves a call of the system where none does.
    pub(crate) waiting: Vec<AtomicU64>,
}

impl<C: Core> Model for TurnTable<C> {
    ghost use Rattle.std.specs.Prelude.{◌≡◌, ◌≤◌, vec_len, vec_capacity};
    ghost use Rattle.atomic_table.specs.Seated.{TableId};

    ghost Value = { TableId };

    ghost view = { λ t. t.table.shared.table_id };

    ghost invariant = { λ t. (vec_len t.spare ≡ 0) × (t.table.shared.table_id.slots ≤ vec_capacity t.spare) × (t.table.shared.table_id.words ≡ t.table.shared.table_id.slots) × (vec_len t.waiting ≡ t.table.shared.table_id.words) };
}

impl<C: Core> TurnTable<C> {
    /// Takes the cell's turn if it is free, and answers the word that was found.
    pub(crate) fn grab(&self, place: &mut Place<C>, number: u32, cell: u32) -> u64
        requires own { (place.old.table_id ≡ self.now) × (place.old.me.0.number ≡ number) }
        requires active { place.old.me.0.actors ≢ [] }
        requires cell { cell < cell_count self.now }
        ensures same { (place.new.table_id ≡ place.old.table_id) × (place.new.id ≡ place.old.id) }
        ensures took { result ≡ 0 → (c : C.Cell) × (place.new.me ≡ (after_take C.log_at C.log place.old.me.0 cell c, (cell, Some c) ∷ place.old.me.1))
            × IsPossible C.invariant C.log_at C.log C.needs place.new.me.0 × Extends place.new.me.0.seen place.old.me.0.seen
            × (HasAll place.old.me.0.actor_count place.old.me.0 → (d : C.Cell) → value_of place.old.me.0.known cell ≡ some d → c ≡ d) }
        ensures busy { result ≢ 0 → (place.new.me ≡ (after_refusal place.old.me.0 cell result, place.old.me.1)) × (value_of place.old.me.0.held cell ≡ none → result ≢ number + 1) }
    {
        self.table
            .shared
            .compare_exchange::<Take<C>>(place, cell as usize, 0, number as u64 + 1)
    }

    /// One event: the cell that was taken last is given back, and the view is the one that is picked.
    /// Wakes one thread that waits for the cell, if one does.
    pub(crate) fn commit_as<B: Aim<View<C::Cell, C::Actor, C::Entry>>>(
        &self,
        place: &mut Place<C>,
        cell: u32,
        _number: u32,
        _actor: &C::Actor,
    )
        requires own { (place.old.table_id ≡ self.now) × (cell < cell_count self.now) }
        requires goes { IsCommit C.log_at C.log C.needs C.change place.old.me B.next cell }
        ensures { (place.new.table_id ≡ place.old.table_id) × (place.new.id ≡ place.old.id) × (place.new.me ≡ (B.next place.old.me.0, rest place.old.me.1)) × IsPossible C.invariant C.log_at C.log C.needs place.new.me.0 × Extends place.new.me.0.seen place.old.me.0.seen }
    {
        self.table
            .shared
            .swap::<Give<C, B>>(place, cell as usize, 0);
        self.wake(cell);
    }

    /// No event: the cell that was taken last is given back as it was. Wakes one thread that waits for it, if one does.
    pub(crate) fn release_as<B: Aim<View<C::Cell, C::Actor, C::Entry>>>(
        &self,
        place: &mut Place<C>,
        cell: u32,
    )
        requires own { (place.old.table_id ≡ self.now) × (cell < cell_count self.now) }
        requires goes { IsRelease C.needs place.old.me B.next cell }
        ensures { (place.new.table_id ≡ place.old.table_id) × (place.new.id ≡ place.old.id) × (place.new.me ≡ (B.next place.old.me.0, rest place.old.me.1)) × IsPossible C.invariant C.log_at C.log C.needs place.new.me.0 × Extends place.new.me.0.seen place.old.me.0.seen }
    {
        self.table
            .shared
            .swap::<Give<C, B>>(place, cell as usize, 0);
        self.wake(cell);
    }
}
