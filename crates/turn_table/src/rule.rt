//! The rule under which the base keeps the words, the slots and the views.
use crate::cores::Core;
use crate::view::View;
use atomic_table::{Seat, Table, TableRule};
use std::alloc::Global;
use std::marker::PhantomData;
use std::snapshot::Snapshot;

/// What the table is told once: the cells and the actors that it begins with.
pub struct Key<Cell, Actor> {
    pub cells: Snapshot<Vec<Cell>>,
    pub actors: Snapshot<Vec<Actor>>,
}

impl<Cell, Actor> Drop for Key<Cell, Actor> {
    fn drop(self) {
        let Self {
            cells: _,
            actors: _,
        } = self;
    }
}

/// The rule of a core's table.
pub struct Turns<C> {
    core: PhantomData<C>,
}

impl<C: Core> TableRule<Option<C::Cell>, View<C::Cell, C::Actor, C::Entry>, Key<C::Cell, C::Actor>>
    for Turns<C> {
    ghost use Rattle.std.specs.Prelude.{length};
    ghost use Rattle.turn_table.specs.Rule.{IsUnderTurns};
    ghost use Rattle.turn_table.specs.Views.{first_view};

    ghost holds = { λ key. IsUnderTurns C.invariant C.log_at C.log C.needs (length key.actors.value.items) };

    ghost first = { λ key. first_view C.log_at C.log key.cells.value.items key.actors.value.items };
}

/// The base's table, with a word and a slot for each cell.
pub type Inner<C> = Table<
    Option<<C as Core>::Cell>,
    View<<C as Core>::Cell, <C as Core>::Actor, <C as Core>::Entry>,
    Key<<C as Core>::Cell, <C as Core>::Actor>,
    Turns<C>,
    Global,
>;

/// The base's seat.
pub type Place<C> = Seat<
    Option<<C as Core>::Cell>,
    View<<C as Core>::Cell, <C as Core>::Actor, <C as Core>::Entry>,
>;
