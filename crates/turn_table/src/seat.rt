//! A seat, with the actors and the cells that it has.
ghost use Rattle.std.specs.Prelude.{◌≡◌};
ghost use Rattle.turn_table.specs.Numbered.{HaveOwnNumbers};

use crate::cores::Core;
use crate::rule::Place;
use arrayvec::ArrayVec;
use std::marker::Model;

/// How many cells a seat holds at most.
pub const MOST: usize = 7;

/// The right to step on a table with some of its actors. The actors themselves stay with the caller.
#[derive(Drop)]
pub struct Seat<C: Core> {
    /// Its number, which is that of one of its actors.
    pub(crate) number: u32,
    /// The held cells, the first taken first, each with the rank that was told for it.
    pub(crate) row: ArrayVec<(u32, Option<u8>), MOST>,
    /// Whether the values of the held cells are out.
    pub(crate) lifted: bool,
    /// How many of its slots the last look left behind the others.
    pub(crate) ahead: usize,
    pub(crate) place: Place<C>,
}

impl<C: Core> Model for Seat<C> {
    ghost use Rattle.turn_table.specs.Seat.{SeatValue, IsTurned};

    ghost Value = { SeatValue C.Cell C.Actor C.Entry };

    ghost view = { λ s. record { table_id = s.place.table_id; lifted = s.lifted; ranks = s.row.items; view = s.place.me.0 } };

    ghost invariant = { λ s. IsTurned C.invariant C.log_at C.log C.needs s.place.table_id.words s.number s.ahead s.row.items s.lifted s.place.me };
}

impl<C: Core> Seat<C> {
    /// The held cells, the first taken first, each with the rank that was told for it.
    pub fn held(&self) -> &[(u32, Option<u8>)]
        ensures ranks { result.now ≡ self.now.ranks }
        ensures apart { HaveOwnNumbers self.now.ranks }
    {
        self.row.as_slice()
    }
}
