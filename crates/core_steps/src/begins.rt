//! The steps by which inserts and queries begin.

use crate::places::ledger_place;
use crate::step::{CellStep, Others, Places};
use core_shard::volap_cell::{Actor, Cell, lent};
use dim_hierarchy::{Coord, Filter, Hierarchy, Measures};
use std::alloc::{AllocError, Global};

/// A step by which an actor's next command begins, with the image of its server.
#[derive(Drop)]
pub enum BeginStep {
    /// It begins an insert of a row at this coordinate.
    Insert {
        image: u32,
        at: Coord,
        measures: Measures,
    },
    /// It begins a query, whose parts are laid on the empty desk.
    Query {
        desk: u32,
        image: u32,
        filter: Filter,
    },
}

impl CellStep for BeginStep {
    ghost use Rattle.std.specs.Prelude.{⊤, true};
    ghost use Rattle.core_steps.specs.Begins.{begin_asks, begin_kind, begin_places, begin_tells};

    ghost kind = { begin_kind };

    ghost places = { begin_places };

    ghost asks = { begin_asks };

    ghost sees = { λ step s w n. ⊤ };

    ghost tells = { begin_tells };

    ghost may_fail = { λ step. true };

    ghost has_room = { λ step actor. ⊥ };

    fn places(&self) -> Places {
        match self {
            BeginStep::Insert { image, .. } => Places::Two(*image, ledger_place()),
            BeginStep::Query { desk, image, .. } => {
                Places::Many(
                    *desk,
                    *image,
                    [Some(ledger_place()), None, None, None, None],
                )
            }
        }
    }

    fn run(
        self,
        alloc: Global,
        h: &Hierarchy,
        first: &mut Option<Cell>,
        second: &mut Option<Cell>,
        others: &mut Others,
        actor: &mut Actor,
    ) -> Result<(), AllocError> {
        let ledger_at = ledger_place();
        let (first, second) = (lent(first), lent(second));
        match self {
            BeginStep::Insert {
                image,
                at,
                measures,
            } => core_admin::core_image::begin_insert(
                alloc, h, image, first, ledger_at, second, actor, at, measures,
            ),
            BeginStep::Query {
                desk,
                image,
                filter,
            } => {
                core_admin::core_image::begin_query(
                    alloc,
                    h,
                    desk,
                    first,
                    image,
                    second,
                    ledger_at,
                    lent(&mut others.third),
                    actor,
                    filter,
                )
            }
        }
    }
}
