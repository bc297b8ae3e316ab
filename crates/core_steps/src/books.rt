//! The steps of inserts, queries and pulls at desks and images.

use crate::places::{ledger_place, registry_place};
use crate::step::{CellStep, Others, Places};
use core_shard::volap_cell::{Actor, Cell, lent};
use dim_hierarchy::Hierarchy;
use std::alloc::{AllocError, Global};

/// A step of an actor's insert, query or pull, with the desk or the image of a server.
#[derive(Drop)]
pub enum BookStep {
    /// The part of its insert is laid on the empty desk.
    Route { desk: u32, image: u32 },
    /// Its insert, whose part is placed, is acknowledged.
    Ack { desk: u32, image: u32 },
    /// Its query, whose parts come to a sum, is answered.
    Answer { desk: u32 },
    /// The pull that is due for its command is made.
    Sync { image: u32 },
    /// Its insert, of which no part is laid yet, fails for want of memory.
    FailUnrouted { image: u32 },
    /// Its insert, whose part found no memory, fails.
    FailRouted { desk: u32, image: u32 },
    /// Its query, of which a part found no memory, fails.
    FailQuery { desk: u32 },
}

impl CellStep for BookStep {
    ghost use Rattle.std.specs.Prelude.{⊤};
    ghost use Rattle.core_steps.specs.Books.{book_asks, book_kind, book_may_fail, book_places, book_tells};

    ghost kind = { book_kind };

    ghost places = { book_places };

    ghost asks = { book_asks };

    ghost sees = { λ step s w n. ⊤ };

    ghost tells = { book_tells };

    ghost may_fail = { book_may_fail };

    ghost has_room = { λ step actor. ⊥ };

    fn places(&self) -> Places {
        let ledger = ledger_place();
        match self {
            BookStep::FailUnrouted { image } => Places::Two(*image, ledger),
            BookStep::Route { desk, image } => Places::Two(*desk, *image),
            BookStep::Answer { desk } | BookStep::FailQuery { desk } => {
                Places::Two(*desk, ledger)
            }
            BookStep::Ack { desk, image } | BookStep::FailRouted { desk, image } => {
                Places::Many(*desk, *image, [Some(ledger), None, None, None, None])
            }
            BookStep::Sync { image } => Places::Many(
                *image,
                registry_place(),
                [Some(ledger), None, None, None, None],
            ),
        }
    }

    fn run(
        self,
        alloc: Global,
        h: &Hierarchy,
        first: &mut Option<Cell>,
        second: &mut Option<Cell>,
        others: &mut Others,
        actor: &mut Actor,
    ) -> Result<(), AllocError> {
        let ledger_at = ledger_place();
        let (first, second) = (lent(first), lent(second));
        match self {
            BookStep::Route { desk, image } => {
                core_admin::core_image::route(alloc, h, desk, first, image, second, actor)
            }
            BookStep::Ack { desk, image } => {
                core_admin::core_image::ack(
                    h,
                    desk,
                    first,
                    image,
                    second,
                    ledger_at,
                    lent(&mut others.third),
                    actor,
                );
                Ok(())
            }
            BookStep::Answer { desk } => {
                core_admin::core_image::answer(h, desk, first, ledger_at, second, actor);
                Ok(())
            }
            BookStep::Sync { image } => {
                core_admin::core_image::sync(
                    alloc,
                    h,
                    image,
                    first,
                    registry_place(),
                    second,
                    ledger_at,
                    lent(&mut others.third),
                    actor,
                )
            }
            BookStep::FailUnrouted { image } => {
                core_admin::core_image::fail_unrouted(h, image, first, ledger_at, second, actor);
                Ok(())
            }
            BookStep::FailRouted { desk, image } => {
                core_admin::core_image::fail_routed(
                    h,
                    desk,
                    first,
                    image,
                    second,
                    ledger_at,
                    lent(&mut others.third),
                    actor,
                );
                Ok(())
            }
            BookStep::FailQuery { desk } => {
                core_admin::core_image::fail_query(h, desk, first, ledger_at, second, actor);
                Ok(())
            }
        }
    }
}
