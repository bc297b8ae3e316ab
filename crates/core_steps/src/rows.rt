//! The steps of rows to a head that may be full: in at a gate, or down from a block.
ghost use Rattle.std.specs.Prelude.{◌≡◌};
ghost use Rattle.core_steps.specs.Rows.{number_of};

use crate::step::{CellStep, Others, Places};
use core_shard::volap_cell::{Actor, Cell, lent};
use dim_hierarchy::Hierarchy;
use std::alloc::{AllocError, Global};

/// A step of an actor's row to a head.
#[derive(Drop)]
pub enum RowStep {
    /// Its row goes down to the child to which the entry at a place of the parent leads. Where the child is
    /// full, the next two blocks of its group are held, as many as there are, and the cell of the last spare.
    Down {
        parent: u32,
        place: u8,
        child: u32,
        first: Option<u32>,
        second: Option<u32>,
        fresh: Option<u32>,
    },
    /// Its row comes in at the open gate, to which the worker's table leads. Where the root is full, the
    /// next two blocks of its group are held, as many as there are, and the cells of the last two spares.
    EnterTree {
        map: u32,
        gate: u32,
        root: u32,
        first: Option<u32>,
        second: Option<u32>,
        fresh: Option<u32>,
        top: Option<u32>,
    },
}

/// The number of a cell that is held at times. Where it isn't held, the number isn't read.
fn number_of(cell: Option<u32>) -> u32
    ensures { result ≡ number_of cell }
{
    cell.unwrap_or(0)
}

impl CellStep for RowStep {
    ghost use Rattle.std.specs.Prelude.{⊤, false};
    ghost use Rattle.core_steps.specs.Rows.{row_asks, row_kind, row_places};

    ghost kind = { row_kind };

    ghost places = { row_places };

    ghost asks = { row_asks };

    ghost sees = { λ step s w n. ⊤ };

    ghost tells = { λ step a was now. ⊤ };

    ghost may_fail = { λ step. false };

    ghost has_room = { λ step actor. ⊥ };

    fn places(&self) -> Places {
        match self {
            RowStep::Down {
                parent,
                child,
                first: None,
                second: None,
                fresh: None,
                ..
            } => Places::Two(*parent, *child),
            RowStep::Down {
                parent,
                child,
                first,
                second,
                fresh,
                ..
            } => Places::Many(*parent, *child, [*first, *second, *fresh, None, None]),
            RowStep::EnterTree {
                map,
                gate,
                root,
                first,
                second,
                fresh,
                top,
            } => Places::Many(*map, *gate, [Some(*root), *first, *second, *fresh, *top]),
        }
    }

    fn run(
        self,
        alloc: Global,
        h: &Hierarchy,
        first: &mut Option<Cell>,
        second: &mut Option<Cell>,
        others: &mut Others,
        actor: &mut Actor,
    ) -> Result<(), AllocError> {
        let _ = alloc;
        match self {
            RowStep::Down {
                parent,
                place,
                child,
                first: next,
                second: last,
                fresh,
            } => {
                core_admin::core_tree::down(
                    h,
                    parent,
                    lent(first),
                    place,
                    child,
                    lent(second),
                    number_of(next),
                    &mut others.third,
                    number_of(last),
                    &mut others.fourth,
                    number_of(fresh),
                    &mut others.fifth,
                    actor,
                );
            }
            RowStep::EnterTree {
                map,
                gate,
                root,
                first: next,
                second: last,
                fresh,
                top,
            } => {
                core_admin::core_tree::enter_tree(
                    h,
                    map,
                    lent(first),
                    gate,
                    lent(second),
                    root,
                    lent(&mut others.third),
                    number_of(next),
                    &mut others.fourth,
                    number_of(last),
                    &mut others.fifth,
                    number_of(fresh),
                    &mut others.sixth,
                    number_of(top),
                    &mut others.seventh,
                    actor,
                );
            }
        }
        Ok(())
    }
}
