//! The steps by which the cells of a gate that is gone are used again.

use crate::places::stock_place;
use crate::step::{CellStep, Others, Places};
use core_shard::volap_cell::{Actor, Cell, lent};
use dim_hierarchy::Hierarchy;
use std::alloc::{AllocError, Global};

/// A step of the administrator, who has no command, by which one cell of a gate that is gone is the stock's again.
#[derive(Drop)]
pub enum ReuseStep {
    /// The cell of the block that stands last in the list of the gate.
    Block { gate: u32, block: u32 },
    /// The gate's own cell, where no block is left.
    Gate { gate: u32 },
}

impl CellStep for ReuseStep {
    ghost use Rattle.std.specs.Prelude.{⊤, false};
    ghost use Rattle.core_steps.specs.Reuses.{reuse_asks, reuse_places};
    ghost use Rattle.core_shard.specs.volap_cell.specs.declared.kind.Kind.TheVariants.{Reuse};

    ghost kind = { λ step. Reuse };

    ghost places = { reuse_places };

    ghost asks = { reuse_asks };

    ghost sees = { λ step s w n. ⊤ };

    ghost tells = { λ step a was now. ⊤ };

    ghost may_fail = { λ step. false };

    ghost has_room = { λ step actor. ⊥ };

    fn places(&self) -> Places {
        match self {
            ReuseStep::Block { gate, block } => {
                Places::Many(*gate, *block, [Some(stock_place()), None, None, None, None])
            }
            ReuseStep::Gate { gate } => Places::Two(*gate, stock_place()),
        }
    }

    fn run(
        self,
        alloc: Global,
        h: &Hierarchy,
        first: &mut Option<Cell>,
        second: &mut Option<Cell>,
        others: &mut Others,
        actor: &mut Actor,
    ) -> Result<(), AllocError> {
        match self {
            ReuseStep::Block { gate, block } => core_admin::reuse_block(
                alloc,
                h,
                gate,
                lent(first),
                block,
                lent(second),
                stock_place(),
                lent(&mut others.third),
                actor,
            ),
            ReuseStep::Gate { gate } => {
                core_admin::reuse_gate(h, gate, lent(first), stock_place(), lent(second), actor);
            }
        }
        Ok(())
    }
}
