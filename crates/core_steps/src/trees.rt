//! The steps of rows and queries at a gate or a block, and of purses.
use crate::places::stock_place;
use crate::step::{CellStep, Others, Places};
use core_shard::volap_cell::{Actor, Cell, lent};
use dim_hierarchy::Hierarchy;
use std::alloc::{AllocError, Global};

/// A step of an actor at a gate or in its tree, or of its purse.
#[derive(Drop)]
pub enum TreeStep {
    /// Its row is put in the leaf.
    PutInLeaf { leaf: u32 },
    /// Its insert, whose row is in its leaf, is counted no more at the gate.
    LeaveTree { gate: u32 },
    /// Its row is put in the queue of the gate, to which the worker's table leads.
    EnterQueue { map: u32, gate: u32 },
    /// Its query reads the gate, to which the worker's table leads.
    ReadGate { map: u32, gate: u32 },
    /// Its query visits the block, which it noted last.
    VisitBlock { block: u32 },
    /// Its purse is emptied into the stock, and filled for the height that was looked up.
    Refill,
    /// The spares that are left in its purse go back to the stock.
    GiveBack,
}

impl CellStep for TreeStep {
    ghost use Rattle.std.specs.Prelude.{⊤};
    ghost use Rattle.core_steps.specs.Trees.{tree_asks, tree_has_room, tree_kind, tree_may_fail, tree_places};

    ghost kind = { tree_kind };

    ghost places = { tree_places };

    ghost asks = { tree_asks };

    ghost sees = { λ step s w n. ⊤ };

    ghost tells = { λ step a was now. ⊤ };

    ghost may_fail = { tree_may_fail };

    ghost has_room = { tree_has_room };

    fn places(&self) -> Places {
        match self {
            TreeStep::PutInLeaf { leaf } => Places::One(*leaf),
            TreeStep::LeaveTree { gate } => Places::One(*gate),
            TreeStep::EnterQueue { map, gate } | TreeStep::ReadGate { map, gate } => {
                Places::Two(*map, *gate)
            }
            TreeStep::VisitBlock { block } => Places::One(*block),
            TreeStep::Refill | TreeStep::GiveBack => Places::One(stock_place()),
        }
    }

    fn run(
        self,
        alloc: Global,
        h: &Hierarchy,
        first: &mut Option<Cell>,
        second: &mut Option<Cell>,
        others: &mut Others,
        actor: &mut Actor,
    ) -> Result<(), AllocError> {
        match self {
            TreeStep::PutInLeaf { leaf } => core_admin::core_tree::put_in_leaf(
                h,
                leaf,
                lent(first),
                actor,
            ),
            TreeStep::LeaveTree { gate } => core_admin::core_tree::leave_tree(
                h,
                gate,
                lent(first),
                actor,
            ),
            TreeStep::EnterQueue { map, gate } => {
                return core_admin::core_tree::enter_queue(
                    alloc,
                    h,
                    map,
                    lent(first),
                    gate,
                    lent(second),
                    actor,
                );
            }
            TreeStep::ReadGate { map, gate } => {
                return core_admin::core_tree::gate_read(
                    alloc,
                    h,
                    map,
                    lent(first),
                    gate,
                    lent(second),
                    actor,
                );
            }
            TreeStep::VisitBlock { block } => {
                return core_admin::core_tree::block_visit(h, block, lent(first), actor);
            }
            TreeStep::Refill => return core_admin::core_tree::refill(
                alloc,
                h,
                stock_place(),
                lent(first),
                actor,
            ),
            TreeStep::GiveBack => core_admin::core_tree::give_back(
                h,
                stock_place(),
                lent(first),
                actor,
            ),
        }
        Ok(())
    }
}
