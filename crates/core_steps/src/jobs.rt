//! The steps that the administrator makes for a split, a move or a balance.

use crate::places::{ledger_place, registry_place, stock_place};
use crate::step::{CellStep, Others, Places};
use core_shard::volap_cell::{Actor, Cell, lent};
use dim_hierarchy::Hierarchy;
use std::alloc::{AllocError, Global};

/// A step of the administrator's job, or of its balance.
#[derive(Drop)]
pub enum JobStep {
    /// The balance reads how many rows a shard has, at the gate to which the table leads; there are so many
    /// workers.
    ReadLoad {
        map: u32,
        gate: u32,
        workers: u8,
    },
    /// The shard of the gate, to which the table leads, is frozen, or the job is declined.
    Freeze {
        map: u32,
        gate: u32,
    },
    /// The tree at the gate has no insert any more, and the job goes on to collect rows.
    Drained {
        gate: u32,
    },
    /// The block that the job noted last is read.
    CollectBlock {
        block: u32,
    },
    /// The next row of the gate's queue is collected.
    CollectRow {
        gate: u32,
    },
    /// The new trees are made of the rows that were collected from the gate.
    BuildTrees {
        gate: u32,
    },
    /// The last block that isn't in its cell yet is put there.
    BuildBlock {
        cell: u32,
    },
    /// The shard of the gate is replaced by the children at the new gates.
    FinishSplit {
        map: u32,
        gate: u32,
        left: u32,
        right: u32,
    },
    /// The shard of the gate goes to the new gate at another worker.
    FinishMove {
        from: u32,
        to: u32,
        gate: u32,
        new: u32,
    },
    /// The shard of the gate goes to the new gate at the same worker.
    FinishHere {
        map: u32,
        gate: u32,
        new: u32,
    },
    /// The job is given up, whose shard is frozen and stays so.
    Postpone,
}

impl CellStep for JobStep {
    ghost use Rattle.std.specs.Prelude.{⊤};
    ghost use Rattle.core_steps.specs.Jobs.{job_asks, job_kind, job_may_fail, job_places};

    ghost kind = { job_kind };

    ghost places = { job_places };

    ghost asks = { job_asks };

    ghost sees = { λ step s w n. ⊤ };

    ghost tells = { λ step a was now. ⊤ };

    ghost may_fail = { job_may_fail };

    ghost has_room = { λ step actor. ⊥ };

    fn places(&self) -> Places {
        match self {
            JobStep::ReadLoad { map, gate, .. } => Places::Two(*map, *gate),
            JobStep::Freeze { map, gate } => {
                Places::Many(*map, *gate, [Some(stock_place()), None, None, None, None])
            }
            JobStep::Drained { gate }
            | JobStep::CollectRow { gate }
            | JobStep::BuildTrees { gate } => Places::One(*gate),
            JobStep::CollectBlock { block } => Places::One(*block),
            JobStep::BuildBlock { cell } => Places::One(*cell),
            JobStep::FinishSplit {
                map,
                gate,
                left,
                right,
            } => Places::Many(
                *map,
                *gate,
                [
                    Some(*left),
                    Some(*right),
                    Some(registry_place()),
                    Some(stock_place()),
                    Some(ledger_place()),
                ],
            ),
            JobStep::FinishMove {
                from,
                to,
                gate,
                new,
            } => Places::Many(
                *from,
                *to,
                [
                    Some(*gate),
                    Some(*new),
                    Some(registry_place()),
                    Some(stock_place()),
                    Some(ledger_place()),
                ],
            ),
            JobStep::FinishHere { map, gate, new } => Places::Many(
                *map,
                *gate,
                [
                    Some(*new),
                    Some(registry_place()),
                    Some(stock_place()),
                    Some(ledger_place()),
                    None,
                ],
            ),
            JobStep::Postpone => Places::Two(stock_place(), ledger_place()),
        }
    }

    fn run(
        self,
        alloc: Global,
        h: &Hierarchy,
        first: &mut Option<Cell>,
        second: &mut Option<Cell>,
        others: &mut Others,
        actor: &mut Actor,
    ) -> Result<(), AllocError> {
        match self {
            JobStep::ReadLoad { map, gate, workers } => {
                core_admin::read_load(
                    alloc,
                    h,
                    map,
                    lent(first),
                    gate,
                    lent(second),
                    actor,
                    workers,
                );
                Ok(())
            }
            JobStep::Freeze { map, gate } => {
                core_admin::freeze(
                    alloc,
                    h,
                    map,
                    lent(first),
                    gate,
                    lent(second),
                    stock_place(),
                    lent(&mut others.third),
                    actor,
                )
            }
            JobStep::Drained { gate } => {
                core_admin::drained(alloc, h, gate, lent(first), actor);
                Ok(())
            }
            JobStep::CollectBlock { block } => {
                core_admin::collect_block(h, block, lent(first), actor)
            }
            JobStep::CollectRow { gate } => core_admin::collect_row(h, gate, lent(first), actor),
            JobStep::BuildTrees { gate } => {
                core_admin::build_trees(alloc, h, gate, lent(first), actor)
            }
            JobStep::BuildBlock { cell } => {
                core_admin::build_block(alloc, h, cell, lent(first), actor);
                Ok(())
            }
            JobStep::FinishSplit {
                map,
                gate,
                left,
                right,
            } => {
                core_admin::finish_split(
                    alloc,
                    h,
                    map,
                    lent(first),
                    gate,
                    lent(second),
                    left,
                    lent(&mut others.third),
                    right,
                    lent(&mut others.fourth),
                    registry_place(),
                    lent(&mut others.fifth),
                    stock_place(),
                    lent(&mut others.sixth),
                    ledger_place(),
                    lent(&mut others.seventh),
                    actor,
                )
            }
            JobStep::FinishMove {
                from,
                to,
                gate,
                new,
            } => {
                core_admin::finish_move(
                    alloc,
                    h,
                    from,
                    lent(first),
                    to,
                    lent(second),
                    gate,
                    lent(&mut others.third),
                    new,
                    lent(&mut others.fourth),
                    registry_place(),
                    lent(&mut others.fifth),
                    stock_place(),
                    lent(&mut others.sixth),
                    ledger_place(),
                    lent(&mut others.seventh),
                    actor,
                )
            }
            JobStep::FinishHere { map, gate, new } => {
                core_admin::finish_here(
                    alloc,
                    h,
                    map,
                    lent(first),
                    gate,
                    lent(second),
                    new,
                    lent(&mut others.third),
                    registry_place(),
                    lent(&mut others.fourth),
                    stock_place(),
                    lent(&mut others.fifth),
                    ledger_place(),
                    lent(&mut others.sixth),
                    actor,
                )
            }
            JobStep::Postpone => {
                core_admin::postpone(
                    h,
                    stock_place(),
                    lent(first),
                    ledger_place(),
                    lent(second),
                    actor,
                );
                Ok(())
            }
        }
    }
}
