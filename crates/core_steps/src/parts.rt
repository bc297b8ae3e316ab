//! The steps of parts between desks, tables of shards and gates.

use crate::step::{CellStep, Others, Places};
use core_shard::volap_cell::{Actor, Cell, lent};
use dim_hierarchy::Hierarchy;
use std::alloc::{AllocError, Global};

/// A step of an actor that takes a part from a desk, sends it on, or ends it.
#[derive(Drop)]
pub enum PartStep {
    /// It takes the first part on the desk that it may take.
    TakePart { desk: u32 },
    /// It looks up for its row how high the tree at the gate is, to which the worker's table leads.
    LookUp { map: u32, gate: u32 },
    /// Its part goes back to the desk, where it waits for the worker to which its shard has moved.
    Forward { map: u32, desk: u32 },
    /// Its part goes back to the desk as parts for the children of its shard, which was split.
    Expand { map: u32, desk: u32 },
    /// Its part, which is pinned at no gate, goes back to the desk at its end.
    FinishPart { desk: u32 },
    /// Its part, which is pinned at the gate, goes back to the desk at its end, and the gate loses the pin.
    FinishPinned { gate: u32, desk: u32 },
}

impl CellStep for PartStep {
    ghost use Rattle.std.specs.Prelude.{⊤};
    ghost use Rattle.core_steps.specs.Parts.{part_asks, part_kind, part_may_fail, part_places};

    ghost kind = { part_kind };

    ghost places = { part_places };

    ghost asks = { part_asks };

    ghost sees = { λ step s w n. ⊤ };

    ghost tells = { λ step a was now. ⊤ };

    ghost may_fail = { part_may_fail };

    ghost has_room = { λ step actor. ⊥ };

    fn places(&self) -> Places {
        match self {
            PartStep::TakePart { desk } | PartStep::FinishPart { desk } => Places::One(*desk),
            PartStep::LookUp { map, gate } => Places::Two(*map, *gate),
            PartStep::Forward { map, desk } | PartStep::Expand { map, desk } => {
                Places::Two(*map, *desk)
            }
            PartStep::FinishPinned { gate, desk } => Places::Two(*gate, *desk),
        }
    }

    fn run(
        self,
        alloc: Global,
        h: &Hierarchy,
        first: &mut Option<Cell>,
        second: &mut Option<Cell>,
        _others: &mut Others,
        actor: &mut Actor,
    ) -> Result<(), AllocError> {
        match self {
            PartStep::TakePart { desk } => core_shard::take_part(h, desk, lent(first), actor),
            PartStep::LookUp { map, gate } => {
                core_shard::look_up(h, map, lent(first), gate, lent(second), actor);
            }
            PartStep::Forward { map, desk } => {
                core_shard::forward(h, map, lent(first), desk, lent(second), actor);
            }
            PartStep::Expand { map, desk } => {
                return core_shard::expand(alloc, h, map, lent(first), desk, lent(second), actor);
            }
            PartStep::FinishPart { desk } => {
                core_shard::finish_part(h, 0, &mut None, desk, lent(first), actor);
            }
            PartStep::FinishPinned { gate, desk } => {
                core_shard::finish_part(h, gate, first, desk, lent(second), actor);
            }
        }
        Ok(())
    }
}
