//! The steps by which a session comes to the desk of its server, and goes.

use crate::step::{CellStep, Others, Places};
use core_shard::volap_cell::{Actor, Cell, lent};
use dim_hierarchy::Hierarchy;
use std::alloc::{AllocError, Global};

/// A step of a session by which its server's desk counts it, or counts it no more.
#[derive(Drop)]
pub enum CountStep {
    Comes { desk: u32 },
    Goes { desk: u32 },
}

impl CellStep for CountStep {
    ghost use Rattle.std.specs.Prelude.{⊤, false};
    ghost use Rattle.core_steps.specs.Counts.{count_asks, count_places};
    ghost use Rattle.core_shard.specs.volap_cell.specs.declared.kind.Kind.TheVariants.{Note};

    ghost kind = { λ step. Note };

    ghost places = { count_places };

    ghost asks = { count_asks };

    ghost sees = { λ step s w n. ⊤ };

    ghost tells = { λ step a was now. ⊤ };

    ghost may_fail = { λ step. false };

    ghost has_room = { λ step actor. ⊥ };

    fn places(&self) -> Places {
        match self {
            CountStep::Comes { desk } | CountStep::Goes { desk } => Places::One(*desk),
        }
    }

    fn run(
        self,
        alloc: Global,
        h: &Hierarchy,
        first: &mut Option<Cell>,
        _second: &mut Option<Cell>,
        _others: &mut Others,
        actor: &mut Actor,
    ) -> Result<(), AllocError> {
        let _ = alloc;
        match self {
            CountStep::Comes { desk } => {
                core_admin::core_image::count_session(h, desk, lent(first), actor, true);
            }
            CountStep::Goes { desk } => {
                core_admin::core_image::count_session(h, desk, lent(first), actor, false);
            }
        }
        Ok(())
    }
}
