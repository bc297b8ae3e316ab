//! The notes in the ledger by which commands begin and end, and by which pages are shown.

use crate::places::{ledger_place, registry_place};
use crate::step::{CellStep, Others, Places};
use core_shard::volap_cell::{Actor, Cell, lent};
use dim_hierarchy::Hierarchy;
use row_ledger::{Call, How, Page};
use std::alloc::{AllocError, Global};

/// A note of an actor in the ledger.
#[derive(Drop)]
pub enum NoteStep<'a> {
    /// Its next command names what is not known, first in this dimension, and ends with that.
    Unknown { dim: u8 },
    /// Its next command found no memory before it began, and ends with that.
    Refused,
    /// Its next command begins, which is a call that asks the registry nothing.
    Called { call: &'a Call },
    /// Its next command begins, which is a call that asks the registry what stands; there are so many
    /// workers.
    Asking { call: &'a Call, workers: u8 },
    /// Its called command ends so.
    Ended { how: How },
    /// Its balance leaves the action that it is at.
    Left,
    /// The page of its command is shown.
    Shown { page: Page },
}

impl<'a> CellStep for NoteStep<'a> {
    ghost use Rattle.core_steps.specs.Notes.{note_asks, note_kind, note_may_fail, note_places, note_sees, note_tells};

    ghost kind = { note_kind };

    ghost places = { note_places };

    ghost asks = { note_asks };

    ghost sees = { note_sees };

    ghost tells = { note_tells };

    ghost may_fail = { note_may_fail };

    ghost has_room = { λ step actor. ⊥ };

    fn places(&self) -> Places {
        match self {
            NoteStep::Asking { .. } => Places::Two(registry_place(), ledger_place()),
            _ => Places::One(ledger_place()),
        }
    }

    fn run(
        self,
        alloc: Global,
        h: &Hierarchy,
        first: &mut Option<Cell>,
        second: &mut Option<Cell>,
        _others: &mut Others,
        actor: &mut Actor,
    ) -> Result<(), AllocError> {
        let at = ledger_place();
        match self {
            NoteStep::Unknown { dim } => core_admin::core_image::note_unknown(
                h,
                at,
                lent(first),
                actor,
                dim,
            ),
            NoteStep::Refused => core_admin::core_image::note_refused(h, at, lent(first), actor),
            NoteStep::Called { call } => core_admin::core_image::note_called(
                h,
                at,
                lent(first),
                actor,
                call,
            ),
            NoteStep::Asking { call, workers } => core_admin::core_image::note_asking(
                alloc,
                h,
                registry_place(),
                lent(first),
                at,
                lent(second),
                actor,
                call,
                workers,
            ),
            NoteStep::Ended { how } => {
                core_admin::core_image::note_ended(h, at, lent(first), actor, how);
                Ok(())
            }
            NoteStep::Left => {
                core_admin::core_image::note_left(h, at, lent(first), actor);
                Ok(())
            }
            NoteStep::Shown { page } => {
                core_admin::core_image::note_shown(h, at, lent(first), actor, page);
                Ok(())
            }
        }
    }
}
