//! The page that is due of an open command is made and shown.
ghost use Rattle.std.specs.Prelude.{◌≡◌, [], IfOk, option_copied};
ghost use Rattle.core_due.specs.Look.{cell_at, setting_by, world_by};
ghost use Rattle.core_due.specs.WorksReady.{MayMakeNote};
ghost use Rattle.core_due.specs.core_steps.specs.Steps.{IsSound};
ghost use Rattle.core_due.specs.core_steps.specs.declared.notes.NoteStep.TheVariants as note;
ghost use Rattle.row_ledger.specs.Past.{newest};
ghost use Rattle.row_ledger.specs.declared.class.Subject.TheVariants as subject;
ghost use Rattle.row_ledger.specs.declared.settings.How.TheVariants as how;
ghost use Rattle.seeded_run.specs.Arms.{GoesOnWithCommand};
ghost use Rattle.seeded_run.specs.Pages.{CanShow, MayTell, place_of};
ghost use Rattle.server_image.specs.Registry.{host_of};
ghost use Rattle.core_pages.specs.volap_cell.specs.Cells.{ledger_in, registry_in};
ghost use Rattle.core_pages.specs.volap_cell.specs.Setting.{ledger_cell, registry_cell};
ghost use Rattle.core_pages.specs.volap_cell.specs.declared.kind.Kind.TheVariants.{Note};

use crate::works::end_command;
use core_due::core_steps::{NoteStep, ledger_place, make, registry_place};
use core_due::{cell_at, map_at, where_at};
use core_pages::Lent;
use core_pages::volap_cell::{Cell, State};
use dim_hierarchy::Hierarchy;
use mapping_table::Where;
use row_ledger::{Call, Event, How, Page, Subject, Use};
use std::alloc::{AllocError, Global};

/// The worker of a shard, as the registry tells; none where it tells none.
fn host_at(cells: &[Option<Cell>], shard: u32) -> Option<u8>
    ensures { result ≡ host_of shard (registry_in (cell_at cells.now registry_cell)) }
{
    match cell_at(cells, registry_place()) {
        Some(Cell::Registry(registry)) => registry.host(shard),
        _ => None,
    }
}

/// Where a shard is, as the table of its worker tells.
fn place_of<'a>(with: &Use, cells: &'a [Option<Cell>], shard: u32) -> Option<&'a Where>
    ensures { option_copied result ≡ place_of (setting_by [] with.now) (world_by cells.now) shard }
{
    match host_at(cells, shard) {
        Some(worker) => where_at(cells, map_at(with, worker), shard),
        None => None,
    }
}

/// The page of the tree of a shard that stands.
fn tree_page(
    alloc: Global,
    h: &Hierarchy,
    with: &Use,
    state: &State,
    number: usize,
    shard: u32,
) -> Result<Page, AllocError>
    requires can { CanShow h.now with.now state.now number (subject.Tree shard) }
    ensures { IfOk result (MayTell h.now state.now number) }
{
    let Some(Where::Gate(gate)) = place_of(with, &state.cells, shard) else {
        unreachable!()
    };
    let many = state.cells.len() as u32;
    Ok(Page::Tree(core_pages::tree_page_at(alloc, &mut Lent { state }, many, *gate)?))
}

/// The newest event of the history.
fn newest_at(cells: &[Option<Cell>]) -> Option<&Event>
    ensures { option_copied result ≡ newest (ledger_in (cell_at cells.now ledger_cell)).history }
{
    match cell_at(cells, ledger_place()) {
        Some(Cell::Ledger(ledger)) => ledger.newest(),
        _ => None,
    }
}

/// The page of the group that the newest event calls.
fn group_page(
    alloc: Global,
    h: &Hierarchy,
    with: &Use,
    state: &State,
    number: usize,
) -> Result<Page, AllocError>
    requires can { CanShow h.now with.now state.now number subject.Groups }
    ensures { IfOk result (MayTell h.now state.now number) }
{
    let Some(
        Event::Called {
            call: Call::Group { dim, level, filter },
            ..
        },
    ) = newest_at(&state.cells)
    else {
        unreachable!()
    };
    let many = state.cells.len() as u32;
    let mut steps = 0;
    Ok(Page::Group(group_answer::group(
        alloc,
        &mut Lent { state },
        h,
        filter,
        *dim,
        *level,
        with.servers,
        many,
        &mut steps,
    )?))
}

/// The page that is due of a command.
fn page_of(
    alloc: Global,
    h: &Hierarchy,
    with: &Use,
    state: &State,
    number: usize,
    subject: Subject,
) -> Result<Page, AllocError>
    requires can { CanShow h.now with.now state.now number subject }
    ensures { IfOk result (MayTell h.now state.now number) }
{
    match subject {
        Subject::Tree(shard) => tree_page(alloc, h, with, state, number, shard),
        Subject::Shards => Ok(Page::Shards(core_pages::shards_page(
            alloc,
            h,
            &mut Lent { state },
            with.servers,
        )?)),
        Subject::Rows => Ok(Page::Audit(core_pages::audit_page(&mut Lent { state }, with.servers))),
        Subject::Groups => group_page(alloc, h, with, state, number),
    }
}

/// The page of the actor's command is made and shown. Where memory is wanting for it, the command ends so.
pub(crate) fn show_page(
    alloc: Global,
    h: &Hierarchy,
    with: &Use,
    state: &mut State,
    number: usize,
    subject: Subject,
)
    requires sound { IsSound h.now state.old }
    requires can { CanShow h.now with.now state.old number subject }
    requires instead { MayMakeNote h.now state.old number (note.Ended how.NoMemory) }
    ensures made { GoesOnWithCommand h.now Note number state.old state.new }
{
    match page_of(alloc, h, with, state, number, subject) {
        Ok(page) => {
            let _ = make(alloc, h, state, number, NoteStep::Shown { page });
        }
        Err(_) => end_command(alloc, h, state, number, How::NoMemory),
    }
}
