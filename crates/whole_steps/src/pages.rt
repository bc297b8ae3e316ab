//! Pages of the whole state, read off cells that are looked at one at a time.
ghost use Rattle.std.specs.Prelude.{ℕ, ◌≡◌, IfOk, IsSome};
ghost use Rattle.core_pages.specs.Looks.{cells_in};
ghost use Rattle.row_ledger.specs.Classes.{class_of};
ghost use Rattle.row_ledger.specs.Right.{Asks};
ghost use Rattle.row_ledger.specs.declared.page.Page.TheVariants as page;
ghost use Rattle.server_image.specs.Registry.{host_of};
ghost use Rattle.turn_table.specs.Seat.{cell_count};
ghost use Rattle.core_pages.specs.volap_cell.specs.Cells.{registry_in};
ghost use Rattle.core_pages.specs.volap_cell.specs.Setting.{registry_cell};
ghost use Rattle.whole_steps.specs.Commands.{IsPageIn};
ghost use Rattle.whole_steps.specs.Pages.{CanTell, StandsAt, TellsGroup, TellsTree};

use call_steps::of_core_due::map_at;
use call_steps::of_core_steps::registry_place;
use call_steps::of_seat_steps::Floor;
use core_pages::volap_cell::Cell;
use core_pages::{Cells, audit_page, shards_page, tree_page_at};
use dim_hierarchy::Filter;
use group_answer::group;
use mapping_table::Where;
use row_ledger::{Call, GroupPage, Page, TreePage, Use};
use std::alloc::{AllocError, Global};

/// The worker of a shard, as the registry tells.
fn host_of<C: Cells>(cells: &mut C, shard: u32) -> Option<u8>
    requires stands { IsSome ((C.state cells.old).cells registry_cell) }
    ensures same { C.state cells.new ≡ C.state cells.old }
    ensures value { result ≡ host_of shard (registry_in (cells_in (C.state cells.old) registry_cell)) }
{
    match cells.look(registry_place()) {
        Cell::Registry(registry) => registry.host(shard),
        _ => None,
    }
}

/// The cell of the gate of a shard that stands, as the table of its worker tells.
fn gate_of<C: Cells>(cells: &mut C, with: &Use, shard: u32) -> u32
    requires stands { (gate : ℕ) × StandsAt with.now (C.state cells.old) shard gate }
    ensures same { C.state cells.new ≡ C.state cells.old }
    ensures gate { StandsAt with.now (C.state cells.old) shard result }
{
    let Some(worker) = host_of(cells, shard) else {
        unreachable!()
    };
    match cells.look(map_at(with, worker)) {
        Cell::Map { map, .. } => match map.look(shard) {
            Some(Where::Gate(at)) => *at,
            _ => unreachable!(),
        },
        _ => unreachable!(),
    }
}

/// The page of the tree of a shard that stands.
fn tree_of<C: Cells>(
    alloc: Global,
    floor: &Floor,
    cells: &mut C,
    shard: u32,
) -> Result<TreePage, AllocError>
    requires tells { TellsTree floor.now.hierarchy floor.now.with (cell_count floor.now.table) (C.state cells.old) shard }
    ensures same { C.state cells.new ≡ C.state cells.old }
    ensures page { IfOk result (λ p. IsPageIn floor.now.hierarchy (C.state cells.old) (page.Tree p)) }
    ensures shard { IfOk result (λ p. p.shard ≡ shard) }
{
    let gate = gate_of(cells, &floor.with, shard);
    tree_page_at(alloc, cells, floor.table.len() as u32, gate)
}

/// The page of the group that the newest event calls for.
fn group_of<C: Cells>(
    alloc: Global,
    floor: &Floor,
    cells: &mut C,
    dim: u8,
    level: u8,
    filter: &Filter,
) -> Result<GroupPage, AllocError>
    requires tells { TellsGroup floor.now.hierarchy floor.now.with (cell_count floor.now.table) (C.state cells.old) dim level filter.now }
    ensures same { C.state cells.new ≡ C.state cells.old }
    ensures page { IfOk result (λ p. IsPageIn floor.now.hierarchy (C.state cells.old) (page.Group p)) }
{
    // What is looked at is not counted.
    let mut steps = 0;
    let many = floor.table.len() as u32;
    group(
        alloc,
        cells,
        &floor.hierarchy,
        filter,
        dim,
        level,
        floor.with.servers,
        many,
        &mut steps,
    )
}

/// The page of this call. Takes memory for it.
pub(crate) fn page_of<C: Cells>(
    alloc: Global,
    floor: &Floor,
    cells: &mut C,
    call: &Call,
) -> Result<Page, AllocError>
    requires can { CanTell floor.now.hierarchy floor.now.with (cell_count floor.now.table) (C.state cells.old) call.now }
    ensures same { C.state cells.new ≡ C.state cells.old }
    ensures page { IfOk result (λ p. IsPageIn floor.now.hierarchy (C.state cells.old) p) }
    ensures asked { IfOk result (λ p. Asks (class_of call.now) p) }
{
    match call {
        Call::Tree(shard) => Ok(Page::Tree(tree_of(alloc, floor, cells, *shard)?)),
        Call::Shards => Ok(Page::Shards(shards_page(
            alloc,
            &floor.hierarchy,
            cells,
            floor.with.servers,
        )?)),
        Call::Audit => Ok(Page::Audit(audit_page(cells, floor.with.servers))),
        Call::Group { dim, level, filter } => Ok(Page::Group(group_of(
            alloc, floor, cells, *dim, *level, filter,
        )?)),
        _ => unreachable!(),
    }
}
