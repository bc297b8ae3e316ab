//! The state with which a run opens.
ghost use Rattle.std.specs.Prelude.{◌≡◌, ◌+◌, ◌<◌, ◌≤◌, ◌^◌, ◌∷◌, ◌++◌, [], Some, length, IfOk, OnOk};
ghost use Rattle.volap_cell.specs.Filling.{Adds, HasPulled, IsActor, IsDesk, IsFirstStock, IsFreeCell, IsGate, IsImage, IsMap, IsOpened, IsRoot, Stands, setting_for};
ghost use Rattle.volap_cell.specs.Numbering.{IsSetting};

use crate::actor::{About, Actor};
use crate::boxes::Boxes;
use crate::cell::Cell;
use crate::gone_gates::GoneGates;
use crate::role::RoleList;
use crate::state::{State, put_three};
use cell_stock::{Purse, Stock};
use dc_node::Block;
use describing_set::{DescSet, SharedListing};
use dim_hierarchy::Hierarchy;
use mapping_table::{MapTable, Where};
use measure_agg::Agg;
use query_router::Desk;
use row_ledger::{Event, Ledger, Use};
use server_image::{Image, Registry};
use shard_build::shard_store::Gate;
use std::alloc::{AllocError, Global};
use std::snapshot::Snapshot;

/// Adds a cell behind the others.
fn add(cells: &mut Vec<Option<Cell>>, cell: Cell) -> Result<(), AllocError>
    ensures ok { OnOk result (cells.new.items ≡ cells.old.items ++ Some cell ∷ []) }
{
    cells.push(Some(cell))?;
    Ok(())
}

/// The history in which each server has pulled the first shards.
fn first_pulls(alloc: Global, servers: u8, registry: &Registry) -> Result<Ledger, AllocError>
    ensures { IfOk result (HasPulled registry.now.frontier servers) }
{
    let mut ledger = Ledger::new(alloc);
    ledger.reserve(u64::from(servers))?;
    let first = SharedListing::new(alloc, registry.frontier(alloc)?)?;
    for server in 0..servers {
        let listing = first.share()?;
        ledger.push(Event::Synced { server, listing });
    }
    Ok(ledger)
}

/// The image of a server that has pulled the first shards.
fn image(alloc: Global, server: u8, registry: &Registry) -> Result<Cell, AllocError>
    ensures { IfOk result (IsImage registry.now.frontier server) }
{
    let listing = registry.frontier(alloc)?;
    Ok(Cell::Image {
        server,
        image: Box::new(alloc, Image::new(alloc, listing))?,
    })
}

/// The desk of a server.
fn desk(alloc: Global, server: u8) -> Result<Cell, AllocError>
    ensures { IfOk result (IsDesk server) }
{
    Ok(Cell::Desk {
        server,
        desk: Box::new(alloc, Desk::new(alloc))?,
    })
}

/// The table of a worker, which leads to its gate.
fn map(alloc: Global, worker: u8, first_gate: u32) -> Result<Cell, AllocError>
    requires few { first_gate + worker < 2 ^ 32 }
    ensures { IfOk result (IsMap first_gate worker) }
{
    let mut map = MapTable::new(alloc);
    let worker_id = u32::from(worker);
    map.set(worker_id, Where::Gate(first_gate + worker_id))?;
    Ok(Cell::Map {
        worker,
        map: Box::new(alloc, map)?,
    })
}

/// The gate of a worker's first shard.
fn gate(alloc: Global, h: &Hierarchy, worker: u8, first_root: u32) -> Result<Cell, AllocError>
    requires few { first_root + worker < 2 ^ 32 }
    ensures { IfOk result (IsGate h.now first_root worker) }
{
    let worker_id = u32::from(worker);
    let root = first_root + worker_id;
    let empty = DescSet::empty(h);
    let gate = Gate::new(
        alloc,
        h,
        worker_id,
        root,
        u64::from(worker),
        1,
        Agg::EMPTY,
        empty,
    );
    Ok(Cell::Gate(Box::new(alloc, gate)?))
}

/// The root of a worker's first shard.
fn root(alloc: Global, worker: u8) -> Result<Cell, AllocError>
    ensures { IfOk result (IsRoot worker) }
{
    Ok(Cell::Block(Box::new(alloc, Block::leaf(u64::from(worker)))?))
}

/// Adds free cells.
fn add_free(cells: &mut Vec<Option<Cell>>, count: u32) -> Result<(), AllocError>
    ensures ok { OnOk result (Adds count IsFreeCell cells.old.items cells.new.items) }
{
    for _ in 0..count {
        add(cells, Cell::Free)?;
    }
    Ok(())
}

/// Adds the images of all servers.
fn add_images(
    cells: &mut Vec<Option<Cell>>,
    alloc: Global,
    servers: u8,
    registry: &Registry,
) -> Result<(), AllocError>
    ensures ok { OnOk result (Adds servers (IsImage registry.now.frontier) cells.old.items cells.new.items) }
{
    for server in 0..servers {
        add(cells, image(alloc, server, registry)?)?;
    }
    Ok(())
}

/// Adds the desks of all servers.
fn add_desks(cells: &mut Vec<Option<Cell>>, alloc: Global, servers: u8) -> Result<(), AllocError>
    ensures ok { OnOk result (Adds servers IsDesk cells.old.items cells.new.items) }
{
    for server in 0..servers {
        add(cells, desk(alloc, server)?)?;
    }
    Ok(())
}

/// Adds the tables of all workers.
fn add_maps(
    cells: &mut Vec<Option<Cell>>,
    alloc: Global,
    workers: u8,
    first_gate: u32,
) -> Result<(), AllocError>
    requires few { first_gate + workers < 2 ^ 32 }
    ensures ok { OnOk result (Adds workers (IsMap first_gate) cells.old.items cells.new.items) }
{
    for worker in 0..workers {
        add(cells, map(alloc, worker, first_gate)?)?;
    }
    Ok(())
}

/// Adds the gates of all first shards.
fn add_gates(
    cells: &mut Vec<Option<Cell>>,
    alloc: Global,
    h: &Hierarchy,
    workers: u8,
    first_root: u32,
) -> Result<(), AllocError>
    requires few { first_root + workers < 2 ^ 32 }
    ensures ok { OnOk result (Adds workers (IsGate h.now first_root) cells.old.items cells.new.items) }
{
    for worker in 0..workers {
        add(cells, gate(alloc, h, worker, first_root)?)?;
    }
    Ok(())
}

/// Adds the roots of all first shards.
fn add_roots(cells: &mut Vec<Option<Cell>>, alloc: Global, workers: u8) -> Result<(), AllocError>
    ensures ok { OnOk result (Adds workers IsRoot cells.old.items cells.new.items) }
{
    for worker in 0..workers {
        add(cells, root(alloc, worker)?)?;
    }
    Ok(())
}

/// An actor that has done nothing.
fn actor(alloc: Global, h: &Hierarchy, with: &Use, roles: &RoleList, number: u16) -> Actor
    requires within { number < length roles.now }
    ensures { IsActor (setting_for h.now with.now roles.now) number result }
{
    Actor {
        number,
        role: roles.as_slice()[usize::from(number)],
        about: About {
            hierarchy: Snapshot::of(h),
            with: Snapshot::of(with),
            roles: Snapshot::of(roles),
        },
        seen: 0,
        counted: false,
        purse: Purse::new(alloc),
        boxes: Boxes::new(alloc),
        command: None,
        errand: None,
        job: None,
        gone_gates: GoneGates::new(alloc),
        went: 0,
    }
}

/// Adds an actor for each role, if they have numbers.
fn add_actors(
    actors: &mut Vec<Option<Actor>>,
    alloc: Global,
    h: &Hierarchy,
    with: &Use,
    roles: &RoleList,
) -> Result<(), AllocError>
    ensures ok { OnOk result (Adds (length roles.now) (IsActor (setting_for h.now with.now roles.now)) actors.old.items actors.new.items) }
{
    let count = roles.len();
    if count > usize::from(u16::MAX) {
        return Err(AllocError);
    }
    for number in 0..count as u16 {
        actors.push(Some(actor(alloc, h, with, roles, number)))?;
    }
    Ok(())
}

/// The stock from which the cells and the ids of all first shards are taken.
fn first_stock(alloc: Global, first: u32, cells: u32, workers: u8) -> Result<Stock, AllocError>
    requires enough { workers + workers ≤ cells }
    requires few { first + cells < 2 ^ 32 }
    ensures { IfOk result (IsFirstStock first cells workers) }
{
    let count = 2 * u64::from(workers);
    let mut stock = Stock::over(alloc, first, first + cells)?;
    let mut purse = Purse::new(alloc);
    purse.reserve(count)?;
    stock.take(count, &mut purse);
    stock.shard_ids(u32::from(workers));
    stock.free();
    Ok(stock)
}

/// The cells of an opening, where the ledger, the stock and the registry are still to come.
fn bare_cells(
    alloc: Global,
    h: &Hierarchy,
    with: &Use,
    registry: &Registry,
    first_gate: u32,
    first_root: u32,
) -> Result<Vec<Option<Cell>>, AllocError>
    requires enough { with.now.workers + with.now.workers ≤ with.now.cells }
    requires few { first_gate + with.now.workers < 2 ^ 32 }
    requires few_roots { first_root + with.now.workers < 2 ^ 32 }
    ensures { IfOk result (λ cells. Stands h.now with.now.servers with.now.workers with.now.cells first_gate first_root registry.now.frontier cells.items) }
{
    let mut cells = Vec::new(alloc);
    add_free(&mut cells, 3)?;
    add_images(&mut cells, alloc, with.servers, registry)?;
    add_desks(&mut cells, alloc, with.servers)?;
    add_maps(&mut cells, alloc, with.workers, first_gate)?;
    let free = with.cells - 2 * u32::from(with.workers);
    add_free(&mut cells, free)?;
    add_gates(&mut cells, alloc, h, with.workers, first_root)?;
    add_roots(&mut cells, alloc, with.workers)?;
    Ok(cells)
}

/// The state with which a core begins: one empty shard on each worker, which each server lists, and
/// nobody at work. Answers want of memory also where there are more roles than actors can have numbers.
pub fn open(alloc: Global, h: &Hierarchy, with: &Use, roles: RoleList) -> Result<State, AllocError>
    requires setting { IsSetting (setting_for h.now with.now roles) }
    ensures { IfOk result (λ state. IsOpened (setting_for h.now with.now roles) state.cells.items state.actors.items) }
{
    let workers = u32::from(with.workers);
    let first = 3 + 2 * u32::from(with.servers) + workers;
    let first_root = first + with.cells - workers;
    let first_gate = first_root - workers;
    let registry = Registry::new(alloc, with.workers, h)?;
    let mut cells = bare_cells(alloc, h, with, &registry, first_gate, first_root)?;
    let ledger = Box::new(alloc, first_pulls(alloc, with.servers, &registry)?)?;
    let stock = Box::new(alloc, first_stock(alloc, first, with.cells, with.workers)?)?;
    let registry = Box::new(alloc, registry)?;
    let mut actors = Vec::new(alloc);
    add_actors(&mut actors, alloc, h, with, &roles)?;
    put_three(
        &mut cells,
        0,
        Cell::Ledger(ledger),
        1,
        Cell::Stock(stock),
        2,
        Cell::Registry(registry),
    );
    Ok(State { cells, actors })
}
