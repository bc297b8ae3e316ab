//! The step that begins a query.
ghost use Rattle.std.specs.Prelude.{◌≡◌, ◌<◌, [], ◌∷◌, map, IfOk, OnOk, OnErr};
ghost use Rattle.core_image.specs.Asking.{CanBeginQuery, CanAsk, OpensQuery};
ghost use Rattle.core_image.specs.Told.{Tells, asked_by};
ghost use Rattle.volap_cell.specs.Cells.{cell_of};
ghost use Rattle.volap_cell.specs.ImageKinds.{query_part};
ghost use Rattle.volap_cell.specs.Steps.{IsHere, Makes};
ghost use Rattle.volap_cell.specs.Values.{actor_of};
ghost use Rattle.volap_cell.specs.World.{change, held};
ghost use Rattle.volap_cell.specs.declared.kind.Kind.TheVariants.{BeginQuery};

use describing_set::{Listing, Path, Spot};
use dim_hierarchy::{Filter, Hierarchy, copy_filter};
use query_router::{Desk, Part, PartState, Want};
use row_ledger::{Event, Ledger};
use server_image::Image;
use std::alloc::{AllocError, Global};
use volap_cell::{Actor, Cell, Command, Work, desk_in, image_in, ledger_in, owner_in};

/// Begins a query: lays a part for each listed shard whose box overlaps the filter on the server's empty
/// desk, and promises its end. Takes memory for the parts, each with a copy of the filter, and for two
/// events, before anything changes.
pub fn begin_query(
    alloc: Global,
    h: &Hierarchy,
    desk_at: u32,
    desk: &mut Cell,
    image_at: u32,
    image: &mut Cell,
    ledger_at: u32,
    ledger: &mut Cell,
    actor: &mut Actor,
    filter: Filter,
) -> Result<(), AllocError>
    requires here { IsHere h.now
        (held desk_at (cell_of desk.old) ∷ held image_at (cell_of image.old) ∷ held ledger_at (cell_of ledger.old) ∷ [])
        (actor_of actor.old) }
    requires due { CanBeginQuery h.now (cell_of desk.old) (cell_of image.old) (cell_of ledger.old) (actor_of actor.old) filter }
    ensures made { OnOk result (Makes h.now BeginQuery
        (change desk_at (cell_of desk.old) (cell_of desk.new) ∷ change image_at (cell_of image.old) (cell_of image.new)
        ∷ change ledger_at (cell_of ledger.old) (cell_of ledger.new) ∷ [])
        (actor_of actor.old) (actor_of actor.new)) }
    ensures told { OnOk result (Tells (asked_by filter) (actor_of actor.old) (cell_of ledger.old) (cell_of ledger.new)) }
    ensures refused { OnErr result ((desk.new ≡ desk.old) × (image.new ≡ image.old)
        × (ledger.new ≡ ledger.old) × (actor_of actor.new ≡ actor_of actor.old)) }
{
    let server = owner_in(desk);
    let desk = desk_in(desk);
    let image = image_in(image);
    let ledger = ledger_in(ledger);
    let of = ledger.len();
    ask(alloc, h, desk, image, ledger, actor.number, server, filter)?;
    actor.command = Some(Command {
        of,
        work: Work::Query,
    });
    actor.seen = ledger.len();
    Ok(())
}

/// Puts the query in the ledger and its parts on the desk. Takes memory before anything changes.
fn ask(
    alloc: Global,
    h: &Hierarchy,
    desk: &mut Desk,
    image: &Image,
    ledger: &mut Ledger,
    session: u16,
    server: u8,
    filter: Filter,
) -> Result<(), AllocError>
    requires due { CanAsk h.now filter desk.old image.now }
    ensures ok { OnOk result (OpensQuery h.now session server filter image.now desk.old desk.new ledger.old ledger.new) }
    ensures err { OnErr result ((desk.new ≡ desk.old) × (ledger.new ≡ ledger.old)) }
{
    let planned = image.plan(alloc, &filter, h)?;
    let parts = parts_for(alloc, &planned, &filter)?;
    ledger.reserve(2)?;
    desk.put(ledger.len(), parts);
    ledger.push(Event::Asked {
        session,
        server,
        filter,
    });
    Ok(())
}

/// A part for each of these shards, in order, with a copy of the filter.
fn parts_for(alloc: Global, planned: &Listing, filter: &Filter) -> Result<Vec<Part>, AllocError>
    ensures { IfOk result (λ parts. parts.items ≡ map (query_part filter.now) planned.now) }
{
    let mut parts = Vec::new(alloc);
    for spot in planned.as_slice() {
        parts.push(part_at(alloc, spot, filter)?)?;
    }
    Ok(parts)
}

/// The part of a query at a listed shard.
fn part_at(alloc: Global, spot: &Spot, filter: &Filter) -> Result<Part, AllocError>
    ensures { IfOk result (λ part. part ≡ query_part filter.now spot.now) }
{
    Ok(Part {
        shard: spot.shard,
        worker: spot.worker,
        path: Path::new(alloc),
        state: PartState::Waiting(Want::Filter(copy_filter(alloc, filter)?)),
    })
}
