//! The step that routes an insert.
ghost use Rattle.std.specs.Prelude.{◌≡◌, [], ◌∷◌, Some, OnOk, OnErr, false, true};
ghost use Rattle.core_image.specs.Routing.{CanRoute, CanLay, Lays};
ghost use Rattle.dim_hierarchy.specs.declared.row.Row.{Row};
ghost use Rattle.volap_cell.specs.Cells.{cell_of};
ghost use Rattle.volap_cell.specs.ImageKinds.{doing};
ghost use Rattle.volap_cell.specs.Steps.{IsHere, Makes};
ghost use Rattle.volap_cell.specs.Values.{actor_of};
ghost use Rattle.volap_cell.specs.World.{change, held};
ghost use Rattle.volap_cell.specs.declared.command.Work.TheVariants.{Insert};
ghost use Rattle.volap_cell.specs.declared.kind.Kind.TheVariants.{Route};

use describing_set::Path;
use dim_hierarchy::{Coord, Hierarchy, Row};
use query_router::{Desk, Part, PartState, Want};
use server_image::Image;
use std::alloc::{AllocError, Global};
use volap_cell::{Actor, Cell, Command, Work, desk_in, image_in, there};

/// Lays the one part of the actor's insert on its server's empty desk, for the worker of the shard to
/// which the image leads its row. Takes memory for the part and its path.
pub fn route(
    alloc: Global,
    h: &Hierarchy,
    desk_at: u32,
    desk: &mut Cell,
    image_at: u32,
    image: &mut Cell,
    actor: &mut Actor,
) -> Result<(), AllocError>
    requires here { IsHere h.now (held desk_at (cell_of desk.old) ∷ held image_at (cell_of image.old) ∷ []) (actor_of actor.old) }
    requires due { CanRoute (cell_of desk.old) (cell_of image.old) (actor_of actor.old) }
    ensures made { OnOk result (Makes h.now Route
        (change desk_at (cell_of desk.old) (cell_of desk.new) ∷ change image_at (cell_of image.old) (cell_of image.new) ∷ [])
        (actor_of actor.old) (actor_of actor.new)) }
    ensures refused { OnErr result ((desk.new ≡ desk.old) × (image.new ≡ image.old) × (actor_of actor.new ≡ actor_of actor.old)) }
{
    let desk = desk_in(desk);
    let image = image_in(image);
    let command = there(&actor.command);
    let Work::Insert { row, .. } = &command.work else {
        unreachable!()
    };
    lay(alloc, h, desk, image, command.of, row)?;
    mark(&mut actor.command);
    Ok(())
}

/// Lays the part of the insert that began at this place on the desk. Takes memory for the part and its
/// path, before anything changes.
fn lay(
    alloc: Global,
    h: &Hierarchy,
    desk: &mut Desk,
    image: &Image,
    of: u64,
    row: &Row,
) -> Result<(), AllocError>
    requires due { CanLay h.now row.now.at desk.old image.now }
    ensures ok { OnOk result (Lays h.now of row.now image.now desk.old desk.new) }
    ensures err { OnErr result (desk.new ≡ desk.old) }
{
    let spot = &image.spots()[image.route(&row.at, h)];
    let mut path = Path::new(alloc);
    path.push(spot.shard)?;
    let mut parts = Vec::with_capacity(alloc, 1)?;
    parts.push_reserved(Part {
        shard: spot.shard,
        worker: spot.worker,
        path,
        state: PartState::Waiting(Want::Row(copy(row))),
    });
    desk.put(of, parts);
    Ok(())
}

/// The same row once more.
fn copy(row: &Row) -> Row
    ensures { result ≡ row.now }
{
    Row {
        no: row.no,
        at: Coord { at: row.at.at },
        measures: row.measures,
    }
}

/// The insert's part is laid.
fn mark(command: &mut Option<Command>)
    ensures { (of : _) → (row : Row) → command.old ≡ doing of (Insert row false) → command.new ≡ doing of (Insert row true) }
{
    if let Some(command) = command {
        if let Work::Insert { routed, .. } = &mut command.work {
            *routed = true;
        }
    }
}
