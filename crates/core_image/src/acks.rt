//! The step that acknowledges an insert.
ghost use Rattle.std.specs.Prelude.{[], ◌∷◌};
ghost use Rattle.core_image.specs.Due.{CanAck, CanBook, Books, IsPlacedBy, HasPath};
ghost use Rattle.volap_cell.specs.Cells.{cell_of};
ghost use Rattle.volap_cell.specs.Steps.{IsHere, Makes};
ghost use Rattle.volap_cell.specs.Values.{actor_of};
ghost use Rattle.volap_cell.specs.World.{change, held};
ghost use Rattle.volap_cell.specs.declared.kind.Kind.TheVariants.{Ack};

use describing_set::Path;
use dim_hierarchy::{Coord, Hierarchy};
use query_router::{Desk, Part, PartState};
use row_ledger::{Event, Ledger};
use server_image::Image;
use volap_cell::{Actor, Cell, Work, desk_in, image_in, ledger_in, there};

/// Acknowledges the actor's insert, whose part is placed: the desk is cleared, and the image grows
/// by the row. Takes no memory.
pub fn ack(
    h: &Hierarchy,
    desk_at: u32,
    desk: &mut Cell,
    image_at: u32,
    image: &mut Cell,
    ledger_at: u32,
    ledger: &mut Cell,
    actor: &mut Actor,
)
    requires here { IsHere h.now
        (held desk_at (cell_of desk.old) ∷ held image_at (cell_of image.old) ∷ held ledger_at (cell_of ledger.old) ∷ [])
        (actor_of actor.old) }
    requires due { CanAck (cell_of desk.old) (cell_of image.old) (cell_of ledger.old) (actor_of actor.old) }
    ensures made { Makes h.now Ack
        (change desk_at (cell_of desk.old) (cell_of desk.new) ∷ change image_at (cell_of image.old) (cell_of image.new)
        ∷ change ledger_at (cell_of ledger.old) (cell_of ledger.new) ∷ [])
        (actor_of actor.old) (actor_of actor.new) }
{
    let desk = desk_in(desk);
    let image = image_in(image);
    let ledger = ledger_in(ledger);
    let command = there(&actor.command);
    let Work::Insert { row, .. } = &command.work else {
        unreachable!()
    };
    book(h, desk, image, ledger, command.of, &row.at);
    actor.command = None;
    actor.seen = ledger.len();
}

/// Books the acknowledgement of the insert that began at this place, of a row at this coordinate.
fn book(h: &Hierarchy, desk: &mut Desk, image: &mut Image, ledger: &mut Ledger, of: u64, at: &Coord)
    requires due { CanBook h.now at.now desk.old image.old ledger.old }
    ensures booked { Books h.now of at.now desk.old desk.new image.old image.new ledger.old ledger.new }
{
    let path = path_of(desk.clear());
    image.acked(&path, at, h);
    ledger.push(Event::Acked { of, path });
}

/// The path of the one part, which is placed.
fn path_of(mut parts: Vec<Part>) -> Path
    requires { IsPlacedBy parts.items }
    ensures { HasPath parts.items result }
{
    let Some(part) = parts.pop() else {
        unreachable!()
    };
    let Part { state, .. } = part;
    let PartState::Placed(path) = state else {
        unreachable!()
    };
    path
}
