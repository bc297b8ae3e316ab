//! The step that begins an insert.
ghost use Rattle.std.specs.Prelude.{◌≡◌, [], ◌∷◌, OnOk, OnErr};
ghost use Rattle.core_image.specs.NotesDue.{CanBeginInsert, OpensInsert};
ghost use Rattle.row_ledger.specs.declared.event.Event.TheVariants.{Begun};
ghost use Rattle.core_image.specs.Told.{Tells, begun_by};
ghost use Rattle.volap_cell.specs.Cells.{cell_of};
ghost use Rattle.volap_cell.specs.Steps.{IsHere, Makes};
ghost use Rattle.volap_cell.specs.Values.{actor_of};
ghost use Rattle.volap_cell.specs.World.{change, held};
ghost use Rattle.volap_cell.specs.declared.kind.Kind.TheVariants.{BeginInsert};

use dim_hierarchy::{Coord, Hierarchy, Measures, Row};
use row_ledger::{Event, Ledger};
use server_image::Image;
use std::alloc::{AllocError, Global};
use volap_cell::{Actor, Cell, Command, Work, image_in, ledger_in, owner_in};

/// Begins an insert of a row at this coordinate. Its number is its place in the history, the image
/// owes an acknowledgement more, and the ledger promises the insert's end. Room for all of it is
/// taken first, from the allocators of image and ledger.
pub fn begin_insert(
    alloc: Global,
    h: &Hierarchy,
    image_at: u32,
    image: &mut Cell,
    ledger_at: u32,
    ledger: &mut Cell,
    actor: &mut Actor,
    at: Coord,
    measures: Measures,
) -> Result<(), AllocError>
    requires here { IsHere h.now (held image_at (cell_of image.old) ∷ held ledger_at (cell_of ledger.old) ∷ []) (actor_of actor.old) }
    requires due { CanBeginInsert h.now at (cell_of image.old) (cell_of ledger.old) (actor_of actor.old) }
    ensures made { OnOk result (Makes h.now BeginInsert
        (change image_at (cell_of image.old) (cell_of image.new) ∷ change ledger_at (cell_of ledger.old) (cell_of ledger.new) ∷ [])
        (actor_of actor.old) (actor_of actor.new)) }
    ensures told { OnOk result (Tells (begun_by at measures) (actor_of actor.old) (cell_of ledger.old) (cell_of ledger.new)) }
    ensures refused { OnErr result ((image.new ≡ image.old) × (ledger.new ≡ ledger.old) × (actor_of actor.new ≡ actor_of actor.old)) }
{
    let _ = alloc;
    let _ = h;
    let server = owner_in(image);
    let image = image_in(image);
    let ledger = ledger_in(ledger);
    let row = Row {
        no: ledger.len(),
        at,
        measures,
    };
    open(image, ledger, actor.number, server, &row)?;
    actor.command = Some(Command {
        of: row.no,
        work: Work::Insert { row, routed: false },
    });
    actor.seen = ledger.len();
    Ok(())
}

/// Opens the insert of a row: takes what room it needs of the ledger and of the image, and then
/// notes that it begins. Without room it leaves both as they were.
fn open(
    image: &mut Image,
    ledger: &mut Ledger,
    session: u16,
    server: u8,
    row: &Row,
) -> Result<(), AllocError>
    ensures ok { OnOk result (OpensInsert (Begun session server row.now) image.old image.new ledger.old ledger.new) }
    ensures err { OnErr result ((image.new ≡ image.old) × (ledger.new ≡ ledger.old)) }
{
    ledger.reserve(2)?;
    match image.begin() {
        Ok(()) => {}
        Err(error) => {
            ledger.cancel(2);
            return Err(error);
        }
    }
    ledger.push(Event::Begun {
        session,
        server,
        row: *row,
    });
    Ok(())
}
