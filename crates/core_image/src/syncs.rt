//! The step of a pull.
ghost use Rattle.std.specs.Prelude.{◌≡◌, ◌<◌, ◌+◌, ◌^◌, [], ◌∷◌, Some, OnOk, OnErr};
ghost use Rattle.core_image.specs.Pulling.{CanSync, CanPull, Pulls};
ghost use Rattle.volap_cell.specs.Cells.{cell_of};
ghost use Rattle.volap_cell.specs.Commands.{pulled_once};
ghost use Rattle.volap_cell.specs.ImageKinds.{doing};
ghost use Rattle.volap_cell.specs.Steps.{IsHere, Makes};
ghost use Rattle.volap_cell.specs.Values.{actor_of};
ghost use Rattle.volap_cell.specs.World.{change, held};
ghost use Rattle.volap_cell.specs.declared.command.Work.{Work};
ghost use Rattle.volap_cell.specs.declared.command.Work.TheVariants.{Settle};
ghost use Rattle.volap_cell.specs.declared.kind.Kind.TheVariants.{Sync};

use dim_hierarchy::Hierarchy;
use row_ledger::{Event, Ledger};
use server_image::{Image, Registry};
use std::alloc::{AllocError, Global};
use volap_cell::{Actor, Cell, Command, Work, image_in, ledger_in, owner_in, registry_in};

/// Pulls for the server of the image: what its boxes have grown by goes to the registry, and it lists the
/// shards that stand. What the image owes stays, with its room. Takes memory for the image's spots, for an
/// event and, where what stands isn't listed yet, for a listing, before anything changes.
pub fn sync(
    alloc: Global,
    h: &Hierarchy,
    image_at: u32,
    image: &mut Cell,
    registry_at: u32,
    registry: &mut Cell,
    ledger_at: u32,
    ledger: &mut Cell,
    actor: &mut Actor,
) -> Result<(), AllocError>
    requires here { IsHere h.now
        (held image_at (cell_of image.old) ∷ held registry_at (cell_of registry.old) ∷ held ledger_at (cell_of ledger.old) ∷ [])
        (actor_of actor.old) }
    requires due { CanSync (cell_of image.old) (cell_of registry.old) (cell_of ledger.old) (actor_of actor.old) }
    ensures made { OnOk result (Makes h.now Sync
        (change image_at (cell_of image.old) (cell_of image.new) ∷ change registry_at (cell_of registry.old) (cell_of registry.new)
        ∷ change ledger_at (cell_of ledger.old) (cell_of ledger.new) ∷ [])
        (actor_of actor.old) (actor_of actor.new)) }
    ensures refused { OnErr result ((image.new ≡ image.old) × (registry.new ≡ registry.old)
        × (ledger.new ≡ ledger.old) × (actor_of actor.new ≡ actor_of actor.old)) }
{
    let server = owner_in(image);
    let image = image_in(image);
    let registry = registry_in(registry);
    let ledger = ledger_in(ledger);
    pull(alloc, h, server, image, registry, ledger)?;
    go_on(&mut actor.command);
    actor.seen = ledger.len();
    Ok(())
}

/// Pushes the growths of the server's image, takes what stands, and puts that in the ledger. Where no memory
/// is found for the listings, the event is not promised any more.
fn pull(
    alloc: Global,
    h: &Hierarchy,
    server: u8,
    image: &mut Image,
    registry: &mut Registry,
    ledger: &mut Ledger,
) -> Result<(), AllocError>
    requires due { CanPull h.now image.old registry.old }
    ensures ok { OnOk result (Pulls h.now server image.old image.new registry.old registry.new ledger.old ledger.new) }
    ensures err { OnErr result ((image.new ≡ image.old) × (registry.new ≡ registry.old) × (ledger.new ≡ ledger.old)) }
{
    ledger.reserve(1)?;
    match image.sync(alloc, registry, h) {
        Ok(listing) => {
            ledger.push(Event::Synced { server, listing });
            Ok(())
        }
        Err(fault) => {
            ledger.cancel(1);
            Err(fault)
        }
    }
}

/// One pull more is made for the command, of which one was due.
fn go_on(command: &mut Option<Command>)
    requires few { (of pulls : _) → command.old ≡ doing of (Settle pulls) → pulls + 1 < 2 ^ 16 }
    ensures { (of : _) → (work : Work) → command.old ≡ doing of work → command.new ≡ doing of (pulled_once work) }
{
    if let Some(command) = command {
        match &mut command.work {
            Work::Sync { pulled, .. } => *pulled = true,
            Work::Settle { pulls } => *pulls += 1,
            _ => {}
        }
    }
}
