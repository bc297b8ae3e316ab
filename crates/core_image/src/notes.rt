//! The steps that note a command that did not begin.
ghost use Rattle.std.specs.Prelude.{◌≡◌, [], ◌∷◌, OnOk, OnErr};
ghost use Rattle.core_image.specs.NotesDue.{CanNoteRefused, CanNoteUnknown, Notes};
ghost use Rattle.row_ledger.specs.declared.event.Event.TheVariants.{Refused, Unknown};
ghost use Rattle.core_image.specs.Told.{Tells, refused_by, unknown_by};
ghost use Rattle.volap_cell.specs.Cells.{cell_of};
ghost use Rattle.volap_cell.specs.Commands.{server_of};
ghost use Rattle.volap_cell.specs.Steps.{IsHere, Makes};
ghost use Rattle.volap_cell.specs.Values.{actor_of};
ghost use Rattle.volap_cell.specs.World.{change, held};
ghost use Rattle.volap_cell.specs.declared.kind.Kind.TheVariants.{Note};

use dim_hierarchy::Hierarchy;
use row_ledger::{Event, Ledger};
use std::alloc::AllocError;
use volap_cell::{Actor, Cell, Role, ledger_in};

/// Notes that a command of the actor's names what is not known, first in this dimension.
/// It ends with that. Takes memory for the one event, of the ledger's allocator.
pub fn note_unknown(
    h: &Hierarchy,
    ledger_at: u32,
    ledger: &mut Cell,
    actor: &mut Actor,
    dim: u8,
) -> Result<(), AllocError>
    requires here { IsHere h.now (held ledger_at (cell_of ledger.old) ∷ []) (actor_of actor.old) }
    requires due { CanNoteUnknown (cell_of ledger.old) (actor_of actor.old) }
    ensures made { OnOk result (Makes h.now Note (change ledger_at (cell_of ledger.old) (cell_of ledger.new) ∷ []) (actor_of actor.old) (actor_of actor.new)) }
    ensures told { OnOk result (Tells (unknown_by dim) (actor_of actor.old) (cell_of ledger.old) (cell_of ledger.new)) }
    ensures refused { OnErr result ((ledger.new ≡ ledger.old) × (actor_of actor.new ≡ actor_of actor.old)) }
{
    let _ = h;
    let ledger = ledger_in(ledger);
    push_unknown(ledger, actor.number, server_of(actor.role), dim)?;
    actor.seen = ledger.len();
    Ok(())
}

/// Notes that a command of the actor's found no memory before it began. It ends with that. Takes
/// memory for the one event, of the ledger's allocator.
pub fn note_refused(
    h: &Hierarchy,
    ledger_at: u32,
    ledger: &mut Cell,
    actor: &mut Actor,
) -> Result<(), AllocError>
    requires here { IsHere h.now (held ledger_at (cell_of ledger.old) ∷ []) (actor_of actor.old) }
    requires due { CanNoteRefused (cell_of ledger.old) (actor_of actor.old) }
    ensures made { OnOk result (Makes h.now Note (change ledger_at (cell_of ledger.old) (cell_of ledger.new) ∷ []) (actor_of actor.old) (actor_of actor.new)) }
    ensures told { OnOk result (Tells refused_by (actor_of actor.old) (cell_of ledger.old) (cell_of ledger.new)) }
    ensures refused { OnErr result ((ledger.new ≡ ledger.old) × (actor_of actor.new ≡ actor_of actor.old)) }
{
    let _ = h;
    let ledger = ledger_in(ledger);
    push_refused(ledger, actor.number)?;
    actor.seen = ledger.len();
    Ok(())
}

/// The server in the events of an actor's commands: a session's own; a called command has none, for
/// which 0 stands.
fn server_of(role: Role) -> u8
    ensures { result ≡ server_of role }
{
    match role {
        Role::Session { server } => server,
        _ => 0,
    }
}

/// Notes a command that names what is not known, where the ledger has or finds room.
fn push_unknown(ledger: &mut Ledger, session: u16, server: u8, dim: u8) -> Result<(), AllocError>
    ensures ok { OnOk result (Notes (Unknown session server dim) 1 1 ledger.old ledger.new) }
    ensures err { OnErr result (ledger.new ≡ ledger.old) }
{
    ledger.reserve(1)?;
    ledger.push(Event::Unknown {
        session,
        server,
        dim,
    });
    Ok(())
}

/// Notes a command for which there was no memory, where the ledger has or finds room.
fn push_refused(ledger: &mut Ledger, session: u16) -> Result<(), AllocError>
    ensures ok { OnOk result (Notes (Refused session) 1 1 ledger.old ledger.new) }
    ensures err { OnErr result (ledger.new ≡ ledger.old) }
{
    ledger.reserve(1)?;
    ledger.push(Event::Refused { session });
    Ok(())
}
