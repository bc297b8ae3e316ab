//! The step that begins a command that asks nothing of the registry.
ghost use Rattle.std.specs.Prelude.{◌≡◌, ◌+◌, [], ◌∷◌, OnOk, OnErr, false};
ghost use Rattle.core_image.specs.NotesDue.{CanNoteCalled, Notes, work_alone};
ghost use Rattle.row_ledger.specs.declared.event.Event.TheVariants.{Called};
ghost use Rattle.core_image.specs.Told.{Tells, called_by};
ghost use Rattle.volap_cell.specs.Cells.{cell_of};
ghost use Rattle.volap_cell.specs.Commands.{owes};
ghost use Rattle.volap_cell.specs.ImageKinds.{asks_registry};
ghost use Rattle.volap_cell.specs.Steps.{IsHere, Makes};
ghost use Rattle.volap_cell.specs.Values.{actor_of};
ghost use Rattle.volap_cell.specs.World.{change, held};
ghost use Rattle.volap_cell.specs.declared.kind.Kind.TheVariants.{Note};

use crate::owing::owed;
use dim_hierarchy::Hierarchy;
use row_ledger::{Call, Class, Event, Ledger};
use std::alloc::AllocError;
use volap_cell::{Actor, Cell, Command, Work, ledger_in};

/// Begins a command that asks nothing of the registry: a pull, a barrier, a settle, or a page of
/// shards, of an audit or of groups. Room for all that it may still push is taken first, of the ledger's
/// allocator.
pub fn note_called(
    h: &Hierarchy,
    ledger_at: u32,
    ledger: &mut Cell,
    actor: &mut Actor,
    call: &Call,
) -> Result<(), AllocError>
    requires here { IsHere h.now (held ledger_at (cell_of ledger.old) ∷ []) (actor_of actor.old) }
    requires due { CanNoteCalled h.now call.now (cell_of ledger.old) (actor_of actor.old) }
    ensures made { OnOk result (Makes h.now Note (change ledger_at (cell_of ledger.old) (cell_of ledger.new) ∷ []) (actor_of actor.old) (actor_of actor.new)) }
    ensures told { OnOk result (Tells (called_by call.now) (actor_of actor.old) (cell_of ledger.old) (cell_of ledger.new)) }
    ensures refused { OnErr result ((ledger.new ≡ ledger.old) × (actor_of actor.new ≡ actor_of actor.old)) }
{
    let _ = h;
    let ledger = ledger_in(ledger);
    let work = begun(call.class());
    let of = ledger.len();
    push_called(ledger, actor.number, call, &work)?;
    actor.command = Some(Command { of, work });
    actor.seen = ledger.len();
    Ok(())
}

/// The work of a call that asks nothing of the registry, at its beginning.
fn begun(class: Class) -> Work
    requires { asks_registry class ≡ false }
    ensures { result ≡ work_alone class }
{
    match class {
        Class::Sync(server) => Work::Sync {
            server,
            pulled: false,
        },
        Class::Settle => Work::Settle { pulls: 0 },
        Class::Page(subject) => Work::Page {
            subject,
            there: true,
            shown: false,
        },
        _ => Work::Bare,
    }
}

/// Notes that a command begins, where the ledger has or finds room for that and for all that the
/// command may still push.
pub(crate) fn push_called(
    ledger: &mut Ledger,
    session: u16,
    call: &Call,
    work: &Work,
) -> Result<(), AllocError>
    ensures ok { OnOk result (Notes (Called session call.now) (1 + owes work.now) 1 ledger.old ledger.new) }
    ensures err { OnErr result (ledger.new ≡ ledger.old) }
{
    let call = call.copy(ledger.allocator())?;
    ledger.reserve(1 + owed(work))?;
    ledger.push(Event::Called { session, call });
    Ok(())
}
