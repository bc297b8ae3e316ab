//! The step that ends a command that is no insert and no query.
ghost use Rattle.std.specs.Prelude.{◌≡◌, ◌<◌, ◌≤◌, [], ◌∷◌, None};
ghost use Rattle.core_image.specs.NotesDue.{CanNoteEnded, NotesEnd};
ghost use Rattle.core_image.specs.Told.{Tells, ended_by};
ghost use Rattle.volap_cell.specs.Cells.{cell_of};
ghost use Rattle.volap_cell.specs.Steps.{IsHere, Makes};
ghost use Rattle.volap_cell.specs.Values.{actor_of};
ghost use Rattle.volap_cell.specs.World.{change, held};
ghost use Rattle.volap_cell.specs.declared.kind.Kind.TheVariants.{Note};

use crate::owing::owed;
use dim_hierarchy::Hierarchy;
use row_ledger::{Event, How, Ledger};
use volap_cell::{Actor, Cell, ledger_in, there};

/// Ends the actor's command that is no insert and no query, and its job where it has one. The
/// promises that it did not need are given back. Takes no memory.
pub fn note_ended(h: &Hierarchy, ledger_at: u32, ledger: &mut Cell, actor: &mut Actor, how: How)
    requires here { IsHere h.now (held ledger_at (cell_of ledger.old) ∷ []) (actor_of actor.old) }
    requires due { CanNoteEnded how (cell_of ledger.old) (actor_of actor.old) }
    ensures made { Makes h.now Note (change ledger_at (cell_of ledger.old) (cell_of ledger.new) ∷ []) (actor_of actor.old) (actor_of actor.new) }
    ensures told { Tells (ended_by how) (actor_of actor.old) (cell_of ledger.old) (cell_of ledger.new) }
    ensures over { (actor_of actor.new).command ≡ None }
{
    let _ = h;
    let ledger = ledger_in(ledger);
    let command = there(&actor.command);
    push_ended(ledger, command.of, how, owed(&command.work));
    actor.command = None;
    actor.job = None;
    actor.seen = ledger.len();
}

/// Notes that a command ends, for which so many pushes are still promised: its end uses one up, and
/// the others are given back.
fn push_ended(ledger: &mut Ledger, of: u64, how: How, left: u64)
    requires some { 0 < left }
    requires promised { left ≤ ledger.old.promised }
    ensures ended { NotesEnd of how left ledger.old ledger.new }
{
    ledger.push(Event::Ended { of, how });
    ledger.cancel(left - 1);
}
