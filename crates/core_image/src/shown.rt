//! The step that shows a page.
ghost use Rattle.std.specs.Prelude.{◌≡◌, [], ◌∷◌, true, is_some, Some};
ghost use Rattle.core_image.specs.NotesDue.{CanNoteShown, HasShown, MayShow};
ghost use Rattle.core_image.specs.Told.{Tells};
ghost use Rattle.core_image.specs.ToldPages.{shown_by};
ghost use Rattle.volap_cell.specs.Cells.{cell_of};
ghost use Rattle.volap_cell.specs.Commands.{once_shown};
ghost use Rattle.volap_cell.specs.Steps.{IsHere, Makes};
ghost use Rattle.volap_cell.specs.Values.{actor_of};
ghost use Rattle.volap_cell.specs.World.{change, held};
ghost use Rattle.volap_cell.specs.declared.kind.Kind.TheVariants.{Note};

use dim_hierarchy::Hierarchy;
use row_ledger::{Event, Page};
use volap_cell::{Actor, Cell, Command, Work, ledger_in, there};

/// Shows the page of the actor's command, directly behind its beginning. The page is what the state
/// has while all others are idle, which is said of the whole step. It is noted as it is, so this takes
/// no memory.
pub fn note_shown(h: &Hierarchy, ledger_at: u32, ledger: &mut Cell, actor: &mut Actor, page: Page)
    requires here { IsHere h.now (held ledger_at (cell_of ledger.old) ∷ []) (actor_of actor.old) }
    requires due { CanNoteShown page (cell_of ledger.old) (actor_of actor.old) }
    ensures made { Makes h.now Note (change ledger_at (cell_of ledger.old) (cell_of ledger.new) ∷ []) (actor_of actor.old) (actor_of actor.new) }
    ensures told { Tells (shown_by page) (actor_of actor.old) (cell_of ledger.old) (cell_of ledger.new) }
{
    let _ = h;
    let ledger = ledger_in(ledger);
    let command = there(&actor.command);
    ledger.push(Event::Shown {
        of: command.of,
        page,
    });
    show(&mut actor.command);
    actor.seen = ledger.len();
}

/// The page of the actor's command is shown.
fn show(command: &mut Option<Command>)
    requires { MayShow command.old }
    ensures { HasShown command.old command.new }
{
    if let Some(command) = command {
        mark(&mut command.work);
    }
}

/// So it is of what the command does.
fn mark(work: &mut Work)
    requires { is_some (once_shown work.old) ≡ true }
    ensures { once_shown work.old ≡ Some work.new }
{
    if let Work::Page { shown, .. } = work {
        *shown = true;
    }
}
