//! The steps that end an insert or a query for want of memory.
ghost use Rattle.std.specs.Prelude.{[], ◌∷◌};
ghost use Rattle.core_image.specs.NotesDue.{CanFailQuery, CanFailRouted, CanFailUnrouted};
ghost use Rattle.volap_cell.specs.Cells.{cell_of};
ghost use Rattle.volap_cell.specs.Steps.{IsHere, Makes};
ghost use Rattle.volap_cell.specs.Values.{actor_of};
ghost use Rattle.volap_cell.specs.World.{change, held};
ghost use Rattle.volap_cell.specs.declared.kind.Kind.TheVariants.{Note};

use dim_hierarchy::Hierarchy;
use row_ledger::Event;
use volap_cell::{Actor, Cell, desk_in, image_in, ledger_in, there};

/// Ends the actor's insert for want of memory, before a part for it was routed. The desk is not
/// asked: another session's command may stand there. Takes no memory.
pub fn fail_unrouted(
    h: &Hierarchy,
    image_at: u32,
    image: &mut Cell,
    ledger_at: u32,
    ledger: &mut Cell,
    actor: &mut Actor,
)
    requires here { IsHere h.now (held image_at (cell_of image.old) ∷ held ledger_at (cell_of ledger.old) ∷ []) (actor_of actor.old) }
    requires due { CanFailUnrouted (cell_of image.old) (cell_of ledger.old) (actor_of actor.old) }
    ensures made { Makes h.now Note
        (change image_at (cell_of image.old) (cell_of image.new) ∷ change ledger_at (cell_of ledger.old) (cell_of ledger.new) ∷ [])
        (actor_of actor.old) (actor_of actor.new) }
{
    let _ = h;
    let image = image_in(image);
    let ledger = ledger_in(ledger);
    let command = there(&actor.command);
    image.forgo();
    ledger.push(Event::Failed { of: command.of });
    actor.command = None;
    actor.seen = ledger.len();
}

/// Ends the actor's insert for want of memory, whose part found none before its gate. The desk is
/// cleared. Takes no memory.
pub fn fail_routed(
    h: &Hierarchy,
    desk_at: u32,
    desk: &mut Cell,
    image_at: u32,
    image: &mut Cell,
    ledger_at: u32,
    ledger: &mut Cell,
    actor: &mut Actor,
)
    requires here { IsHere h.now
        (held desk_at (cell_of desk.old) ∷ held image_at (cell_of image.old) ∷ held ledger_at (cell_of ledger.old) ∷ [])
        (actor_of actor.old) }
    requires due { CanFailRouted (cell_of desk.old) (cell_of image.old) (cell_of ledger.old) (actor_of actor.old) }
    ensures made { Makes h.now Note
        (change desk_at (cell_of desk.old) (cell_of desk.new) ∷ change image_at (cell_of image.old) (cell_of image.new)
        ∷ change ledger_at (cell_of ledger.old) (cell_of ledger.new) ∷ [])
        (actor_of actor.old) (actor_of actor.new) }
{
    let _ = h;
    let desk = desk_in(desk);
    let image = image_in(image);
    let ledger = ledger_in(ledger);
    let command = there(&actor.command);
    desk.clear();
    image.forgo();
    ledger.push(Event::Failed { of: command.of });
    actor.command = None;
    actor.seen = ledger.len();
}

/// Ends the actor's query for want of memory, of which a part found none. The desk is cleared.
/// Takes no memory.
pub fn fail_query(
    h: &Hierarchy,
    desk_at: u32,
    desk: &mut Cell,
    ledger_at: u32,
    ledger: &mut Cell,
    actor: &mut Actor,
)
    requires here { IsHere h.now (held desk_at (cell_of desk.old) ∷ held ledger_at (cell_of ledger.old) ∷ []) (actor_of actor.old) }
    requires due { CanFailQuery (cell_of desk.old) (cell_of ledger.old) (actor_of actor.old) }
    ensures made { Makes h.now Note
        (change desk_at (cell_of desk.old) (cell_of desk.new) ∷ change ledger_at (cell_of ledger.old) (cell_of ledger.new) ∷ [])
        (actor_of actor.old) (actor_of actor.new) }
{
    let _ = h;
    let desk = desk_in(desk);
    let ledger = ledger_in(ledger);
    let command = there(&actor.command);
    desk.clear();
    ledger.push(Event::Failed { of: command.of });
    actor.command = None;
    actor.seen = ledger.len();
}
