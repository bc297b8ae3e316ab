//! The steps by which a session comes to its desk, and goes.
ghost use Rattle.std.specs.Prelude.{[], ◌∷◌};
ghost use Rattle.core_image.specs.NotesDue.{CanCount, Counts, MayCount};
ghost use Rattle.volap_cell.specs.Cells.{cell_of};
ghost use Rattle.volap_cell.specs.Steps.{IsHere, Makes};
ghost use Rattle.volap_cell.specs.Values.{actor_of};
ghost use Rattle.volap_cell.specs.World.{change, held};
ghost use Rattle.volap_cell.specs.declared.kind.Kind.TheVariants.{Note};

use dim_hierarchy::Hierarchy;
use query_router::Desk;
use volap_cell::{Actor, Cell, desk_in};

/// Counts the actor in at the desk of its server where it comes, and out where it goes. Takes no
/// memory.
pub fn count_session(h: &Hierarchy, desk_at: u32, desk: &mut Cell, actor: &mut Actor, come: bool)
    requires here { IsHere h.now (held desk_at (cell_of desk.old) ∷ []) (actor_of actor.old) }
    requires due { CanCount (cell_of desk.old) (actor_of actor.old) come }
    ensures made { Makes h.now Note (change desk_at (cell_of desk.old) (cell_of desk.new) ∷ []) (actor_of actor.old) (actor_of actor.new) }
{
    let _ = h;
    let desk = desk_in(desk);
    count(desk, come);
    actor.counted = come;
}

/// Counts one more at the desk, or one less.
fn count(desk: &mut Desk, come: bool)
    requires can { MayCount desk.old come }
    ensures counts { Counts desk.old desk.new come }
{
    if come {
        desk.count_in();
    } else {
        desk.count_out();
    }
}
