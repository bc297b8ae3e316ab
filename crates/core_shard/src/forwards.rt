//! A part whose shard has moved goes on to the worker that has it.
ghost use Rattle.std.specs.Prelude.{[], ◌∷◌};
ghost use Rattle.core_shard.specs.Due.{CanForward, CanSend, Sends};
ghost use Rattle.volap_cell.specs.Cells.{cell_of};
ghost use Rattle.volap_cell.specs.Steps.{IsHere, Makes};
ghost use Rattle.volap_cell.specs.Values.{actor_of, errand_of};
ghost use Rattle.volap_cell.specs.World.{change, held};
ghost use Rattle.volap_cell.specs.declared.kind.Kind.TheVariants.{Forward};

use crate::errands::{leave, waiting};
use dim_hierarchy::Hierarchy;
use mapping_table::{MapTable, Where};
use query_router::Desk;
use volap_cell::{Actor, Cell, Errand, desk_in, map_in};

/// Puts the actor's part back on its desk, where it waits for the worker to which the table says that
/// its shard has moved. Takes no memory.
pub fn forward(
    h: &Hierarchy,
    map_at: u32,
    map: &mut Cell,
    desk_at: u32,
    desk: &mut Cell,
    actor: &mut Actor,
)
    requires here { IsHere h.now (held map_at (cell_of map.old) ∷ held desk_at (cell_of desk.old) ∷ []) (actor_of actor.old) }
    requires due { CanForward (cell_of map.old) (cell_of desk.old) (actor_of actor.old) }
    ensures made { Makes h.now Forward
        (change map_at (cell_of map.old) (cell_of map.new) ∷ change desk_at (cell_of desk.old) (cell_of desk.new) ∷ [])
        (actor_of actor.old) (actor_of actor.new) }
{
    let _ = h;
    let map = map_in(map);
    let desk = desk_in(desk);
    let errand = leave(&mut actor.errand);
    send(map, desk, errand);
}

/// The part of this errand stands on the desk again, for the worker to which its shard has moved.
fn send(map: &MapTable, desk: &mut Desk, errand: Errand)
    requires due { CanSend map.now desk.old (errand_of errand) }
    ensures sends { Sends map.now desk.old desk.new (errand_of errand) }
{
    let Some(Where::Moved(to)) = map.look(errand.shard) else {
        unreachable!()
    };
    let place = desk.taken(errand.shard, errand.worker).unwrap();
    let part = waiting(errand, *to, desk.no_path());
    desk.set(place, part);
}
