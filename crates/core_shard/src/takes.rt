//! A part that waits is taken from a desk.
ghost use Rattle.std.specs.Prelude.{◌≡◌, [], ◌∷◌, IfSome, None, Some, position};
ghost use Rattle.core_shard.specs.Due.{CanTakePart, IsTaker, IsWaiting};
ghost use Rattle.query_router.specs.Desk.{IsAt, is_waiting};
ghost use Rattle.query_router.specs.declared.part.PartState.TheVariants.{Waiting};
ghost use Rattle.query_router.specs.declared.part.Want.{Want as WantValue};
ghost use Rattle.volap_cell.specs.Cells.{cell_of};
ghost use Rattle.volap_cell.specs.ShardKinds.{errand_for, may_take};
ghost use Rattle.volap_cell.specs.Steps.{IsHere, Makes};
ghost use Rattle.volap_cell.specs.Values.{actor_of, errand_of};
ghost use Rattle.volap_cell.specs.World.{change, held};
ghost use Rattle.volap_cell.specs.declared.kind.Kind.TheVariants.{TakePart};

use crate::errands::give;
use dim_hierarchy::Hierarchy;
use query_router::{Desk, Part, PartState, Want};
use volap_cell::{Actor, Cell, Errand, Role, RowErrand, Task, Way, desk_in, owner_in};

/// Takes the first part on the desk that the actor may take: of its own command, or one that waits for
/// its worker. Takes no memory.
pub fn take_part(h: &Hierarchy, desk_at: u32, desk: &mut Cell, actor: &mut Actor)
    requires here { IsHere h.now (held desk_at (cell_of desk.old) ∷ []) (actor_of actor.old) }
    requires due { CanTakePart (cell_of desk.old) (actor_of actor.old) }
    ensures made { Makes h.now TakePart (change desk_at (cell_of desk.old) (cell_of desk.new) ∷ []) (actor_of actor.old) (actor_of actor.new) }
{
    let _ = h;
    let server = owner_in(desk);
    let desk = desk_in(desk);
    let place = ready_for(actor.role, desk).unwrap();
    let part = desk.take(place);
    let errand = errand_for(server, part);
    give(&mut actor.errand, errand);
}

/// The place of the first part that an actor with this role may take.
fn ready_for(role: Role, desk: &Desk) -> Option<usize>
    requires taker { IsTaker role }
    ensures place { result ≡ position (may_take role) desk.now.parts }
    ensures waiting { IfSome result (IsAt is_waiting desk.now.parts) }
{
    match role {
        Role::Session { .. } => desk.first_waiting(),
        Role::Hand { worker } => desk.ready(worker),
        _ => unreachable!(),
    }
}

/// The errand that a part which waited becomes, on the desk of a server. It has passed no gate.
fn errand_for(server: u8, part: Part) -> Errand
    requires waits { IsWaiting part }
    ensures value { (wanted : WantValue) → part.state ≡ Waiting wanted → errand_of result ≡ errand_for server part wanted }
{
    let Part {
        shard,
        worker,
        path,
        state,
    } = part;
    let PartState::Waiting(want) = state else {
        unreachable!()
    };
    let task = match want {
        Want::Row(row) => Task::Row(RowErrand {
            row,
            path,
            way: Way::Before {
                height: None,
                filled: false,
            },
        }),
        Want::Filter(filter) => Task::Unread(filter),
    };
    Errand {
        server,
        shard,
        worker,
        task,
    }
}
