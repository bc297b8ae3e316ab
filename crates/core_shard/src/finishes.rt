//! A part that an actor took ends.
ghost use Rattle.std.specs.Prelude.{ℕ, ◌≡◌, [], ◌∷◌, ◌++◌, option_map, is_some};
ghost use Rattle.core_shard.specs.Due.{CanEnd, CanFinishPart, Ends, HasEnd, IsEnded, IsEndOfWay, IsPinned, IsPinnedGate, LosesPin, LosesPinIf};
ghost use Rattle.volap_cell.specs.Cells.{cell_of};
ghost use Rattle.volap_cell.specs.ShardKinds.{IsOutcome};
ghost use Rattle.volap_cell.specs.Steps.{IsHere, Makes};
ghost use Rattle.volap_cell.specs.Values.{OfRow, Read, actor_of, errand_of, reading_of};
ghost use Rattle.volap_cell.specs.World.{change, change_if, held, held_if};
ghost use Rattle.volap_cell.specs.declared.kind.Kind.TheVariants.{FinishPart};

use crate::errands::leave;
use describing_set::Path;
use dim_hierarchy::Hierarchy;
use query_router::{Desk, Part, PartState};
use volap_cell::{Actor, Cell, Errand, Reading, RowErrand, Task, Way, desk_in, gate_in};

/// Puts the actor's part back on its desk, at its end: its row is placed, its query has read all, or no
/// memory was found for it. Where the part is pinned at a gate, the gate is held, and loses the pin.
/// Takes no memory.
pub fn finish_part(
    h: &Hierarchy,
    gate_at: u32,
    gate: &mut Option<Cell>,
    desk_at: u32,
    desk: &mut Cell,
    actor: &mut Actor,
)
    requires here { IsHere h.now (held_if gate_at (option_map cell_of gate.old) ++ held desk_at (cell_of desk.old) ∷ []) (actor_of actor.old) }
    requires due { CanFinishPart gate_at (option_map cell_of gate.old) (cell_of desk.old) (actor_of actor.old) }
    ensures held { is_some gate.new ≡ is_some gate.old }
    ensures made { Makes h.now FinishPart
        (change_if gate_at (option_map cell_of gate.old) (option_map cell_of gate.new) ++ change desk_at (cell_of desk.old) (cell_of desk.new) ∷ [])
        (actor_of actor.old) (actor_of actor.new) }
{
    let _ = h;
    let desk = desk_in(desk);
    unpin_if(gate);
    let errand = leave(&mut actor.errand);
    end(desk, errand);
}

/// The gate, where one is held, loses a pin.
fn unpin_if(gate: &mut Option<Cell>)
    requires pinned { IsPinned (option_map cell_of gate.old) }
    ensures held { is_some gate.new ≡ is_some gate.old }
    ensures less { LosesPinIf (option_map cell_of gate.old) (option_map cell_of gate.new) }
{
    if let Some(gate) = gate {
        unpin(gate);
    }
}

/// A gate loses a pin.
fn unpin(cell: &mut Cell)
    requires pinned { IsPinnedGate (cell_of cell.old) }
    ensures less { LosesPin (cell_of cell.old) (cell_of cell.new) }
{
    let gate = gate_in(cell);
    gate.pins -= 1;
}

/// The errand's part stands on the desk again, as it is at its end.
fn end(desk: &mut Desk, errand: Errand)
    requires due { CanEnd desk.old (errand_of errand) }
    ensures ends { Ends (errand_of errand) desk.old desk.new }
{
    let place = desk.taken(errand.shard, errand.worker).unwrap();
    let part = ended(errand, desk.no_path());
    desk.set(place, part);
}

/// The part that an errand has been, at its end. The empty path is for a part that has none.
fn ended(errand: Errand, no_path: Path) -> Part
    requires ends { HasEnd (errand_of errand).task }
    requires empty { no_path ≡ [] }
    ensures value { IsEnded (errand_of errand) result }
{
    let Errand {
        shard,
        worker,
        task,
        ..
    } = errand;
    match task {
        Task::Row(going) => row_ended(shard, worker, going, no_path),
        Task::Unread(_) => Part {
            shard,
            worker,
            path: no_path,
            state: PartState::NoMemory,
        },
        Task::Read(reading) => Part {
            shard,
            worker,
            path: no_path,
            state: what_was_read(&reading),
        },
    }
}

/// A row's part at its end: the row is placed, with its path; or no memory was found, and the part
/// keeps the path.
fn row_ended(shard: u32, worker: u8, going: RowErrand, no_path: Path) -> Part
    requires ends { IsEndOfWay going.way }
    requires empty { no_path ≡ [] }
    ensures value { (server : ℕ) → IsEnded (record { server = server; shard = shard; worker = worker; task = OfRow going }) result }
{
    let RowErrand { path, way, .. } = going;
    match way {
        Way::Placed => Part {
            shard,
            worker,
            path: no_path,
            state: PartState::Placed(path),
        },
        _ => Part {
            shard,
            worker,
            path,
            state: PartState::NoMemory,
        },
    }
}

/// What a query's part has read, where nothing is noted; else no memory was found for it.
fn what_was_read(reading: &Reading) -> PartState
    ensures value { IsOutcome (Read (reading_of reading.now)) result }
{
    if reading.todo.is_empty() {
        PartState::Done(reading.agg)
    } else {
        PartState::NoMemory
    }
}
