//! A query that visits a block without waiting, and one that takes the parts that wait on its desk.
ghost use Rattle.std.specs.Prelude.{ℕ, ◌≡◌, ◌≢◌, ◌≤◌, None, Some, IfErr, OnErr, OnOk};
ghost use Rattle.std.specs.Bool.{OnFalse, OnTrue};
ghost use Rattle.part_steps.specs.core_tree.specs.ReadDue.{room_in_task, room_to_note};
ghost use Rattle.session_steps.specs.Commands.{HasOpen, IsStillOpen};
ghost use Rattle.part_steps.specs.seat_steps.specs.Booked.{IsAsBefore};
ghost use Rattle.part_steps.specs.seat_steps.specs.Floors.{Stands};
ghost use Rattle.part_steps.specs.seat_steps.specs.Takes.{WasRefused};
ghost use Rattle.part_steps.specs.Parts.{IsUnread};
ghost use Rattle.part_steps.specs.Reads.{HasRoom, HasRoomIn, noted_by};
ghost use Rattle.session_steps.specs.Visits.{HasVisited};
ghost use Rattle.part_steps.specs.volap_cell.specs.ImageKinds.{doing};
ghost use Rattle.part_steps.specs.volap_cell.specs.Values.{actor_of, task_of};
ghost use Rattle.part_steps.specs.volap_cell.specs.declared.command.Work.TheVariants.{Query};

use crate::books::books_of;
use crate::commands::{see_desk, take_part};
use part_steps::of_core_due::{WorkDue, last_noted};
use part_steps::of_core_steps::{BookStep, TreeStep};
use part_steps::of_link_descent::MOST_NOTED;
use part_steps::of_seat_steps::{Floor, Player, give_all, make, try_take};
use part_steps::of_volap_cell::{Actor, Errand, Task};
use std::alloc::{AllocError, Global};
use std::sync::Wait;
use turn_table::Busy;

/// The block that the actor's query noted last, if there is one.
pub fn noted_by(actor: &Actor) -> Option<u32>
    ensures { result ≡ noted_by (actor_of actor.now) }
{
    match &actor.errand {
        Some(
            Errand {
                task: Task::Read(reading),
                ..
            },
        ) => last_noted(&reading.todo),
        _ => None,
    }
}

/// Makes room for what the next visit of the actor's query notes.
pub fn reserve_notes(actor: &mut Actor) -> Result<(), AllocError>
    ensures ok { OnOk result (HasRoom actor.new) }
    ensures same { actor_of actor.new ≡ actor_of actor.old }
    ensures went { actor.new.went ≡ actor.old.went }
    ensures room { room_to_note actor.old ≤ room_to_note actor.new }
{
    match &mut actor.errand {
        Some(errand) => reserve_in(&mut errand.task),
        None => Ok(()),
    }
}

/// The same for what the actor does. A function of its own, since a function is not told what became of a value that it
/// lent two enums deep.
fn reserve_in(task: &mut Task) -> Result<(), AllocError>
    ensures ok { OnOk result (HasRoomIn task.new) }
    ensures same { task_of task.new ≡ task_of task.old }
    ensures room { room_in_task task.old ≤ room_in_task task.new }
{
    match task {
        Task::Read(reading) => reading.todo.reserve(MOST_NOTED),
        _ => Ok(()),
    }
}

/// The actor's query visits the block, which it noted last, if its turn is free. It waits for nobody and takes no memory.
pub fn try_visit(alloc: Global, floor: &Floor, player: &mut Player, block: u32) -> Result<(), Busy>
    requires stands { Stands floor.now player.old }
    requires noted { noted_by (actor_of player.old.actor) ≡ Some block }
    requires room { HasRoom player.old.actor }
    ensures visited { OnOk result (HasVisited floor.now block player.old player.new) }
    ensures busy { IfErr result (λ b. (b.cell ≡ block) × (b.word ≢ 0)) }
    ensures read { IfErr result (λ b. WasRefused block b.word player.old player.new) }
    ensures same { OnErr result (IsAsBefore floor.now player.old player.new) }
    ensures still { OnErr result ((player.new.actor ≡ player.old.actor) × (player.new.seat.view.seen ≡ player.old.seat.view.seen)) }
{
    try_take(floor, player, block)?;
    let _ = make(alloc, floor, player, TreeStep::VisitBlock { block });
    Ok(())
}

/// The session takes the first part of its query that waits on its server's desk. It says whether there was one.
pub fn take_waiting<R: Wait>(rt: &R, alloc: Global, floor: &Floor, player: &mut Player) -> bool
    requires stands { Stands floor.now player.old }
    requires open { HasOpen player.old }
    requires query { (of : ℕ) × ((actor_of player.old.actor).command ≡ doing of Query) }
    ensures open { IsStillOpen floor.now player.old player.new }
    ensures taken { OnTrue result (IsUnread (actor_of player.new.actor)) }
    ensures none { OnFalse result ((actor_of player.new.actor).errand ≡ None) }
{
    let (desk, image) = books_of(floor, player);
    let failed = BookStep::FailQuery { desk };
    match see_desk(rt, floor, player, desk, image, failed) {
        Some(WorkDue::Takes(_)) => {
            take_part(alloc, floor, player, desk);
            true
        }
        _ => {
            give_all(floor, player);
            false
        }
    }
}
