//! The step that is due for the insert or the query that a session has open, while it is at no part.
ghost use Rattle.std.specs.Prelude.{ℕ, ◌≡◌, ◌∷◌, [], None, OnErr, OnOk, Some};
ghost use Rattle.part_steps.specs.core_steps.specs.Books.{book_asks, book_places};
ghost use Rattle.part_steps.specs.core_steps.specs.Parts.{part_asks, part_places};
ghost use Rattle.part_steps.specs.core_steps.specs.declared.books.BookStep.TheVariants.{Answer, Route};
ghost use Rattle.part_steps.specs.core_steps.specs.declared.parts.PartStep.TheVariants.{TakePart};
ghost use Rattle.session_steps.specs.Books.{AreBooksOf, EndsAtDesk, IsDueBy, IsEndBy, fails_by};
ghost use Rattle.session_steps.specs.Commands.{ComesTo, HasOpen, IsStillOpen};
ghost use Rattle.part_steps.specs.seat_steps.specs.Booked.{IsAsBefore, IsDue, IsUnchanged, IsUpToLedger};
ghost use Rattle.part_steps.specs.seat_steps.specs.Floors.{IsSeated, Stands};
ghost use Rattle.part_steps.specs.Parts.{IsUnread};
ghost use Rattle.part_steps.specs.seat_steps.specs.declared.floor.Player.{Player};
ghost use Rattle.part_steps.specs.volap_cell.specs.ImageKinds.{doing};
ghost use Rattle.part_steps.specs.volap_cell.specs.Values.{actor_of};
ghost use Rattle.part_steps.specs.volap_cell.specs.declared.command.Work.{Work};
ghost use Rattle.part_steps.specs.volap_cell.specs.declared.command.Work.TheVariants.{Query};

use crate::books::{DESK, books_of, take_image, take_image_alone};
use crate::desks::{due_at, is_empty_at, sum_at};
use measure_agg::Agg;
use part_steps::of_core_due::{WorkDue, works_can_be_made};
use part_steps::of_core_steps::{BookStep, PartStep};
use part_steps::of_seat_steps::{Floor, Player, give_all, make, make_booked, take_first};
use part_steps::of_volap_cell::{Command, Work, there};
use std::alloc::{AllocError, Global};
use std::sync::Wait;

/// How a command of a session ended.
#[derive(Clone, Copy)]
pub enum End {
    Acked,
    Answered(Agg),
    /// For want of memory.
    Failed,
}

/// What came of a command of a session.
#[derive(Clone, Copy)]
pub enum Next {
    /// It went on, or has a part to go on with.
    GoesOn,
    /// It waits for the command of another session of its server, or for a part that another actor is at.
    Waits,
    Ended(End),
}

/// The session goes on with its open command by one step. Where it finds no memory before a part is laid, the command
/// ends so.
pub fn go_on_with_command<R: Wait>(
    rt: &R,
    alloc: Global,
    floor: &Floor,
    player: &mut Player,
) -> Next
    requires stands { Stands floor.now player.old }
    requires open { HasOpen player.old }
    ensures comes { ComesTo floor.now result player.old player.new }
{
    let (desk, image) = books_of(floor, player);
    match failed_by(there(&player.actor.command), desk, image) {
        Some(failed) => go_on_at_desk(rt, alloc, floor, player, desk, image, failed),
        None => route(rt, alloc, floor, player, desk, image),
    }
}

/// The step by which a command fails of which a part found no memory, `None` where no part of it is laid yet.
fn failed_by(command: &Command, desk: u32, image: u32) -> Option<BookStep>
    ensures { result ≡ fails_by desk image command.now.work }
{
    match &command.work {
        Work::Insert { routed: false, .. } => None,
        Work::Insert { .. } => Some(BookStep::FailRouted { desk, image }),
        _ => Some(BookStep::FailQuery { desk }),
    }
}

/// The part of an insert is laid on the desk, if that is empty; where memory is wanting, the insert fails.
fn route<R: Wait>(
    rt: &R,
    alloc: Global,
    floor: &Floor,
    player: &mut Player,
    desk: u32,
    image: u32,
) -> Next
    requires stands { Stands floor.now player.old }
    requires opened { HasOpen player.old }
    requires books { AreBooksOf floor.now player.old desk image }
    requires unlaid { (of : ℕ) → (work : Work) → (actor_of player.old.actor).command ≡ doing of work → fails_by desk image work ≡ None }
    ensures comes { ComesTo floor.now result player.old player.new }
{
    works_can_be_made();
    take_first(rt, floor, player, desk, DESK);
    if !is_empty_at(floor, player, desk) {
        give_all(floor, player);
        return Next::Waits;
    }
    match lay(rt, alloc, floor, player, desk, image) {
        Ok(()) => Next::GoesOn,
        Err(_) => fail_unrouted(rt, alloc, floor, player, desk, image),
    }
}

/// The part of an insert is laid on the desk. Where memory is wanting, nothing changes.
fn lay<R: Wait>(
    rt: &R,
    alloc: Global,
    floor: &Floor,
    player: &mut Player,
    desk: u32,
    image: u32,
) -> Result<(), AllocError>
    requires seated { IsSeated floor.now player.old }
    requires opened { HasOpen player.old }
    requires books { AreBooksOf floor.now player.old desk image }
    requires ranks { player.old.seat.ranks ≡ (desk, Some 4) ∷ [] }
    requires due { IsDue floor.now player.old (book_places (Route desk image)) (book_asks (Route desk image)) }
    ensures laid { OnOk result ((p : Player) → IsUnchanged p player.old → IsStillOpen floor.now p player.new) }
    ensures same { OnErr result (IsAsBefore floor.now player.old player.new) }
{
    take_image(rt, floor, player, desk, image);
    make(alloc, floor, player, BookStep::Route { desk, image })
}

/// An insert fails of which no part is laid.
fn fail_unrouted<R: Wait>(
    rt: &R,
    alloc: Global,
    floor: &Floor,
    player: &mut Player,
    desk: u32,
    image: u32,
) -> Next
    requires stands { Stands floor.now player.old }
    requires opened { HasOpen player.old }
    requires books { AreBooksOf floor.now player.old desk image }
    requires unlaid { (of : ℕ) → (work : Work) → (actor_of player.old.actor).command ≡ doing of work → fails_by desk image work ≡ None }
    ensures comes { (p : Player) → IsUnchanged p player.old → ComesTo floor.now result p player.new }
{
    works_can_be_made();
    take_image_alone(rt, floor, player, desk, image);
    end_by(
        rt,
        alloc,
        floor,
        player,
        BookStep::FailUnrouted { image },
        End::Failed,
    )
}

/// The session waits for the turn of its desk, and sees what is due by the parts there.
pub(crate) fn see_desk<R: Wait>(
    rt: &R,
    floor: &Floor,
    player: &mut Player,
    desk: u32,
    image: u32,
    failed: BookStep,
) -> Option<WorkDue>
    requires stands { Stands floor.now player.old }
    requires opened { HasOpen player.old }
    requires books { AreBooksOf floor.now player.old desk image }
    requires laid { (of : ℕ) → (work : Work) → (actor_of player.old.actor).command ≡ doing of work → fails_by desk image work ≡ Some failed }
    ensures seated { IsSeated floor.now player.new }
    ensures same { IsUnchanged player.old player.new }
    ensures ranks { player.new.seat.ranks ≡ (desk, Some 4) ∷ [] }
    ensures due { IsDueBy floor.now player.new desk image result }
{
    works_can_be_made();
    take_first(rt, floor, player, desk, DESK);
    due_at(floor, player, desk, image, failed)
}

/// What is due by the parts on the desk: a part is taken, or the command ends by what they come to.
fn go_on_at_desk<R: Wait>(
    rt: &R,
    alloc: Global,
    floor: &Floor,
    player: &mut Player,
    desk: u32,
    image: u32,
    failed: BookStep,
) -> Next
    requires stands { Stands floor.now player.old }
    requires opened { HasOpen player.old }
    requires books { AreBooksOf floor.now player.old desk image }
    requires laid { (of : ℕ) → (work : Work) → (actor_of player.old.actor).command ≡ doing of work → fails_by desk image work ≡ Some failed }
    ensures comes { ComesTo floor.now result player.old player.new }
{
    match see_desk(rt, floor, player, desk, image, failed) {
        Some(WorkDue::Takes(_)) => {
            take_part(alloc, floor, player, desk);
            Next::GoesOn
        }
        Some(WorkDue::Books(step)) => { end_at_desk(rt, alloc, floor, player, desk, image, step) }
        _ => {
            give_all(floor, player);
            Next::Waits
        }
    }
}

/// The session takes a part of its command from the desk. That of a query has read no gate.
pub(crate) fn take_part(alloc: Global, floor: &Floor, player: &mut Player, desk: u32)
    requires seated { IsSeated floor.now player.old }
    requires opened { HasOpen player.old }
    requires books { (image : ℕ) × AreBooksOf floor.now player.old desk image }
    requires ranks { player.old.seat.ranks ≡ (desk, Some 4) ∷ [] }
    requires due { IsDue floor.now player.old (part_places (TakePart desk)) (part_asks (TakePart desk)) }
    ensures still { (p : Player) → IsUnchanged p player.old → IsStillOpen floor.now p player.new }
    ensures unread { (of : ℕ) → (actor_of player.old.actor).command ≡ doing of Query → IsUnread (actor_of player.new.actor) }
{
    let _ = make(alloc, floor, player, PartStep::TakePart { desk });
}

/// A command ends by a step that is due by the parts on the desk.
fn end_at_desk<R: Wait>(
    rt: &R,
    alloc: Global,
    floor: &Floor,
    player: &mut Player,
    desk: u32,
    image: u32,
    step: BookStep,
) -> Next
    requires seated { IsSeated floor.now player.old }
    requires opened { HasOpen player.old }
    requires books { AreBooksOf floor.now player.old desk image }
    requires ranks { player.old.seat.ranks ≡ (desk, Some 4) ∷ [] }
    requires due { IsDue floor.now player.old (book_places step) (book_asks step) }
    requires ends { EndsAtDesk desk image step }
    ensures comes { (p : Player) → IsUnchanged p player.old → ComesTo floor.now result p player.new }
{
    match step {
        BookStep::Answer { .. } => answer(rt, alloc, floor, player, desk, image),
        BookStep::FailQuery { .. } => {
            let step = BookStep::FailQuery { desk };
            end_by(rt, alloc, floor, player, step, End::Failed)
        }
        BookStep::Ack { .. } => {
            take_image(rt, floor, player, desk, image);
            let step = BookStep::Ack { desk, image };
            end_by(rt, alloc, floor, player, step, End::Acked)
        }
        BookStep::FailRouted { .. } => {
            take_image(rt, floor, player, desk, image);
            let step = BookStep::FailRouted { desk, image };
            end_by(rt, alloc, floor, player, step, End::Failed)
        }
        _ => unreachable!(),
    }
}

/// A query is answered with what the parts on the desk come to.
fn answer<R: Wait>(
    rt: &R,
    alloc: Global,
    floor: &Floor,
    player: &mut Player,
    desk: u32,
    image: u32,
) -> Next
    requires seated { IsSeated floor.now player.old }
    requires opened { HasOpen player.old }
    requires books { AreBooksOf floor.now player.old desk image }
    requires ranks { player.old.seat.ranks ≡ (desk, Some 4) ∷ [] }
    requires due { IsDue floor.now player.old (book_places (Answer desk)) (book_asks (Answer desk)) }
    ensures comes { (p : Player) → IsUnchanged p player.old → ComesTo floor.now result p player.new }
{
    let agg = sum_at(floor, player, desk);
    let step = BookStep::Answer { desk };
    end_by(rt, alloc, floor, player, step, End::Answered(agg))
}

/// A command ends so by this step, over the cells that are held and the ledger.
fn end_by<R: Wait>(
    rt: &R,
    alloc: Global,
    floor: &Floor,
    player: &mut Player,
    step: BookStep,
    end: End,
) -> Next
    requires seated { IsSeated floor.now player.old }
    requires opened { HasOpen player.old }
    requires held { IsUpToLedger player.old (book_places step) }
    requires due { IsDue floor.now player.old (book_places step) (book_asks step) }
    requires ends { IsEndBy player.old step end }
    ensures comes { (p : Player) → IsUnchanged p player.old → ComesTo floor.now result p player.new }
{
    let _ = make_booked(rt, alloc, floor, player, step);
    Next::Ended(end)
}
