//! The step that is due for an actor's open command is made, or what is done in its place where memory is wanting.
ghost use Rattle.std.specs.Prelude.{◌≡◌, Some};
ghost use Rattle.core_due.specs.Splits.{split_of};
ghost use Rattle.core_due.specs.Works.{work_due_kind};
ghost use Rattle.core_due.specs.WorksReady.{IsWorkReady, MayMakeBook, MayMakeJob, MayMakeNote};
ghost use Rattle.core_due.specs.declared.works.WorkDue.TheVariants.{Books, Jobs};
ghost use Rattle.core_due.specs.core_steps.specs.Books.{book_kind};
ghost use Rattle.core_due.specs.core_steps.specs.Jobs.{job_kind};
ghost use Rattle.core_due.specs.core_steps.specs.Steps.{IsSound};
ghost use Rattle.core_due.specs.core_steps.specs.declared.jobs.JobStep.{JobStep};
ghost use Rattle.core_due.specs.core_steps.specs.declared.notes.NoteStep.TheVariants as note;
ghost use Rattle.seeded_run.specs.Arms.{GoesOnWithCommand};
ghost use Rattle.seeded_run.specs.Drives.{HasActor, MayGiveWay, MayShow, Stops, StopsJob, StopsAtDesk, instead_of, is_balance, is_past_freeze, kind_of_stop};
ghost use Rattle.core_pages.specs.volap_cell.specs.declared.kind.Kind.TheVariants.{Note};

use crate::shows::show_page;
use core_due::core_steps::{BookStep, JobStep, NoteStep, PartStep, make};
use core_due::{WorkDue, split_of};
use core_pages::volap_cell::{Command, State, Work, lent};
use dim_hierarchy::Hierarchy;
use row_ledger::{How, Use};
use std::alloc::Global;

/// The actor's called command ends so. Takes no memory.
pub(crate) fn end_command(alloc: Global, h: &Hierarchy, state: &mut State, number: usize, how: How)
    requires sound { IsSound h.now state.old }
    requires may { MayMakeNote h.now state.old number (note.Ended how) }
    ensures made { GoesOnWithCommand h.now Note number state.old state.new }
{
    let _ = make(alloc, h, state, number, NoteStep::Ended { how });
}

/// Whether an actor's command is a balance.
fn is_balance(command: &Option<Command>) -> bool
    ensures { result ≡ is_balance command.now }
{
    match command {
        Some(open) => matches!(open.work, Work::Balance(_)),
        None => false,
    }
}

/// The actor's job found no memory, and its shard isn't frozen: a balance leaves the action, and any other
/// command ends so. Takes no memory.
fn end_unfrozen(alloc: Global, h: &Hierarchy, state: &mut State, number: usize)
    requires sound { IsSound h.now state.old }
    requires may { HasActor state.old number (Stops h.now state.old number) }
    ensures made { GoesOnWithCommand h.now Note number state.old state.new }
{
    let balances = match &state.actors[number] {
        Some(actor) => is_balance(&actor.command),
        None => unreachable!(),
    };
    if balances {
        let _ = make(alloc, h, state, number, NoteStep::Left);
    } else {
        end_command(alloc, h, state, number, How::NoMemory);
    }
}

/// What is made in place of a job's step that found no memory. Takes no memory.
fn give_way(alloc: Global, h: &Hierarchy, state: &mut State, number: usize, is_frozen: bool)
    requires sound { IsSound h.now state.old }
    requires may { StopsJob h.now state.old number is_frozen }
    ensures made { GoesOnWithCommand h.now (kind_of_stop is_frozen) number state.old state.new }
{
    if is_frozen {
        let _ = make(alloc, h, state, number, JobStep::Postpone);
    } else {
        end_unfrozen(alloc, h, state, number);
    }
}

/// Whether the shard of a job stays frozen where this step of it finds no memory.
fn is_past_freeze(step: &JobStep) -> bool
    ensures { result ≡ is_past_freeze step.now }
{
    !matches!(step, JobStep::Freeze { .. })
}

/// An actor goes on with its job.
fn go_on_with_job(alloc: Global, h: &Hierarchy, state: &mut State, number: usize, step: JobStep)
    requires sound { IsSound h.now state.old }
    requires may { MayMakeJob h.now state.old number step }
    requires instead { MayGiveWay h.now state.old number (Jobs step) }
    ensures made { GoesOnWithCommand h.now (job_kind step) number state.old state.new }
{
    let is_frozen = is_past_freeze(&step);
    match make(alloc, h, state, number, step) {
        Ok(()) => {}
        Err(_) => give_way(alloc, h, state, number, is_frozen),
    }
}

/// The end of an actor's split, as a step.
fn split_end(state: &mut State, number: usize, map: u32, gate: u32) -> JobStep
    requires found { HasActor state.old number (λ a. (step : JobStep) × (split_of map gate a.purse ≡ Some step)) }
    ensures step { HasActor state.old number (λ a. split_of map gate a.purse ≡ Some result) }
    ensures cells { state.new.cells.items ≡ state.old.cells.items }
    ensures actors { state.new.actors.items ≡ state.old.actors.items }
{
    split_of(&mut lent(&mut state.actors[number]).purse, map, gate)
}

/// What is made in place of a step that found no memory: an insert fails whose part isn't laid, and a pull ends.
#[derive(Drop)]
enum Instead {
    Fails { image: u32 },
    Ends,
}

/// What is made where this step finds no memory.
fn instead_of(step: &BookStep) -> Instead
    ensures { result ≡ instead_of step.now }
{
    match step {
        BookStep::Route { image, .. } => Instead::Fails { image: *image },
        _ => Instead::Ends,
    }
}

/// It is made. Takes no memory.
fn make_instead(alloc: Global, h: &Hierarchy, state: &mut State, number: usize, instead: Instead)
    requires sound { IsSound h.now state.old }
    requires may { StopsAtDesk h.now state.old number instead }
    ensures made { GoesOnWithCommand h.now Note number state.old state.new }
{
    match instead {
        Instead::Fails { image } => {
            let _ = make(alloc, h, state, number, BookStep::FailUnrouted { image });
        }
        Instead::Ends => end_command(alloc, h, state, number, How::NoMemory),
    }
}

/// An actor goes on with its insert, its query or its pull.
fn go_on_at_desk(alloc: Global, h: &Hierarchy, state: &mut State, number: usize, step: BookStep)
    requires sound { IsSound h.now state.old }
    requires may { MayMakeBook h.now state.old number step }
    requires instead { MayGiveWay h.now state.old number (Books step) }
    ensures made { GoesOnWithCommand h.now (book_kind step) number state.old state.new }
{
    let instead = instead_of(&step);
    match make(alloc, h, state, number, step) {
        Ok(()) => {}
        Err(_) => make_instead(alloc, h, state, number, instead),
    }
}

/// An actor goes on with its command. Where it finds no memory the command ends so, and a balance leaves its action.
pub(crate) fn go_on_with_work(
    alloc: Global,
    h: &Hierarchy,
    with: &Use,
    state: &mut State,
    number: usize,
    due: WorkDue,
)
    requires sound { IsSound h.now state.old }
    requires may { IsWorkReady h.now state.old number due }
    requires instead { MayGiveWay h.now state.old number due }
    requires shows { MayShow h.now with.now state.old number due }
    ensures made { GoesOnWithCommand h.now (work_due_kind due) number state.old state.new }
{
    match due {
        WorkDue::Takes(desk) => {
            let _ = make(alloc, h, state, number, PartStep::TakePart { desk });
        }
        WorkDue::Books(step) => go_on_at_desk(alloc, h, state, number, step),
        WorkDue::Jobs(step) => go_on_with_job(alloc, h, state, number, step),
        WorkDue::Splits { map, gate } => {
            let step = split_end(state, number, map, gate);
            go_on_with_job(alloc, h, state, number, step);
        }
        WorkDue::Ends(how) => end_command(alloc, h, state, number, how),
        WorkDue::Leaves => {
            let _ = make(alloc, h, state, number, NoteStep::Left);
        }
        WorkDue::Shows(subject) => show_page(alloc, h, with, state, number, subject),
    }
}
