//! The step that is due for an actor's part, or for its purse, is made; and a hand takes a part.
ghost use Rattle.std.specs.Prelude.{◌≡◌, [], false, get_or, IsOk, None, OnErr, OnOk, Some};
ghost use Rattle.core_due.specs.Look.{setting_by, world_by};
ghost use Rattle.core_due.specs.Parts.{due_kind, due_may_fail, ending};
ghost use Rattle.core_due.specs.Ready.{CanDescend};
ghost use Rattle.core_due.specs.Rows.{descent_of, entrance_of};
ghost use Rattle.core_due.specs.core_steps.specs.Steps.{IsFurther, IsSame, IsSound};
ghost use Rattle.core_due.specs.core_steps.specs.declared.rows.RowStep.{RowStep};
ghost use Rattle.seeded_run.specs.Arms.{GoesOnAtPart};
ghost use Rattle.seeded_run.specs.Drives.{HasActor, MayEnd, MayEndInstead, MayGoOn, MayTake};
ghost use Rattle.core_pages.specs.volap_cell.specs.ShardKinds.{pin_of};
ghost use Rattle.core_pages.specs.volap_cell.specs.Values.{ErrandValue, actor_of, errand_of};
ghost use Rattle.core_pages.specs.volap_cell.specs.declared.kind.Kind.TheVariants.{FinishPart, TakePart};

use core_due::core_steps::{PartStep, RowStep, make};
use core_due::{PartDue, awaiting, descend, desk_at, ending, enter};
use core_pages::volap_cell::{Actor, Errand, State, Task, lent};
use dim_hierarchy::Hierarchy;
use row_ledger::Use;
use std::alloc::{AllocError, Global};

/// The step by which a part ends that can end.
fn end_of(with: &Use, errand: &Errand) -> PartStep
    ensures { result ≡ ending (setting_by [] with.now) (errand_of errand.now) (pin_of (errand_of errand.now).task) }
{
    match &errand.task {
        Task::Read(reading) => ending(with, errand, reading.pin),
        _ => ending(with, errand, None),
    }
}

/// The step by which an actor's part ends.
fn end_by(with: &Use, actor: &Actor) -> PartStep
    requires part { (e : ErrandValue) × ((actor_of actor.now).errand ≡ Some e) }
    ensures { (e : ErrandValue) → (actor_of actor.now).errand ≡ Some e → result ≡ ending (setting_by [] with.now) e (pin_of e.task) }
{
    match &actor.errand {
        Some(errand) => end_of(with, errand),
        None => unreachable!(),
    }
}

/// An actor's part ends, which found no memory. Takes no memory.
fn end_part(alloc: Global, h: &Hierarchy, with: &Use, state: &mut State, number: usize)
    requires may { MayEnd h.now with.now state.old number }
    ensures { IsFurther h.now FinishPart number state.old state.new }
{
    let step = match &state.actors[number] {
        Some(actor) => end_by(with, actor),
        None => unreachable!(),
    };
    let _ = make(alloc, h, state, number, step);
}

/// The step of an actor's row in at its gate.
fn entrance(state: &mut State, number: usize, map: u32, gate: u32) -> RowStep
    requires found { HasActor state.old number (λ a. (step : RowStep) × (entrance_of (world_by state.old.cells.items) a.purse map gate ≡ Some step)) }
    ensures step { HasActor state.old number (λ a. entrance_of (world_by state.old.cells.items) a.purse map gate ≡ Some result) }
    ensures cells { state.new.cells.items ≡ state.old.cells.items }
    ensures actors { state.new.actors.items ≡ state.old.actors.items }
{
    let (cells, actors) = (&state.cells, &mut state.actors);
    enter(cells, &mut lent(&mut actors[number]).purse, map, gate)
}

/// The step of an actor's row down from its block.
fn descent(h: &Hierarchy, state: &State, number: usize, block: u32) -> RowStep
    requires found { HasActor state.now number (λ a. CanDescend h.now state.now.cells.items a block × ((step : RowStep) × (descent_of h.now (world_by state.now.cells.items) a block ≡ Some step))) }
    ensures { HasActor state.now number (λ a. descent_of h.now (world_by state.now.cells.items) a block ≡ Some result) }
{
    match &state.actors[number] {
        Some(actor) => descend(h, &state.cells, actor, block),
        None => unreachable!(),
    }
}

/// Makes a step of an actor's part or of its purse.
fn make_at_part(
    alloc: Global,
    h: &Hierarchy,
    state: &mut State,
    number: usize,
    due: PartDue,
) -> Result<(), AllocError>
    requires sound { IsSound h.now state.old }
    requires may { MayGoOn h.now state.old number due }
    ensures further { OnOk result (IsFurther h.now (due_kind due) number state.old state.new) }
    ensures sure { due_may_fail due ≡ false → IsOk result }
    ensures same { OnErr result (IsSame state.old state.new) }
{
    match due {
        PartDue::Part(step) => make(alloc, h, state, number, step),
        PartDue::Tree(step) => make(alloc, h, state, number, step),
        PartDue::Enters { map, gate } => {
            let step = entrance(state, number, map, gate);
            make(alloc, h, state, number, step)
        }
        PartDue::Descends { block } => {
            let step = descent(h, state, number, block);
            make(alloc, h, state, number, step)
        }
    }
}

/// An actor goes on with its part or its purse. Where it finds no memory the part ends so.
pub(crate) fn go_on_at_part(
    alloc: Global,
    h: &Hierarchy,
    with: &Use,
    state: &mut State,
    number: usize,
    due: PartDue,
)
    requires sound { IsSound h.now state.old }
    requires may { MayGoOn h.now state.old number due }
    requires instead { MayEndInstead h.now with.now state.old number due }
    ensures made { GoesOnAtPart h.now (due_kind due) number state.old state.new }
{
    match make_at_part(alloc, h, state, number, due) {
        Ok(()) => {}
        Err(_) => end_part(alloc, h, with, state, number),
    }
}

/// A hand of the worker takes a part that waits for it, from the first desk that has one. Takes no memory.
pub(crate) fn take_part(
    alloc: Global,
    h: &Hierarchy,
    with: &Use,
    state: &mut State,
    number: usize,
    worker: u8,
)
    requires sound { IsSound h.now state.old }
    requires may { MayTake h.now with.now state.old number worker }
    ensures made { IsFurther h.now TakePart number state.old state.new }
{
    match awaiting(with, &state.cells, worker) {
        Some(server) => {
            let desk = desk_at(with, server);
            let _ = make(alloc, h, state, number, PartStep::TakePart { desk });
        }
        None => unreachable!(),
    }
}
