//! What an actor does on its turn, where that waits for nothing, in a core that one thread holds.
ghost use Rattle.std.specs.Option.{option_map_or};
ghost use Rattle.std.specs.Prelude.{◌≡◌, ◌==◌, ◌||◌, ◌<◌, ℕ, not, List, [], get_or, length, option_copied, option_map, IfSome, Some, None, true, false};
ghost use Rattle.core_due.specs.Due.{desk_of, errand_kind, hand_kind};
ghost use Rattle.core_due.specs.Look.{history_at, setting_by, world_by};
ghost use Rattle.core_due.specs.Parts.{part_due};
ghost use Rattle.core_due.specs.Wants.{meets, wanted_of};
ghost use Rattle.core_due.specs.Works.{work_due};
ghost use Rattle.core_due.specs.WorksReady.{AreBytes};
ghost use Rattle.dim_hierarchy.specs.Dimension.{Dimension};
ghost use Rattle.script_form.specs.declared.script.Command as script;
ghost use Rattle.seeded_run.specs.Core.{HasCore, IsCore};
ghost use Rattle.seeded_run.specs.Due.{actor_kind, due_by};
ghost use Rattle.seeded_run.specs.DueSteps.{KnowsBytes, actor_step, command_step, free_step, purse_step, step_due_by, step_where};
ghost use Rattle.seeded_run.specs.Look.{IsTold, ahead, alone_by};
ghost use Rattle.seeded_run.specs.Survey.{IsSurvey};
ghost use Rattle.seeded_run.specs.Takes.{AsksHere, CanPick, HasDeskFor, free_by, is_free_by, may_next};
ghost use Rattle.seeded_run.specs.declared.turn.DueStep.TheVariants as step;
ghost use Rattle.core_pages.specs.volap_cell.specs.Setting.{Setting};
ghost use Rattle.core_pages.specs.volap_cell.specs.Values.{ErrandValue, actor_of, errand_of};
ghost use Rattle.core_pages.specs.volap_cell.specs.World.{World};

use crate::alone::is_alone;
use crate::survey::Survey;
use crate::wanted::{is_drained, is_wanted_free};
use core_due::core_steps::{ReuseStep, TreeStep};
use core_due::{
    PartDue, WorkDue, awaiting, is_spent, part_due, reuse_due, tell_bytes, waits_for_others,
    work_due,
};
use core_pages::tree_shape::tree_laws;
use core_pages::volap_cell::{Actor, Command as Open, Errand, Role, State};
use dim_hierarchy::Hierarchy;
use row_ledger::Use;
use script_form::Command;
use script_run::closes;

/// What an actor does on its turn, by the step that is due for it.
#[derive(Drop)]
pub enum DueStep {
    /// It begins its next command. Which kind of step that is isn't said: the names of the command tell, and
    /// they are looked up once, as it begins.
    Begins,
    /// A hand of this worker takes a part that waits for it, from the first desk that has one.
    Takes { worker: u8 },
    /// It uses a cell again, before its next command begins.
    Reuses(ReuseStep),
    /// It goes on with its part or its purse.
    AtPart(PartDue),
    /// It goes on with its command.
    AtWork(WorkDue),
}

/// Whether there is a next command, which closes nothing or finds everyone else idle.
fn may_next(state: &State, number: usize, next: Option<&Command>, left: usize) -> bool
    ensures { result ≡ may_next (option_copied next.entry) (alone_by state.now.actors.items number (option_copied next.entry) left) }
{
    match next {
        Some(command) => !closes(command) || is_alone(&state.actors, number, next, left),
        None => false,
    }
}

/// A hand takes a part that waits for its worker, if one does.
fn hand_due(with: &Use, state: &State, worker: u8) -> Option<DueStep>
    ensures { result ≡ option_map (λ k. step.Takes worker) (hand_kind (setting_by [] with.now) (world_by state.now.cells.items) worker) }
{
    match awaiting(with, &state.cells, worker) {
        Some(_) => Some(DueStep::Takes { worker }),
        None => None,
    }
}

/// What an actor of this role does that has no command. The names of the next one aren't looked up: it
/// begins, or a note is made that one is unknown, and neither waits for anybody.
fn free_due(
    with: &Use,
    state: &State,
    role: Role,
    number: usize,
    next: Option<&Command>,
    left: usize,
) -> Option<DueStep>
    requires desk { HasDeskFor (desk_of (setting_by [] with.now) (world_by state.now.cells.items) role) (option_copied next) }
    ensures { (h : List Dimension) → free_step (setting_by h with.now) (world_by state.now.cells.items)
        (alone_by state.now.actors.items number (option_copied next.entry) left) (ahead (option_copied next.entry)) role ≡ result }
{
    if let Role::Hand { worker } = role {
        return hand_due(with, state, worker);
    }
    if may_next(state, number, next, left) {
        Some(DueStep::Begins)
    } else {
        None
    }
}

/// What an actor does that has no command: a cell that can be used again goes before the next command.
fn idle_due(
    with: &Use,
    state: &State,
    actor: &Actor,
    number: usize,
    next: Option<&Command>,
    left: usize,
) -> Option<DueStep>
    requires desk { HasDeskFor (desk_of (setting_by [] with.now) (world_by state.now.cells.items) actor.now.role) (option_copied next) }
    ensures { (h : List Dimension) → command_step (setting_by h with.now) (world_by state.now.cells.items)
        (alone_by state.now.actors.items number (option_copied next.entry) left) (ahead (option_copied next.entry)) (actor_of actor.now) None ≡ result }
{
    match reuse_due(&state.cells, actor) {
        Some(step) => Some(DueStep::Reuses(step)),
        None => free_due(with, state, actor.role, number, next, left),
    }
}

/// How an actor goes on with its open command.
fn command_due(
    with: &Use,
    state: &State,
    actor: &Actor,
    command: &Open,
    number: usize,
    next: Option<&Command>,
    left: usize,
) -> Option<DueStep>
    ensures step { result ≡ option_map step.AtWork (work_due (setting_by [] with.now) (world_by state.now.cells.items) (history_at state.now.cells.items)
        (alone_by state.now.actors.items number (option_copied next.entry) left) (actor_of actor.now) command.now.of command.now.work) }
    ensures bytes { AreBytes with.now.servers command.now.work }
{
    tell_bytes(with, &command.work);
    let alone = waits_for_others(&command.work) && is_alone(&state.actors, number, next, left);
    match work_due(with, &state.cells, alone, actor, command.of, &command.work) {
        Some(due) => Some(DueStep::AtWork(due)),
        None => None,
    }
}

/// What an actor does that is at no part.
fn purse_due(
    with: &Use,
    state: &State,
    actor: &Actor,
    number: usize,
    next: Option<&Command>,
    left: usize,
) -> Option<DueStep>
    requires desk { actor.now.command ≡ None → HasDeskFor (desk_of (setting_by [] with.now) (world_by state.now.cells.items) actor.now.role) (option_copied next) }
    ensures step { (h : List Dimension) → purse_step (setting_by h with.now) (world_by state.now.cells.items)
        (alone_by state.now.actors.items number (option_copied next.entry) left) (ahead (option_copied next.entry)) (actor_of actor.now) ≡ result }
    ensures bytes { IfSome result (KnowsBytes with.now.servers (actor_of actor.now)) }
{
    if actor.job.is_none() && !is_spent(actor) {
        return Some(DueStep::AtPart(PartDue::Tree(TreeStep::GiveBack)));
    }
    match &actor.command {
        Some(open) => command_due(with, state, actor, open, number, next, left),
        None => idle_due(with, state, actor, number, next, left),
    }
}

/// How an actor goes on with the part that it is at, where the block that it wants is free. Where the actor is
/// alone at work, each block is, and nobody is asked.
fn errand_due(
    h: &Hierarchy,
    with: &Use,
    state: &State,
    survey: Option<&Survey>,
    actor: &Actor,
    errand: &Errand,
    number: usize,
    alone: bool,
) -> Option<DueStep>
    requires told { IfSome (option_copied survey) (IsSurvey with.now state.now.cells.items state.now.actors.items) }
    requires alone { alone ≡ true → (block : ℕ) → free_by state.now.actors.items number block ≡ true }
    requires fits { CanPick h.now state.now.cells.items (errand_of errand.now) }
    ensures step { step_where (option_map_or (λ k. option_map_or (free_by state.now.actors.items number) (wanted_of (setting_by h.now with.now) (world_by state.now.cells.items) (errand_of errand.now) k) true)
        (errand_kind (setting_by h.now with.now) (world_by state.now.cells.items) (actor_of actor.now) (errand_of errand.now)) false)
        (option_map step.AtPart (part_due (setting_by h.now with.now) (world_by state.now.cells.items) (actor_of actor.now) (errand_of errand.now))) ≡ result }
    ensures bytes { IfSome result (KnowsBytes with.now.servers (actor_of actor.now)) }
{
    let Some(due) = part_due(with, &state.cells, actor, errand) else {
        return None;
    };
    if alone || is_wanted_free(h, state, survey, number, errand, &due) {
        Some(DueStep::AtPart(due))
    } else {
        None
    }
}

/// What an actor does, where the block that it wants is free.
fn actor_due(
    h: &Hierarchy,
    with: &Use,
    state: &State,
    survey: Option<&Survey>,
    actor: &Actor,
    number: usize,
    next: Option<&Command>,
    left: usize,
    alone: bool,
) -> Option<DueStep>
    requires told { IfSome (option_copied survey) (IsSurvey with.now state.now.cells.items state.now.actors.items) }
    requires alone { alone ≡ true → (block : ℕ) → free_by state.now.actors.items number block ≡ true }
    requires fits { (e : ErrandValue) → (actor_of actor.now).errand ≡ Some e → CanPick h.now state.now.cells.items e }
    requires desk { actor.now.command ≡ None → HasDeskFor (desk_of (setting_by [] with.now) (world_by state.now.cells.items) actor.now.role) (option_copied next) }
    ensures step { step_where (option_map_or (is_free_by h.now with.now state.now.cells.items state.now.actors.items number (actor_of actor.now).errand)
        (actor_kind (setting_by h.now with.now) (world_by state.now.cells.items) (alone_by state.now.actors.items number (option_copied next.entry) left)
        (ahead (option_copied next.entry)) (actor_of actor.now) (actor_of actor.now).errand) false)
        (actor_step (setting_by h.now with.now) (world_by state.now.cells.items) (alone_by state.now.actors.items number (option_copied next.entry) left)
        (ahead (option_copied next.entry)) (actor_of actor.now) (actor_of actor.now).errand) ≡ result }
    ensures bytes { IfSome result (KnowsBytes with.now.servers (actor_of actor.now)) }
{
    match &actor.errand {
        Some(errand) => errand_due(h, with, state, survey, actor, errand, number, alone),
        None => purse_due(with, state, actor, number, next, left),
    }
}

/// What an actor does, where that waits for nothing. It is told the next command of the actor's stream, how many
/// streams aren't at their ends, and whether it is known that nobody else carries a row. Takes no memory.
pub(crate) fn due(
    h: &Hierarchy,
    with: &Use,
    state: &State,
    survey: Option<&Survey>,
    number: usize,
    next: Option<&Command>,
    left: usize,
    alone: bool,
) -> Option<DueStep>
    requires told { IfSome (option_copied survey) (IsSurvey with.now state.now.cells.items state.now.actors.items) }
    requires core { HasCore h.now with.now state.now.cells.items state.now.actors.items }
    requires within { number < length state.now.actors.items }
    requires alone { alone ≡ true → (block : ℕ) → free_by state.now.actors.items number block ≡ true }
    requires asks { AsksHere (get_or state.now.actors.items number None) (option_copied next) }
    ensures step { (s : Setting) (w : World) (rest : ℕ → List script.Command) → IsCore h.now with.now state.now.cells.items state.now.actors.items s w
        → IsTold s rest number (option_copied next.entry) left → step_where (option_map_or (meets s w number) (due_by s w rest number) false) (step_due_by s w rest number) ≡ result }
    ensures bytes { (s : Setting) (w : World) → IsCore h.now with.now state.now.cells.items state.now.actors.items s w → IfSome result (KnowsBytes with.now.servers (w.actors number)) }
{
    tree_laws();
    let Some(actor) = &state.actors[number] else {
        return None;
    };
    if !is_drained(&state.cells, actor) {
        return None;
    }
    actor_due(h, with, state, survey, actor, number, next, left, alone)
}

/// Whether commands go in any order, or it is the turn of this actor: the first command that isn't over is its.
pub(crate) fn is_its_turn(in_order: bool, first: Option<usize>, number: usize) -> bool
    ensures { result ≡ (not in_order || option_map_or (λ n. n == number) first false) }
{
    match first {
        Some(first) => !in_order || first == number,
        None => !in_order,
    }
}
