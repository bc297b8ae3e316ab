//! What is due for an actor with an open command.
ghost use Rattle.std.specs.List.{list_any};
ghost use Rattle.std.specs.Prelude.{◌≡◌, ◌+◌, ◌-◌, ◌==◌, Some, [], length, slice_get};
ghost use Rattle.core_due.specs.Due.{is_empty_desk};
ghost use Rattle.core_due.specs.Look.{cell_at, history_at, setting_by, waits_for_others, world_by};
ghost use Rattle.core_due.specs.Works as works;
ghost use Rattle.core_due.specs.WorksReady.{AreBytes, most_in};
ghost use Rattle.query_router.specs.Desk.{is_placed, is_refused};
ghost use Rattle.core_steps.specs.volap_cell.specs.Cells.{desk_in, phase_of};
ghost use Rattle.core_steps.specs.volap_cell.specs.Commands.{settles_next};
ghost use Rattle.core_steps.specs.volap_cell.specs.Values.{actor_of, building_of, collecting_of, job_of};

use crate::parts::last_noted;
use crate::sights::{cell_at, desk_at, events, map_at, where_at};
use core_steps::shard_store::Phase;
use core_steps::volap_cell::{Actor, Balance, Building, Cell, Collecting, Job, Role, Stage, Work};
use core_steps::{BookStep, JobStep, image_place};
use mapping_table::Where;
use query_router::{Desk, Part};
use row_ledger::{Decline, How, Subject, Use};
use shard_plan::Load;

/// What is due for an actor with an open command: a step with its cells, or what is still to be made for one.
#[derive(Drop)]
pub enum WorkDue {
    /// It takes a part of its command from its desk.
    Takes(u32),
    /// A step at a desk or an image.
    Books(BookStep),
    /// A step of its job, or of its balance.
    Jobs(JobStep),
    /// The shard of the gate is replaced by children, whose gates get the cells of the last two spares.
    Splits { map: u32, gate: u32 },
    /// Its called command ends so.
    Ends(How),
    /// Its balance leaves the action that it is at.
    Leaves,
    /// The page of its command is made and shown.
    Shows(Subject),
}

/// Whether no memory was found for a part.
fn any_refused(parts: &[Part]) -> bool
    ensures { result ≡ list_any is_refused parts.now }
{
    parts.iter().any(|part| part.is_refused())
}

/// Whether the row of a part has a place.
fn any_placed(parts: &[Part]) -> bool
    ensures { result ≡ list_any is_placed parts.now }
{
    parts.iter().any(|part| part.is_placed())
}

/// What is due for the command on a desk. What its parts come to isn't summed up for that.
pub fn parts_due(at: u32, image: u32, failed: BookStep, desk: &Desk) -> Option<WorkDue>
    ensures { result ≡ works.parts_due at image failed desk.now }
{
    if desk.has_open() {
        return if desk.has_waiting() {
            Some(WorkDue::Takes(at))
        } else {
            None
        };
    }
    if any_refused(desk.parts()) {
        return Some(WorkDue::Books(failed));
    }
    if any_placed(desk.parts()) {
        Some(WorkDue::Books(BookStep::Ack { desk: at, image }))
    } else {
        Some(WorkDue::Books(BookStep::Answer { desk: at }))
    }
}

/// What is due for the command on the desk in a cell.
fn desk_due(cells: &[Option<Cell>], at: u32, image: u32, failed: BookStep) -> Option<WorkDue>
    ensures { result ≡ works.parts_due at image failed (desk_in (cell_at cells.now at)) }
{
    match cell_at(cells, at) {
        Some(Cell::Desk { desk, .. }) => parts_due(at, image, failed, desk),
        _ => Some(WorkDue::Books(BookStep::Answer { desk: at })),
    }
}

/// What is due for an insert whose part is on its server's desk.
fn insert_due(with: &Use, cells: &[Option<Cell>], role: Role) -> Option<WorkDue>
    ensures { result ≡ works.insert_due (setting_by [] with.now) (world_by cells.now) role }
{
    let Role::Session { server } = role else {
        return None;
    };
    let (desk, image) = (desk_at(with, server), image_place(server));
    desk_due(cells, desk, image, BookStep::FailRouted { desk, image })
}

/// What is due for a query whose parts are on its server's desk.
fn query_due(with: &Use, cells: &[Option<Cell>], role: Role) -> Option<WorkDue>
    ensures { result ≡ works.query_due (setting_by [] with.now) (world_by cells.now) role }
{
    let Role::Session { server } = role else {
        return None;
    };
    let (desk, image) = (desk_at(with, server), image_place(server));
    desk_due(cells, desk, image, BookStep::FailQuery { desk })
}

/// Whether no command stands on the desk in a cell.
pub fn is_empty_at(cells: &[Option<Cell>], at: u32) -> bool
    ensures { result ≡ is_empty_desk (Some (desk_in (cell_at cells.now at))) }
{
    match cell_at(cells, at) {
        Some(Cell::Desk { desk, .. }) => desk.op().is_none(),
        _ => true,
    }
}

/// What is due for an insert whose part isn't laid yet: it is laid on its server's empty desk.
fn route_due(with: &Use, cells: &[Option<Cell>], role: Role) -> Option<WorkDue>
    ensures { result ≡ works.route_due (setting_by [] with.now) (world_by cells.now) role }
{
    let Role::Session { server } = role else {
        return None;
    };
    let desk = desk_at(with, server);
    if is_empty_at(cells, desk) {
        let image = image_place(server);
        Some(WorkDue::Books(BookStep::Route { desk, image }))
    } else {
        None
    }
}

/// The server for which a settle pulls next, if it isn't at its end.
fn settles_next(with: &Use, pulls: u16) -> Option<u8>
    ensures { result ≡ settles_next with.now.servers pulls }
{
    let servers = u16::from(with.servers);
    if pulls < servers {
        Some(pulls as u8)
    } else if pulls < servers + servers {
        Some((pulls - servers) as u8)
    } else {
        None
    }
}

/// A pull for a server, if there is one, and then the end.
fn pull_due(server: Option<u8>) -> WorkDue
    ensures { result ≡ works.pull_due server }
{
    match server {
        Some(server) => WorkDue::Books(BookStep::Sync {
            image: image_place(server),
        }),
        None => WorkDue::Ends(How::Fine),
    }
}

/// Whether the newest event is the one at this position.
fn is_newest(cells: &[Option<Cell>], of: u64) -> bool
    ensures { result ≡ (length (history_at cells.now) == of + 1) }
{
    match events(cells).checked_sub(1) {
        Some(newest) => newest == of,
        None => false,
    }
}

/// What is due for a command that shows a page.
fn page_due(
    cells: &[Option<Cell>],
    alone: bool,
    of: u64,
    subject: Subject,
    there: bool,
    shown: bool,
) -> Option<WorkDue>
    ensures { result ≡ works.page_due (history_at cells.now) alone of subject there shown }
{
    if !there {
        return Some(WorkDue::Ends(How::Declined(Decline::Unknown)));
    }
    if shown {
        return Some(WorkDue::Ends(How::Fine));
    }
    if alone && is_newest(cells, of) {
        Some(WorkDue::Shows(subject))
    } else {
        None
    }
}

/// What is due for a job whose shard isn't frozen yet.
fn freeze_due(with: &Use, cells: &[Option<Cell>], job: &Job) -> Option<WorkDue>
    ensures { result ≡ works.freeze_due (setting_by [] with.now) (world_by cells.now) (job_of job.now) }
{
    let map = map_at(with, job.worker);
    match where_at(cells, map, job.shard) {
        Some(Where::Gate(gate)) => Some(WorkDue::Jobs(JobStep::Freeze { map, gate: *gate })),
        _ => None,
    }
}

/// Whether the queue, as it was when the shard of the gate in a cell was frozen, has a row more.
fn has_more(cells: &[Option<Cell>], gate: u32, queued: u64) -> bool
    ensures { result ≡ works.has_more queued (phase_of (cell_at cells.now gate)) }
{
    match cell_at(cells, gate) {
        Some(Cell::Gate(gate)) => match gate.phase {
            Phase::Frozen { upto } => queued < upto,
            Phase::Open | Phase::Gone => false,
        },
        _ => false,
    }
}

/// What a job collects next: the rows of the block that it noted last, or the next row of the queue, or nothing
/// more, so that it makes the new trees.
fn collect_due(cells: &[Option<Cell>], collecting: &Collecting) -> JobStep
    ensures { result ≡ works.collect_due (world_by cells.now) (collecting_of collecting.now) }
{
    let gate = collecting.frozen.gate;
    match last_noted(&collecting.todo) {
        Some(block) => JobStep::CollectBlock { block },
        None => {
            if has_more(cells, gate, collecting.queued) {
                JobStep::CollectRow { gate }
            } else {
                JobStep::BuildTrees { gate }
            }
        }
    }
}

/// The end of a move to a worker, with the gate of the shard and the cell of the new one.
fn move_due(with: &Use, job: &Job, gate: u32, new: u32, to: u8) -> JobStep
    ensures { result ≡ works.move_due (setting_by [] with.now) (job_of job.now) gate new to }
{
    let map = map_at(with, job.worker);
    if to == job.worker {
        JobStep::FinishHere { map, gate, new }
    } else {
        JobStep::FinishMove {
            from: map,
            to: map_at(with, to),
            gate,
            new,
        }
    }
}

/// What is due for a job whose new blocks are all in their cells.
fn finish_due(with: &Use, actor: &Actor, job: &Job, gate: u32) -> Option<WorkDue>
    ensures { result ≡ works.finish_due (setting_by [] with.now) (actor_of actor.now) (job_of job.now) gate (job_of job.now).to }
{
    let Some(to) = job.to else {
        let map = map_at(with, job.worker);
        return Some(WorkDue::Splits { map, gate });
    };
    match actor.purse.last() {
        Some(spare) => Some(WorkDue::Jobs(move_due(with, job, gate, spare.cell, to))),
        None => None,
    }
}

/// What is due for a job that has made its trees: a block is put in its cell, and then the shard is replaced.
fn build_due(with: &Use, actor: &Actor, job: &Job, building: &Building) -> Option<WorkDue>
    ensures { result ≡ works.build_due (setting_by [] with.now) (actor_of actor.now) (job_of job.now) (building_of building.now) (slice_get (building_of building.now).unbuilt (length (building_of building.now).unbuilt - 1)) }
{
    match building.unbuilt.as_slice().last() {
        Some(unbuilt) => Some(WorkDue::Jobs(JobStep::BuildBlock { cell: unbuilt.cell })),
        None => finish_due(with, actor, job, building.frozen.gate),
    }
}

/// What is due for a job by how far it has come, or why it is declined.
fn stage_due(
    with: &Use,
    cells: &[Option<Cell>],
    actor: &Actor,
    job: &Job,
) -> Result<Option<WorkDue>, Decline>
    ensures { result ≡ works.stage_due (setting_by [] with.now) (world_by cells.now) (actor_of actor.now) (job_of job.now) (job_of job.now).stage }
{
    match &job.stage {
        Stage::Called => Ok(freeze_due(with, cells, job)),
        Stage::Declined(why) => Err(*why),
        Stage::Frozen(frozen, _) => Ok(Some(WorkDue::Jobs(JobStep::Drained { gate: frozen.gate }))),
        Stage::Collecting(collecting) => Ok(Some(WorkDue::Jobs(collect_due(cells, collecting)))),
        Stage::Building(building) => Ok(build_due(with, actor, job, building)),
    }
}

/// What is due for a split or a move that has a job: where the job is declined, it ends.
fn job_due(with: &Use, cells: &[Option<Cell>], actor: &Actor, job: &Job) -> Option<WorkDue>
    ensures { result ≡ works.action_due (setting_by [] with.now) (world_by cells.now) (actor_of actor.now) (Some (job_of job.now)) }
{
    match stage_due(with, cells, actor, job) {
        Ok(due) => due,
        Err(why) => Some(WorkDue::Ends(How::Declined(why))),
    }
}

/// What is due for a split or a move. Where it has no job its shard, or the worker that it was to go to, didn't
/// stand.
fn action_due(with: &Use, cells: &[Option<Cell>], actor: &Actor) -> Option<WorkDue>
    ensures { result ≡ works.action_due (setting_by [] with.now) (world_by cells.now) (actor_of actor.now) (actor_of actor.now).job }
{
    match &actor.job {
        Some(job) => job_due(with, cells, actor, job),
        None => Some(WorkDue::Ends(How::Declined(Decline::Unknown))),
    }
}

/// What is due for a balance that reads this load next.
fn load_due(with: &Use, cells: &[Option<Cell>], load: &Load) -> Option<WorkDue>
    ensures { result ≡ works.load_due (setting_by [] with.now) (world_by cells.now) (Some load.now) }
{
    let map = map_at(with, load.worker);
    match where_at(cells, map, load.shard) {
        Some(Where::Gate(gate)) => Some(WorkDue::Jobs(JobStep::ReadLoad {
            map,
            gate: *gate,
            workers: with.workers,
        })),
        _ => None,
    }
}

/// What is due for a balance with no action before it.
fn jobless_due(with: &Use, cells: &[Option<Cell>], balance: &Balance) -> Option<WorkDue>
    ensures { result ≡ works.jobless_due (setting_by [] with.now) (world_by cells.now) balance.now }
{
    if !balance.plan.is_none() {
        return Some(WorkDue::Ends(How::Balanced {
            done: balance.done,
            planned: balance.over,
        }));
    }
    match balance.loads.as_slice().get(balance.read as usize) {
        Some(load) => load_due(with, cells, load),
        None => None,
    }
}

/// What is due for a balance that is at an action: where its job is declined, the balance leaves it.
fn next_due(
    with: &Use,
    cells: &[Option<Cell>],
    actor: &Actor,
    balance: &Balance,
    job: &Job,
) -> Option<WorkDue>
    ensures { result ≡ works.balance_due (setting_by [] with.now) (world_by cells.now) (actor_of actor.now) balance.now (Some (job_of job.now)) }
{
    match stage_due(with, cells, actor, job) {
        Ok(due) => due,
        Err(_) => Some(WorkDue::Leaves),
    }
}

/// What is due for a balance.
fn balance_due(
    with: &Use,
    cells: &[Option<Cell>],
    actor: &Actor,
    balance: &Balance,
) -> Option<WorkDue>
    ensures { result ≡ works.balance_due (setting_by [] with.now) (world_by cells.now) (actor_of actor.now) balance.now (actor_of actor.now).job }
{
    match &actor.job {
        Some(job) => next_due(with, cells, actor, balance, job),
        None => jobless_due(with, cells, balance),
    }
}

/// Whether what is due for the work depends on whether all others are idle: for a page that isn't shown.
pub fn waits_for_others(work: &Work) -> bool
    ensures { result ≡ waits_for_others work.now }
{
    match work {
        Work::Page { there, shown, .. } => *there && !*shown,
        _ => false,
    }
}

/// How many actions a work may plan, none where it is no balance.
fn most_in(work: &Work) -> u8
    ensures { result ≡ most_in work.now }
{
    match work {
        Work::Balance(balance) => balance.most,
        _ => 0,
    }
}

/// What the numbers of a work tell by their types. Nothing is done at run time.
pub fn tell_bytes(with: &Use, work: &Work)
    ensures { AreBytes with.now.servers work.now }
{
    let _servers = with.servers;
    let _most = most_in(work);
}

/// What is due for an open command, by what it is and how far it has come; `alone` tells whether everyone else
/// is idle. Takes no memory.
pub fn work_due(
    with: &Use,
    cells: &[Option<Cell>],
    alone: bool,
    actor: &Actor,
    of: u64,
    work: &Work,
) -> Option<WorkDue>
    ensures { result ≡ works.work_due (setting_by [] with.now) (world_by cells.now) (history_at cells.now) alone (actor_of actor.now) of work.now }
{
    match work {
        Work::Insert { routed: false, .. } => route_due(with, cells, actor.role),
        Work::Insert { routed: true, .. } => insert_due(with, cells, actor.role),
        Work::Query => query_due(with, cells, actor.role),
        Work::Sync { server, pulled } => {
            Some(pull_due(if *pulled { None } else { Some(*server) }))
        }
        Work::Settle { pulls } => Some(pull_due(settles_next(with, *pulls))),
        Work::Bare => Some(WorkDue::Ends(How::Fine)),
        Work::Page {
            subject,
            there,
            shown,
        } => page_due(cells, alone, of, *subject, *there, *shown),
        Work::Action(_) => action_due(with, cells, actor),
        Work::Balance(balance) => balance_due(with, cells, actor, balance),
    }
}
