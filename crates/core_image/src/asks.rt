//! The step that begins a command that asks the registry what stands.
ghost use Rattle.std.specs.Prelude.{◌≡◌, [], ◌∷◌, OnOk, OnErr, IfOk, true, map, option_map};
ghost use Rattle.core_image.specs.NotesDue.{CanNoteAsking, BeginsAsking};
ghost use Rattle.core_image.specs.Told.{Tells, called_by};
ghost use Rattle.volap_cell.specs.Cells.{cell_of};
ghost use Rattle.volap_cell.specs.ImageKinds.{IsNewBalance, asks_registry, job_begun, job_called, unread_load};
ghost use Rattle.volap_cell.specs.Steps.{IsHere, Makes};
ghost use Rattle.volap_cell.specs.Values.{actor_of, job_of};
ghost use Rattle.volap_cell.specs.World.{change, held};
ghost use Rattle.volap_cell.specs.declared.kind.Kind.TheVariants.{Note};

use crate::calls::push_called;
use describing_set::Spot;
use dim_hierarchy::{Hierarchy, Items};
use row_ledger::{Call, Class, Subject};
use server_image::Registry;
use shard_plan::{Action, Load};
use std::alloc::{AllocError, Global};
use volap_cell::{
    ActionPlan, Actor, Balance, Cell, Command, Job, Stage, Work, ledger_in, registry_in,
};

/// Begins a command that asks the registry what stands: a split, a move, a balance, or the page of
/// a tree. A split or a move has its job with it where its shard stands, and the worker to which it
/// moves is one of so many. Takes memory for the job, or for a balance's loads and all that it plans, and then
/// the ledger's room for all that the command may still push.
pub fn note_asking(
    alloc: Global,
    h: &Hierarchy,
    registry_at: u32,
    registry: &mut Cell,
    ledger_at: u32,
    ledger: &mut Cell,
    actor: &mut Actor,
    call: &Call,
    workers: u8,
) -> Result<(), AllocError>
    requires here { IsHere h.now (held registry_at (cell_of registry.old) ∷ held ledger_at (cell_of ledger.old) ∷ []) (actor_of actor.old) }
    requires due { CanNoteAsking call.now workers (cell_of registry.old) (cell_of ledger.old) (actor_of actor.old) }
    ensures made { OnOk result (Makes h.now Note
        (change registry_at (cell_of registry.old) (cell_of registry.new) ∷ change ledger_at (cell_of ledger.old) (cell_of ledger.new) ∷ [])
        (actor_of actor.old) (actor_of actor.new)) }
    ensures told { OnOk result (Tells (called_by call.now) (actor_of actor.old) (cell_of ledger.old) (cell_of ledger.new)) }
    ensures refused { OnErr result ((registry.new ≡ registry.old) × (ledger.new ≡ ledger.old) × (actor_of actor.new ≡ actor_of actor.old)) }
{
    let _ = h;
    let registry = registry_in(registry);
    let ledger = ledger_in(ledger);
    let Begun { work, job } = begin(alloc, registry, call.class(), workers)?;
    let of = ledger.len();
    push_called(ledger, actor.number, call, &work)?;
    actor.command = Some(Command { of, work });
    actor.job = job;
    actor.seen = ledger.len();
    Ok(())
}

/// A command at its beginning, with its job where it has one.
struct Begun {
    work: Work,
    job: Option<Box<Job>>,
}

/// The command of a call that asks the registry, at its beginning.
fn begin(alloc: Global, registry: &Registry, class: Class, workers: u8) -> Result<Begun, AllocError>
    requires { asks_registry class ≡ true }
    ensures { IfOk result (λ begun. BeginsAsking workers registry.now class begun.work (option_map (λ j. job_of j.value) begun.job)) }
{
    match class {
        Class::Action(action) => Ok(Begun {
            work: Work::Action(action),
            job: job_begun(alloc, registry, action, workers)?,
        }),
        Class::Balance(most) => Ok(Begun {
            work: Work::Balance(first_balance(alloc, registry, most)?),
            job: None,
        }),
        Class::Page(Subject::Tree(shard)) => Ok(Begun {
            work: Work::Page {
                subject: Subject::Tree(shard),
                there: registry.on_frontier(shard),
                shown: false,
            },
            job: None,
        }),
        _ => unreachable!(),
    }
}

/// The job of a split or a move, at its beginning; none where it is unknown.
fn job_begun(
    alloc: Global,
    registry: &Registry,
    action: Action,
    workers: u8,
) -> Result<Option<Box<Job>>, AllocError>
    ensures { IfOk result (λ job. option_map (λ j. job_of j.value) job ≡ job_begun workers registry.now action) }
{
    match action {
        Action::Split { shard } => {
            let known = registry.on_frontier(shard);
            first_job(alloc, registry, shard, None, known)
        }
        Action::Move { shard, worker } => {
            let known = registry.on_frontier(shard) && worker < workers;
            first_job(alloc, registry, shard, Some(worker), known)
        }
    }
}

/// The job of a split, or of a move to this worker, at its beginning; none where it is unknown.
fn first_job(
    alloc: Global,
    registry: &Registry,
    shard: u32,
    to: Option<u8>,
    known: bool,
) -> Result<Option<Box<Job>>, AllocError>
    ensures { IfOk result (λ job. option_map (λ j. job_of j.value) job ≡ job_called registry.now shard to known) }
{
    if !known {
        return Ok(None);
    }
    match registry.host(shard) {
        None => Ok(None),
        Some(worker) => Ok(Some(Box::new(
            alloc,
            Job {
                shard,
                worker,
                to,
                stage: Stage::Called,
            },
        )?)),
    }
}

/// A balance that has read nothing of the shards that stand. Its lists, the room for its plan and the box of
/// its first job are taken here, so that it takes no memory later.
fn first_balance(alloc: Global, registry: &Registry, most: u8) -> Result<Balance, AllocError>
    ensures { IfOk result (IsNewBalance registry.now most) }
{
    Ok(Balance {
        most,
        loads: unread(alloc, registry.spots())?,
        read: 0,
        standing: unread(alloc, registry.spots())?,
        plan: ActionPlan::new(alloc)?,
        over: 0,
        done: 0,
    })
}

/// The loads of these shards, none of which has been read.
fn unread(alloc: Global, spots: &[Spot]) -> Result<Items<Load>, AllocError>
    ensures { IfOk result (λ loads. loads ≡ map unread_load spots.now) }
{
    let mut loads = Items::new(alloc);
    for spot in spots {
        loads.push(Load {
            shard: spot.shard,
            worker: spot.worker,
            rows: 0,
        })?;
    }
    Ok(loads)
}
