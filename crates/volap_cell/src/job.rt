//! The split or the move of a shard, how far it has come, and which kind of step is due for it.
ghost use Rattle.std.specs.Prelude.{◌≡◌, ◌==◌, true, find, if◌then◌else◌};
ghost use Rattle.row_ledger.specs.Work.{shard_of};
ghost use Rattle.volap_cell.specs.Planning.{has_load, job_for, worker_among};
ghost use Rattle.volap_cell.specs.JobSteps.{finish_kind, is_empty, next_of_job, stage_kind};
ghost use Rattle.volap_cell.specs.Values.{building_of, job_of, stage_of};
ghost use Rattle.volap_cell.specs.declared.kind.Kind.TheVariants.{BuildBlock};

use crate::kind::Kind;
use crate::room::NoteRoom;
use cell_stock::Purse;
use dc_node::{Block, Todo};
use describing_set::{DescSet, Plane};
use dim_hierarchy::Items;
use measure_agg::Agg;
use row_ledger::Decline;
use shard_build::shard_store::{CellList, RowList};
use shard_plan::{Action, Load};

/// The split of a shard, or its move to a worker, by the one administrator.
#[derive(Drop)]
pub struct Job {
    pub shard: u32,
    /// The worker that has the shard.
    pub worker: u8,
    /// The worker to which it moves; a split has none.
    pub to: Option<u8>,
    pub stage: Stage,
}

impl Job {
    /// The job of an action, at its beginning, of the worker that has the action's shard by these loads.
    pub fn of_action(standing: &[Load], action: Action) -> Job
        requires { has_load standing.now (shard_of action) ≡ true }
        ensures { job_of result ≡ job_for standing.now action }
    {
        match action {
            Action::Split { shard } => Job {
                shard,
                worker: worker_among(standing, shard),
                to: None,
                stage: Stage::Called,
            },
            Action::Move { shard, worker } => Job {
                shard,
                worker: worker_among(standing, shard),
                to: Some(worker),
                stage: Stage::Called,
            },
        }
    }

    /// The kind of step that is due for this job. It may have to wait: the job's stage alone tells the kind,
    /// and nothing is known of the cells.
    pub fn next(&self) -> Kind
        ensures { result ≡ next_of_job (job_of self.now) }
    {
        stage_kind(self.to, &self.stage)
    }
}

/// The worker of a shard by these loads, one of which is of it.
fn worker_among(standing: &[Load], shard: u32) -> u8
    requires { has_load standing.now shard ≡ true }
    ensures { result ≡ worker_among standing.now shard }
{
    load_of(standing, shard).unwrap().worker
}

/// The load of a shard, if one of these is of it.
fn load_of(standing: &[Load], shard: u32) -> Option<Load>
    ensures { result ≡ find (λ l. l.shard == shard) standing.now }
{
    standing.iter().copied().find(|load| load.shard == shard)
}

/// What is due for a job, by how far it has come.
fn stage_kind(to: Option<u8>, stage: &Stage) -> Kind
    ensures { result ≡ stage_kind to (stage_of stage.now) }
{
    match stage {
        Stage::Called => Kind::Freeze,
        Stage::Declined(_) => Kind::Note,
        Stage::Frozen(..) => Kind::Drained,
        Stage::Collecting(_) => Kind::Collect,
        Stage::Building(building) => building_kind(to, building),
    }
}

/// What is due for a job that builds its trees.
fn building_kind(to: Option<u8>, building: &Building) -> Kind
    ensures { result ≡ (if is_empty (building_of building.now).unbuilt then finish_kind to else BuildBlock) }
{
    if building.unbuilt.is_empty() {
        finish_kind(to)
    } else {
        Kind::BuildBlock
    }
}

/// How a split or a move ends.
fn finish_kind(to: Option<u8>) -> Kind
    ensures { result ≡ finish_kind to }
{
    match to {
        Some(_) => Kind::FinishMove,
        None => Kind::FinishSplit,
    }
}

/// How far a job has come.
#[derive(Drop)]
pub enum Stage {
    /// The shard is not frozen yet.
    Called,
    /// It is declined, and why.
    Declined(Decline),
    /// The shard is frozen, and inserts may still be in its tree. There is room for the note of its root.
    Frozen(Frozen, NoteRoom),
    /// The shard's rows are collected.
    Collecting(Collecting),
    /// The new trees are put into their cells.
    Building(Building),
}

/// What was found when the shard was frozen: its gate, the plane of a split, and how many rows its tree and
/// its queue have.
#[derive(Drop)]
pub struct Frozen {
    pub gate: u32,
    pub plane: Option<Plane>,
    pub rows: u64,
}

/// The rows of the shard's tree are collected block by block, and then those of its queue.
#[derive(Drop)]
pub struct Collecting {
    pub frozen: Frozen,
    /// The blocks that are noted.
    pub todo: Todo,
    /// The blocks that were read.
    pub read: CellList,
    /// How many rows of the queue were read.
    pub queued: u64,
    pub rows: RowList,
}

/// The new trees are made, one for each side of the plane or the one of a move, and their blocks go to
/// their cells.
#[derive(Drop)]
pub struct Building {
    pub frozen: Frozen,
    /// The blocks of the old tree.
    pub read: CellList,
    pub left: BuiltTree,
    pub right: Option<BuiltTree>,
    /// The blocks that are not in their cells yet.
    pub unbuilt: Items<Unbuilt>,
    /// The spares that all new blocks took.
    pub spent: Purse,
}

/// How a gate leads to a new tree.
#[derive(Drop)]
pub struct BuiltTree {
    pub root: u32,
    pub stamp: u64,
    pub height: u32,
    pub agg: Agg,
    pub set: DescSet,
}

/// A block of a new tree that is not in its cell yet.
#[derive(Drop)]
pub struct Unbuilt {
    pub cell: u32,
    pub block: Box<Block>,
}
