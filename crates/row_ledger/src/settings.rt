//! The settings of a run, and the commands that are called.
ghost use Rattle.std.specs.Prelude.{◌≡◌, IfOk};

use dim_hierarchy::{Filter, copy_filter};
use std::alloc::{AllocError, Global};

/// How many servers, workers, threads for each worker and stock cells there are.
#[derive(Clone, Copy, Debug, PartialEq, Eq)]
pub struct Use {
    pub servers: u8,
    pub workers: u8,
    pub threads: u8,
    pub cells: u32,
}

/// A command that is no insert and no query.
#[derive(Drop)]
pub enum Call {
    /// The server pushes what it has seen grow, and pulls the shards that stand.
    Sync(u8),
    /// The shard with this id becomes two.
    Split(u32),
    /// The shard with this id goes to this worker.
    Move(u32, u8),
    /// At most so many shards are moved or split.
    Balance(u8),
    /// Nothing; it ends its phase.
    Barrier,
    /// Each server pulls, in the order of their numbers, and then each once more.
    Settle,
    /// To show the shards that stand.
    Shards,
    /// To show the tree of the shard with this id.
    Tree(u32),
    /// To show the aggregate of all rows.
    Audit,
    /// To show the aggregate of the rows under each concept of a level of a dimension, of those that the
    /// filter matches.
    Group { dim: u8, level: u8, filter: Filter },
}

impl Call {
    /// The same command once more. Takes memory for a filter.
    pub fn copy(&self, alloc: Global) -> Result<Call, AllocError>
        ensures { IfOk result (λ copy. copy ≡ self.now) }
    {
        match self {
            Call::Sync(server) => Ok(Call::Sync(*server)),
            Call::Split(shard) => Ok(Call::Split(*shard)),
            Call::Move(shard, worker) => Ok(Call::Move(*shard, *worker)),
            Call::Balance(most) => Ok(Call::Balance(*most)),
            Call::Barrier => Ok(Call::Barrier),
            Call::Settle => Ok(Call::Settle),
            Call::Shards => Ok(Call::Shards),
            Call::Tree(shard) => Ok(Call::Tree(*shard)),
            Call::Audit => Ok(Call::Audit),
            Call::Group { dim, level, filter } => Ok(Call::Group {
                dim: *dim,
                level: *level,
                filter: copy_filter(alloc, filter)?,
            }),
        }
    }
}

/// Why a called command is declined.
#[derive(Clone, Copy, Debug, PartialEq, Eq)]
pub enum Decline {
    /// No such shard, or no such worker, stands.
    Unknown,
    /// The shard's rows have one concept at most in each dimension of its set, so nothing tells them apart.
    OnePlace,
    /// There are fewer free cells than the work needs.
    NoCell { need: u64, free: u64 },
}

/// How a called command ends.
#[derive(Clone, Copy, Debug, PartialEq, Eq)]
pub enum How {
    /// It did what it was to do.
    Fine,
    /// The balance did so many of the actions that it had planned.
    Balanced { done: u8, planned: u8 },
    /// It did nothing, and why.
    Declined(Decline),
    /// It found no memory after it had begun on the shard, which stays as it was.
    Postponed,
    /// It found no memory, and did nothing.
    NoMemory,
}
