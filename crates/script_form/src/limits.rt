//! The ranges of the numbers in a script, and how long a name is, as specs/Limits.antt has them.

/// How many servers there may be.
pub(crate) const MOST_SERVERS: u128 = 16;

/// How many workers there may be.
pub(crate) const MOST_WORKERS: u128 = 16;

/// How many threads a worker may have.
pub(crate) const MOST_THREADS: u128 = 8;

/// How many cells the stock has at least.
pub(crate) const FEWEST_CELLS: u128 = 64;

/// How many cells the stock may have.
pub(crate) const MOST_CELLS: u128 = 65536;

/// How many levels a dimension may have.
pub(crate) const MOST_LEVELS: u128 = 8;

/// The ids of shards are below this.
pub(crate) const SHARD_IDS: u128 = 1 << 32;

/// The numbers of workers that a move may name are below this.
pub(crate) const WORKER_IDS: u128 = 256;

/// How many actions a balance may have.
pub(crate) const MOST_ACTIONS: u128 = 16;

/// How many bytes a name may have.
pub(crate) const MOST_BYTES: usize = 64;
