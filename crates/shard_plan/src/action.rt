//! Loads of shards, and what a balance plans.
/// A shard with the worker that has it and how many rows it has, those of its queue among them.
#[derive(Clone, Copy, Debug, PartialEq, Eq)]
pub struct Load {
    pub shard: u32,
    pub worker: u8,
    pub rows: u64,
}

/// What a balance plans to do.
#[derive(Clone, Copy, Debug, PartialEq, Eq)]
pub enum Action {
    /// The shard goes to the worker.
    Move { shard: u32, worker: u8 },
    /// The shard is split in two.
    Split { shard: u32 },
}
