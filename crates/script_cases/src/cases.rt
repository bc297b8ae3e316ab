//! What a case is.
use olap_top::{Status, Wanted};

/// The calls of a source or a sink in memory.
#[derive(Drop)]
pub(crate) struct Calls {
    /// How many bytes a call gives or takes at most.
    pub(crate) most: usize,
    /// The calls that fail, counted from 0.
    pub(crate) fail: Vec<u64>,
}

/// What the last page of a tree must tell.
#[derive(Clone, Copy, Debug, PartialEq, Eq)]
pub(crate) struct TreeLine {
    pub(crate) height: u64,
    /// How many rows are in the tree and in its queue together.
    pub(crate) rows: u64,
    /// Whether some of them are in the queue.
    pub(crate) is_queued: bool,
}

/// A run of a script, and what must come of it.
#[derive(Drop)]
pub(crate) struct Run {
    /// The words as they stand in the case.
    pub(crate) said: String,
    pub(crate) words: Vec<String>,
    pub(crate) reads: Option<Calls>,
    pub(crate) writes: Option<Calls>,
    /// How many bytes the sink has room for, where that is told.
    pub(crate) room: Option<usize>,
    pub(crate) status: Status,
    /// One of these texts must be written.
    pub(crate) texts: Vec<Vec<u8>>,
    /// Whether the texts are only what must stand at the end.
    pub(crate) is_end: bool,
    /// How long the ledger must be, where that is told.
    pub(crate) events: Option<u64>,
    pub(crate) tree: Option<TreeLine>,
}

/// A script, and its runs.
#[derive(Drop)]
pub(crate) struct Case {
    pub(crate) name: String,
    pub(crate) script: Vec<u8>,
    pub(crate) runs: Vec<Run>,
}

/// Words, and what they must want.
#[derive(Drop)]
pub(crate) struct Wants {
    /// The words as they stand in the case.
    pub(crate) said: String,
    pub(crate) words: Vec<String>,
    pub(crate) wanted: Option<Wanted>,
}

/// What is run, in the order in which it is told.
#[derive(Drop)]
pub(crate) enum Item {
    Case(Case),
    Wants(Wants),
}
