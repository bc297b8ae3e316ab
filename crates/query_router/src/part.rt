//! The parts of a command.
ghost use Rattle.std.specs.Prelude.{◌≡◌};

use describing_set::Path;
use dim_hierarchy::{Filter, Row};
use measure_agg::Agg;

/// What a part asks for: a place for a row, or the rows that a filter matches. Each part has a copy
/// of its own, so that taking it and handing it on only move it.
#[derive(Drop)]
pub enum Want {
    Row(Row),
    Filter(Filter),
}

/// How far a part has come.
#[derive(Drop)]
pub enum PartState {
    /// It waits for the worker that has its shard.
    Waiting(Want),
    /// A worker is at it.
    Taken,
    /// It has read its shard, which has so much.
    Done(Agg),
    /// Its row has a place, to which these shards led.
    Placed(Path),
    /// A worker found no memory for it.
    NoMemory,
}

/// A part of a command: what it asks of a shard, the worker that has the shard, and the shards by
/// which it came there.
#[derive(Drop)]
pub struct Part {
    pub shard: u32,
    pub worker: u8,
    pub path: Path,
    pub state: PartState,
}

/// What all parts of a command come to.
#[derive(Clone, Copy, Debug, PartialEq, Eq)]
pub enum Verdict {
    /// A part found no memory.
    NoMemory,
    /// The row has a place.
    Placed,
    /// So much do the shards have together.
    Sum(Agg),
}

impl Part {
    ghost use Rattle.query_router.specs.Desk.{is_waiting, is_taken, is_open, is_refused, is_placed, done_of};

    /// Whether the part waits for a worker.
    pub fn is_waiting(&self) -> bool
        ensures { result ≡ is_waiting self.now }
    {
        match self.state {
            PartState::Waiting(_) => true,
            _ => false,
        }
    }

    /// Whether a worker is at the part.
    pub fn is_taken(&self) -> bool
        ensures { result ≡ is_taken self.now }
    {
        match self.state {
            PartState::Taken => true,
            _ => false,
        }
    }

    /// Whether the part is not at an end.
    pub fn is_open(&self) -> bool
        ensures { result ≡ is_open self.now }
    {
        self.is_waiting() || self.is_taken()
    }

    /// Whether no memory was found for the part.
    pub fn is_refused(&self) -> bool
        ensures { result ≡ is_refused self.now }
    {
        match self.state {
            PartState::NoMemory => true,
            _ => false,
        }
    }

    /// Whether the part's row has a place.
    pub fn is_placed(&self) -> bool
        ensures { result ≡ is_placed self.now }
    {
        match self.state {
            PartState::Placed(_) => true,
            _ => false,
        }
    }

    /// What the part has read, nothing where it is not done.
    pub fn done(&self) -> Agg
        ensures { result ≡ done_of self.now.state }
    {
        match &self.state {
            PartState::Done(agg) => *agg,
            _ => Agg::EMPTY,
        }
    }
}
