//! Which shards stand, read off the events.
use row_ledger::{Event, ShardLine};
use std::alloc::{AllocError, Global};

/// A shard, its worker, and whether it stands.
#[derive(Clone, Copy)]
struct Place {
    shard: u32,
    worker: u8,
    is_there: bool,
}

/// All shards that ever stood.
#[derive(Drop)]
pub(crate) struct Places {
    all: Vec<Place>,
}

/// How many rows these shards have in their trees and queues.
pub(crate) fn rows_of(lines: &[ShardLine]) -> u64 {
    let mut count = 0u64;
    for line in lines {
        count = count.saturating_add(line.rows).saturating_add(line.queued);
    }
    count
}

/// Whether ids ascend.
fn is_ascending(lines: &[ShardLine]) -> bool {
    let mut least = 0u64;
    for line in lines {
        let id = u64::from(line.shard);
        if id < least {
            return false;
        }
        least = id + 1;
    }
    true
}

impl Places {
    /// Those of the opening: each worker has the shard of its number.
    pub(crate) fn new(alloc: Global, workers: u32) -> Result<Places, AllocError> {
        let mut all = Vec::new(alloc);
        for shard in 0..workers {
            all.push(Place {
                shard,
                worker: u8::try_from(shard).unwrap_or(0),
                is_there: true,
            })?;
        }
        Ok(Places { all })
    }

    /// The worker of a shard that stands.
    fn worker_of(&self, shard: u32) -> Option<u8> {
        for place in &self.all {
            if place.is_there && place.shard == shard {
                return Some(place.worker);
            }
        }
        None
    }

    /// A shard stands no more. Its worker, if it stood.
    fn take(&mut self, shard: u32) -> Option<u8> {
        let worker = self.worker_of(shard);
        for place in &mut self.all {
            if place.shard == shard {
                place.is_there = false;
            }
        }
        worker
    }

    /// A shard stands on a worker.
    fn put(&mut self, shard: u32, worker: u8) -> Result<(), AllocError> {
        Ok(
            self.all.push(Place {
                shard,
                worker,
                is_there: true,
            })?,
        )
    }

    /// A shard was split, if it stood and neither half did. Whether it is so.
    fn split(&mut self, shard: u32, left: u32, right: u32) -> Result<bool, AllocError> {
        let is_new = self.worker_of(left).is_none() && self.worker_of(right).is_none();
        let Some(worker) = self.take(shard) else {
            return Ok(false);
        };
        self.put(left, worker)?;
        self.put(right, worker)?;
        Ok(is_new && left < right)
    }

    /// A shard was moved, if it stood. Whether it is so.
    fn move_to(&mut self, shard: u32, worker: u8) -> Result<bool, AllocError> {
        let is_there = self.take(shard).is_some();
        self.put(shard, worker)?;
        Ok(is_there)
    }

    /// An event happened. Whether it could.
    pub(crate) fn see(&mut self, event: &Event) -> Result<bool, AllocError> {
        match event {
            Event::Split {
                shard,
                left,
                right,
                ..
            } => self.split(*shard, *left, *right),
            Event::Moved { shard, worker, .. } => self.move_to(*shard, *worker),
            _ => Ok(true),
        }
    }

    /// How many stand.
    pub(crate) fn count(&self) -> u64 {
        let mut count = 0u64;
        for place in &self.all {
            count = count.saturating_add(u64::from(place.is_there));
        }
        count
    }

    /// Whether these are the shards that stand, each once, on their workers.
    pub(crate) fn are(&self, lines: &[ShardLine]) -> bool {
        for line in lines {
            if self.worker_of(line.shard) != Some(line.worker) {
                return false;
            }
        }
        is_ascending(lines) && lines.len() as u64 == self.count()
    }
}
