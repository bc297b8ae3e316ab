//! The gate of a shard.
ghost use Rattle.std.specs.Prelude.{◌≡◌, ◌≢◌, ◌↔◌, ◌+◌, ◌<◌, ◌^◌, [], length, IsOk, IfErr, OnOk, OnErr};
ghost use Rattle.dim_hierarchy.specs.Rows.{IsRowOf};

use crate::queue::{CellList, Queue};
use describing_set::DescSet;
use dim_hierarchy::{Hierarchy, Row};
use measure_agg::Agg;
use std::alloc::{AllocError, Global};
use std::mem;

/// Whether inserts enter the tree of a shard.
#[derive(Clone, Copy, Debug, PartialEq, Eq)]
pub enum Phase {
    /// They do.
    Open,
    /// They go to the queue; so many rows stood in it at the last freeze.
    Frozen { upto: u64 },
    /// The shard has successors.
    Gone,
}

/// So many inserters are still inside the tree.
#[derive(Clone, Copy, Debug, PartialEq, Eq)]
pub struct NotYet {
    pub active: u64,
}

/// The way into a shard: its tree, of which it has the root with the stamp that ends the root's
/// group, the height (1 where the root is a leaf), and the aggregate and the set of its rows; the
/// number of inserters inside the tree; the number of queries that noted the root; and the queue.
#[derive(Drop)]
pub struct Gate {
    pub shard: u32,
    pub phase: Phase,
    pub root: u32,
    pub stamp: u64,
    pub height: u32,
    pub agg: Agg,
    pub set: DescSet,
    pub active: u64,
    pub pins: u64,
    pub queue: Queue,
    /// Of a shard that is gone, the cells of its tree that are not free again.
    pub gone: CellList,
}

impl Gate {
    ghost use Rattle.shard_store.specs.Gate.{IsQueueOf, IsNewGate, IsFrozen, Enqueues};

    /// The open gate of a tree with this root, with nobody inside and an empty queue. `agg` and
    /// `set` are those of the tree's rows. Takes no memory.
    pub fn new(
        alloc: Global,
        h: &Hierarchy,
        shard: u32,
        root: u32,
        stamp: u64,
        height: u32,
        agg: Agg,
        set: DescSet,
    ) -> Gate
        ensures { IsNewGate h.now shard root stamp height agg set result }
    {
        Gate {
            shard,
            phase: Phase::Open,
            root,
            stamp,
            height,
            agg,
            set,
            active: 0,
            pins: 0,
            queue: Queue::new(alloc, h),
            gone: CellList::new(alloc),
        }
    }

    /// Adds a row to the queue.
    pub fn enqueue(&mut self, h: &Hierarchy, row: &Row) -> Result<(), AllocError>
        requires row { IsRowOf h.now row.now }
        requires queue { IsQueueOf h.now self.old.queue }
        requires few { self.old.queue.agg.count + 1 < 2 ^ 63 }
        ensures ok { OnOk result (Enqueues h.now row.now self.old.queue self.new.queue) }
        ensures same { self.new ≡ record self.old { queue = self.new.queue } }
        ensures err { OnErr result (self.new ≡ self.old) }
    {
        self.queue.push(h, row)
    }

    /// Counts an inserter that leaves the tree.
    pub fn leave(&mut self)
        requires { 0 < self.old.active }
        ensures { self.old ≡ record self.new { active = self.new.active + 1 } }
    {
        self.active -= 1;
    }

    /// Lets inserts go to the queue from now on. A gate that is frozen is frozen anew, at the length
    /// that its queue has now.
    pub fn freeze(&mut self)
        requires { self.old.phase ≢ Phase.Gone }
        ensures { self.new ≡ record self.old { phase = Phase.Frozen (length self.old.queue.rows) } }
    {
        let upto = self.queue.rows.len() as u64;
        self.phase = Phase::Frozen { upto };
    }

    /// Whether no inserter is inside the tree.
    pub fn drained(&self) -> Result<(), NotYet>
        ensures ok { IsOk result ↔ (self.now.active ≡ 0) }
        ensures err { IfErr result (λ e. e.active ≡ self.now.active) }
    {
        if self.active == 0 {
            Ok(())
        } else {
            Err(NotYet {
                active: self.active,
            })
        }
    }

    /// Says that the shard has successors, and hands its queue out for theirs. What leads to the
    /// tree stays as it was, for the queries that noted the root. Takes no memory.
    pub fn retire(&mut self, alloc: Global, h: &Hierarchy) -> Queue
        requires frozen { IsFrozen self.old.phase }
        requires drained { self.old.active ≡ 0 }
        ensures queue { result ≡ self.old.queue }
        ensures gone { self.new ≡ record self.old { phase = Phase.Gone; queue = self.new.queue } }
        ensures empty { self.new.queue.rows ≡ [] }
        ensures valid { IsQueueOf h.now self.new.queue }
    {
        self.phase = Phase::Gone;
        mem::replace(&mut self.queue, Queue::new(alloc, h))
    }
}
