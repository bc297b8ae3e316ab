//! The queue of a shard.
ghost use Rattle.std.specs.Prelude.{◌≡◌, ◌+◌, ◌<◌, ◌^◌, [], OnOk, OnErr};
ghost use Rattle.dim_hierarchy.specs.Rows.{IsRowOf};

use dc_node::laws;
use describing_set::DescSet;
use dim_hierarchy::{Hierarchy, Items, Row};
use measure_agg::Agg;
use std::alloc::{AllocError, Global};

/// Rows in the order in which they came.
pub type RowList = Items<Row>;

/// Numbers of cells.
pub type CellList = Items<u32>;

/// Rows that are in no tree yet, with their aggregate and their describing set.
#[derive(Drop)]
pub struct Queue {
    pub rows: RowList,
    pub agg: Agg,
    pub set: DescSet,
}

impl Queue {
    ghost use Rattle.shard_store.specs.Gate.{IsQueueOf, Enqueues};

    /// The queue of no row. Takes no memory.
    pub fn new(alloc: Global, h: &Hierarchy) -> Queue
        ensures rows { result.rows ≡ [] }
        ensures queue { IsQueueOf h.now result }
    {
        Queue {
            rows: Items::new(alloc),
            agg: Agg::EMPTY,
            set: DescSet::empty(h),
        }
    }

    /// Adds a row at the end, and to the aggregate and the set.
    pub fn push(&mut self, h: &Hierarchy, row: &Row) -> Result<(), AllocError>
        requires row { IsRowOf h.now row.now }
        requires queue { IsQueueOf h.now self.old }
        requires few { self.old.agg.count + 1 < 2 ^ 63 }
        ensures ok { OnOk result (Enqueues h.now row.now self.old self.new) }
        ensures err { OnErr result (self.new ≡ self.old) }
    {
        self.rows.push(*row)?;
        self.agg = self.agg.join(&Agg::one(row.measures));
        self.set.grow(h, &row.at);
        laws(h);
        Ok(())
    }
}
