//! The entries of a directory.
ghost use Rattle.std.specs.Prelude.{◌≡◌, ◌+◌, ◌<◌, ◌^◌};
ghost use Rattle.dim_hierarchy.specs.Rows.{IsRowOf};
ghost use Rattle.describing_set.specs.Sets.{IsDescSetOf};

use describing_set::DescSet;
use dim_hierarchy::{Hierarchy, Row};
use measure_agg::Agg;

/// What a directory says of a group of blocks beneath it: the cell of its head, the stamp of its last
/// block, and the aggregate and the describing set of all rows beneath.
#[derive(Debug, Default, Drop, PartialEq)]
pub struct Entry {
    pub child: u32,
    pub stamp: u64,
    pub agg: Agg,
    pub set: DescSet,
}

impl Entry {
    ghost use Rattle.dc_node.specs.Entry.{IsWithRow};

    /// The same entry, without taking memory.
    pub fn copy(&self) -> Entry
        ensures { result ≡ self.now }
    {
        Entry {
            child: self.child,
            stamp: self.stamp,
            agg: self.agg,
            set: self.set.copy(),
        }
    }

    /// Counts a row beneath.
    pub fn add_row(&mut self, h: &Hierarchy, row: &Row)
        requires set { IsDescSetOf h.now self.old.set }
        requires row { IsRowOf h.now row.now }
        requires few { self.old.agg.count + 1 < 2 ^ 63 }
        ensures { IsWithRow h.now row.now self.old self.new }
    {
        self.agg = self.agg.join(&Agg::one(row.measures));
        self.set.grow(h, &row.at);
    }
}
