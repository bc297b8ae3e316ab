//! The table of a worker.
ghost use Rattle.std.specs.Prelude.{◌≡◌, None, OnOk, OnErr, option_copied};
ghost use Rattle.std.specs.FinMap as map;

use crate::place::Where;
use std::alloc::{AllocError, Global};
use std::collections::BTreeMap;
use std::marker::Model;

/// Where the ids of shards lead. Contracts see a finite map from ids.
#[derive(Drop)]
pub struct MapTable {
    places: BTreeMap<u32, Where>,
}

impl Model for MapTable {
    ghost use Rattle.std.specs.FinMap as map;
    ghost use Rattle.std.specs.Ordering.{nat_cmp};
    ghost use Rattle.std.specs.Coded.{coded_ℕ};
    ghost use Rattle.mapping_table.specs.declared.place.Where.{Where};
    ghost use Rattle.mapping_table.specs.contracts.place.Where as place;

    ghost Value = { map.FinMap nat_cmp Where };

    ghost coded = { map.code coded_ℕ place.the_row.coded };

    ghost view = { λ t. map.from_entries t.places.entries };
}

impl MapTable {
    /// No id leads anywhere. Takes no memory.
    pub fn new(alloc: Global) -> MapTable
        ensures { result ≡ map.empty }
    {
        MapTable {
            places: BTreeMap::new(alloc),
        }
    }

    /// Where an id leads, lent where that stands; `None` for one that was never set.
    pub fn look(&self, id: u32) -> Option<&Where>
        ensures { option_copied result ≡ map.get self.now id }
    {
        self.places.get(&id)
    }

    /// Lets an id lead to this place, in place of the one before. Only one that led nowhere takes memory.
    pub fn set(&mut self, id: u32, to: Where) -> Result<(), AllocError>
        ensures ok { OnOk result (self.new ≡ map.insert self.old id to) }
        ensures err { OnErr result (self.new ≡ self.old) }
        ensures known { OnErr result (map.get self.old id ≡ None) }
    {
        self.places.insert(id, to)?;
        Ok(())
    }

    /// Lets an id lead nowhere. Takes no memory.
    pub fn forget(&mut self, id: u32)
        ensures { self.new ≡ map.remove self.old id }
    {
        let _ = self.places.remove(&id);
    }
}
