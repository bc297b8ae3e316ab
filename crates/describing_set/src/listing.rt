//! Shards as a server knows them.
ghost use Rattle.std.specs.Prelude.{◌≡◌, ◌<◌, IfOk};

use crate::set::DescSet;
use dim_hierarchy::Items;
use std::alloc::{AllocError, Global};
use std::marker::Model;
use std::sync::Arc;

/// A shard as a server knows it: its id, the worker that has it, and the set of its rows.
#[derive(Debug, Drop, PartialEq)]
pub struct Spot {
    pub shard: u32,
    pub worker: u8,
    pub set: DescSet,
}

impl Spot {
    /// The same spot, without taking memory.
    pub fn copy(&self) -> Spot
        ensures { result ≡ self.now }
    {
        Spot {
            shard: self.shard,
            worker: self.worker,
            set: self.set.copy(),
        }
    }
}

/// The shards that a server knows, in the order of their ids.
pub type Listing = Items<Spot>;

/// Such a listing, which several may have: it stands in memory once, and doesn't change any more.
#[derive(Drop)]
pub struct SharedListing {
    spots: Arc<Vec<Spot>, Global>,
}

impl Model for SharedListing {
    ghost use Rattle.std.specs.Prelude.{List};
    ghost use Rattle.std.specs.Arc.{arc_value};
    ghost use Rattle.describing_set.specs.declared.listing.Spot.{Spot};

    ghost Value = { List Spot };

    ghost view = { λ l. (arc_value l.spots).items };
}

impl SharedListing {
    /// A listing that can be shared.
    pub fn new(alloc: Global, listing: Listing) -> Result<SharedListing, AllocError>
        ensures { IfOk result (λ shared. shared ≡ listing) }
    {
        match Arc::new(alloc, listing.into_vec()) {
            Ok(spots) => Ok(SharedListing { spots }),
            Err(_) => Err(AllocError),
        }
    }

    /// The same listing for one more. It takes no memory, and is refused only where more have it than
    /// can be counted.
    pub fn share(&self) -> Result<SharedListing, AllocError>
        ensures { IfOk result (λ shared. shared ≡ self.now) }
    {
        let spots = Arc::try_clone(&self.spots)?;
        Ok(SharedListing { spots })
    }

    /// How many have the listing, this one among them.
    pub fn holders(&self) -> usize
        ensures { 0 < result }
    {
        Arc::strong_count(&self.spots)
    }

    /// The spots.
    pub fn as_slice(&self) -> &[Spot]
        ensures { result.now ≡ self.now }
    {
        self.spots.as_slice()
    }
}
