//! All shards that were ever made.
ghost use Rattle.std.specs.Prelude.{◌≡◌, ◌≢◌, ◌<◌, ◌≤◌, length, take, IsTrue, false, IfOk, OnOk, OnErr};
ghost use Rattle.describing_set.specs.Sorted.{Ascends};
ghost use Rattle.server_image.specs.Spots.{AreBoxes, Grows, spot_ids};
ghost use Rattle.server_image.specs.Image.{grown_at, AreGrowths};

use crate::image::Growth;
use crate::spots::{
    copied, copy_spots, grow_spot, has_spot, keeps_spot, place_of, put_spot, worker_in,
};
use describing_set::{DescSet, Listing, SharedListing, Spot};
use dim_hierarchy::Hierarchy;
use std::alloc::{AllocError, Global};
use std::marker::Model;

/// All shards that were ever made: those without successors, each with its worker and its box, and
/// those that have successors. The listing that was handed out last is kept until the frontier changes,
/// so that pulls between which nothing changes have one listing among them.
#[derive(Drop)]
pub struct Registry {
    frontier: Vec<Spot>,
    listed: Option<SharedListing>,
    retired: Vec<Spot>,
}

impl Model for Registry {
    ghost use Rattle.std.specs.Prelude.{◌≡◌, IfSome};
    ghost use Rattle.server_image.specs.Registry.{RegistryValue, IsRegistry};

    ghost Value = { RegistryValue };

    ghost view = { λ r. record { frontier = r.frontier.items; retired = r.retired.items } };

    ghost invariant = { λ r. IsRegistry (record { frontier = r.frontier.items; retired = r.retired.items })
        × IfSome r.listed (λ listing. listing ≡ r.frontier.items) };
}

impl Registry {
    ghost use Rattle.server_image.specs.Registry.{IsRegistry, IsNewRegistry, IsSplit, IsRehosted, on_frontier, host_of};

    /// The first shards: one for each worker, with its number and an empty box.
    pub fn new(alloc: Global, workers: u8, h: &Hierarchy) -> Result<Registry, AllocError>
        requires { 0 < workers }
        ensures opening { IfOk result (IsNewRegistry h.now workers) }
        ensures boxes { IfOk result (λ r. AreBoxes h.now r.frontier) }
    {
        let mut frontier = Vec::new(alloc);
        for worker in 0..workers {
            frontier.push(Spot {
                shard: u32::from(worker),
                worker,
                set: DescSet::empty(h),
            })?;
        }
        Ok(Registry {
            frontier,
            listed: None,
            retired: Vec::new(alloc),
        })
    }

    /// How many shards have no successors.
    pub(crate) fn len(&self) -> usize
        ensures value { result ≡ length self.now.frontier }
        ensures some { 0 < result }
    {
        self.frontier.len()
    }

    /// The shards without successors, by ascending id, lent. There is one at least.
    pub fn spots(&self) -> &[Spot]
        ensures value { result.now ≡ self.now.frontier }
        ensures some { 0 < length result.now }
        ensures ascending { Ascends (spot_ids result.now) }
    {
        self.frontier.as_slice()
    }

    /// The shards without successors, by ascending id.
    pub fn frontier(&self, alloc: Global) -> Result<Listing, AllocError>
        ensures value { IfOk result (λ listing. listing ≡ self.now.frontier) }
        ensures valid { IsRegistry self.now }
    {
        Ok(Listing::from_vec(copied(alloc, &self.frontier)?))
    }

    /// Whether a shard stands and has no successor.
    pub fn on_frontier(&self, id: u32) -> bool
        ensures { result ≡ on_frontier id self.now }
    {
        has_spot(id, &self.frontier)
    }

    /// The worker that has a shard, or had it last; `None` for one that was never made.
    pub fn host(&self, id: u32) -> Option<u8>
        ensures { result ≡ host_of id self.now }
    {
        worker_in(id, &self.frontier).or(worker_in(id, &self.retired))
    }

    /// Grows the boxes of shards of the frontier by what was noted, and lists what stands then; other
    /// shards' growths are dropped, as the boxes of their successors have them. Where no box changes, the
    /// listing is the one of the pull before, unless the frontier has changed since.
    pub(crate) fn pull(
        &mut self,
        alloc: Global,
        growths: &[Growth],
        h: &Hierarchy,
    ) -> Result<SharedListing, AllocError>
        requires boxes { AreBoxes h.now self.old.frontier }
        requires growths { AreGrowths h.now growths.now }
        ensures pushed { OnOk result (Grows h.now (grown_at growths.now) self.old.frontier self.new.frontier) }
        ensures boxes { OnOk result (AreBoxes h.now self.new.frontier) }
        ensures listing { IfOk result (λ listing. listing ≡ self.new.frontier) }
        ensures retired { self.new.retired ≡ self.old.retired }
        ensures len { length self.new.frontier ≡ length self.old.frontier }
        ensures err { OnErr result (self.new ≡ self.old) }
    {
        let known = known_of(&self.frontier, growths, h);
        if known == growths.len() {
            return self.listing(alloc);
        }
        let mut grown = copied(alloc, &self.frontier)?;
        grow_from(&mut grown, growths, known, h);
        let listing = SharedListing::new(alloc, Listing::from_vec(grown))?;
        let kept = listing.share()?;
        self.put(kept);
        Ok(listing)
    }

    /// What stands, as it was listed last; where it has changed since it is listed anew.
    fn listing(&mut self, alloc: Global) -> Result<SharedListing, AllocError>
        ensures value { IfOk result (λ listing. listing ≡ self.old.frontier) }
        ensures unchanged { self.new ≡ self.old }
    {
        if let Some(listing) = &self.listed {
            return listing.share();
        }
        let listing = SharedListing::new(alloc, self.frontier(alloc)?)?;
        self.listed = Some(listing.share()?);
        Ok(listing)
    }

    /// The spots of a listing of the same shards become the frontier's. Takes no memory.
    fn put(&mut self, listing: SharedListing)
        requires { spot_ids listing ≡ spot_ids self.old.frontier }
        ensures frontier { self.new.frontier ≡ listing }
        ensures retired { self.new.retired ≡ self.old.retired }
    {
        self.frontier.clear();
        copy_spots(listing.as_slice(), &mut self.frontier);
        self.listed = Some(listing);
    }

    /// Retires a shard of the frontier, in whose place stand two new ones of its worker, with these
    /// boxes. Neither of these stands already.
    pub fn split(
        &mut self,
        id: u32,
        left: u32,
        left_box: DescSet,
        right: u32,
        right_box: DescSet,
    ) -> Result<(), AllocError>
        requires frontier { IsTrue (on_frontier id self.old) }
        requires left { on_frontier left self.old ≡ false }
        requires right { on_frontier right self.old ≡ false }
        requires apart { left ≢ right }
        ensures ok { OnOk result (IsSplit id left left_box right right_box self.old self.new) }
        ensures err { OnErr result (self.new ≡ self.old) }
    {
        self.frontier.reserve(2)?;
        self.retired.reserve(1)?;
        self.listed = None;
        let spot = self.frontier.remove(place_of(id, &self.frontier));
        let worker = spot.worker;
        self.retired.push_reserved(spot);
        put_spot(
            &mut self.frontier,
            Spot {
                shard: left,
                worker,
                set: left_box,
            },
        );
        put_spot(
            &mut self.frontier,
            Spot {
                shard: right,
                worker,
                set: right_box,
            },
        );
        Ok(())
    }

    /// Gives a shard of the frontier to another worker. Takes no memory.
    pub fn rehost(&mut self, id: u32, worker: u8)
        requires { IsTrue (on_frontier id self.old) }
        ensures { IsRehosted id worker self.old self.new }
    {
        let place = place_of(id, &self.frontier);
        let spot = &mut self.frontier[place];
        spot.worker = worker;
        self.listed = None;
    }
}

/// How many growths come before the first one that changes a box.
fn known_of(spots: &[Spot], growths: &[Growth], h: &Hierarchy) -> usize
    requires ascending { Ascends (spot_ids spots.now) }
    requires boxes { AreBoxes h.now spots.now }
    requires growths { AreGrowths h.now growths.now }
    ensures few { result ≤ length growths.now }
    ensures known { Grows h.now (grown_at (take result growths.now)) spots.now spots.now }
{
    for place in 0..growths.len() {
        let growth = &growths[place];
        if !keeps_spot(spots, growth.shard, &growth.at, h) {
            return place;
        }
    }
    growths.len()
}

/// Grows the boxes of spots by what was noted from a place on; what comes before changes none.
fn grow_from(spots: &mut Vec<Spot>, growths: &[Growth], from: usize, h: &Hierarchy)
    requires ascending { Ascends (spot_ids spots.old.items) }
    requires boxes { AreBoxes h.now spots.old.items }
    requires growths { AreGrowths h.now growths.now }
    requires few { from ≤ length growths.now }
    requires known { Grows h.now (grown_at (take from growths.now)) spots.old.items spots.old.items }
    ensures grown { Grows h.now (grown_at growths.now) spots.old.items spots.new.items }
    ensures boxes { AreBoxes h.now spots.new.items }
{
    for place in from..growths.len() {
        let growth = &growths[place];
        grow_spot(spots, growth.shard, &growth.at, h);
    }
}
