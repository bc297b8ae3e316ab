//! What a server knows of the shards.
ghost use Rattle.std.specs.Prelude.{◌≡◌, ◌+◌, ◌<◌, ◌∷◌, ◌++◌, [], length, vec_len, vec_capacity, IfOk, OnOk, OnErr};
ghost use Rattle.dim_hierarchy.specs.Row.{IsCoordOf};
ghost use Rattle.dim_hierarchy.specs.Filter.{IsFilterOf};
ghost use Rattle.describing_set.specs.Sorted.{Ascends};
ghost use Rattle.server_image.specs.Spots.{AreBoxes, spot_ids};

use crate::rank::first_for;
use crate::registry::Registry;
use crate::spots::{copy_spots, grow_spots};
use describing_set::{Listing, Path, SharedListing, Spot};
use dim_hierarchy::{Coord, Filter, Hierarchy};
use std::alloc::{AllocError, Global};
use std::marker::Model;

/// A shard's box has grown by a coordinate, which the registry is still to be told.
#[derive(Clone, Copy, Debug, PartialEq, Eq)]
pub struct Growth {
    pub shard: u32,
    pub at: Coord,
}

impl Growth {
    /// A growth of a shard by a coordinate.
    fn new(shard: u32, at: &Coord) -> Growth
        ensures { result ≡ record { shard = shard; at = at.now } }
    {
        Growth { shard, at: *at }
    }
}

/// What a server knows of the shards: those that it lists, in order, the growths that it has still
/// to push, and how many acknowledgements are owed. Each of these has room for its growth.
#[derive(Drop)]
pub struct Image {
    spots: Vec<Spot>,
    growths: Vec<Growth>,
    owed: usize,
}

impl Model for Image {
    ghost use Rattle.std.specs.Prelude.{◌+◌, ◌<◌, ◌≤◌, length, vec_len, vec_capacity};
    ghost use Rattle.describing_set.specs.Sorted.{Ascends};
    ghost use Rattle.server_image.specs.Spots.{spot_ids};
    ghost use Rattle.server_image.specs.Image.{ImageValue};

    ghost Value = { ImageValue };

    ghost view = { λ i. record { spots = i.spots.items; growths = i.growths.items; owed = i.owed } };

    ghost invariant = { λ i. (0 < length i.spots.items) × (vec_len i.growths + i.owed ≤ vec_capacity i.growths) × Ascends (spot_ids i.spots.items) };
}

impl Image {
    ghost use Rattle.server_image.specs.Image.{IsRoute, IsAcked, IsSynced, AreGrowths, planned};

    /// The image of a listing that is not empty and ascends by id, with no growth and nothing owed. Takes
    /// no memory.
    pub fn new(alloc: Global, listing: Listing) -> Image
        requires some { 0 < length listing }
        requires ascending { Ascends (spot_ids listing) }
        ensures { result ≡ record { spots = listing; growths = []; owed = 0 } }
    {
        Image {
            spots: listing.into_vec(),
            growths: Vec::new(alloc),
            owed: 0,
        }
    }

    /// The shards that are listed, in order.
    pub fn spots(&self) -> &[Spot]
        ensures value { result.now ≡ self.now.spots }
        ensures some { 0 < length result.now }
    {
        self.spots.as_slice()
    }

    /// How many acknowledgements are owed.
    pub fn owed(&self) -> usize
        ensures { result ≡ self.now.owed }
    {
        self.owed
    }

    /// Owes one acknowledgement more.
    pub fn begin(&mut self) -> Result<(), AllocError>
        ensures ok { OnOk result (self.new ≡ record self.old { owed = self.old.owed + 1 }) }
        ensures err { OnErr result (self.new ≡ self.old) }
    {
        self.growths.reserve(self.owed + 1)?;
        self.owed += 1;
        Ok(())
    }

    /// The place of the shard to which a row goes: the one whose box is grown least by it, then the
    /// smallest box, then the lowest id. Takes no memory.
    pub fn route(&self, at: &Coord, h: &Hierarchy) -> usize
        requires boxes { AreBoxes h.now self.now.spots }
        requires at { IsCoordOf h.now at.now }
        ensures { IsRoute h.now at.now self.now.spots result }
    {
        // A shard that is alone comes first, whatever its box.
        if self.spots.len() == 1 {
            return 0;
        }
        first_for(&self.spots, &h.lineages(at), h)
    }

    /// Acknowledges a row that went along a path: the box of the path's shard that is listed grows
    /// by it, and the growth of the path's last shard is noted. Takes no memory.
    pub fn acked(&mut self, path: &Path, at: &Coord, h: &Hierarchy)
        requires boxes { AreBoxes h.now self.old.spots }
        requires growths { AreGrowths h.now self.old.growths }
        requires at { IsCoordOf h.now at.now }
        requires owed { 0 < self.old.owed }
        requires some { 0 < length path.now }
        ensures acked { IsAcked h.now path.now at.now self.old self.new }
        ensures boxes { AreBoxes h.now self.new.spots }
        ensures growths { AreGrowths h.now self.new.growths }
    {
        let ids = path.as_slice();
        grow_spots(&mut self.spots, ids, at, h);
        self.owed -= 1;
        add(&mut self.growths, &Growth::new(ids[ids.len() - 1], at));
    }

    /// Gives up an acknowledgement that is owed. Takes no memory.
    pub fn forgo(&mut self)
        requires { 0 < self.old.owed }
        ensures { self.old ≡ record self.new { owed = self.new.owed + 1 } }
    {
        self.owed -= 1;
    }

    /// The shards that a query asks: those whose boxes overlap its filter, in order. Takes memory for
    /// the listing alone.
    pub fn plan(&self, alloc: Global, filter: &Filter, h: &Hierarchy) -> Result<Listing, AllocError>
        requires boxes { AreBoxes h.now self.now.spots }
        requires filter { IsFilterOf h.now filter.now }
        ensures { IfOk result (λ listing. listing ≡ planned h.now filter.now self.now.spots) }
    {
        overlapping(alloc, &self.spots, filter, h)
    }

    /// Pushes the growths to the registry and takes its frontier. What is owed stays, with its
    /// room. The listing is the new one.
    pub fn sync(
        &mut self,
        alloc: Global,
        registry: &mut Registry,
        h: &Hierarchy,
    ) -> Result<SharedListing, AllocError>
        requires boxes { AreBoxes h.now registry.old.frontier }
        requires growths { AreGrowths h.now self.old.growths }
        ensures ok { IfOk result (IsSynced h.now self.old self.new registry.old registry.new) }
        ensures boxes { IfOk result (AreBoxes h.now) }
        ensures err { OnErr result (self.new ≡ self.old) }
        ensures registry_err { OnErr result (registry.new ≡ registry.old) }
    {
        let mut spots = Vec::with_capacity(alloc, registry.len())?;
        let listing = registry.pull(alloc, &self.growths, h)?;
        copy_spots(registry.spots(), &mut spots);
        self.spots = spots;
        self.growths.clear();
        Ok(listing)
    }
}

/// Adds a copy of an item at the end. Takes no memory: there is room. For items of any type, and by
/// reference, as the generated proof follows no coordinate that is handed to a list by value.
fn add<T: Copy>(items: &mut Vec<T>, item: &T)
    requires { vec_len items.old < vec_capacity items.old }
    ensures items { items.new.items ≡ items.old.items ++ item.now ∷ [] }
    ensures len { vec_len items.new ≡ vec_len items.old + 1 }
    ensures capacity { vec_capacity items.new ≡ vec_capacity items.old }
{
    items.push_reserved(*item);
}

/// The spots whose boxes overlap the filter, in order.
fn overlapping(
    alloc: Global,
    spots: &[Spot],
    filter: &Filter,
    h: &Hierarchy,
) -> Result<Listing, AllocError>
    requires boxes { AreBoxes h.now spots.now }
    requires filter { IsFilterOf h.now filter.now }
    ensures { IfOk result (λ listing. listing ≡ planned h.now filter.now spots.now) }
{
    let mut listing = Listing::new(alloc);
    for spot in spots {
        let asked = spot.set.overlaps(h, filter);
        if asked {
            listing.push(spot.copy())?;
        }
    }
    Ok(listing)
}

ghost use Rattle.server_image.specs.Image.{planned};
