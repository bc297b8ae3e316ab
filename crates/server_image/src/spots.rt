//! Lists of spots in the order of their ids.
ghost use Rattle.std.specs.Prelude.{◌≡◌, ◌≢◌, ◌==◌, ◌+◌, ◌<◌, ◌≤◌, [], ◌∷◌, ◌++◌, nat_lt, length, vec_len, vec_capacity, All, IfOk, IfErr};
ghost use Rattle.std.specs.Bool.{OnTrue};
ghost use Rattle.std.specs.List.{position_or_len, position};
ghost use Rattle.dim_hierarchy.specs.Row.{IsCoordOf};
ghost use Rattle.describing_set.specs.Sets.{IsDescSetOf};
ghost use Rattle.describing_set.specs.Sorted.{Ascends};
ghost use Rattle.server_image.specs.Spots.{AreBoxes, spot_ids, is_among, has_spot, IsAt, place_of, worker_in, with_spot, IsGrown, along, Grows};

use describing_set::{DescSet, Spot};
use dim_hierarchy::{Coord, Hierarchy};
use std::alloc::{AllocError, Global};

/// Whether a spot has this id.
pub fn has_spot(id: u32, spots: &[Spot]) -> bool
    ensures { result ≡ has_spot id spots.now }
{
    spots.iter().any(|spot| spot.shard == id)
}

/// The place of the first spot of this id.
fn find(id: u32, spots: &[Spot]) -> Option<usize>
    ensures { result ≡ position (λ x. x.shard == id) spots.now }
{
    spots.iter().position(|spot| spot.shard == id)
}

/// The place of the first spot of this id; past the last one where there is none.
pub fn place_of(id: u32, spots: &[Spot]) -> usize
    ensures { result ≡ place_of id spots.now }
{
    find(id, spots).unwrap_or(spots.len())
}

/// The place of the first spot of a higher id.
fn find_above(id: u32, spots: &[Spot]) -> Option<usize>
    ensures { result ≡ position (λ x. nat_lt id x.shard) spots.now }
{
    spots.iter().position(|spot| id < spot.shard)
}

/// The place of the first spot of a higher id; past the last one where there is none.
fn place_for(id: u32, spots: &[Spot]) -> usize
    ensures value { result ≡ position_or_len (λ x. nat_lt id x.shard) spots.now }
    ensures few { result ≤ length spots.now }
{
    find_above(id, spots).unwrap_or(spots.len())
}

/// The worker of the first spot of this id.
pub fn worker_in(id: u32, spots: &[Spot]) -> Option<u8>
    ensures { result ≡ worker_in id spots.now }
{
    for spot in spots {
        if spot.shard == id {
            return Some(spot.worker);
        }
    }
    None
}

/// Adds a spot before the first one of a higher id. Takes no memory: there is room.
pub fn put_spot(spots: &mut Vec<Spot>, spot: Spot)
    requires { vec_len spots.old < vec_capacity spots.old }
    ensures spots { spots.new.items ≡ with_spot spot spots.old.items }
    ensures len { vec_len spots.new ≡ vec_len spots.old + 1 }
    ensures capacity { vec_capacity spots.old ≤ vec_capacity spots.new }
{
    let place = place_for(spot.shard, spots);
    let put = spots.insert(place, spot);
    prove!(put.is_ok());
}

/// Adds copies of these spots at the end. Takes no memory: there is room.
pub fn copy_spots(spots: &[Spot], into: &mut Vec<Spot>)
    requires { vec_len into.old + length spots.now ≤ vec_capacity into.old }
    ensures spots { into.new.items ≡ into.old.items ++ spots.now }
    ensures capacity { vec_capacity into.new ≡ vec_capacity into.old }
{
    for spot in spots {
        into.push_reserved(spot.copy());
    }
}

/// Copies of these spots.
pub fn copied(alloc: Global, spots: &[Spot]) -> Result<Vec<Spot>, AllocError>
    ensures { IfOk result (λ copies. copies.items ≡ spots.now) }
{
    let mut copies = Vec::with_capacity(alloc, spots.len())?;
    copy_spots(spots, &mut copies);
    Ok(copies)
}

/// The place of the spot of this id, looked for by halving.
fn search(id: u32, spots: &[Spot]) -> Result<usize, usize>
    requires { Ascends (spot_ids spots.now) }
    ensures found { IfOk result (IsAt id spots.now) }
    ensures absent { IfErr result (λ _place. All (λ s. s.shard ≢ id) spots.now) }
{
    spots.binary_search_by_key(&id, |spot| spot.shard)
}

/// Grows a spot's box by a coordinate. A box that covers the coordinate is only read.
fn grow_box(spot: &mut Spot, at: &Coord, h: &Hierarchy)
    requires box_of { IsDescSetOf h.now spot.old.set }
    requires at { IsCoordOf h.now at.now }
    ensures grown { IsGrown h.now (at.now ∷ []) spot.old spot.new }
    ensures valid { IsDescSetOf h.now spot.new.set }
{
    DescSet::laws(h);
    spot.set.grow(h, at);
}

/// Grows the box of the spot of this id by a coordinate, where there is one.
pub fn grow_spot(spots: &mut Vec<Spot>, id: u32, at: &Coord, h: &Hierarchy)
    requires ascending { Ascends (spot_ids spots.old.items) }
    requires boxes { AreBoxes h.now spots.old.items }
    requires at { IsCoordOf h.now at.now }
    ensures grown { Grows h.now (along (id ∷ []) at.now) spots.old.items spots.new.items }
    ensures boxes { AreBoxes h.now spots.new.items }
{
    if let Ok(place) = search(id, spots) {
        grow_box(&mut spots[place], at, h);
    }
}

/// Grows a spot's box by a coordinate where it has one of these ids.
fn grow_among(spot: &mut Spot, ids: &[u32], at: &Coord, h: &Hierarchy)
    requires box_of { IsDescSetOf h.now spot.old.set }
    requires at { IsCoordOf h.now at.now }
    ensures grown { IsGrown h.now (along ids.now at.now spot.old.shard) spot.old spot.new }
    ensures valid { IsDescSetOf h.now spot.new.set }
{
    if is_among(ids, spot.shard) {
        grow_box(spot, at, h);
    }
}

/// Grows the box of each spot of these ids by a coordinate, in one pass over all spots.
fn grow_each(spots: &mut Vec<Spot>, ids: &[u32], at: &Coord, h: &Hierarchy)
    requires boxes { AreBoxes h.now spots.old.items }
    requires at { IsCoordOf h.now at.now }
    ensures grown { Grows h.now (along ids.now at.now) spots.old.items spots.new.items }
    ensures boxes { AreBoxes h.now spots.new.items }
{
    for place in 0..spots.len() {
        grow_among(&mut spots[place], ids, at, h);
    }
}

/// Grows the box of each spot of these ids by a coordinate. There is mostly one, which is looked for.
pub fn grow_spots(spots: &mut Vec<Spot>, ids: &[u32], at: &Coord, h: &Hierarchy)
    requires ascending { Ascends (spot_ids spots.old.items) }
    requires boxes { AreBoxes h.now spots.old.items }
    requires at { IsCoordOf h.now at.now }
    ensures grown { Grows h.now (along ids.now at.now) spots.old.items spots.new.items }
    ensures boxes { AreBoxes h.now spots.new.items }
{
    if ids.len() == 1 {
        grow_spot(spots, ids[0], at, h);
    } else {
        grow_each(spots, ids, at, h);
    }
}

/// Whether a spot's box stays as it is when the coordinate is added.
fn keeps_box(spot: &Spot, at: &Coord, h: &Hierarchy) -> bool
    requires box_of { IsDescSetOf h.now spot.now.set }
    requires at { IsCoordOf h.now at.now }
    ensures { OnTrue result (IsGrown h.now (at.now ∷ []) spot.now spot.now) }
{
    DescSet::laws(h);
    spot.set.keeps(h, at)
}

/// Whether the box of the spot of this id stays as it is when the coordinate is added, or there is no such
/// spot.
pub fn keeps_spot(spots: &[Spot], id: u32, at: &Coord, h: &Hierarchy) -> bool
    requires ascending { Ascends (spot_ids spots.now) }
    requires boxes { AreBoxes h.now spots.now }
    requires at { IsCoordOf h.now at.now }
    ensures { OnTrue result (Grows h.now (along (id ∷ []) at.now) spots.now spots.now) }
{
    match search(id, spots) {
        Ok(place) => keeps_box(&spots[place], at, h),
        Err(_) => true,
    }
}

/// Whether the id is one of these.
fn is_among(ids: &[u32], id: u32) -> bool
    ensures { result ≡ is_among ids.now id }
{
    ids.iter().any(|x| *x == id)
}
