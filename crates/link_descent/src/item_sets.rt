//! Room for the describing sets of a block's items.
ghost use Rattle.std.specs.Prelude.{◌≡◌, ◌+◌, ◌<◌, ◌≤◌, [], ◌∷◌, ◌++◌, length, take};
ghost use Rattle.dim_hierarchy.specs.Row.{IsCoordOf};
ghost use Rattle.hierarchy_split.specs.Limits.{most_items};
ghost use Rattle.link_descent.specs.MoreSets.{HasSetMore};

use arrayvec::ArrayVec;
use describing_set::DescSet;
use dim_hierarchy::{Coord, Hierarchy};
use hierarchy_split::MOST_ITEMS;
use std::marker::Model;

/// Room for the describing sets of a full block's items. It has 8 KB, so it is made once, is kept by
/// who divides blocks, and is lent. What is in it before goes. Contracts see the list of sets.
///
/// Sets that go stay behind the others, so that the next ones are written where they stand.
#[derive(Drop)]
pub struct ItemSets {
    places: ArrayVec<DescSet, MOST_ITEMS>,
    count: usize,
}

impl Model for ItemSets {
    ghost use Rattle.std.specs.Prelude.{◌≤◌, length, take};
    ghost use Rattle.arrayvec.specs.ArrayVec.{ArrayVec as Items};
    ghost use Rattle.describing_set.specs.declared.set.DescSet.{DescSet};

    ghost Value = { Items DescSet };

    ghost view = { λ s. record { items = take s.count s.places.items } };

    ghost invariant = { λ s. s.count ≤ length s.places.items };
}

impl ItemSets {
    /// No set.
    pub fn new() -> ItemSets
        ensures { result.items ≡ [] }
    {
        ItemSets {
            places: ArrayVec::new(),
            count: 0,
        }
    }

    /// The sets.
    pub fn as_slice(&self) -> &[DescSet]
        ensures value { result.now ≡ self.now.items }
        ensures few { length result.now ≤ most_items }
    {
        &self.places.as_slice()[..self.count]
    }

    /// Drops every set. Nothing is written.
    pub fn clear(&mut self)
        ensures { self.new.items ≡ [] }
    {
        self.count = 0;
    }

    /// Adds the set of a coordinate at the end. There must be room.
    pub fn push_coord(&mut self, h: &Hierarchy, at: &Coord)
        requires room { length self.old.items < most_items }
        requires at { IsCoordOf h.now at.now }
        ensures items { HasSetMore h.now at.now self.old.items self.new.items }
        ensures len { length self.new.items ≡ length self.old.items + 1 }
    {
        make_place(&mut self.places, self.count);
        let set = &mut self.places[self.count];
        set.set_to_coord(h, at);
        self.count += 1;
    }

    /// Adds a copy of a set at the end. There must be room.
    pub fn push_copy(&mut self, set: &DescSet)
        requires { length self.old.items < most_items }
        ensures items { self.new.items ≡ self.old.items ++ set.now ∷ [] }
        ensures len { length self.new.items ≡ length self.old.items + 1 }
    {
        make_place(&mut self.places, self.count);
        self.places[self.count] = set.copy();
        self.count += 1;
    }
}

/// Lets there be a place behind the first so many. These stay as they are.
fn make_place(places: &mut ArrayVec<DescSet, MOST_ITEMS>, count: usize)
    requires few { count < most_items }
    requires places { count ≤ length places.old.items }
    ensures room { count < length places.new.items }
    ensures unchanged { take count places.new.items ≡ take count places.old.items }
{
    if count == places.len() {
        places.push(DescSet::default());
    }
}
