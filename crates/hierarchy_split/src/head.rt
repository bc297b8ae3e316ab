//! The head cuts of a group: which items stay in its first block.
ghost use Rattle.std.specs.Prelude.{◌≡◌, ◌<◌, ◌≤◌, length, All, IfSome, IfNone};
ghost use Rattle.describing_set.specs.Sets.{IsDescSetOf};
ghost use Rattle.hierarchy_split.specs.Limits.{most_items};
ghost use Rattle.hierarchy_split.specs.Cut.{IsAbove};

use crate::crossing::{crossed_in_head, crossed_with};
use crate::head_cut::{HeadCut, best_at, better};
use crate::leasts::{cut_level, leasts, part};
use crate::limits::MOST_ITEMS;
use arrayvec::ArrayVec;
use describing_set::DescSet;
use dim_hierarchy::Hierarchy;

/// The head cuts of a dimension: their level, if there is one, and for each item of the head
/// whether another item of the group that no cut keeps beside it has one of its lifted concepts.
#[derive(Default, Drop)]
struct DimCuts {
    level: Option<u8>,
    crossed: ArrayVec<bool, MOST_ITEMS>,
}

/// The head cuts of a group, whose first block is its head. The items of the other blocks are told
/// one by one, and are not kept. No call takes memory.
#[derive(Drop)]
pub struct HeadCuts<'a> {
    head: &'a [DescSet],
    dims: ArrayVec<DimCuts, 8>,
}

ghost use Rattle.hierarchy_split.specs.declared.head_cut.HeadCut.{HeadCut};
ghost use Rattle.hierarchy_split.specs.Head.{GroupItems, head_items, with_other, IsHeadCut, IsGoodHead, IsGoodHeadCut};
ghost use Rattle.hierarchy_split.specs.Best.{IsBestWith};
ghost use Rattle.hierarchy_split.specs.Flags.{IsFlaggedIn, cuts_at, AreDimCutsOf, AreHeadCutsOf, AreHeadCuts};

/// The head cuts of a dimension, where no item of another block is known.
fn dim_cuts(head: &[DescSet], h: &Hierarchy, dim: u8) -> DimCuts
    requires dim { dim < length h.now }
    requires some { 0 < length head.now }
    requires few { length head.now ≤ most_items }
    requires head { All (IsDescSetOf h.now) head.now }
    ensures { AreDimCutsOf h.now (head_items head.now) dim result }
{
    match cut_level(head, h, dim) {
        Some(lift) => DimCuts {
            level: Some(lift.level),
            crossed: crossed_in_head(head, h, dim, lift.level),
        },
        None => DimCuts {
            level: None,
            crossed: ArrayVec::new(),
        },
    }
}

/// The head cuts of a dimension with an item of another block more.
fn struck(cuts: &DimCuts, head: &[DescSet], h: &Hierarchy, dim: u8, set: &DescSet) -> DimCuts
    requires dim { dim < length h.now }
    requires few { length head.now ≤ most_items }
    requires head { All (IsDescSetOf h.now) head.now }
    requires set { IsDescSetOf h.now set.now }
    requires level { IfSome cuts.now.level (IsAbove head.now dim) }
    requires crossed { IfSome cuts.now.level (λ level. length cuts.now.crossed.items ≡ length head.now) }
    ensures { (items : GroupItems) → head.now ≡ items.head
        → AreDimCutsOf h.now items dim cuts.now
        → AreDimCutsOf h.now (with_other items set.now) dim result }
{
    match cuts.level {
        Some(level) => {
            if level <= part(set, h, dim).level {
                DimCuts {
                    level: Some(level),
                    crossed: crossed_with(cuts.crossed.as_slice(), head, h, dim, level, set),
                }
            } else {
                DimCuts {
                    level: None,
                    crossed: ArrayVec::new(),
                }
            }
        }
        None => DimCuts {
            level: None,
            crossed: ArrayVec::new(),
        },
    }
}

/// The good head cut of a dimension that comes first.
fn best_of(cuts: &DimCuts, head: &[DescSet], h: &Hierarchy, dim: u8) -> Option<HeadCut>
    requires dim { dim < length h.now }
    requires few { length head.now ≤ most_items }
    requires head { All (IsDescSetOf h.now) head.now }
    requires level { IfSome cuts.now.level (IsAbove head.now dim) }
    requires crossed { IfSome cuts.now.level (λ level. length cuts.now.crossed.items ≡ length head.now) }
    ensures { IsBestWith (IsFlaggedIn h.now head.now dim cuts.now) result }
{
    let level = cuts.level?;
    let leasts = leasts(head, h, dim, level);
    best_at(dim, level, leasts.as_slice(), cuts.crossed.as_slice())
}

impl<'a> HeadCuts<'a> {
    /// The head cuts of a group of which only its head is known, of 2 to 32 items.
    pub fn of(sets: &'a [DescSet], h: &Hierarchy) -> HeadCuts<'a>
        requires some { 2 ≤ length sets.now }
        requires few { length sets.now ≤ most_items }
        requires sets { All (IsDescSetOf h.now) sets.now }
        ensures cuts_of { AreHeadCutsOf h.now (head_items sets.now) result }
        ensures valid { AreHeadCuts h.now result }
    {
        let mut dims = ArrayVec::new();
        for dim in 0..h.dims() {
            dims.push(dim_cuts(sets, h, dim));
        }
        HeadCuts { head: sets, dims }
    }

    /// What is kept for a dimension.
    fn cuts(&self, dim: u8) -> &DimCuts
        requires { dim < length self.now.dims.items }
        ensures { result.now ≡ cuts_at self.now.dims.items dim }
    {
        &self.dims.as_slice()[usize::from(dim)]
    }

    /// Adds an item of another block. Where its own level is of a lower number than that of a
    /// dimension's cuts, the dimension has none from then on.
    pub fn strike(&mut self, h: &Hierarchy, set: &DescSet)
        requires cuts { AreHeadCuts h.now self.old }
        requires set { IsDescSetOf h.now set.now }
        ensures cuts_of { (items : GroupItems) → AreHeadCutsOf h.now items self.old
            → AreHeadCutsOf h.now (with_other items set.now) self.new }
        ensures valid { AreHeadCuts h.now self.new }
    {
        let mut dims = ArrayVec::new();
        for dim in 0..h.dims() {
            dims.push(struck(self.cuts(dim), self.head, h, dim, set));
        }
        self.dims = dims;
    }

    /// The good head cut: the one that keeps most items, then of the lower-numbered level, then of
    /// the lower dimension, then of the lower concept. None where no head cut is good.
    pub fn best(&self, h: &Hierarchy) -> Option<HeadCut>
        requires { AreHeadCuts h.now self.now }
        ensures cut { (items : GroupItems) → AreHeadCutsOf h.now items self.now
            → IfSome result (IsGoodHeadCut h.now items) }
        ensures none { (items : GroupItems) → AreHeadCutsOf h.now items self.now
            → IfNone result ((cut : HeadCut)
            → IsHeadCut h.now items cut → ¬ IsGoodHead h.now items cut) }
    {
        let mut best = None;
        for dim in 0..h.dims() {
            best = better(best, best_of(self.cuts(dim), self.head, h, dim));
        }
        best
    }
}
