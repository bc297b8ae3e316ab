//! The good cut of a full list of items.
ghost use Rattle.std.specs.Prelude.{◌≡◌, ◌<◌, ◌≤◌, ◌⊎◌, ◌↔◌, length, All, IsTrue, IfSome, IfNone, IsPermutation};
ghost use Rattle.std.specs.List.{range_with_len};
ghost use Rattle.describing_set.specs.Sets.{IsDescSetOf};
ghost use Rattle.hierarchy_split.specs.Limits.{most_items};

use crate::leasts::cut_level;
use crate::limits::MOST_ITEMS;
use crate::order::{cut_place, order};
use crate::overlap::overlap;
use arrayvec::ArrayVec;
use describing_set::DescSet;
use dim_hierarchy::Hierarchy;

/// A cut of items by a dimension: the level at which their concepts are compared, their places in
/// cut order, and how many of these go left.
#[derive(Debug, Drop, PartialEq)]
pub struct Cut {
    pub dim: u8,
    pub level: u8,
    pub order: ArrayVec<u8, MOST_ITEMS>,
    pub left: u8,
}

/// A good cut of its dimension, and its overlap.
#[derive(Drop)]
struct Candidate {
    cut: Cut,
    overlap: usize,
}

ghost use Rattle.hierarchy_split.specs.declared.cut.Cut.{Cut};
ghost use Rattle.hierarchy_split.specs.Cut.{IsDimCut, overlap, IsGood, IsGoodCut};

impl Cut {
    /// A law of cuts, with no code: items have one good cut at most.
    pub fn laws(h: &Hierarchy, sets: &[DescSet])
        ensures { (cut other : Cut) → IsGoodCut h.now sets.now cut → IsGoodCut h.now sets.now other
            → cut ≡ other }
    {}
}

/// The cut of a dimension.
fn dim_cut(sets: &[DescSet], h: &Hierarchy, dim: u8) -> Option<Cut>
    requires dim { dim < length h.now }
    requires some { 0 < length sets.now }
    requires few { length sets.now ≤ most_items }
    requires sets { All (IsDescSetOf h.now) sets.now }
    ensures dim { IfSome result (λ cut. cut.dim ≡ dim) }
    ensures some { IfSome result (IsDimCut h.now sets.now) }
    ensures none { IfNone result ((cut : Cut) → cut.dim ≡ dim → ¬ IsDimCut h.now sets.now cut) }
{
    let lift = cut_level(sets, h, dim)?;
    let order = order(lift.leasts.as_slice());
    let left = cut_place(lift.leasts.as_slice(), order.as_slice())?;
    Some(Cut {
        dim,
        level: lift.level,
        order,
        left,
    })
}

/// The cut of a dimension, if it is good.
fn good_cut(sets: &[DescSet], h: &Hierarchy, dim: u8) -> Option<Candidate>
    requires dim { dim < length h.now }
    requires some { 0 < length sets.now }
    requires few { length sets.now ≤ most_items }
    requires sets { All (IsDescSetOf h.now) sets.now }
    ensures dim { IfSome result (λ found. found.cut.dim ≡ dim) }
    ensures cut { IfSome result (λ found. IsDimCut h.now sets.now found.cut) }
    ensures good { IfSome result (λ found. IsGood h.now sets.now found.cut) }
    ensures overlap { IfSome result (λ found. found.overlap ≡ overlap h.now sets.now found.cut) }
    ensures none { IfNone result
        ((cut : Cut) → cut.dim ≡ dim → IsDimCut h.now sets.now cut → ¬ IsGood h.now sets.now cut) }
{
    let cut = dim_cut(sets, h, dim)?;
    let n = sets.len();
    let k = usize::from(cut.left);
    if 3 * k < n || 3 * (n - k) < n {
        return None;
    }
    let order = cut.order.as_slice();
    let overlap = overlap(sets, h, dim, cut.level, &order[..k], &order[k..]);
    if 5 * overlap > n {
        return None;
    }
    Some(Candidate { cut, overlap })
}

/// Whether there is no best cut so far, or this one has the smaller overlap, or the same at a level
/// of a lower number.
fn is_better(found: &Candidate, best: &Option<Candidate>) -> bool
    ensures none { IfNone best.now (IsTrue result) }
    ensures some { IfSome best.now
        (λ b. IsTrue result
        ↔ ((found.now.overlap < b.overlap)
        ⊎ ((found.now.overlap ≡ b.overlap) × (found.now.cut.level < b.cut.level)))) }
{
    match best {
        Some(b) => {
            found.overlap < b.overlap
                || (found.overlap == b.overlap && found.cut.level < b.cut.level)
        }
        None => true,
    }
}

/// The good cut of 2 to 32 items with these sets; none where no dimension has one. Takes no memory.
///
/// Of the dimensions whose cuts are good it is the one with the least overlap, then with the
/// lower-numbered level, then with the lower number. A set without concepts has `ALL` as its least.
pub fn choose(sets: &[DescSet], h: &Hierarchy) -> Option<Cut>
    requires some { 2 ≤ length sets.now }
    requires few { length sets.now ≤ most_items }
    requires sets { All (IsDescSetOf h.now) sets.now }
    ensures cut { IfSome result (IsGoodCut h.now sets.now) }
    ensures none { IfNone result
        ((cut : Cut) → IsDimCut h.now sets.now cut → ¬ IsGood h.now sets.now cut) }
    ensures order { IfSome result
        (λ cut. IsPermutation (range_with_len 0 (length sets.now)) cut.order.items) }
{
    let mut best: Option<Candidate> = None;
    for dim in 0..h.dims() {
        if let Some(found) = good_cut(sets, h, dim) {
            if is_better(&found, &best) {
                best = Some(found);
            }
        }
    }
    Some(best?.cut)
}
