//! A head cut, and which of several comes first.
ghost use Rattle.std.specs.Prelude.{◌≡◌, ◌==◌, ◌<◌, ◌≤◌, ◌++◌, ◌↔◌, length, All, IsPermutation, IsTrue, IfSome, IfNone};
ghost use Rattle.std.specs.Bool.{OnTrue, OnFalse};
ghost use Rattle.std.specs.List.{count_by, range_with_len};
ghost use Rattle.describing_set.specs.DescSet.{part_at};
ghost use Rattle.describing_set.specs.Sets.{IsDescSetOf};
ghost use Rattle.hierarchy_split.specs.Cut.{IsAbove};
ghost use Rattle.hierarchy_split.specs.Limits.{most_items};

use crate::leasts::least;
use crate::limits::MOST_ITEMS;
use arrayvec::ArrayVec;
use describing_set::DescSet;
use dim_hierarchy::{ConceptId, Hierarchy};

/// Places of items.
pub type Places = ArrayVec<u8, MOST_ITEMS>;

/// A cut of a head by a dimension: the level at which the concepts of its items are compared, the
/// least concept of those that it keeps, and how many these are.
#[derive(Clone, Copy, Debug, Drop, PartialEq)]
pub struct HeadCut {
    pub dim: u8,
    pub level: u8,
    pub concept: ConceptId,
    pub kept: u8,
}

ghost use Rattle.hierarchy_split.specs.declared.head_cut.HeadCut.{HeadCut};
ghost use Rattle.hierarchy_split.specs.Head.{GroupItems, is_kept, kept_places, parted_places, IsBetterHead, IsGoodHeadCut};
ghost use Rattle.hierarchy_split.specs.Best.{IsBestWith, IsBetterOf, IsUncrossed, IsFlaggedAt};

impl HeadCut {
    /// A law of head cuts, with no code: a group has one good head cut at most.
    pub fn laws(h: &Hierarchy)
        ensures { (items : GroupItems) (cut other : HeadCut) → IsGoodHeadCut h.now items cut
            → IsGoodHeadCut h.now items other → cut ≡ other }
    {}

    /// Whether it keeps an item of the head.
    fn keeps(&self, h: &Hierarchy, set: &DescSet) -> bool
        requires dim { self.now.dim < length h.now }
        requires set { IsDescSetOf h.now set.now }
        requires level { self.now.level ≤ (part_at set.now self.now.dim).level }
        ensures { result ≡ is_kept h.now self.now set.now }
    {
        least(set, h, self.dim, self.level) == self.concept
    }

    /// The places of the items of a head that it keeps, and those of the others, each in their order.
    /// Takes no memory.
    pub fn parts(&self, head: &[DescSet], h: &Hierarchy) -> (Places, Places)
        requires few { length head.now ≤ most_items }
        requires head { All (IsDescSetOf h.now) head.now }
        requires dim { self.now.dim < length h.now }
        requires level { IsAbove head.now self.now.dim self.now.level }
        ensures kept { result.0.items ≡ kept_places h.now head.now self.now }
        ensures parted { result.1.items ≡ parted_places h.now head.now self.now }
        ensures order { IsPermutation (range_with_len 0 (length head.now)) (result.0.items ++ result.1.items) }
    {
        let mut kept = ArrayVec::new();
        let mut parted = ArrayVec::new();
        for (place, set) in head.iter().enumerate() {
            if self.keeps(h, set) {
                kept.push(place as u8);
            } else {
                parted.push(place as u8);
            }
        }
        (kept, parted)
    }
}

/// Whether a cut comes before another one.
fn comes_first(cut: &HeadCut, other: &HeadCut) -> bool
    ensures yes { OnTrue result (IsBetterHead cut.now other.now) }
    ensures no { OnFalse result (IsBetterHead other.now cut.now) }
{
    if cut.kept != other.kept {
        return cut.kept > other.kept;
    }
    if cut.level != other.level {
        return cut.level < other.level;
    }
    if cut.dim != other.dim {
        return cut.dim < other.dim;
    }
    cut.concept < other.concept
}

/// Whether the first one of two cuts comes first, or the second one is none.
fn is_first(one: &Option<HeadCut>, two: &Option<HeadCut>) -> bool
    ensures yes { OnTrue result (IsBetterOf one.now two.now one.now) }
    ensures no { OnFalse result (IsBetterOf one.now two.now two.now) }
{
    match two {
        None => true,
        Some(b) => match one {
            None => false,
            Some(a) => comes_first(a, b),
        },
    }
}

/// The one of two cuts that comes first, where there are any.
pub fn better(one: Option<HeadCut>, two: Option<HeadCut>) -> Option<HeadCut>
    ensures { IsBetterOf one two result }
{
    if is_first(&one, &two) { one } else { two }
}

/// How many of the least concepts are this one.
fn kept_count(leasts: &[ConceptId], concept: ConceptId) -> u8
    requires few { length leasts.now ≤ most_items }
    ensures value { result ≡ count_by (λ x. x == concept) leasts.now }
    ensures fits { result ≤ length leasts.now }
{
    let mut count = 0;
    for least in leasts {
        if *least == concept {
            count += 1;
        }
    }
    count
}

/// Whether no item with this least concept is crossed.
fn is_uncrossed(leasts: &[ConceptId], crossed: &[bool], concept: ConceptId) -> bool
    requires crossed { length crossed.now ≡ length leasts.now }
    ensures { IsTrue result ↔ IsUncrossed leasts.now crossed.now concept }
{
    for (i, least) in leasts.iter().enumerate() {
        if *least == concept && crossed[i] {
            return false;
        }
    }
    true
}

/// The head cut of a concept, if it is good.
fn good_cut(
    dim: u8,
    level: u8,
    leasts: &[ConceptId],
    crossed: &[bool],
    concept: ConceptId,
) -> Option<HeadCut>
    requires few { length leasts.now ≤ most_items }
    requires crossed { length crossed.now ≡ length leasts.now }
    ensures concept { IfSome result (λ cut. cut.concept ≡ concept) }
    ensures good { IfSome result (IsFlaggedAt dim level leasts.now crossed.now) }
    ensures none { IfNone result ((cut : HeadCut)
        → cut.concept ≡ concept → ¬ IsFlaggedAt dim level leasts.now crossed.now cut) }
{
    let n = leasts.len() as u8;
    let kept = kept_count(leasts, concept);
    if 3 * kept < n || kept == n || !is_uncrossed(leasts, crossed, concept) {
        return None;
    }
    Some(HeadCut {
        dim,
        level,
        concept,
        kept,
    })
}

/// The good head cut of a level that comes first.
pub fn best_at(dim: u8, level: u8, leasts: &[ConceptId], crossed: &[bool]) -> Option<HeadCut>
    requires few { length leasts.now ≤ most_items }
    requires crossed { length crossed.now ≡ length leasts.now }
    ensures { IsBestWith (IsFlaggedAt dim level leasts.now crossed.now) result }
{
    let mut best = None;
    for concept in leasts {
        best = better(best, good_cut(dim, level, leasts, crossed, *concept));
    }
    best
}
