//! The cut order of items, and the place of a cut in it.
ghost use Rattle.std.specs.Prelude.{◌≡◌, ◌-◌, ◌<◌, ◌≤◌, ◌↔◌, ℕ, length, slice_index, All, IsTrue, IfSome, IfNone};
ghost use Rattle.hierarchy_split.specs.Order.{IsOrder, IsBetween, distance, IsPlace};
ghost use Rattle.hierarchy_split.specs.Limits.{most_items};

use crate::limits::MOST_ITEMS;
use arrayvec::ArrayVec;
use dim_hierarchy::ConceptId;

/// Where a place goes in an order of lower places: behind those whose concepts are not higher.
fn spot(order: &[u8], leasts: &[ConceptId], place: u8) -> usize
    requires place { place < length leasts.now }
    requires order { All (λ i. i < length leasts.now) order.now }
    ensures within { result ≤ length order.now }
    ensures before { 0 < result
        → slice_index leasts.now (slice_index order.now (result - 1)) ≤ slice_index leasts.now place }
    ensures after { (k : ℕ) → result ≤ k → k < length order.now
        → slice_index leasts.now place < slice_index leasts.now (slice_index order.now k) }
{
    let least = leasts[usize::from(place)];
    let mut at = order.len();
    while at > 0 && least < leasts[usize::from(order[at - 1])] {
        at -= 1;
    }
    at
}

/// The places of the items by their least concepts, ties by place.
pub fn order(leasts: &[ConceptId]) -> ArrayVec<u8, MOST_ITEMS>
    requires { length leasts.now ≤ most_items }
    ensures { IsOrder leasts.now result.items }
{
    let mut order = ArrayVec::new();
    for place in 0..leasts.len() as u8 {
        let at = spot(order.as_slice(), leasts, place);
        order.insert(at, place);
    }
    order
}

/// How far the two sides of a cut at k are from having as many items.
fn distance(n: u8, k: u8) -> u8
    requires n { n ≤ most_items }
    requires k { k ≤ n }
    ensures { result ≡ distance n k }
{
    (2 * k).abs_diff(n)
}

/// Whether the items before and after the cut have different least concepts.
fn is_between(leasts: &[ConceptId], order: &[u8], k: u8) -> bool
    requires above { 0 < k }
    requires below { k < length order.now }
    requires order { All (λ i. i < length leasts.now) order.now }
    ensures { IsTrue result ↔ IsBetween leasts.now order.now k }
{
    let k = usize::from(k);
    leasts[usize::from(order[k - 1])] != leasts[usize::from(order[k])]
}

/// Where the cut nearest to the middle lies, the lower one of two. There is none where all items
/// have the same least concept.
pub fn cut_place(leasts: &[ConceptId], order: &[u8]) -> Option<u8>
    requires few { length leasts.now ≤ most_items }
    requires order { IsOrder leasts.now order.now }
    ensures some { IfSome result (IsPlace leasts.now order.now) }
    ensures none { IfNone result ((k : ℕ) → ¬ IsBetween leasts.now order.now k) }
{
    let n = order.len() as u8;
    let mut best = None;
    for k in 1..n {
        if is_between(leasts, order, k) && is_nearer(n, k, best) {
            best = Some(k);
        }
    }
    best
}

/// Whether a cut at k is nearer to the middle than the best one so far, if there is one.
fn is_nearer(n: u8, k: u8, best: Option<u8>) -> bool
    requires n { n ≤ most_items }
    requires k { k ≤ n }
    requires best { IfSome best (λ b. b ≤ n) }
    ensures some { IfSome best (λ b. IsTrue result ↔ (distance n k < distance n b)) }
    ensures none { IfNone best (IsTrue result) }
{
    match best {
        Some(b) => distance(n, k) < distance(n, b),
        None => true,
    }
}
