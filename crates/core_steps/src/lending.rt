//! Cells that are lent where they stand.
ghost use Rattle.std.specs.Borrow.{sem, LendsBoth, Array};
ghost use Rattle.std.specs.Prelude.{◌≡◌, ◌≢◌, ◌<◌, length, slice_index_or, slice_set};

/// Two places.
pub(crate) fn lend_two<T>(places: &mut [T], a: usize, b: usize) -> (&mut T, &mut T)
    requires a { a < length places.old }
    requires b { b < length places.old }
    requires apart { b ≢ a }
    ensures* writes_back { sem 𝓛 (LendsBoth (Array T.row 0) T.row T.row places.entry result (λ x y. slice_set (slice_set places.old a x) b y)) }
    ensures first { result.0.now ≡ slice_index_or places.old a result.0.now }
    ensures second { result.1.now ≡ slice_index_or places.old b result.1.now }
{
    if a < b {
        let (low, high) = places.split_at_mut(b);
        (&mut low[a], &mut high[0])
    } else {
        let (low, high) = places.split_at_mut(a);
        (&mut high[0], &mut low[b])
    }
}
