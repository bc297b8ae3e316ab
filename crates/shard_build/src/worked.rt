//! A worked case: how many items the blocks of a small tree have.
ghost use Rattle.std.specs.Prelude.{◌≡◌, [], ◌∷◌};
ghost use Rattle.shard_build.specs.Sizes.{built_sizes};

/// A tree of 25 rows has a leaf of 24 rows and a leaf of one row, under a root of two entries.
pub fn sizes_of_25_rows()
    ensures { built_sizes 25 ≡ 24 ∷ 1 ∷ 2 ∷ [] }
{}
