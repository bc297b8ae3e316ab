//! Laws of the transfer text, with no code.
ghost use Rattle.std.specs.Prelude.{◌≡◌, ◌<◌, ℕ, List, [], ◌++◌, length, Ok, All};
ghost use Rattle.dim_hierarchy.specs.Dimension.{Dimension, IsHierarchy};
ghost use Rattle.dim_hierarchy.specs.declared.row.Row.{Row};
ghost use Rattle.shard_codec.specs.Reading.{decoded};
ghost use Rattle.shard_codec.specs.Spelled.{AreOfFormat, AreSpelled};
ghost use Rattle.shard_codec.specs.Wire.{wire};

/// What is written is read again, and bytes that are read are the text of the rows that they give.
/// Rows of a hierarchy are rows of the format. Of all rows of the format, whatever hierarchy they are of,
/// different lists have different texts, and no text is a proper prefix of another one.
pub fn text_laws()
    ensures again { (h : List Dimension) (rows : List Row) → AreSpelled h rows → decoded h (wire (length h) rows) ≡ Ok rows }
    ensures text { (h : List Dimension) (bytes : List ℕ) (rows : List Row) → IsHierarchy h → All (λ b. b < 256) bytes
        → decoded h bytes ≡ Ok rows → bytes ≡ wire (length h) rows }
    ensures spelled { (h : List Dimension) (bytes : List ℕ) (rows : List Row) → IsHierarchy h → All (λ b. b < 256) bytes
        → decoded h bytes ≡ Ok rows → AreSpelled h rows }
    ensures format { (h : List Dimension) (rows : List Row) → AreSpelled h rows → AreOfFormat (length h) rows }
    ensures distinct { (dims more : ℕ) (xs ys : List Row) → AreOfFormat dims xs → AreOfFormat more ys
        → wire dims xs ≡ wire more ys → (dims ≡ more) × (xs ≡ ys) }
    ensures no_prefix { (dims more : ℕ) (xs ys : List Row) (rest : List ℕ) → AreOfFormat dims xs → AreOfFormat more ys
        → wire more ys ≡ wire dims xs ++ rest → rest ≡ [] }
{}
