//! The aggregate of rows.
ghost use Rattle.std.specs.Prelude.{◌≡◌, ◌+◌, ◌^◌, ◌<◌, ℤ, ◌≤ℤ◌, List, [], ◌++◌, MatchOption, All, Contains, IsPermutation};
ghost use Rattle.measure_agg.specs.Aggregate.{Aggregate, agg, lesser, greater, least_of, greatest_of};
ghost use Rattle.measure_agg.specs.Joining.{one, join};

use dim_hierarchy::{Measures, Row};
use std::marker::Model;

/// How many rows there are, the sum of their measures, and the least and the greatest of them, which
/// are missing where there is no row. There are fewer than 2^63 rows.
#[derive(Clone, Copy, Debug, Default, PartialEq, Eq)]
pub struct Agg {
    count: u64,
    sum: i128,
    least: Option<i64>,
    greatest: Option<i64>,
}

impl Model for Agg {
    ghost use Rattle.std.specs.Prelude.{◌*◌, ◌^◌, ◌<◌, pos, ◌+ℤ◌, ◌≤ℤ◌};
    ghost use Rattle.measure_agg.specs.Aggregate.{Aggregate};

    ghost Value = { Aggregate };

    ghost view = { λ a. record { count = a.count; sum = a.sum; least = a.least; greatest = a.greatest } };

    // A sum of that many measures lies between -2^63 and 2^63 for each of them, so it never overflows.
    ghost invariant = { λ a. (a.count < 2 ^ 63) × (a.sum ≤ℤ pos (a.count * 2 ^ 63)) × (pos 0 ≤ℤ (a.sum +ℤ pos (a.count * 2 ^ 63))) };

    ghost inverse = { λ v. record { count = v.count; sum = v.sum; least = v.least; greatest = v.greatest } };
}

impl Agg {
    /// The aggregate of no rows.
    pub const EMPTY: Agg = Agg {
        count: 0,
        sum: 0,
        least: None,
        greatest: None,
    };

    /// The aggregate of one row.
    pub fn one(measures: Measures) -> Agg
        ensures { result ≡ one measures }
    {
        Agg {
            count: 1,
            sum: i128::from(measures),
            least: Some(measures),
            greatest: Some(measures),
        }
    }

    /// The aggregate of a list of rows.
    pub fn of_rows(rows: &[Row]) -> Agg
        ensures { result ≡ agg rows.now }
    {
        let mut all = Agg::EMPTY;
        for row in rows {
            all = all.join(&Agg::one(row.measures));
        }
        all
    }

    /// The aggregate of the rows of both.
    pub fn join(&self, other: &Agg) -> Agg
        requires { self.now.count + other.now.count < 2 ^ 63 }
        ensures { result ≡ join self.now other.now }
    {
        Agg {
            count: self.count + other.count,
            sum: self.sum + other.sum,
            least: lesser(self.least, other.least),
            greatest: greater(self.greatest, other.greatest),
        }
    }

    /// How many rows there are.
    pub fn count(&self) -> u64
        ensures { result ≡ self.now.count }
    {
        self.count
    }

    /// The sum of the measures.
    pub fn sum(&self) -> i128
        ensures { result ≡ self.now.sum }
    {
        self.sum
    }

    /// The least measure, or `None` where there is no row.
    pub fn least(&self) -> Option<i64>
        ensures { result ≡ self.now.least }
    {
        self.least
    }

    /// The greatest measure, or `None` where there is no row.
    pub fn greatest(&self) -> Option<i64>
        ensures { result ≡ self.now.greatest }
    {
        self.greatest
    }
}

/// The laws of aggregates: `agg` takes `++` to `join`, under which aggregates are a commutative
/// monoid, and does not depend on the order of the rows.
pub fn laws()
    ensures append { (xs ys : List Row) → agg (xs ++ ys) ≡ join (agg xs) (agg ys) }
    ensures order { (xs ys : List Row) → IsPermutation xs ys → agg xs ≡ agg ys }

    ensures associative { (a b c : Aggregate) → join (join a b) c ≡ join a (join b c) }
    ensures commutative { (a b : Aggregate) → join a b ≡ join b a }
    ensures empty_left { (a : Aggregate) → join (agg []) a ≡ a }
    ensures empty_right { (a : Aggregate) → join a (agg []) ≡ a }

    // None exactly where there is no number, and else one of them.
    ensures least { (xs : List ℤ) →
        MatchOption (least_of xs) (xs ≡ []) (λ m. Contains xs m × All (λ x. m ≤ℤ x) xs) }
    ensures greatest { (xs : List ℤ) →
        MatchOption (greatest_of xs) (xs ≡ []) (λ m. Contains xs m × All (λ x. x ≤ℤ m) xs) }
{}

/// The lesser of two numbers, either of which may be missing.
fn lesser(a: Option<i64>, b: Option<i64>) -> Option<i64>
    ensures { result ≡ lesser a b }
{
    match (a, b) {
        (Some(x), Some(y)) => Some(x.min(y)),
        _ => a.or(b),
    }
}

/// The greater of two numbers, either of which may be missing.
fn greater(a: Option<i64>, b: Option<i64>) -> Option<i64>
    ensures { result ≡ greater a b }
{
    match (a, b) {
        (Some(x), Some(y)) => Some(x.max(y)),
        _ => a.or(b),
    }
}
