//! Aggregates of rows: count, sum, least and greatest.
//!
//! `Agg::one`, `of_rows` and `join` are the definitions `one`, `agg` and `join` of `specs/Aggregate.antt`,
//! and `count`, `sum`, `least` and `greatest` read a field each; the last two are `None` where there is no
//! row. `laws` has that `agg` takes two lists one behind the other to `join` (`append`), that it does not
//! depend on the order of the rows (`order`), and that `join` is associative and commutative with the
//! aggregate of no row as its neutral element (`associative`, `commutative`, `empty_left`, `empty_right`).
//!
//! An `Agg` always has fewer than 2^63 rows, so its sum never overflows; `join` asks for that of both
//! together. No call fails or takes memory.
#![tactic(auto)]

mod agg;

pub use agg::{Agg, laws};
