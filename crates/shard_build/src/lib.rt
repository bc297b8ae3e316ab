//! Bulk building: the tree of a shard from a list of rows, as a split and a move need it.
//!
//! `build` makes the tree of fewer than 2^40 rows (`ok`, `IsBuilt` in `specs/Built.antt`): as many blocks and
//! levels as `cells_for` and `levels_for` of `shard_plan` say, 24 rows in each leaf but the last and 12
//! entries in each parent but the last of its level. The leaves have the rows in order: by coordinate, then
//! by number. The entries of each level lead in order to the blocks of the level below, one to each, and each
//! block takes the last spare of the purse. Where the blocks stand in their cells, under a gate that leads to
//! the root, they are a tree of exactly these rows, none of them on its way.
//!
//! It asks for as many spares as blocks, and takes its memory first: where it finds none, the purse is as it
//! was (`err`). `sizes_of_25_rows` is a worked case.
#![tactic(auto)]

mod builder;
mod order;
mod site;
mod worked;

pub use builder::{Built, build};
pub use shard_plan::{cells_for, levels_for, split_need};
pub use worked::sizes_of_25_rows;

// What stands below is passed on.
pub use tree_shape;
pub use tree_shape::{link_descent, shard_store};
