//! The steps of the administrator: a balance reads loads and plans; a shard is frozen, its rows are
//! collected, new trees are built, and new gates take its place.
//!
//! Of each step `made` says what it says in `core_tree`: the step is the one defined, and from every state
//! that meets the invariant it leads to one that does; where memory is wanting nothing changes but rooms
//! (`refused`). `freeze` freezes a shard or declines that; `drained` goes on when no insert is in its tree;
//! `collect_block` and `collect_row` read it, `build_trees` makes the new trees, for a move by way of the
//! transfer text, and `build_block` puts them into cells. `finish_move`, `finish_here` and `finish_split` put
//! new gates in the place of the old one, the last unless two ids are wanting; `postpone` gives a job up,
//! whose shard stays frozen. `read_load` reads a load, and plans with the last one. `reuse_block` and
//! `reuse_gate` give cells of a gate that is gone back, where no query is pinned to it. `drained`,
//! `build_block`, `postpone`, `read_load` and the two of reuse take no memory.
#![tactic(auto)]

mod builds;
mod collects;
mod finishes;
mod freezes;
mod loads;
mod reuses;
mod splits;
mod trees;

pub use builds::{build_block, postpone};
pub use collects::{collect_block, collect_row};
pub use finishes::{finish_here, finish_move};
pub use freezes::{drained, freeze};
pub use loads::read_load;
pub use reuses::{reuse_block, reuse_gate};
pub use splits::finish_split;
pub use trees::build_trees;

// What stands below is passed on.
pub use core_image;
pub use core_tree;
