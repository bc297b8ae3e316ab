//! Pages of the core's shards, read off cells that are looked at one at a time.
//!
//! `Cells` lends one cell at a time of a state that stays as it was (`same`). `tree_page_at` gives the page
//! of the tree of the shard whose gate is in a cell: it tells of exactly the rows that the shard has, its
//! height is the gate's, and its lines are those of the blocks, group by group (`page`, by `SeesTree` of
//! `volap_cell`; `shard`). `shards_page` gives the page of the shards that stand, and `audit_page` that of
//! all rows (`page` of each). `page_of` does the same for any gate and any blocks (`ShowsTree`,
//! `specs/Still.antt`).
//!
//! All but `page_of` ask for a state that meets the invariant, and for one in which nobody is at a part.
//! Pages of trees and of shards take memory for their lines, and want of it is an error; an audit takes none.
#![tactic(auto)]

mod audits;
mod group;
mod leads;
mod looks;
mod shards;
mod trees;
mod walk;

pub use audits::audit_page;
pub use group::{Entries, Group, Keep, group_of};
pub use leads::{led_at, spot_count};
pub use looks::{Cells, Lent};
pub use shards::shards_page;
pub use trees::tree_page_at;
pub use walk::page_of;

// What stands below is passed on.
pub use core_image::{link_descent, shard_build, shard_store, tree_shape, volap_cell};
