//! The plan of a balance: which shards go from the fullest worker to the emptiest one, and which is split.
//!
//! `plan` gives, for the loads of the shards, the number of workers and at most so many actions, exactly the
//! plan of `specs/Balancing.antt` in `shard_plan`, or answers want of memory. `plan_into` gives the same in
//! an empty list that has room, and takes no memory; it changes the loads on the way. `move_shard` counts on
//! with a shard on another worker (`after_move`).
//!
//! All of it asks that the rows of all shards together are fewer than 2^63. It only plans: whether the
//! actions can be done is found by who does them.
#![tactic(auto)]

mod balance;
mod shards;
mod workers;

pub use balance::{move_shard, plan, plan_into};
pub use shard_plan::{Action, Load};
