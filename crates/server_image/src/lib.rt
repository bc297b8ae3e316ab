//! Which shards there are and where their rows lie: the registry, which knows it, and the image that a server
//! has of it, by which it routes rows and plans queries between its pulls.
//!
//! A `Registry` has the shards without successors by ascending id (`spots`), each with its worker and a box;
//! `split` puts two in the place of one, `rehost` gives one to another worker. `Image::route` is the shard
//! whose box a row grows least, then the smallest box, then the lowest id (`IsRoute`); `plan` gives those
//! whose boxes overlap a filter, in order. `begin` owes an acknowledgement, and `acked` then grows the box
//! and notes the growth, without memory.
//!
//! `sync` pushes what grew to the registry and lists what stands (`IsSynced`); where it finds no memory
//! neither of the two has changed (`err`, `registry_err`). That pulls share one listing is only tested.
#![tactic(auto)]

mod image;
mod rank;
mod registry;
mod spots;

pub use image::{Growth, Image};
pub use registry::Registry;
