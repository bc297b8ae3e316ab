//! Totals of each concept of a level, read off a state of the core that is looked at one cell at a time.
//!
//! `group` gives the page of a filter, a dimension and one of its levels: ascending, the concepts of that
//! level that a matching row is under, each with the aggregate of these rows, and the aggregate of all that
//! match. The rows are those of the shards that stand (`page`); where nobody has anything to do, they are the
//! acknowledged ones (`acked`). The lines together are the aggregate of all (`joined`; `laws` for any rows).
//!
//! Where the set of a gate, a queue or an entry tells that all its rows match and are under one concept, its
//! aggregate is added to that concept's line and nothing beneath is looked at. So where the filter picks all
//! and the sets tell this of every shard, one look at each shard that stands is enough (`steps`). `group` asks
//! for a state that meets the invariant, with nobody at a part. It takes memory, and want of it is an error.
#![tactic(auto)]

mod answer;
mod asked;
mod found;
mod gates;
mod group_laws;
mod lines;
mod told;
mod walk;

pub use answer::group;
pub use group_laws::laws;
