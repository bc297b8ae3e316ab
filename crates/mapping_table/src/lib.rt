//! The table of one worker: where the id of a shard leads.
//!
//! A `MapTable` is a finite map from shard ids to a `Where`: the gate in a cell, left or right of a plane to
//! one of two shards, or another worker. `look` lends what an id leads to, and answers `None` for one that
//! was never set; `set` puts a place in, instead of the one before (`ok`), and `forget` takes an id out.
//!
//! Only a `set` of an id that led nowhere takes memory; where it finds none, the table is as it was (`err`,
//! `known`). That what it says of shards is so is not said here, but by the invariant of the core in
//! `volap_cell`.
#![tactic(auto)]

mod map_table;
mod place;

pub use map_table::MapTable;
pub use place::Where;
