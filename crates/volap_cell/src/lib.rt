//! The cells and actors of the core, what each kind of step does to them, and what holds between steps.
//!
//! `specs/` says what each of the 28 kinds of step does to the cells that it holds and to its actor (`Does`),
//! and the invariant that every step is to keep (`InvWith`), by which the history is right. `open` gives the
//! `State` with which a core begins, one empty shard on each worker, or answers want of memory.
//!
//! The laws are functions without code. What a core begins with meets the invariant (`opening_holds`). In
//! each state that meets it a row whose insert began and did not fail has just one place
//! (`each_row_has_one_place`), each acknowledged row is in a shard that stands (`shards_have_the_rows`), each
//! row that a server must know lies in a box of its image (`images_cover`), and an open query counts rows
//! once (`queries_count_once`). That steps keep the invariant is proved in the crates of steps, beginning
//! with `core_tree`.
#![tactic(auto)]

mod actor;
mod boxes;
mod cell;
mod command;
mod errand;
mod fills;
mod gone_gates;
mod job;
mod kind;
mod laws;
mod lending;
mod opening;
mod plan;
mod role;
mod room;
mod state;
mod tags;

pub use actor::{About, Actor};
pub use boxes::Boxes;
pub use cell::Cell;
pub use command::{Balance, Command, Work};
pub use errand::{Errand, Reading, RowErrand, Task, Way, go_on};
pub use gone_gates::GoneGates;
pub use job::{Building, BuiltTree, Collecting, Frozen, Job, Stage, Unbuilt};
pub use kind::Kind;
pub use laws::{
    each_row_has_one_place, images_cover, opening_holds, queries_count_once, shards_have_the_rows,
};
pub use lending::{lent, row_in, there};
pub use opening::open;
pub use plan::ActionPlan;
pub use role::{Role, RoleList};
pub use room::NoteRoom;
pub use state::{State, lift_one, put_one};
pub use tags::{
    block_in, block_seen, desk_in, gate_in, gate_seen, image_in, ledger_in, map_in, owner_in,
    registry_in, stock_in,
};

// What stands below is passed on.
pub use shard_build;
pub use shard_build::{link_descent, shard_store, tree_shape};
