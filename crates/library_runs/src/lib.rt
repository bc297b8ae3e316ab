//! Small callers of whole runs, as examples of how these are used: an index for one thread, and a script from
//! its bytes to the bytes of its answers.
//!
//! An `Index` does rows and questions one after the other. `insert` and `query` do just that command (`done`,
//! `held`); `events` gives a right history that is a serial run of just these commands, in which each answer
//! is the aggregate of all matching rows acknowledged before its query (`right`, by `IsRightIndex`). `insert`
//! tells the first dimension whose name is not that of a leaf concept (`unknown`). `row` and `under` make
//! names of texts. `run_text` runs a script by `olap`, and gives its text with the history (`done`).
//!
//! `insert` and `query` take the index: where memory is wanting, it is lost. Only tests call them.
#![tactic(auto)]

mod index;
mod names;
mod text;

pub use index::Index;
pub use names::{RowFault, row, under};
pub use text::{Answered, run_text};

// What is passed on of the libraries below.
pub mod of_volap_cell {
    pub use olap_top::of_volap_cell::{
        Actor, Boxes, Cell, Kind, Role, RoleList, State, lift_one, open, put_one,
    };
}

pub mod of_seeded_run {
    pub use olap_top::of_seeded_run::{Move, Schedule, open_core, run_by_hand, run_phase};
}

pub mod of_olap_top {
    pub use olap_top::{Outcome, Status, olap};
}
