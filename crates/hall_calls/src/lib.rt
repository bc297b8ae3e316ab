//! Sessions of a hall on threads of their own, as examples of calls.
//!
//! `insert_and_ask` inserts rows at two places in turn, and then asks: what it tells stands in the history
//! that its session has seen, as many different rows of its own and its answer, which counts them (`told`).
//! `count_on_two_threads` opens a hall with a session of each of two servers, has both do this at the same
//! time, and closes it: the history of the state that is left is right, and has what both tell (`both`).
//!
//! Two tests insert 100 rows by each session: each answer is of at least 100 rows and at most 200, and the
//! steps of a query for all rows are at most 4. A third asks for the rows of each of two towns, and of a ware
//! that is not known. That a call returns is tested only.
#![tactic(auto)]

#[cfg(test)]
mod group_tests;
#[cfg(test)]
mod tests;
mod two;
mod work;

pub use two::count_on_two_threads;
pub use work::{Places, Told, insert_and_ask};

// What is passed on of the libraries below.
pub mod of_volap_cell {
    pub use actor_run::of_volap_cell::{Cell, Role, RoleList, State};
}

pub mod of_actor_run {
    pub use actor_run::{Asked, Hall, Inserted, Pass, Passes, Session, Steps};
}
