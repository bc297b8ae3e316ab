//! Hands of a hall: each does the parts that wait for its worker, on a thread of its caller, until no session
//! is left.
//!
//! `Hand::new` makes a hand of a pass of the hall whose role is that of a hand, and `end` gives the pass back
//! (`made`, `of`). `serve` goes round the desks of all servers. What the hand had seen is a part of what it
//! has seen then, the hand has begun nothing, and its seat held the desk of each server in this call at a
//! time at which no session was counted there (`served`, by `HasServedAll` of `specs/Hands.antt`).
//!
//! That it does any part, and that it returns, is not proved. While it finds a session and no part it sleeps,
//! until the bell of its worker is rung. There is no error.
#![tactic(auto)]

mod hand;
mod rounds;

pub use hand::Hand;

// What is passed on of the libraries below.
pub mod of_volap_cell {
    pub use hand_steps::of_volap_cell::{Cell, Role, RoleList, State};
}

pub mod of_seat_steps {
    pub use hand_steps::of_seat_steps::Player;
}

pub mod of_whole_steps {
    pub use actor_run::of_whole_steps::{Paged, Settled};
}

pub mod of_actor_run {
    pub use actor_run::{Asked, Hall, Inserted, Pass, Passes, Session, Steps, TreeFault};
}
