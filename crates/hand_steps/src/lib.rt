//! A hand at its seat: it looks at the desk of a server, and takes and does a part there that waits for its
//! worker.
//!
//! `serve_desk` looks at the desk of a server, takes the first part there that waits for the hand's worker,
//! if one does, and goes on with it until it ends. Behind it the hand does nothing again, all of it but its
//! purse and its rooms is as it was, an empty purse is empty, and what it has seen of the history only grows
//! (`served`, by `HasServed` of `specs/Hands.antt`). Where it answers `NoSession` its seat held the desk
//! meanwhile, and no session was counted there (`none` of `HasServed`).
//!
//! Of its other two answers no clause says anything: that a part was done is not proved. There is no error;
//! where memory is wanting the part ends with that.
#![tactic(auto)]

mod hands;
mod serves;

pub use hands::Found;
pub use serves::serve_desk;

// What is passed on of the libraries below.
pub mod of_volap_cell {
    pub use session_steps::of_volap_cell::{Cell, Role, RoleList, State};
}

pub mod of_seat_steps {
    pub use session_steps::of_seat_steps::Player;
}
