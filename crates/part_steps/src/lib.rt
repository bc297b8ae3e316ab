//! How an actor goes on with a part at its seat: each step over the turns of just the cells that it needs.
//!
//! `go_on_at_part` waits for the turns of the cells of one step and makes it. All of the actor but its part,
//! its purse and its rooms is as it was, it keeps no cell that it need not, what it has seen of the history
//! only grows, and a part that it ends or sends on is counted. A part of a query over everything ends, is
//! sent on or reads its gate and notes no block; then it ends (`went`). There is no error: where memory is
//! wanting the part ends with that. `Did` tells whether a block was visited or the part has ended.
//!
//! The steps of a query are counted in the `Steps` that are lent: takes of the turn of a table, a gate or a
//! block, and tests of rows. They are never lowered. For a part of a query over everything they are two at
//! most up to its gate or its desk, and none behind the gate where it has noted no block (`costs`). No bound
//! is proved of other queries, nor that a wait for a turn ends.
#![tactic(auto)]

mod counts;
mod heads;
mod parts;
mod rows;
mod steps;

pub use parts::{Did, go_on_at_part};
pub use steps::Steps;

// What is passed on of the libraries below.
pub mod of_link_descent {
    pub use link_descent::MOST_NOTED;
}

pub mod of_volap_cell {
    pub use seat_steps::of_volap_cell::{
        Actor, Cell, Command, Errand, Role, RoleList, State, Task, Work, there,
    };
}

pub mod of_core_steps {
    pub use seat_steps::of_core_steps::{
        BeginStep, BookStep, CellStep, CountStep, NoteStep, PartStep, ReuseStep, TreeStep,
        desk_place, image_place, ledger_place, registry_place, stock_place,
    };
}

pub mod of_volap_turns {
    pub use seat_steps::of_volap_turns::{Volap, step};
}

pub mod of_core_due {
    pub use seat_steps::of_core_due::{
        WorkDue, is_spent, last_noted, map_at, parts_due, parts_prepared, tell_bytes,
        works_can_be_made,
    };
}

pub mod of_seat_steps {
    pub use seat_steps::{
        Floor, LEDGER, Player, give_all, make, make_booked, take, take_first, try_take,
    };
}
