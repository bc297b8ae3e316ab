//! What a session does with its commands at its seat: how they begin, go on and end, and how it is counted at
//! its server's desk.
//!
//! `begin_insert` and `begin_query` push the event of the session with the arguments of the call as the
//! newest one (`begun`), `note_unknown` and `note_refused` that of a command that does not begin (`noted`).
//! Where no memory is found for it the session is as before. `go_on_with_command` goes one step further, or
//! ends the command with the newest event of a right history, in which the session has begun nothing else
//! (`comes`). It answers `Waits` where another session has the desk, or another actor a part.
//! By the end of a query no more parts of it were ended or sent on than there are shards, splits and moves
//! for (`few` in `HasEnded`).
//!
//! `come` and `leave` count the session at its desk, `hear` sees the whole history, `try_visit` visits a
//! block if its turn is free (`visited`, `busy`): these take no memory.
#![tactic(auto)]

mod begins;
mod books;
mod coming;
mod commands;
mod desks;
mod hears;
mod visits;

pub use begins::{Begun, begin_insert, begin_query, note_refused, note_unknown};
pub use coming::{come, empty_purse, leave};
pub use commands::{End, Next, go_on_with_command};
pub use hears::hear;
pub use visits::{noted_by, reserve_notes, take_waiting, try_visit};

// What is passed on of the libraries below.
pub mod of_volap_cell {
    pub use part_steps::of_volap_cell::{Actor, Cell, Role, RoleList, State, there};
}

pub mod of_core_steps {
    pub use part_steps::of_core_steps::{
        BookStep, CellStep, NoteStep, PartStep, ReuseStep, desk_place, image_place, ledger_place,
        registry_place, stock_place,
    };
}

pub mod of_volap_turns {
    pub use part_steps::of_volap_turns::{Volap, step};
}

pub mod of_core_due {
    pub use part_steps::of_core_due::{map_at, tell_bytes};
}

pub mod of_seat_steps {
    pub use part_steps::of_seat_steps::{
        Floor, LEDGER, Player, give_all, make, make_booked, take, take_first,
    };
}

pub mod of_part_steps {
    pub use part_steps::{Did, Steps, go_on_at_part};
}
