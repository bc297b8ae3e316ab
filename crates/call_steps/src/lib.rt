//! Commands that are called, at the seat of the actor that makes them: how they begin, how servers pull for
//! them, and how they end.
//!
//! A puller calls pulls, a session those of its own server, and the administrator all others. Each of
//! `begin_call` (`begun`), `pull` (`pulled`), `leave_action` (`left`) and `end_call` (`ended`) is one step
//! that pushes one event, and waits for the ledger last. With that event the history that the actor has seen
//! is right, and the actor has begun nothing else in it. `sync` is a pull of one server as one call
//! (`synced`), which leaves the purse as it was (`purse`).
//!
//! Where `begin_call` or `pull` finds no memory, nothing changes (`same`); `end_call` and `leave_action` take
//! none. What other actors push meanwhile stands between these events.
#![tactic(auto)]

mod calls;
mod ends;
mod pulls;
mod syncs;

pub use calls::{asks_registry, begin_call};
pub use ends::{end_call, leave_action};
pub use pulls::pull;
pub use syncs::{Synced, sync};

// What is passed on of the libraries below.
pub mod of_core_steps {
    pub use session_steps::of_core_steps::{
        BookStep, CellStep, NoteStep, ReuseStep, image_place, ledger_place, registry_place,
        stock_place,
    };
}

pub mod of_volap_turns {
    pub use session_steps::of_volap_turns::{Volap, step};
}

pub mod of_core_due {
    pub use session_steps::of_core_due::{map_at, tell_bytes};
}

pub mod of_seat_steps {
    pub use session_steps::of_seat_steps::{Floor, LEDGER};
}

pub mod of_part_steps {
    pub use session_steps::of_part_steps::{Did, Steps, go_on_at_part};
}

pub mod of_session_steps {
    pub use session_steps::{
        Begun, End, Next, begin_insert, begin_query, come, empty_purse, go_on_with_command, hear,
        leave, note_refused, note_unknown, noted_by, reserve_notes, take_waiting, try_visit,
    };
}
