//! Steps at the seat that has all actors of a core: nobody else can push an event meanwhile, so the history
//! is known exactly, and once each cell was taken and given back the whole state is.
//!
//! After `look_round` the seat knows what is in each cell (`knows`). `begin_call`, `show` and `end_call` push
//! the newest events, with nothing between them (`begun`, `shown`, `ended`), and `note_unknown` that of a
//! command that does not begin (`noted`). `call_page` makes such a command whole, whose page is one of a state
//! that meets the invariant (`paged`); `call_barrier` (`done`) and `call_settle`, with two pulls of each
//! server (`settled`), are whole commands too. `reuse_all` uses all cells of gone gates again (`none`).
//! `lend_history` (`told`) and `copy_history` (`all`) give out the history.
//!
//! Where memory is wanting, a call has not begun, or ends with that. So does the page of a tree whose shard
//! does not stand. That a wait for a turn ends is not proved.
#![tactic(auto)]

mod adds;
mod calls;
mod copies;
mod histories;
mod looks;
mod pages;
mod reads;
mod reuses;
mod settles;
mod tells;
mod turns;

pub use calls::{begin_call, end_call, note_unknown, show};
pub use histories::copy_history;
pub use reads::{ReadsHistory, lend_history};
pub use reuses::reuse_all;
pub use settles::{Settled, call_settle};
pub use tells::{Paged, call_barrier, call_page, make_page};
pub use turns::{give_turns, look_round, take_turn};

// What is passed on of the libraries below.
pub mod of_volap_cell {
    pub use core_pages::volap_cell::{
        Actor, Cell, Command, Role, RoleList, State, Task, Work, open,
    };
}

pub mod of_volap_turns {
    pub use job_steps::of_volap_turns::{Volap, close, open, opening_is_whole};
}

pub mod of_seat_steps {
    pub use job_steps::of_seat_steps::{Floor, Player};
}

pub mod of_part_steps {
    pub use call_steps::of_part_steps::{Did, Steps, go_on_at_part};
}

pub mod of_session_steps {
    pub use call_steps::of_session_steps::{
        Begun, End, Next, begin_insert, begin_query, come, empty_purse, go_on_with_command, hear,
        leave, note_refused, note_unknown, noted_by, reserve_notes, take_waiting, try_visit,
    };
}

pub mod of_call_steps {
    pub use call_steps::{Synced, begin_call, end_call, leave_action, sync};
}
