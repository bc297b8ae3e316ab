//! An actor at its seat: the turns that it takes and gives back, what it sees in the cells that it holds, and
//! one step of any kind over them, with or without an event of the history.
//!
//! A `Player` is an actor with its seat, over the `Floor` that all share; between steps it `Stands`: it holds
//! just the cell that its actor must keep. `take` waits for one more cell, in the order of ranks (`rank`).
//! `try_take` asks for no order and waits for nobody; where it goes without, it tells the word that it read
//! (`busy`, `read`). At most 7 cells are held.
//!
//! `make` makes a step over the held cells and gives back all but the one to keep: it is the step defined, and
//! counted (`made`), or, where memory is wanting, actor, count and history are as before (`same_actor`,
//! `uncounted`, `same_seen`). `make_booked` waits for the ledger last and adds an event (`booked`). That a wait
//! ends is not proved.
#![tactic(auto)]

mod booked;
mod floor;
mod looks;
mod made;
mod takes;

pub use booked::{LEDGER, make_booked, take_first};
pub use floor::{Floor, Player};
pub use looks::{Lead, is_leaf_at, lead_at, may_enter_at};
pub use made::make;
pub use takes::{give_all, take, try_take};

// What is passed on of the libraries below.
pub mod of_shard_store {
    pub use core_due::shard_store::{Phase, Queue};
}

pub mod of_volap_cell {
    pub use core_due::volap_cell::{
        Actor, Balance, Building, Cell, Command, Errand, Role, RoleList, Stage, State, Task, Way,
        Work, there,
    };
}

pub mod of_core_steps {
    pub use core_due::core_steps::{
        BeginStep, BookStep, CellStep, CountStep, JobStep, NoteStep, PartStep, ReuseStep, RowStep,
        TreeStep, desk_place, image_place, ledger_place, registry_place, stock_place,
    };
}

pub mod of_volap_turns {
    pub use volap_turns::{Volap, close, open, opening_is_whole, step};
}

pub mod of_core_due {
    pub use core_due::{
        WorkDue, desk_at, is_spent, last_noted, last_spare, last_two, map_at, next_of, parts_due,
        parts_prepared, tell_bytes, works_can_be_made,
    };
}
