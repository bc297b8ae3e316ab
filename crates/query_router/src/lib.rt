//! A server's desk: the parts of the one command that a server does at a time, as they go from worker to
//! worker.
//!
//! A `Desk` is the number of its command, the list of its parts, and how many sessions are counted in. `put`
//! lays a command on the empty desk and `clear` takes it off, when no part waits or is taken. `take` hands a
//! waiting part out and `set` puts one back in the place of a taken one; `expand` puts two there, and is the
//! only call that may find no memory: then nothing changes (`err`). `ready` and `first_waiting` tell which
//! part waits, and `taken` where a taken one stands.
//!
//! `answer` tells nothing while a part waits or is taken; then, in this order, that a part found no memory,
//! that a row has its place, or the join of what the parts have read (`verdict_of` in `specs/Desk.antt`).
#![tactic(auto)]

mod desk;
mod part;

pub use desk::Desk;
pub use part::{Part, PartState, Verdict, Want};
