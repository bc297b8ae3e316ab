//! Runs of a script: its phases and sessions, where its commands begin in a history, and when a history is a
//! run of them.
//!
//! A history is a run (`IsRunOf`, `specs/Runs.antt`) where each command has begun as it is to and has its
//! end, nothing else begins, a session begins one when the one before has ended, a command that closes its
//! phase begins when all others of it have ended, and pulls are those that a sync or a settle is to make.
//! `IsRunInto` is a part of one.
//!
//! `closes`, `phase_len`, `session_of` and `next_of` compute what the definitions say of phases and sessions.
//! `laws` says how a part of a run grows event by event, and that a command that closes its phase stands
//! alone (`closing_commands_stand_alone`); `worked` has a settle, right and wrong. Whether a history is right
//! is said elsewhere, in `row_ledger`.
#![tactic(auto)]

pub mod laws;
mod phases;
mod sessions;
pub mod worked;

pub use phases::{closes, phase_len};
pub use sessions::{SESSIONS, next_of, session_of};
