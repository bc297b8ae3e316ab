//! When sessions that run at once have made a run: each tells of its own calls alone, what its history was
//! before and after them, and from that follows what holds of the history at the end.
//!
//! A call tells where its command began in what its session has seen, that the session began no other
//! meanwhile, that the command is over, and how often it pulled if it pulled alone (`DoesCommand`,
//! `specs/Sessions.antt`). From that the laws of `laws` follow: where each session did its commands of a
//! phase the history is through with them (`sessions_do_their_commands`, `phases_are_done`), with all phases
//! it is a run of the script (`scripts_are_run`), and where sessions stop it is a part of one
//! (`sessions_that_stop_make_a_part`).
//!
//! All of it asks for a right history. There is nothing to do at run time.
#![tactic(auto)]

pub mod laws;
pub mod worked;
