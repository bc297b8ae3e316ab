//! What the actors of a script's run are there for.
//!
//! `script_roles` lists them for the settings of a script (`value`; `roles_of` in `specs/Roles.antt`): first
//! a session for each server, in the order of their numbers, then a puller, then the administrator, and then
//! the hands of each worker, as many as a worker has threads. The place of an actor in the list is its
//! number, so a session has that of its server.
//!
//! The actors are fewer than 2^16, for all settings (`few`). The list takes memory, and want of it is the
//! only error. Who makes these actors work, and on which threads, is said in `seeded_run` and `threaded_run`.
#![tactic(auto)]

mod listing;

pub use listing::script_roles;

// What stands below is passed on.
pub use volap_cell;
