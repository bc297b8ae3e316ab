//! What one step of the core tells the history, and how far open commands have pulled: laws of any two states
//! with a step between them.
//!
//! A step of any kind tells the history nothing, or one of the things that its actor's command comes to next
//! (`told` of `steps_tell_so`), and all other actors stay as they are (`others`).
//!
//! While a sync or a settle is open, and no other command that pulls was open when it began or has begun
//! since, the servers that were pulled for since it began are those that its actor has noted (`IsPulling`).
//! Each step between two states that meet the invariant keeps that (`pulls_go_on`), and it holds where nobody
//! has a command (`opening_has_pulled`). So such a command ends with the pulls that it was to make
//! (`ends_have_pulls`). Of commands that pull at the same time nothing is said. There is nothing to do at run
//! time.
#![tactic(auto)]

mod laws;

pub use laws::{ends_have_pulls, opening_has_pulled, pulls_go_on, steps_tell_so};

// What stands below is passed on.
pub use volap_cell;
