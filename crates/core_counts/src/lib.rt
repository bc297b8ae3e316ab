//! How often the parts of an open query may still go on or end, all together: laws of histories and of steps.
//!
//! Of parts whose lines are apart and whose shards were made, in a history whose events stand rightly
//! (`AreApart`, `specs/Ahead.antt`): all together they may go on or end no more often than once for each shard
//! that was ever made, twice for each split and once for each move (`most_ahead`, `parts_are_few_at_first`).
//! With a further event they may do so more often by no more than this bound grows (`an_event_adds_few`).
//!
//! Where a session counts the parts of its open query that it has ended or sent on itself, this number and
//! how often the parts on its desk may still go on or end are together within that bound (`IsCounting`,
//! `specs/Counting.antt`). Each step of anybody keeps that, and it holds where nobody has a command or a part
//! (`parts_stay_few`). Visits of blocks are not counted here. There is nothing to do at run time.
#![tactic(auto)]

mod laws;

pub use laws::{an_event_adds_few, parts_are_few_at_first, parts_stay_few};
