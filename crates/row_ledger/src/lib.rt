//! The kept history: what happened, event by event, and when such a history is right.
//!
//! `Ledger` is the history that a run keeps: it only grows, `reserve` promises pushes and may find no memory,
//! and a promised `push` is never refused. It has room for fewer than 2^31 events, promised ones among them
//! (`few`). Contracts see the newest event first. `specs/Right.antt` says when a history is right.
//!
//! The laws are functions without code: what each kind of event changes (`events_change`), that the shards
//! that stand ascend and none comes from another (`frontier_ascends`, `live_shards_are_apart`), that what a
//! run keeps is right (`kept_is_right`), that a settled answer is the aggregate of all matching rows
//! acknowledged when its query began (`settled_is_all`), and what servers must know after a settle
//! (`settle_tells_all`). In `worked` and the modules beside it stand small histories that are right, or that
//! one change makes wrong.
#![tactic(auto)]

mod class;
mod event;
mod history;
pub mod laws;
mod ledger;
mod page;
mod settings;
pub mod settled;
pub mod worked;
pub mod worked_balance;
pub mod worked_pulls;
pub mod worked_script;
pub mod worked_shards;

pub use class::{Class, Subject};
pub use event::Event;
pub use history::History;
pub use ledger::Ledger;
pub use page::{
    AuditLine, GroupLine, GroupLines, GroupPage, NodeLine, NodeList, Page, ShardLine, ShardList,
    TreePage,
};
pub use settings::{Call, Decline, How, Use};
