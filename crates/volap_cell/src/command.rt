//! A command, and how far it has come.
use crate::plan::ActionPlan;
use dim_hierarchy::{Items, Row};
use row_ledger::Subject;
use shard_plan::{Action, Load};

/// A command that an actor has begun and not ended.
#[derive(Drop)]
pub struct Command {
    /// The position of the event that began it.
    pub of: u64,
    pub work: Work,
}

/// What a command is, by its class, and how far it has come.
#[derive(Drop)]
pub enum Work {
    /// Its row, and whether a part for it was put on the desk.
    Insert {
        row: Row,
        routed: bool,
    },
    Query,
    /// Whether the server has pulled.
    Sync {
        server: u8,
        pulled: bool,
    },
    /// How many pulls were made, of two for each server.
    Settle {
        pulls: u16,
    },
    /// It does nothing, and ends at once.
    Bare,
    /// A page, whether what it is of was there when the command began, and whether it was shown.
    Page {
        subject: Subject,
        there: bool,
        shown: bool,
    },
    /// A split or a move is at work as long as its actor has a job; without one its shard, or the worker
    /// that it was to go to, did not stand when it began.
    Action(Action),
    Balance(Balance),
}

/// How far a balance has come.
#[derive(Drop)]
pub struct Balance {
    /// How many actions it may plan.
    pub most: u8,
    /// The shards that stood when it began, with their workers; of the first ones the rows were read.
    pub loads: Items<Load>,
    /// Of how many of them.
    pub read: u32,
    /// The same shards with the workers to which this balance has moved them.
    pub standing: Items<Load>,
    /// What is planned, once all rows were read; it has the room for that from the beginning on.
    pub plan: ActionPlan,
    /// How many actions are over, and how many of these were done.
    pub over: u8,
    pub done: u8,
}
