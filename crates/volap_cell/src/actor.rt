//! Who makes the steps.
use crate::boxes::Boxes;
use crate::command::Command;
use crate::errand::Errand;
use crate::gone_gates::GoneGates;
use crate::job::Job;
use crate::role::{Role, RoleList};
use cell_stock::Purse;
use dim_hierarchy::Hierarchy;
use row_ledger::Use;
use std::snapshot::Snapshot;

/// What a core is about: its dimensions, its settings, and what its actors are there for. Takes no bytes: only
/// clauses read it.
#[derive(Drop)]
pub struct About {
    pub hierarchy: Snapshot<Hierarchy>,
    pub with: Snapshot<Use>,
    pub roles: Snapshot<RoleList>,
}

/// Who makes the steps. What it holds is its own: no other actor sees it.
#[derive(Drop)]
pub struct Actor {
    /// Its number among all actors, which is the session of the commands that it begins.
    pub number: u16,
    pub role: Role,
    pub about: About,
    /// How many events it has seen of the history.
    pub seen: u64,
    /// Whether it is counted in at the desk of its server.
    pub counted: bool,
    /// Its spare cells.
    pub purse: Purse,
    pub boxes: Boxes,
    pub command: Option<Command>,
    pub errand: Option<Errand>,
    pub job: Option<Box<Job>>,
    /// The administrator's: the gates that are gone, as long as their own cells are not free again.
    pub gone_gates: GoneGates,
    /// How many parts of its open command it has ended or sent on. No rule of the core reads or changes it: it is
    /// counted where each actor makes its steps by turns.
    pub went: u64,
}
