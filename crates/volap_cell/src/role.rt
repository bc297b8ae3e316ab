//! What actors are there for.
use dim_hierarchy::Items;

/// What an actor is there for.
#[derive(Clone, Copy, Debug, PartialEq, Eq)]
pub enum Role {
    /// Makes inserts and queries of a server, and is at their parts itself.
    Session { server: u8 },
    /// Is at the parts that wait for a worker.
    Hand { worker: u8 },
    /// Pulls for servers.
    Puller,
    /// Splits, moves and balances shards, and makes the commands that end a phase. There is one.
    Admin,
}

/// What each actor is there for, by their numbers.
pub type RoleList = Items<Role>;
