//! What all seats share, and an actor at its seat.
use core_due::volap_cell::Actor;
use dim_hierarchy::Hierarchy;
use row_ledger::Use;
use turn_table::{Seat, TurnTable};
use volap_turns::Volap;

/// What all seats of a core share: its dimensions, its settings, and its cells under turns.
#[derive(Drop)]
pub struct Floor {
    pub hierarchy: Hierarchy,
    pub with: Use,
    pub table: TurnTable<Volap>,
}

/// An actor at its seat, by its number among all actors.
#[derive(Drop)]
pub struct Player {
    pub number: u32,
    pub actor: Actor,
    pub seat: Seat<Volap>,
}
