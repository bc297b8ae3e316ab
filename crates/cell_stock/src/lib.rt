//! The stock of free cells, stamps and shard ids, and the purse in which an actor carries what it took of
//! them.
//!
//! `Stock::take` moves free cells into the purse, each with a stamp that was not given out before, or answers
//! `None` exactly where fewer are free (`none`), and changes nothing then (`unchanged`). `give` takes back
//! all spares of a purse, and `put` one cell: both ask that what comes back is out (`AreOut`, `IsOut`).
//! `shard_ids` gives out ids from the next one on, none twice. `laws` has that what is taken is fresh, and
//! that what is out stays out while the purse takes more and when it gives its own back. Each free cell is
//! one of the stock, and is free once (`IsStock`).
//!
//! Only `Stock::new`, `Stock::over` and `Purse::reserve` take memory; `take` asks the purse for room, and
//! counts of stamps and ids that end are ruled out by what the calls ask.
#![tactic(auto)]

mod purse;
mod stock;

pub use purse::{Purse, Spare};
pub use stock::{Stock, laws};
