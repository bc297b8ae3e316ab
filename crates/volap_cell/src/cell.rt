//! What a cell holds.
use cell_stock::Stock;
use dc_node::Block;
use mapping_table::MapTable;
use query_router::Desk;
use row_ledger::Ledger;
use server_image::{Image, Registry};
use shard_build::shard_store::Gate;

/// What a cell holds. Everything stands behind a pointer, so that a turn moves few bytes. What is a
/// server's or a worker's says whose it is.
///
/// A cell that is in the stock, in a purse or meant for a block that is still to be built can hold an old
/// block or gate: nobody reads it, and who fills it replaces that.
#[derive(Drop)]
pub enum Cell {
    /// Nothing that is read.
    Free,
    /// The history.
    Ledger(Box<Ledger>),
    /// The free cells, and the numbers that are next.
    Stock(Box<Stock>),
    /// The shards that stand.
    Registry(Box<Registry>),
    /// What a server knows of the shards.
    Image { server: u8, image: Box<Image> },
    /// The parts of a server's open insert or query.
    Desk { server: u8, desk: Box<Desk> },
    /// Where a worker's shards are.
    Map { worker: u8, map: Box<MapTable> },
    /// A shard, with the way to its tree and its queue.
    Gate(Box<Gate>),
    /// A block of a tree.
    Block(Box<Block>),
}
