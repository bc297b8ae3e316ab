//! What is in a cell of which it is known what it holds. As each step asks for it, none of these is a call.
ghost use Rattle.std.specs.Borrow.{sem};
ghost use Rattle.std.specs.Prelude.{ℕ, ◌≡◌, true, IsSome};
ghost use Rattle.volap_cell.specs.Cells.{BlockCell, DeskOf, GateCell, ImageOf, MapOf, TheLedger, TheRegistry, TheStock, cell_of, gate_shard, has_block, owned_by, tag_of};
ghost use Rattle.volap_cell.specs.Lending.{LendsBlock, LendsDesk, LendsGate, LendsImage, LendsLedger, LendsMap, LendsRegistry, LendsStock, owner_of, with_block, with_desk, with_gate, with_image, with_ledger, with_map, with_registry, with_stock};

use crate::cell::Cell;
use cell_stock::Stock;
use dc_node::Block;
use mapping_table::MapTable;
use query_router::Desk;
use row_ledger::Ledger;
use server_image::{Image, Registry};
use shard_build::shard_store::Gate;

/// The history.
#[inline(always)]
pub fn ledger_in(cell: &mut Cell) -> &mut Ledger
    requires { tag_of (cell_of cell.old) ≡ TheLedger }
    ensures* writes_back { sem 𝓛 (LendsLedger cell.entry result) }
    ensures value { cell.old ≡ with_ledger cell.old result.now }
{
    match cell {
        Cell::Ledger(ledger) => ledger,
        _ => unreachable!(),
    }
}

/// The free cells.
#[inline(always)]
pub fn stock_in(cell: &mut Cell) -> &mut Stock
    requires { tag_of (cell_of cell.old) ≡ TheStock }
    ensures* writes_back { sem 𝓛 (LendsStock cell.entry result) }
    ensures value { cell.old ≡ with_stock cell.old result.now }
{
    match cell {
        Cell::Stock(stock) => stock,
        _ => unreachable!(),
    }
}

/// The shards that stand.
#[inline(always)]
pub fn registry_in(cell: &mut Cell) -> &mut Registry
    requires { tag_of (cell_of cell.old) ≡ TheRegistry }
    ensures* writes_back { sem 𝓛 (LendsRegistry cell.entry result) }
    ensures value { cell.old ≡ with_registry cell.old result.now }
{
    match cell {
        Cell::Registry(registry) => registry,
        _ => unreachable!(),
    }
}

/// What a server knows of the shards.
#[inline(always)]
pub fn image_in(cell: &mut Cell) -> &mut Image
    requires { (server : ℕ) × (tag_of (cell_of cell.old) ≡ ImageOf server) }
    ensures* writes_back { sem 𝓛 (LendsImage cell.entry result) }
    ensures value { cell.old ≡ with_image cell.old result.now }
{
    match cell {
        Cell::Image { image, .. } => image,
        _ => unreachable!(),
    }
}

/// The parts of a server's open insert or query.
#[inline(always)]
pub fn desk_in(cell: &mut Cell) -> &mut Desk
    requires { (server : ℕ) × (tag_of (cell_of cell.old) ≡ DeskOf server) }
    ensures* writes_back { sem 𝓛 (LendsDesk cell.entry result) }
    ensures value { cell.old ≡ with_desk cell.old result.now }
{
    match cell {
        Cell::Desk { desk, .. } => desk,
        _ => unreachable!(),
    }
}

/// Where a worker's shards are.
#[inline(always)]
pub fn map_in(cell: &mut Cell) -> &mut MapTable
    requires { (worker : ℕ) × (tag_of (cell_of cell.old) ≡ MapOf worker) }
    ensures* writes_back { sem 𝓛 (LendsMap cell.entry result) }
    ensures value { cell.old ≡ with_map cell.old result.now }
{
    match cell {
        Cell::Map { map, .. } => map,
        _ => unreachable!(),
    }
}

/// A shard's gate.
#[inline(always)]
pub fn gate_in(cell: &mut Cell) -> &mut Gate
    requires { IsSome (gate_shard (cell_of cell.old)) }
    ensures* writes_back { sem 𝓛 (LendsGate cell.entry result) }
    ensures value { cell.old ≡ with_gate cell.old result.now }
{
    match cell {
        Cell::Gate(gate) => gate,
        _ => unreachable!(),
    }
}

/// A block of a tree.
#[inline(always)]
pub fn block_in(cell: &mut Cell) -> &mut Block
    requires { has_block (cell_of cell.old) ≡ true }
    ensures* writes_back { sem 𝓛 (LendsBlock cell.entry result) }
    ensures value { cell.old ≡ with_block cell.old result.now }
{
    match cell {
        Cell::Block(block) => block,
        _ => unreachable!(),
    }
}

/// Whose a server's or a worker's cell is.
#[inline(always)]
pub fn owner_in(cell: &Cell) -> u8
    requires { IsSome (owned_by (tag_of (cell_of cell.now))) }
    ensures { result ≡ owner_of cell.now }
{
    match cell {
        Cell::Image { server, .. } => *server,
        Cell::Desk { server, .. } => *server,
        Cell::Map { worker, .. } => *worker,
        _ => unreachable!(),
    }
}

/// A shard's gate, to be read.
#[inline(always)]
pub fn gate_seen(cell: &Cell) -> &Gate
    requires { IsSome (gate_shard (cell_of cell.now)) }
    ensures { cell_of cell.now ≡ GateCell result.now }
{
    match cell {
        Cell::Gate(gate) => gate,
        _ => unreachable!(),
    }
}

/// A block of a tree, to be read.
#[inline(always)]
pub fn block_seen(cell: &Cell) -> &Block
    requires { has_block (cell_of cell.now) ≡ true }
    ensures { cell_of cell.now ≡ BlockCell result.now }
{
    match cell {
        Cell::Block(block) => block,
        _ => unreachable!(),
    }
}
