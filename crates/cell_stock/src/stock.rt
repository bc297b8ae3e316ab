//! The stock of free cells, stamps and shard ids.
ghost use Rattle.std.specs.Prelude.{ℕ, ◌≡◌, ◌+◌, ◌-◌, ◌<◌, ◌≤◌, ◌^◌, ◌↔◌, List, [], ◌∷◌, ◌++◌, length, vec_len, vec_capacity, IfOk, IfSome, IfNone, IsNone};
ghost use Rattle.std.specs.List.{range_with_len};
ghost use Rattle.cell_stock.specs.Stock.{StockValue, PurseValue, cells_of, IsStock, Takes, AreOut, IsOut, Gives, AreFresh};
ghost use Rattle.cell_stock.specs.declared.purse.Spare.{Spare};

use crate::purse::{Purse, Spare};
use std::alloc::{AllocError, Global};
use std::marker::Model;

/// Cells that are free, and how many stamps and shard ids were given out. Cells are numbered from 0.
#[derive(Drop)]
pub struct Stock {
    /// How many cells there are, free or not.
    cells: u32,
    free: Vec<u32>,
    stamps: u64,
    ids: u32,
}

impl Model for Stock {
    ghost use Rattle.std.specs.Prelude.{◌≤◌, vec_capacity};
    ghost use Rattle.cell_stock.specs.Stock.{StockValue, IsStock};

    ghost Value = { StockValue };

    ghost view = { λ a. record { cells = a.cells; free = a.free.items; stamps = a.stamps; ids = a.ids } };

    ghost invariant = { λ a. (a.cells ≤ vec_capacity a.free) × IsStock (record { cells = a.cells; free = a.free.items; stamps = a.stamps; ids = a.ids }) };
}

impl Stock {
    /// All cells are free, and nothing was given out.
    pub fn new(alloc: Global, cells: u32) -> Result<Stock, AllocError>
        ensures { IfOk result (λ s. s ≡ record { cells = cells; free = range_with_len 0 cells; stamps = 0; ids = 0 }) }
    {
        Stock::over(alloc, 0, cells)
    }

    /// The cells from `first` on are free, and nothing was given out. Those before it never are.
    pub fn over(alloc: Global, first: u32, cells: u32) -> Result<Stock, AllocError>
        ensures { IfOk result (λ s. s ≡ record { cells = cells; free = range_with_len first (cells - first); stamps = 0; ids = 0 }) }
    {
        let mut free: Vec<u32> = (first..cells).collect(alloc)?;
        free.reserve(first as usize)?;
        Ok(Stock {
            cells,
            free,
            stamps: 0,
            ids: 0,
        })
    }

    /// How many cells are free.
    pub fn free(&self) -> u64
        ensures value { result ≡ length self.now.free }
        ensures valid { IsStock self.now }
    {
        self.free.len() as u64
    }

    /// How many stamps were given out, which is the next one.
    pub fn stamps(&self) -> u64
        ensures { result ≡ self.now.stamps }
    {
        self.stamps
    }

    /// Moves `n` free cells into the purse, each with a new stamp, or none where fewer are free.
    /// Takes no memory.
    pub fn take(&mut self, n: u64, purse: &mut Purse) -> Option<()>
        requires room { n ≤ purse.old.room }
        requires stamps { self.old.stamps + n < 2 ^ 63 }
        ensures none { IsNone result ↔ (length self.old.free < n) }
        ensures unchanged { IfNone result ((self.new ≡ self.old) × (purse.new ≡ purse.old)) }
        ensures some { IfSome result (λ _. Takes n self.old self.new purse.old purse.new) }
        ensures room { IfSome result (λ _. purse.new.room + n ≡ purse.old.room) }
    {
        let kept = self.free.len().checked_sub(n as usize)?;
        purse.fill(&self.free[kept..], self.stamps);
        self.free.truncate(kept);
        self.stamps += n;
        Some(())
    }

    /// Takes back the cells of all spares of the purse, which are free again. Takes no memory.
    pub fn give(&mut self, purse: &mut Purse)
        requires { AreOut self.old purse.old.spares }
        ensures given { Gives self.old self.new purse.old purse.new }
        ensures room { purse.new.room ≡ purse.old.room + length purse.old.spares }
    {
        put_back(&mut self.free, purse.spares());
        purse.clear();
    }

    /// Takes one cell back, which is free again. Takes no memory.
    pub fn put(&mut self, cell: u32)
        requires { IsOut self.old cell }
        ensures { self.new ≡ record self.old { free = self.old.free ++ cell ∷ [] } }
    {
        self.free.push_reserved(cell);
    }

    /// Gives out `n` shard ids, and answers the first of them.
    pub fn shard_ids(&mut self, n: u32) -> u32
        requires { self.old.ids + n < 2 ^ 32 }
        ensures first { result ≡ self.old.ids }
        ensures next { self.new ≡ record self.old { ids = self.old.ids + n } }
    {
        let first = self.ids;
        self.ids += n;
        first
    }
}

/// Laws of the stock, with no code. What is taken is fresh. What is out, in a purse or elsewhere,
/// stays out while the purse takes more and when it gives its own back.
pub fn laws()
    ensures fresh { (n : ℕ) (before now : StockValue) (purse purse_now : PurseValue)
        → IsStock before → (t : Takes n before now purse purse_now) → AreFresh before now t.spares }
    ensures none { (s : StockValue) → IsStock s → AreOut s [] }
    ensures taken { (n : ℕ) (before now : StockValue) (purse purse_now : PurseValue) (others : List Spare)
        → IsStock before → AreOut before (purse.spares ++ others) → Takes n before now purse purse_now
        → AreOut now (purse_now.spares ++ others) }
    ensures given { (before now : StockValue) (purse purse_now : PurseValue) (others : List Spare)
        → AreOut before (purse.spares ++ others) → Gives before now purse purse_now
        → AreOut now others }
{}

/// Adds the cells of spares to a vector with room for them.
fn put_back(free: &mut Vec<u32>, spares: &[Spare])
    requires { vec_len free.old + length spares.now ≤ vec_capacity free.old }
    ensures cells { free.new.items ≡ free.old.items ++ cells_of spares.now }
    ensures capacity { vec_capacity free.new ≡ vec_capacity free.old }
{
    for spare in spares {
        free.push_reserved(spare.cell);
    }
}
