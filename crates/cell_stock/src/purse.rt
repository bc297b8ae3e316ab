//! Spares, and the purse that an actor has them in.
ghost use Rattle.std.specs.Prelude.{◌≡◌, ◌+◌, ◌<◌, ◌≤◌, ◌^◌, List, None, ◌∷◌, ◌++◌, [], length, vec_len, vec_capacity, OnOk, IfSome};
ghost use Rattle.cell_stock.specs.Stock.{Fills};
ghost use Rattle.cell_stock.specs.declared.purse.Spare as declared;

use std::alloc::{AllocError, Global};
use std::marker::Model;

/// A cell that nobody else has, and a stamp that no block had.
#[derive(Clone, Copy, Debug, PartialEq, Eq)]
pub struct Spare {
    pub cell: u32,
    pub stamp: u64,
}

/// Spares that an actor took from the stock.
#[derive(Drop)]
pub struct Purse {
    spares: Vec<Spare>,
}

impl Model for Purse {
    ghost use Rattle.std.specs.Prelude.{◌-◌, vec_capacity, vec_len};
    ghost use Rattle.cell_stock.specs.Stock.{PurseValue};

    ghost Value = { PurseValue };

    ghost view = { λ a. record { spares = a.spares.items; room = vec_capacity a.spares - vec_len a.spares } };
}

impl Purse {
    /// The empty purse. Takes no memory.
    pub fn new(alloc: Global) -> Purse
        ensures { result.spares ≡ [] }
    {
        Purse {
            spares: Vec::new(alloc),
        }
    }

    /// Makes room for `n` further spares.
    pub fn reserve(&mut self, n: u64) -> Result<(), AllocError>
        ensures spares { self.new.spares ≡ self.old.spares }
        ensures ok { OnOk result (n ≤ self.new.room) }
    {
        self.spares.reserve(n as usize)?;
        Ok(())
    }

    /// How many spares there are.
    pub fn len(&self) -> usize
        ensures { result ≡ length self.now.spares }
    {
        self.spares.len()
    }

    /// The spare that `next` would take out: the last one. None where there is none.
    pub fn last(&self) -> Option<Spare>
        ensures some { IfSome result (λ s. (front : List declared.Spare) × (self.now.spares ≡ front ++ s ∷ [])) }
        ensures none { result ≡ None → self.now.spares ≡ [] }
    {
        let at = self.spares.len().checked_sub(1)?;
        Some(self.spares[at])
    }

    /// Adds a spare behind the others. Takes no memory.
    pub fn put(&mut self, spare: Spare)
        requires { 0 < self.old.room }
        ensures spares { self.new.spares ≡ self.old.spares ++ spare ∷ [] }
        ensures room { self.new.room + 1 ≡ self.old.room }
    {
        self.spares.push_reserved(spare);
    }

    /// Takes the last spare out. Takes no memory.
    pub fn next(&mut self) -> Spare
        requires { 0 < length self.old.spares }
        ensures taken { self.old.spares ≡ self.new.spares ++ result ∷ [] }
        ensures room { self.new.room ≡ self.old.room + 1 }
    {
        self.spares.take_last()
    }

    /// Adds spares of these cells, with stamps from `stamp` on. Takes no memory.
    pub(crate) fn fill(&mut self, cells: &[u32], stamp: u64)
        requires room { length cells.now ≤ self.old.room }
        requires stamps { stamp + length cells.now < 2 ^ 63 }
        ensures filled { Fills cells.now stamp self.old.spares self.new.spares }
        ensures room { self.new.room + length cells.now ≡ self.old.room }
    {
        fill(&mut self.spares, cells, stamp);
    }

    /// The spares in order.
    pub(crate) fn spares(&self) -> &[Spare]
        ensures { result.now ≡ self.now.spares }
    {
        self.spares.as_slice()
    }

    /// Takes all spares out.
    pub(crate) fn clear(&mut self)
        ensures spares { self.new.spares ≡ [] }
        ensures room { self.new.room ≡ self.old.room + length self.old.spares }
    {
        self.spares.clear();
    }
}

/// Adds spares of these cells to a vector with room for them.
fn fill(spares: &mut Vec<Spare>, cells: &[u32], stamp: u64)
    requires room { vec_len spares.old + length cells.now ≤ vec_capacity spares.old }
    requires stamps { stamp + length cells.now < 2 ^ 63 }
    ensures filled { Fills cells.now stamp spares.old.items spares.new.items }
    ensures capacity { vec_capacity spares.new ≡ vec_capacity spares.old }
{
    for (i, cell) in cells.iter().enumerate() {
        spares.push_reserved(Spare {
            cell: *cell,
            stamp: stamp + i as u64,
        });
    }
}
