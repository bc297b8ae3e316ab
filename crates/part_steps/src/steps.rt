//! The steps of a query that are counted.
ghost use Rattle.std.specs.Prelude.{◌≡◌, ◌+◌, ◌<◌, ◌≤◌, ◌^◌};

use std::marker::Model;

/// How many steps a query made. A step is one take of the turn of a table, a gate or a block, or one test of a row; turns of a desk, an
/// image, the ledger or the stock are none, and waiting for a turn is none. Contracts see the number.
#[derive(Drop)]
pub struct Steps {
    count: u64,
}

impl Model for Steps {
    ghost use Rattle.std.specs.Prelude.{ℕ};

    ghost Value = { ℕ };

    ghost view = { λ s. s.count };
}

impl Steps {
    /// No step.
    pub fn new() -> Steps
        ensures { result ≡ 0 }
    {
        Steps { count: 0 }
    }

    /// How many there are.
    pub fn count(&self) -> u64
        ensures { result ≡ self.now }
    {
        self.count
    }

    /// So many more; where they are too many for the counter, it stands at its end.
    pub(crate) fn add(&mut self, more: u64)
        ensures few { self.new ≤ self.old + more }
        ensures kept { self.old ≤ self.new }
        ensures all { self.old + more < 2 ^ 64 → self.new ≡ self.old + more }
    {
        self.count = self.count.saturating_add(more);
    }
}
