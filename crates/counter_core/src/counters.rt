//! The core, and a transfer between two of its counters.
ghost use Rattle.std.specs.Prelude.{◌≡◌, ◌<◌, ◌+◌, ℕ, [], ◌∷◌, false};
ghost use mathlib.Core.Option.{some};
ghost use Rattle.turn_table.specs.Numbered.{value_of};
ghost use Rattle.turn_table.specs.Seat.{cell_count};
ghost use Rattle.counter_core.specs.Counters.{KeepsSum};

use std::sync::Wait;
use turn_table::{Core, Held, Seat, TurnTable};

/// Counters that together count 30. An actor counts nothing and must keep no cell.
pub struct Counters;

impl Core for Counters {
    type Cell = u64;

    type Actor = u64;

    type Entry = u64;

    ghost use Rattle.std.specs.Prelude.{◌≡◌, []};
    ghost use Rattle.std.specs.List.{sum};
    ghost use Rattle.counter_core.specs.Counters.{whole, KeepsSum, lawful};

    ghost invariant = { λ cells _. sum cells ≡ whole };

    ghost log_at = { 0 };

    ghost log = { λ _. [] };

    ghost change = { λ s new _ _ _. KeepsSum s.held new };

    ghost needs = { λ _ _. ⊥ };

    ghost idle = { λ _. Unit {0} };

    ghost idle_free = { λ _ _ _ never. never };

    ghost lawful = { lawful };
}

/// One unit from one number to the other, if there is one and the other has room.
fn shifted(from: u64, to: u64) -> (u64, u64)
    ensures { result.0 + result.1 ≡ from + to }
{
    if from > 0 && to < u64::MAX {
        return (from - 1, to + 1);
    }
    (from, to)
}

/// The two held counters after a unit went up, from the first to the second, or down.
fn moved(cells: Held<u64>, up: bool) -> Held<u64>
    requires { (i j x y : ℕ) × (cells ≡ (i, x) ∷ (j, y) ∷ []) }
    ensures cells { (i j x y v w : ℕ) × (cells ≡ (i, x) ∷ (j, y) ∷ []) × (result ≡ (i, v) ∷ (j, w) ∷ []) × (v + w ≡ x + y) }
{
    let Some((low, others)) = cells.split_first() else {
        unreachable!()
    };
    let Some((high, rest)) = others.split_first() else {
        unreachable!()
    };
    rest.end();
    let (x, y) = if up {
        shifted(low.1, high.1)
    } else {
        let (y, x) = shifted(high.1, low.1);
        (x, y)
    };
    Held::new().with(low.0, x).with(high.0, y)
}

/// Moves one unit up or down between two counters as one event, if there is one to move. It waits for
/// the turns of both, the lower first.
pub fn transfer<R: Wait>(
    rt: &R,
    table: &TurnTable<Counters>,
    seat: &mut Seat<Counters>,
    number: u32,
    low: u32,
    high: u32,
    up: bool,
)
    requires own { seat.old.table_id ≡ table.now }
    requires cells { (low < high) × (high < cell_count table.now) }
    requires bare { (seat.old.view.held ≡ []) × (seat.old.ranks ≡ []) × (seat.old.lifted ≡ false) }
    requires actor { value_of seat.old.view.actors number ≡ some 0 }
    ensures own { seat.new.table_id ≡ seat.old.table_id }
    ensures bare { (seat.new.view.held ≡ []) × (seat.new.ranks ≡ []) × (seat.new.lifted ≡ false) }
    ensures actors { (seat.new.view.actors ≡ seat.old.view.actors) × (seat.new.view.actor_count ≡ seat.old.view.actor_count) }
{
    table.take(rt, seat, low, 0);
    table.take(rt, seat, high, 0);
    let cells = moved(table.lift(seat), up);
    table.commit(seat, cells, number, &0);
    table.release(seat, high);
}
