//! Cells that are moved out of their places, and put back.
ghost use Rattle.std.specs.Prelude.{ℕ, ◌≡◌, ◌<◌, length, is_some};
ghost use Rattle.core_steps.specs.Places.{Fill, number_at, numbers, others_held, thing_at, things};
ghost use Rattle.list_words.specs.Counts.{Each};
ghost use Rattle.core_shard.specs.volap_cell.specs.State.{CanLift, Stand, given, taken};

use crate::step::Others;
use core_shard::volap_cell::{Cell, lift_one, put_one};

/// Moves out what stands at the places that have a number.
pub(crate) fn lift(cells: &mut Vec<Option<Cell>>, places: &[Option<u32>; 5]) -> Others
    requires there { CanLift cells.old.items (numbers places.now) }
    ensures fill { Fill places.now (others_held result) }
    ensures stand { Stand cells.old.items (things places.now (others_held result)) }
    ensures rest { cells.new.items ≡ taken (numbers places.now) cells.old.items }
{
    let [a, b, c, d, e] = *places;
    Others {
        third: lift_at(cells, a),
        fourth: lift_at(cells, b),
        fifth: lift_at(cells, c),
        sixth: lift_at(cells, d),
        seventh: lift_at(cells, e),
    }
}

/// Moves out what stands at a place, if that has a number.
fn lift_at(cells: &mut Vec<Option<Cell>>, at: Option<u32>) -> Option<Cell>
    requires there { CanLift cells.old.items (number_at at) }
    ensures fill { is_some result ≡ is_some at }
    ensures stand { Stand cells.old.items (thing_at at result) }
    ensures rest { cells.new.items ≡ taken (number_at at) cells.old.items }
{
    match at {
        Some(at) => Some(lift_one(cells, at)),
        None => None,
    }
}

/// Puts back what was moved out.
pub(crate) fn put(cells: &mut Vec<Option<Cell>>, places: &[Option<u32>; 5], held: Others)
    requires within { Each (λ y. y < length cells.old.items) (numbers places.now) }
    ensures { cells.new.items ≡ given (things places.now (others_held held)) cells.old.items }
{
    let [a, b, c, d, e] = *places;
    put_at(cells, e, held.seventh);
    put_at(cells, d, held.sixth);
    put_at(cells, c, held.fifth);
    put_at(cells, b, held.fourth);
    put_at(cells, a, held.third);
}

/// Puts a cell back at a place, if that has a number.
fn put_at(cells: &mut Vec<Option<Cell>>, at: Option<u32>, cell: Option<Cell>)
    requires within { Each (λ y. y < length cells.old.items) (number_at at) }
    ensures { cells.new.items ≡ given (thing_at at cell) cells.old.items }
{
    if let Some(at) = at
        && let Some(cell) = cell
    {
        put_one(cells, at, cell);
    }
}
