//! All cells and actors, and how cells are moved out and put back.
ghost use Rattle.std.specs.Prelude.{◌≡◌, ◌<◌, [], ◌∷◌, length};
ghost use Rattle.list_words.specs.Counts.{Each};
ghost use Rattle.volap_cell.specs.State.{CanLift, Stand, taken, given};

use crate::actor::Actor;
use crate::cell::Cell;
use std::mem::{forget, replace};

/// All cells and actors, as one thread holds them; a cell's place is empty while it is moved out.
#[derive(Drop)]
pub struct State {
    pub cells: Vec<Option<Cell>>,
    pub actors: Vec<Option<Actor>>,
}

/// Moves a cell out.
pub fn lift_one(cells: &mut Vec<Option<Cell>>, a: u32) -> Cell
    requires there { CanLift cells.old.items (a ∷ []) }
    ensures value { Stand cells.old.items ((a, result) ∷ []) }
    ensures rest { cells.new.items ≡ taken (a ∷ []) cells.old.items }
{
    let place = &mut cells[a as usize];
    match place.take() {
        Some(cell) => cell,
        None => unreachable!(),
    }
}

/// Puts a cell back. Its place is empty, so nothing is dropped there; that isn't asked again, and as each
/// step puts cells back it is no call.
#[inline(always)]
pub fn put_one(cells: &mut Vec<Option<Cell>>, a: u32, cell: Cell)
    requires within { Each (λ y. y < length cells.old.items) (a ∷ []) }
    ensures value { cells.new.items ≡ given ((a, cell) ∷ []) cells.old.items }
{
    let place = &mut cells[a as usize];
    let empty = replace(place, Some(cell));
    forget(empty);
}

/// Puts two cells back.
fn put_two(cells: &mut Vec<Option<Cell>>, a: u32, first: Cell, b: u32, second: Cell)
    requires within { Each (λ y. y < length cells.old.items) (a ∷ b ∷ []) }
    ensures value { cells.new.items ≡ given ((a, first) ∷ (b, second) ∷ []) cells.old.items }
{
    put_one(cells, b, second);
    put_one(cells, a, first);
}

/// Puts three cells back.
pub(crate) fn put_three(
    cells: &mut Vec<Option<Cell>>,
    a: u32,
    first: Cell,
    b: u32,
    second: Cell,
    c: u32,
    third: Cell,
)
    requires within { Each (λ y. y < length cells.old.items) (a ∷ b ∷ c ∷ []) }
    ensures value { cells.new.items ≡ given ((a, first) ∷ (b, second) ∷ (c, third) ∷ []) cells.old.items }
{
    put_two(cells, b, second, c, third);
    put_one(cells, a, first);
}
