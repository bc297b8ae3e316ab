//! Held cells at the places of a step, and back in the order in which they are held.
ghost use Rattle.std.specs.Prelude.{ℕ, ◌≡◌, ◌+◌, ◌<◌, ◌≤◌, ◌++◌, length, is_some};
ghost use Rattle.core_steps.specs.Places.{Fill, held, number_at, row_of, thing_at, things};
ghost use Rattle.list_words.specs.Counts.{Each};
ghost use Rattle.turn_table.specs.Numbered.{numbers_of, value_of};
ghost use Rattle.volap_turns.specs.Rows.{AreAt, IsThere, cells_for, row_in};

use arrayvec::ArrayVec;
use core_steps::{Others, Places};
use core_told::volap_cell::Cell;
use turn_table::Held;

/// How many cells a step holds at most.
const MOST: usize = 7;

/// The places of a step, one by one.
#[derive(Clone, Copy)]
pub(crate) struct Row {
    pub(crate) first: Option<u32>,
    pub(crate) second: Option<u32>,
    pub(crate) third: Option<u32>,
    pub(crate) fourth: Option<u32>,
    pub(crate) fifth: Option<u32>,
    pub(crate) sixth: Option<u32>,
    pub(crate) seventh: Option<u32>,
}

/// The places one by one.
pub(crate) fn row_at(places: Places) -> Row
    ensures { row_in result ≡ row_of places }
{
    let (first, second, others) = match places {
        Places::One(first) => (first, None, [None; 5]),
        Places::Two(first, second) => (first, Some(second), [None; 5]),
        Places::Many(first, second, others) => (first, Some(second), others),
    };
    let [third, fourth, fifth, sixth, seventh] = others;
    Row {
        first: Some(first),
        second,
        third,
        fourth,
        fifth,
        sixth,
        seventh,
    }
}

/// The numbers of the cells, and the cells.
pub(crate) fn numbered(cells: Held<Cell>) -> (ArrayVec<u32, MOST>, Held<Cell>)
    requires few { length cells ≤ 7 }
    ensures numbers { result.0.items ≡ numbers_of cells }
    ensures same { result.1 ≡ cells }
{
    let mut numbers = ArrayVec::new();
    let mut done = Held::new();
    let mut left = cells;
    while let Some(next) = left.split_first() {
        let (entry, behind) = next;
        numbers.push(entry.0);
        done = done.with(entry.0, entry.1);
        left = behind;
    }
    (numbers, done)
}

/// The cell at a place, if that has a number, and the others.
fn next(cells: Held<Cell>, at: Option<u32>) -> (Option<Cell>, Held<Cell>)
    requires few { length cells ≤ 7 }
    requires there { Each (IsThere cells) (number_at at) }
    ensures fill { is_some result.0 ≡ is_some at }
    ensures count { length cells ≡ length (number_at at) + length result.1 }
    ensures same { (k : ℕ) → value_of cells k ≡ value_of (thing_at at result.0 ++ result.1) k }
{
    match at {
        Some(number) => {
            let (cell, others) = cells.take_out(number);
            (Some(cell), others)
        }
        None => (None, cells),
    }
}

/// The cells at the places.
pub(crate) fn spread(cells: Held<Cell>, row: Row) -> (Option<Cell>, Option<Cell>, Others)
    requires few { length cells ≤ 7 }
    requires at { AreAt (row_in row) cells }
    ensures fill { Fill (row_in row) (held result.0 result.1 result.2) }
    ensures cells { held result.0 result.1 result.2 ≡ cells_for cells (row_in row) }
    ensures same { (k : ℕ) → value_of cells k ≡ value_of (things (row_in row) (held result.0 result.1 result.2)) k }
{
    let (first, cells) = next(cells, row.first);
    let (second, cells) = next(cells, row.second);
    let (third, cells) = next(cells, row.third);
    let (fourth, cells) = next(cells, row.fourth);
    let (fifth, cells) = next(cells, row.fifth);
    let (sixth, cells) = next(cells, row.sixth);
    let (seventh, cells) = next(cells, row.seventh);
    cells.end();
    let others = Others {
        third,
        fourth,
        fifth,
        sixth,
        seventh,
    };
    (first, second, others)
}

/// The cells, and behind them the one at a place, if that has a number.
fn behind(cells: Held<Cell>, at: Option<u32>, cell: Option<Cell>) -> Held<Cell>
    requires few { length cells < 7 }
    ensures is { result ≡ cells ++ thing_at at cell }
    ensures few { length result ≤ length cells + 1 }
{
    if let Some(number) = at
        && let Some(cell) = cell
    {
        return cells.with(number, cell);
    }
    cells
}

/// The cells at the places, the first place first.
pub(crate) fn gathered(
    row: Row,
    first: Option<Cell>,
    second: Option<Cell>,
    others: Others,
) -> Held<Cell>
    ensures { result ≡ things (row_in row) (held first second others) }
{
    let cells = behind(Held::new(), row.first, first);
    let cells = behind(cells, row.second, second);
    let cells = behind(cells, row.third, others.third);
    let cells = behind(cells, row.fourth, others.fourth);
    let cells = behind(cells, row.fifth, others.fifth);
    let cells = behind(cells, row.sixth, others.sixth);
    behind(cells, row.seventh, others.seventh)
}
