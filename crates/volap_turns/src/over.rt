//! One step over cells that are out of their slots, in whatever order they were held.
ghost use Rattle.std.specs.Prelude.{ℕ, ◌≡◌, ◌≤◌, [], ◌∷◌, length, true, Some, None};
ghost use Rattle.core_steps.specs.Places.{one_at, row_of, things, three_at, two_at, values};
ghost use Rattle.turn_table.specs.Numbered.{HaveOwnNumbers};
ghost use Rattle.core_told.specs.volap_cell.specs.State.{still};
ghost use Rattle.core_told.specs.volap_cell.specs.Steps.{IsHere};
ghost use Rattle.core_told.specs.volap_cell.specs.Values.{actor_of};
ghost use Rattle.volap_turns.specs.Made.{IsMadeOver};
ghost use Rattle.volap_turns.specs.Rows.{AreAt, IsRow, cells_for};

use crate::spread::{gathered, numbered, row_at, spread};
use core_steps::{CellStep, Others, Places};
use core_told::volap_cell::{Actor, Cell};
use dim_hierarchy::Hierarchy;
use std::alloc::{AllocError, Global};
use turn_table::{Held, One, Three, Two};

/// A form of cells over which steps are made.
pub(crate) trait Over<S: CellStep>: Sized {
    ghost use Rattle.std.specs.Prelude.{ℕ, List};
    ghost use Rattle.core_told.specs.volap_cell.specs.declared.cell.Cell.{Cell};

    // The cells as a list.
    ghost all: { Self → List (ℕ × Cell) };

    /// Makes a step, and gives the cells back in the order in which they came. Where memory is wanting, it changes nothing.
    fn made_over(
        alloc: Global,
        h: &Hierarchy,
        cells: Self,
        actor: &mut Actor,
        what: S,
    ) -> (Result<(), AllocError>, Self)
        requires few { length (all cells) ≤ 7 }
        requires named { IsRow (S.places what) }
        requires own { HaveOwnNumbers (all cells) }
        requires at { AreAt (S.places what) (all cells) }
        requires here { IsHere h.now (still (things (S.places what) (cells_for (all cells) (S.places what)))) (actor_of actor.old) }
        requires asked { S.asks what h.now (values (cells_for (all cells) (S.places what))) (actor_of actor.old) }
        ensures { IsMadeOver h.now (S.kind what) (S.sees what) (S.tells what) (S.may_fail what) (S.has_room what actor.old) (S.places what) result.0 (all cells) (all result.1) (actor_of actor.old) (actor_of actor.new) };
}

impl<S: CellStep> Over<S> for One<Cell> {
    ghost use Rattle.std.specs.Prelude.{[], ◌∷◌};

    ghost all = { λ p. p ∷ [] };

    fn made_over(
        alloc: Global,
        h: &Hierarchy,
        cells: One<Cell>,
        actor: &mut Actor,
        what: S,
    ) -> (Result<(), AllocError>, One<Cell>) {
        over_one(alloc, h, cells, actor, what)
    }
}

impl<S: CellStep> Over<S> for Two<Cell> {
    ghost use Rattle.std.specs.Prelude.{[], ◌∷◌};

    ghost all = { λ p. p.0 ∷ p.1 ∷ [] };

    fn made_over(
        alloc: Global,
        h: &Hierarchy,
        cells: Two<Cell>,
        actor: &mut Actor,
        what: S,
    ) -> (Result<(), AllocError>, Two<Cell>) {
        over_two(alloc, h, cells, actor, what)
    }
}

impl<S: CellStep> Over<S> for Three<Cell> {
    ghost use Rattle.std.specs.Prelude.{[], ◌∷◌};

    ghost all = { λ p. p.0 ∷ p.1 ∷ p.2 ∷ [] };

    fn made_over(
        alloc: Global,
        h: &Hierarchy,
        cells: Three<Cell>,
        actor: &mut Actor,
        what: S,
    ) -> (Result<(), AllocError>, Three<Cell>) {
        over_three(alloc, h, cells, actor, what)
    }
}

impl<S: CellStep> Over<S> for Held<Cell> {
    ghost all = { λ h. h };

    fn made_over(
        alloc: Global,
        h: &Hierarchy,
        cells: Held<Cell>,
        actor: &mut Actor,
        what: S,
    ) -> (Result<(), AllocError>, Held<Cell>) {
        over_many(alloc, h, cells, actor, what)
    }
}

/// The same over one cell.
fn over_one<S: CellStep>(
    alloc: Global,
    h: &Hierarchy,
    cells: One<Cell>,
    actor: &mut Actor,
    what: S,
) -> (Result<(), AllocError>, One<Cell>)
    requires named { IsRow (S.places what) }
    requires at { AreAt (S.places what) (cells ∷ []) }
    requires here { IsHere h.now (still (things (S.places what) (cells_for (cells ∷ []) (S.places what)))) (actor_of actor.old) }
    requires asked { S.asks what h.now (values (cells_for (cells ∷ []) (S.places what))) (actor_of actor.old) }
    ensures { IsMadeOver h.now (S.kind what) (S.sees what) (S.tells what) (S.may_fail what) (S.has_room what actor.old) (S.places what) result.0 (cells ∷ []) (result.1 ∷ []) (actor_of actor.old) (actor_of actor.new) }
{
    over_one_named(alloc, h, cells, actor, what)
}

/// The same where it is told by its number.
fn over_one_named<S: CellStep>(
    alloc: Global,
    h: &Hierarchy,
    one: One<Cell>,
    actor: &mut Actor,
    what: S,
) -> (Result<(), AllocError>, One<Cell>)
    requires named { S.places what ≡ one_at one.0 }
    requires at { AreAt (S.places what) (one ∷ []) }
    requires here { IsHere h.now (still (things (S.places what) (cells_for (one ∷ []) (S.places what)))) (actor_of actor.old) }
    requires asked { S.asks what h.now (values (cells_for (one ∷ []) (S.places what))) (actor_of actor.old) }
    ensures { IsMadeOver h.now (S.kind what) (S.sees what) (S.tells what) (S.may_fail what) (S.has_room what actor.old) (S.places what) result.0 (one ∷ []) (result.1 ∷ []) (actor_of actor.old) (actor_of actor.new) }
{
    let mut first = Some(one.1);
    let mut second = None;
    let mut others = Others::none();
    let made = what.run(alloc, h, &mut first, &mut second, &mut others, actor);
    let Some(cell) = first else { unreachable!() };
    (made, (one.0, cell))
}

/// Whether two cells stand in the order of their places, where one stands first.
fn are_two_in_order(places: Places, one: u32) -> bool
    ensures { result ≡ true → (two : ℕ) × (row_of places ≡ two_at one two) }
{
    match places {
        Places::Two(first, _) => first == one,
        Places::One(_) | Places::Many(_, _, _) => false,
    }
}

/// The same over two cells. Mostly they stand in the order of their places.
fn over_two<S: CellStep>(
    alloc: Global,
    h: &Hierarchy,
    cells: Two<Cell>,
    actor: &mut Actor,
    what: S,
) -> (Result<(), AllocError>, Two<Cell>)
    requires own { HaveOwnNumbers (cells.0 ∷ cells.1 ∷ []) }
    requires at { AreAt (S.places what) (cells.0 ∷ cells.1 ∷ []) }
    requires here { IsHere h.now (still (things (S.places what) (cells_for (cells.0 ∷ cells.1 ∷ []) (S.places what)))) (actor_of actor.old) }
    requires asked { S.asks what h.now (values (cells_for (cells.0 ∷ cells.1 ∷ []) (S.places what))) (actor_of actor.old) }
    ensures { IsMadeOver h.now (S.kind what) (S.sees what) (S.tells what) (S.may_fail what) (S.has_room what actor.old) (S.places what) result.0 (cells.0 ∷ cells.1 ∷ []) (result.1.0 ∷ result.1.1 ∷ []) (actor_of actor.old) (actor_of actor.new) }
{
    let (one, two) = cells;
    if are_two_in_order(what.places(), one.0) {
        return over_two_in_order(alloc, h, one, two, actor, what);
    }
    let (made, cells) = over_many(alloc, h, Held::of_two(one, two), actor, what);
    (made, cells.two())
}

/// The same where they stand in the order of their places.
fn over_two_in_order<S: CellStep>(
    alloc: Global,
    h: &Hierarchy,
    one: One<Cell>,
    two: One<Cell>,
    actor: &mut Actor,
    what: S,
) -> (Result<(), AllocError>, Two<Cell>)
    requires named { S.places what ≡ two_at one.0 two.0 }
    requires at { AreAt (S.places what) (one ∷ two ∷ []) }
    requires here { IsHere h.now (still (things (S.places what) (cells_for (one ∷ two ∷ []) (S.places what)))) (actor_of actor.old) }
    requires asked { S.asks what h.now (values (cells_for (one ∷ two ∷ []) (S.places what))) (actor_of actor.old) }
    ensures { IsMadeOver h.now (S.kind what) (S.sees what) (S.tells what) (S.may_fail what) (S.has_room what actor.old) (S.places what) result.0 (one ∷ two ∷ []) (result.1.0 ∷ result.1.1 ∷ []) (actor_of actor.old) (actor_of actor.new) }
{
    let mut first = Some(one.1);
    let mut second = Some(two.1);
    let mut others = Others::none();
    let made = what.run(alloc, h, &mut first, &mut second, &mut others, actor);
    let (Some(a), Some(b)) = (first, second) else {
        unreachable!()
    };
    (made, ((one.0, a), (two.0, b)))
}

/// Whether of the places behind the first two the next alone has a number.
pub(crate) fn is_one_more(others: [Option<u32>; 5]) -> bool
    ensures { result ≡ true → (third : ℕ) × (others ≡ Some third ∷ None ∷ None ∷ None ∷ None ∷ []) }
{
    let [third, fourth, fifth, sixth, seventh] = others;
    match (third, fourth, fifth, sixth, seventh) {
        (Some(_), None, None, None, None) => true,
        _ => false,
    }
}

/// Whether three cells stand in the order of their places, where one stands first, and one behind it.
fn are_three_in_order(places: Places, one: u32, two: u32) -> bool
    ensures { result ≡ true → (three : ℕ) × (row_of places ≡ three_at one two three) }
{
    match places {
        Places::Many(first, second, others) => {
            first == one && second == two && is_one_more(others)
        }
        Places::One(_) | Places::Two(_, _) => false,
    }
}

/// The same over three cells. Mostly they stand in the order of their places.
fn over_three<S: CellStep>(
    alloc: Global,
    h: &Hierarchy,
    cells: Three<Cell>,
    actor: &mut Actor,
    what: S,
) -> (Result<(), AllocError>, Three<Cell>)
    requires own { HaveOwnNumbers (cells.0 ∷ cells.1 ∷ cells.2 ∷ []) }
    requires at { AreAt (S.places what) (cells.0 ∷ cells.1 ∷ cells.2 ∷ []) }
    requires here { IsHere h.now (still (things (S.places what) (cells_for (cells.0 ∷ cells.1 ∷ cells.2 ∷ []) (S.places what)))) (actor_of actor.old) }
    requires asked { S.asks what h.now (values (cells_for (cells.0 ∷ cells.1 ∷ cells.2 ∷ []) (S.places what))) (actor_of actor.old) }
    ensures { IsMadeOver h.now (S.kind what) (S.sees what) (S.tells what) (S.may_fail what) (S.has_room what actor.old) (S.places what) result.0 (cells.0 ∷ cells.1 ∷ cells.2 ∷ []) (result.1.0 ∷ result.1.1 ∷ result.1.2 ∷ []) (actor_of actor.old) (actor_of actor.new) }
{
    let (one, two, three) = cells;
    if are_three_in_order(what.places(), one.0, two.0) {
        return over_three_in_order(alloc, h, one, two, three, actor, what);
    }
    let (made, cells) = over_many(alloc, h, Held::of_three(one, two, three), actor, what);
    (made, cells.three())
}

/// The same where they stand in the order of their places.
fn over_three_in_order<S: CellStep>(
    alloc: Global,
    h: &Hierarchy,
    one: One<Cell>,
    two: One<Cell>,
    three: One<Cell>,
    actor: &mut Actor,
    what: S,
) -> (Result<(), AllocError>, Three<Cell>)
    requires named { S.places what ≡ three_at one.0 two.0 three.0 }
    requires at { AreAt (S.places what) (one ∷ two ∷ three ∷ []) }
    requires here { IsHere h.now (still (things (S.places what) (cells_for (one ∷ two ∷ three ∷ []) (S.places what)))) (actor_of actor.old) }
    requires asked { S.asks what h.now (values (cells_for (one ∷ two ∷ three ∷ []) (S.places what))) (actor_of actor.old) }
    ensures { IsMadeOver h.now (S.kind what) (S.sees what) (S.tells what) (S.may_fail what) (S.has_room what actor.old) (S.places what) result.0 (one ∷ two ∷ three ∷ []) (result.1.0 ∷ result.1.1 ∷ result.1.2 ∷ []) (actor_of actor.old) (actor_of actor.new) }
{
    let mut first = Some(one.1);
    let mut second = Some(two.1);
    let mut others = Others {
        third: Some(three.1),
        fourth: None,
        fifth: None,
        sixth: None,
        seventh: None,
    };
    let made = what.run(alloc, h, &mut first, &mut second, &mut others, actor);
    let a = first.unwrap();
    let b = second.unwrap();
    let Others {
        third,
        fourth: _,
        fifth: _,
        sixth: _,
        seventh: _,
    } = others;
    let c = third.unwrap();
    (made, ((one.0, a), (two.0, b), (three.0, c)))
}

/// The same over any number of cells.
fn over_many<S: CellStep>(
    alloc: Global,
    h: &Hierarchy,
    cells: Held<Cell>,
    actor: &mut Actor,
    what: S,
) -> (Result<(), AllocError>, Held<Cell>)
    requires few { length cells ≤ 7 }
    requires own { HaveOwnNumbers cells }
    requires at { AreAt (S.places what) cells }
    requires here { IsHere h.now (still (things (S.places what) (cells_for cells (S.places what)))) (actor_of actor.old) }
    requires asked { S.asks what h.now (values (cells_for cells (S.places what))) (actor_of actor.old) }
    ensures { IsMadeOver h.now (S.kind what) (S.sees what) (S.tells what) (S.may_fail what) (S.has_room what actor.old) (S.places what) result.0 cells result.1 (actor_of actor.old) (actor_of actor.new) }
{
    let row = row_at(what.places());
    let (order, cells) = numbered(cells);
    let (mut first, mut second, mut others) = spread(cells, row);
    let made = what.run(alloc, h, &mut first, &mut second, &mut others, actor);
    let cells = gathered(row, first, second, others).arranged(order.as_slice());
    (made, cells)
}
