//! The driver of a step in a state that one thread holds.
ghost use Rattle.std.specs.Prelude.{◌≡◌, ◌≢◌, ◌<◌, ◌∷◌, false, length, Some, None, IsOk, OnErr, OnOk, slice_index_or, slice_set};
ghost use Rattle.core_steps.specs.Places.{Fill, held_at, things, two_at, values};
ghost use Rattle.core_steps.specs.Steps.{IsFurther, IsSame, IsSound, IsSpared, IsTold, MayMake, Went};
ghost use Rattle.core_shard.specs.volap_cell.specs.State.{still};
ghost use Rattle.core_shard.specs.volap_cell.specs.Steps.{IsHere};
ghost use Rattle.core_shard.specs.volap_cell.specs.Values.{actor_of};

use crate::lending::lend_two;
use crate::moving::{lift, put};
use crate::step::{CellStep, Others, Places};
use core_shard::volap_cell::{Actor, Cell, State, lent};
use dim_hierarchy::Hierarchy;
use std::alloc::{AllocError, Global};

/// An actor makes a step: the first two cells are lent where they stand, and others are moved out and put
/// back. Where memory is wanting, the state stays as it was.
pub fn make<S: CellStep>(
    alloc: Global,
    h: &Hierarchy,
    state: &mut State,
    number: usize,
    step: S,
) -> Result<(), AllocError>
    requires sound { IsSound h.now state.old }
    requires may { MayMake h.now state.old number (S.places step) (S.asks step h.now) (S.sees step) }
    ensures further { OnOk result (IsFurther h.now (S.kind step) number state.old state.new) }
    ensures told { OnOk result (IsTold state.old state.new number (S.places step) (S.tells step)) }
    ensures spared { OnOk result (IsSpared state.old state.new (S.places step)) }
    ensures sure { S.may_fail step ≡ false → IsOk result }
    ensures same { OnErr result (IsSame state.old state.new) }
{
    match step.places() {
        Places::One(first) => {
            let actor = lent(&mut state.actors[number]);
            step.run(
                alloc,
                h,
                &mut state.cells[first as usize],
                &mut None,
                &mut Others::none(),
                actor,
            )
        }
        Places::Two(first, second) => make_two(alloc, h, state, number, first, second, step),
        Places::Many(first, second, rest) => make_many(
            alloc, h, state, number, first, second, &rest, step,
        ),
    }
}

/// Makes a step that holds two cells. Never inlined, nor is the next one, as each pays at each call for the room
/// of what it holds.
#[inline(never)]
fn make_two<S: CellStep>(
    alloc: Global,
    h: &Hierarchy,
    state: &mut State,
    number: usize,
    first: u32,
    second: u32,
    step: S,
) -> Result<(), AllocError>
    requires sound { IsSound h.now state.old }
    requires may { MayMake h.now state.old number (S.places step) (S.asks step h.now) (S.sees step) }
    requires named { two_at first second ≡ S.places step }
    ensures further { OnOk result (IsFurther h.now (S.kind step) number state.old state.new) }
    ensures told { OnOk result (IsTold state.old state.new number (S.places step) (S.tells step)) }
    ensures spared { OnOk result (IsSpared state.old state.new (S.places step)) }
    ensures sure { S.may_fail step ≡ false → IsOk result }
    ensures same { OnErr result (IsSame state.old state.new) }
{
    let actor = lent(&mut state.actors[number]);
    run_two(
        alloc,
        h,
        &mut state.cells,
        first,
        second,
        &mut Others::none(),
        actor,
        step,
    )
}

/// Makes a step that holds more than two cells: the others are moved out, and put back.
#[inline(never)]
fn make_many<S: CellStep>(
    alloc: Global,
    h: &Hierarchy,
    state: &mut State,
    number: usize,
    first: u32,
    second: u32,
    rest: &[Option<u32>; 5],
    step: S,
) -> Result<(), AllocError>
    requires sound { IsSound h.now state.old }
    requires may { MayMake h.now state.old number (S.places step) (S.asks step h.now) (S.sees step) }
    requires named { (Some first ∷ Some second ∷ rest.now) ≡ S.places step }
    ensures further { OnOk result (IsFurther h.now (S.kind step) number state.old state.new) }
    ensures told { OnOk result (IsTold state.old state.new number (S.places step) (S.tells step)) }
    ensures spared { OnOk result (IsSpared state.old state.new (S.places step)) }
    ensures sure { S.may_fail step ≡ false → IsOk result }
    ensures same { OnErr result (IsSame state.old state.new) }
{
    let actor = lent(&mut state.actors[number]);
    let mut others = lift(&mut state.cells, rest);
    let made = run_two(
        alloc,
        h,
        &mut state.cells,
        first,
        second,
        &mut others,
        actor,
        step,
    );
    put(&mut state.cells, rest, others);
    made
}

/// Makes a step whose first two cells are lent where they stand.
fn run_two<S: CellStep>(
    alloc: Global,
    h: &Hierarchy,
    cells: &mut [Option<Cell>],
    first: u32,
    second: u32,
    others: &mut Others,
    actor: &mut Actor,
    step: S,
) -> Result<(), AllocError>
    requires first { first < length cells.old }
    requires second { second < length cells.old }
    requires apart { second ≢ first }
    requires fill { Fill (S.places step) (held_at cells.old first second others.old) }
    requires here { IsHere h.now (still (things (S.places step) (held_at cells.old first second others.old))) (actor_of actor.old) }
    requires asked { S.asks step h.now (values (held_at cells.old first second others.old)) (actor_of actor.old) }
    ensures cells { cells.new ≡ slice_set (slice_set cells.old first (slice_index_or cells.new first None)) second (slice_index_or cells.new second None) }
    ensures fill { Fill (S.places step) (held_at cells.new first second others.new) }
    ensures went { OnOk result (Went h.now (S.kind step) (S.sees step) (S.places step) (held_at cells.old first second others.old) (held_at cells.new first second others.new) (actor_of actor.old) (actor_of actor.new)) }
    ensures told { OnOk result (S.tells step (actor_of actor.old) (values (held_at cells.old first second others.old)) (values (held_at cells.new first second others.new))) }
    ensures sure { S.may_fail step ≡ false → IsOk result }
    ensures refused { OnErr result (((held_at cells.new first second others.new) ≡ (held_at cells.old first second others.old)) × (actor_of actor.new ≡ actor_of actor.old)) }
{
    let (one, two) = lend_two(cells, first as usize, second as usize);
    step.run(alloc, h, one, two, others, actor)
}
