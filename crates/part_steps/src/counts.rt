//! How many rows a step of a query tests, read off the held cell before the step.
ghost use Rattle.std.specs.Prelude.{◌≡◌, length};
ghost use Rattle.dc_node.specs.Block.{rows_in};
ghost use Rattle.dim_hierarchy.specs.Filter.{IsFilterOf};
ghost use Rattle.part_steps.specs.Counts.{CanTest, Tests, tests_in_block, tests_in_queue};
ghost use Rattle.seat_steps.specs.Floors.{IsSeated};
ghost use Rattle.seat_steps.specs.Looks.{Sees};
ghost use Rattle.seat_steps.specs.shard_store.specs.Gate.{IsQueueOf};
ghost use Rattle.seat_steps.specs.volap_cell.specs.Cells.{cell_of};
ghost use Rattle.seat_steps.specs.volap_cell.specs.Values.{actor_of};
ghost use Rattle.seat_steps.specs.volap_turns.specs.Rows.{IsThere};

use dc_node::{Block, Body};
use dim_hierarchy::{Filter, Hierarchy};
use seat_steps::of_shard_store::Queue;
use seat_steps::of_volap_cell::{Actor, Cell, Task};
use seat_steps::{Floor, Player};

/// How many rows a block has; a directory has none.
fn rows_of(block: &Block) -> u64
    ensures { result ≡ length (rows_in block.now.body) }
{
    match &block.body {
        Body::Rows(rows) => rows.len() as u64,
        Body::Entries(_) => 0,
    }
}

/// How many rows a visit of the block in a cell tests.
fn rows_in(cell: &Cell) -> u64
    ensures { result ≡ tests_in_block (cell_of cell.now) }
{
    match cell {
        Cell::Block(block) => rows_of(block),
        _ => 0,
    }
}

/// How many rows a visit of the block in a held cell tests.
pub(crate) fn rows_at(floor: &Floor, player: &mut Player, block: u32) -> u64
    requires seated { IsSeated floor.now player.old }
    requires held { IsThere player.old.seat.view.held block }
    ensures seen { Sees player.old block (λ cell. result ≡ tests_in_block cell) }
    ensures same { player.new ≡ player.old }
{
    rows_in(player.seat.see(&floor.table, block))
}

/// How many rows of a queue a query tests.
fn tests_of(queue: &Queue, h: &Hierarchy, filter: &Filter) -> u64
    requires queue { IsQueueOf h.now queue.now }
    requires filter { IsFilterOf h.now filter.now }
    ensures { result ≡ tests_in_queue h.now filter.now queue.now }
{
    if queue.set.inside(h, filter) {
        return 0;
    }
    if queue.set.overlaps(h, filter) {
        queue.rows.len() as u64
    } else {
        0
    }
}

/// How many rows the actor's query tests at the gate in a cell.
fn tests_in(cell: &Cell, h: &Hierarchy, actor: &Actor) -> u64
    requires can { CanTest h.now (actor_of actor.now) (cell_of cell.now) }
    ensures { Tests h.now (actor_of actor.now) (cell_of cell.now) result }
{
    let Cell::Gate(gate) = cell else {
        unreachable!()
    };
    let Some(errand) = &actor.errand else {
        unreachable!()
    };
    let Task::Unread(filter) = &errand.task else {
        unreachable!()
    };
    tests_of(&gate.queue, h, filter)
}

/// How many rows the actor's query tests at the gate in a held cell.
pub(crate) fn tests_at(floor: &Floor, player: &mut Player, gate: u32) -> u64
    requires seated { IsSeated floor.now player.old }
    requires held { IsThere player.old.seat.view.held gate }
    requires can { Sees player.old gate (λ cell. CanTest floor.now.hierarchy (actor_of player.old.actor) cell) }
    ensures seen { Sees player.old gate (λ cell. Tests floor.now.hierarchy (actor_of player.old.actor) cell result) }
    ensures same { player.new ≡ player.old }
{
    tests_in(
        player.seat.see(&floor.table, gate),
        &floor.hierarchy,
        &player.actor,
    )
}
