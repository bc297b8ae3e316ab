//! The steps of an actor's row to a head: in at a gate, and down from a block.
ghost use Rattle.std.specs.Prelude.{◌≡◌, ◌<◌, [], ◌∷◌, length, Some};
ghost use Rattle.seat_steps.specs.core_due.specs.Spares.{last_spare, spare_before};
ghost use Rattle.dc_node.specs.Block.{IsBodyOf, entries_in};
ghost use Rattle.dim_hierarchy.specs.Rows.{IsRowOf};
ghost use Rattle.seat_steps.specs.Floors.{IsSeated, Stands};
ghost use Rattle.part_steps.specs.Goings.{WentOn};
ghost use Rattle.part_steps.specs.Heads.{CanPick, IsPicked, IsToMake, PicksFor, group_in};
ghost use Rattle.seat_steps.specs.Looks.{Sees};
ghost use Rattle.part_steps.specs.Rows.{IsToDescend, IsToEnter};
ghost use Rattle.seat_steps.specs.Takes.{IsSameActor};
ghost use Rattle.seat_steps.specs.volap_cell.specs.Cells.{block_in, cell_of};
ghost use Rattle.seat_steps.specs.volap_cell.specs.Values.{actor_of};
ghost use Rattle.seat_steps.specs.volap_turns.specs.Rows.{IsThere};

use crate::heads::{Group, take_head};
use dc_node::Block;
use dim_hierarchy::{Hierarchy, Row};
use link_descent::pick;
use seat_steps::of_core_due::{last_spare, last_two};
use seat_steps::of_core_steps::RowStep;
use seat_steps::of_volap_cell::{Actor, Cell, Task};
use seat_steps::{Floor, Player, make};
use std::alloc::Global;
use std::sync::Wait;

/// The place of the entry of a directory that comes first for a row, and the group to which it leads.
#[tactic(auto, unfolding(link_descent::specs::Pick::pick_place))]
fn pick_for(h: &Hierarchy, row: &Row, block: &Block) -> (u8, Group)
    requires body { IsBodyOf h.now block.now.body }
    requires some { 0 < length (entries_in block.now.body) }
    requires row { IsRowOf h.now row.now }
    ensures { IsPicked h.now row.now (entries_in block.now.body) result.0 result.1 }
{
    let place = pick(block, h, &h.lineages(&row.at));
    let entry = &block.entries()[usize::from(place)];
    let group = Group {
        head: entry.child,
        stamp: entry.stamp,
    };
    (place, group)
}

/// The same of the directory in a cell, for the row of an actor.
fn pick_in(cell: &Cell, h: &Hierarchy, actor: &Actor) -> (u8, Group)
    requires can { CanPick h.now (actor_of actor.now) (cell_of cell.now) }
    ensures { PicksFor h.now (actor_of actor.now) (entries_in (block_in (cell_of cell.now)).body) result.0 result.1 }
{
    let Cell::Block(block) = cell else {
        unreachable!()
    };
    let Some(errand) = &actor.errand else {
        unreachable!()
    };
    let Task::Row(going) = &errand.task else {
        unreachable!()
    };
    pick_for(h, &going.row, block)
}

/// The group to which the gate in a cell leads.
fn root_in(cell: &Cell) -> Group
    ensures { result ≡ group_in (cell_of cell.now) }
{
    match cell {
        Cell::Gate(gate) => Group {
            head: gate.root,
            stamp: gate.stamp,
        },
        _ => Group { head: 0, stamp: 0 },
    }
}

/// The place of the entry that comes first for the actor's row in a held directory, and the group to which it leads.
fn pick_at(floor: &Floor, player: &mut Player, block: u32) -> (u8, Group)
    requires seated { IsSeated floor.now player.old }
    requires held { IsThere player.old.seat.view.held block }
    requires can { Sees player.old block (λ cell. CanPick floor.now.hierarchy (actor_of player.old.actor) cell) }
    ensures seen { Sees player.old block (λ cell. PicksFor floor.now.hierarchy (actor_of player.old.actor) (entries_in (block_in cell).body) result.0 result.1) }
    ensures same { player.new ≡ player.old }
{
    pick_in(
        player.seat.see(&floor.table, block),
        &floor.hierarchy,
        &player.actor,
    )
}

/// The group to which the gate in a held cell leads.
fn root_at(floor: &Floor, player: &mut Player, gate: u32) -> Group
    requires seated { IsSeated floor.now player.old }
    requires held { IsThere player.old.seat.view.held gate }
    ensures seen { Sees player.old gate (λ cell. result ≡ group_in cell) }
    ensures same { player.new ≡ player.old }
{
    root_in(player.seat.see(&floor.table, gate))
}

/// Takes the cells of the step by which the actor's row goes down from the block. The answer is that step.
fn take_down<R: Wait>(rt: &R, floor: &Floor, player: &mut Player, block: u32) -> RowStep
    requires stands { Stands floor.now player.old }
    requires descends { IsToDescend floor.now player.old block }
    ensures same { IsSameActor player.old player.new }
    ensures ready { IsToMake floor.now player.new result }
{
    let (place, group) = pick_at(floor, player, block);
    let last = last_spare(&player.actor.purse);
    let head = take_head(rt, floor, player, group, last, None);
    RowStep::Down {
        parent: block,
        place,
        child: head.at,
        first: head.first,
        second: head.second,
        fresh: head.fresh,
    }
}

/// The cells of the last two spares of the actor's purse.
fn spares_of(player: &mut Player) -> (Option<u32>, Option<u32>)
    ensures last { result.0 ≡ last_spare (actor_of player.old.actor).purse }
    ensures before { result.1 ≡ spare_before (actor_of player.old.actor).purse }
    ensures same { player.new ≡ player.old }
{
    last_two(&mut player.actor.purse)
}

/// Takes the cells of the step by which the actor's row comes in at the gate, but for the two that are held. The answer
/// is that step.
fn take_in<R: Wait>(rt: &R, floor: &Floor, player: &mut Player, map: u32, gate: u32) -> RowStep
    requires seated { IsSeated floor.now player.old }
    requires held { player.old.seat.ranks ≡ (map, Some 1) ∷ (gate, Some 2) ∷ [] }
    requires enters { IsToEnter floor.now player.old map gate }
    ensures same { IsSameActor player.old player.new }
    ensures ready { IsToMake floor.now player.new result }
{
    let group = root_at(floor, player, gate);
    let (last, before) = spares_of(player);
    let head = take_head(rt, floor, player, group, last, before);
    RowStep::EnterTree {
        map,
        gate,
        root: head.at,
        first: head.first,
        second: head.second,
        fresh: head.fresh,
        top: head.top,
    }
}

/// The actor's row makes a step whose cells are held. It takes no memory.
fn make_row(alloc: Global, floor: &Floor, player: &mut Player, step: RowStep)
    requires ready { IsToMake floor.now player.old step }
    ensures went { WentOn floor.now player.old player.new }
{
    let _ = make(alloc, floor, player, step);
}

/// The actor's row comes in at the gate, where rows do, and which the actor holds behind the table that leads to it.
pub(crate) fn enter<R: Wait>(
    rt: &R,
    alloc: Global,
    floor: &Floor,
    player: &mut Player,
    map: u32,
    gate: u32,
)
    requires seated { IsSeated floor.now player.old }
    requires held { player.old.seat.ranks ≡ (map, Some 1) ∷ (gate, Some 2) ∷ [] }
    requires enters { IsToEnter floor.now player.old map gate }
    ensures went { WentOn floor.now player.old player.new }
{
    let step = take_in(rt, floor, player, map, gate);
    make_row(alloc, floor, player, step);
}

/// The actor's row goes down from the block at which it is carried, and which is a directory.
pub(crate) fn descend<R: Wait>(
    rt: &R,
    alloc: Global,
    floor: &Floor,
    player: &mut Player,
    block: u32,
)
    requires stands { Stands floor.now player.old }
    requires descends { IsToDescend floor.now player.old block }
    ensures went { WentOn floor.now player.old player.new }
{
    let step = take_down(rt, floor, player, block);
    make_row(alloc, floor, player, step);
}
