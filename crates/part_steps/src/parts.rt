//! The step that is due for the part that an actor is at.
ghost use Rattle.std.specs.Prelude.{ℕ, ◌≡◌, ◌≤◌, ◌+◌, ◌++◌, [], ◌∷◌, false, true, IsSome, Some};
ghost use Rattle.seat_steps.specs.core_due.specs.Look.{setting_by};
ghost use Rattle.seat_steps.specs.core_steps.specs.Parts.{part_may_fail, part_places};
ghost use Rattle.seat_steps.specs.core_steps.specs.Places.{numbers};
ghost use Rattle.seat_steps.specs.core_steps.specs.Trees.{tree_may_fail, tree_places};
ghost use Rattle.seat_steps.specs.core_steps.specs.declared.parts.PartStep.TheVariants.{FinishPinned};
ghost use Rattle.seat_steps.specs.Floors.{IsSeated, Stands};
ghost use Rattle.part_steps.specs.Counts.{Costs, HasReadAlone, IsOfEverything};
ghost use Rattle.part_steps.specs.Goings.{WentOn};
ghost use Rattle.part_steps.specs.Parts.{MayWaitFor, HasWay, IsFor, IsForRow, IsLed, IsPartSure, IsUnread, IsVisiting, IsRouteOf, IsTreeSure, CanEndPart};
ghost use Rattle.seat_steps.specs.declared.looks.Lead.TheVariants as lead;
ghost use Rattle.part_steps.specs.declared.parts.AtGate.TheVariants as at_gate;
ghost use Rattle.turn_table.specs.Numbered.{numbers_of};
ghost use Rattle.seat_steps.specs.volap_cell.specs.ShardKinds.{pin_of};
ghost use Rattle.seat_steps.specs.volap_cell.specs.Setting.{desk_cell};
ghost use Rattle.seat_steps.specs.volap_cell.specs.Values.{ErrandValue, actor_of};
ghost use Rattle.seat_steps.specs.volap_cell.specs.declared.errand.Way.TheVariants as way;
ghost use Rattle.seat_steps.specs.volap_turns.specs.Rows.{AreAt};

use crate::counts::{rows_at, tests_at};
use crate::rows::{descend, enter};
use crate::steps::Steps;
use seat_steps::of_core_due::{desk_at, is_spent, last_noted, map_at};
use seat_steps::of_core_steps::{PartStep, TreeStep, stock_place};
use seat_steps::of_volap_cell::{Actor, Errand, Task, Way};
use seat_steps::{Floor, Lead, Player, is_leaf_at, lead_at, make, may_enter_at, take};
use std::alloc::Global;
use std::sync::Wait;

/// What was done for a part. No clause tells of it.
#[derive(Clone, Copy)]
pub enum Did {
    Step,
    /// A block was visited.
    Visit,
    /// The part ended.
    End,
}

/// The gate at which the actor's part is pinned, if it is.
fn pin_of(actor: &Actor) -> Option<u32>
    ensures { (e : ErrandValue) → (actor_of actor.now).errand ≡ Some e → result ≡ pin_of e.task }
{
    match &actor.errand {
        Some(
            Errand {
                task: Task::Read(reading),
                ..
            },
        ) => reading.pin,
        _ => None,
    }
}

/// The desk of the actor's part.
fn desk_of(floor: &Floor, actor: &Actor) -> u32
    requires part { IsSome (actor_of actor.now).errand }
    ensures { (e : ErrandValue) → (actor_of actor.now).errand ≡ Some e → result ≡ desk_cell (setting_by [] floor.now.with) e.server }
{
    match &actor.errand {
        Some(errand) => desk_at(&floor.with, errand.server),
        None => unreachable!(),
    }
}

/// The actor makes the step by which its part ends, over the cells that it holds. Takes no memory.
fn make_end(alloc: Global, floor: &Floor, player: &mut Player, step: PartStep)
    requires seated { IsSeated floor.now player.old }
    requires at { AreAt (part_places step) player.old.seat.view.held }
    requires ready { IsPartSure floor.now player.old step }
    requires ends { CanEndPart (actor_of player.old.actor) }
    requires sure { part_may_fail step ≡ false }
    ensures went { WentOn floor.now player.old player.new }
{
    let _ = make(alloc, floor, player, step);
}

/// The same with its desk, for which the actor waits.
fn take_to_end<R: Wait>(
    rt: &R,
    alloc: Global,
    floor: &Floor,
    player: &mut Player,
    desk: u32,
    step: PartStep,
)
    requires seated { IsSeated floor.now player.old }
    requires can { MayWaitFor floor.now player.old desk 4 }
    requires last { numbers (part_places step) ≡ numbers_of player.old.seat.ranks ++ desk ∷ [] }
    requires ready { IsPartSure floor.now player.old step }
    requires ends { CanEndPart (actor_of player.old.actor) }
    requires sure { part_may_fail step ≡ false }
    ensures went { WentOn floor.now player.old player.new }
{
    take(rt, floor, player, desk, 4);
    make_end(alloc, floor, player, step);
}

/// The actor's part ends, which is pinned at the gate.
fn end_pinned<R: Wait>(
    rt: &R,
    alloc: Global,
    floor: &Floor,
    player: &mut Player,
    gate: u32,
    desk: u32,
)
    requires seated { IsSeated floor.now player.old }
    requires bare { player.old.seat.ranks ≡ [] }
    requires can { MayWaitFor floor.now player.old gate 2 }
    requires ready { IsPartSure floor.now player.old (FinishPinned gate desk) }
    requires ends { CanEndPart (actor_of player.old.actor) }
    ensures went { WentOn floor.now player.old player.new }
{
    take(rt, floor, player, gate, 2);
    let step = PartStep::FinishPinned { gate, desk };
    take_to_end(rt, alloc, floor, player, desk, step);
}

/// The actor's part ends. Takes no memory.
fn end_part<R: Wait>(rt: &R, alloc: Global, floor: &Floor, player: &mut Player)
    requires stands { Stands floor.now player.old }
    requires ends { CanEndPart (actor_of player.old.actor) }
    ensures went { WentOn floor.now player.old player.new }
{
    let desk = desk_of(floor, &player.actor);
    match pin_of(&player.actor) {
        Some(gate) => end_pinned(rt, alloc, floor, player, gate, desk),
        None => {
            let step = PartStep::FinishPart { desk };
            take_to_end(rt, alloc, floor, player, desk, step);
        }
    }
}

/// The actor makes a step between desks, tables and gates over the cells that it holds. Where it finds no memory, its
/// part ends.
fn make_part<R: Wait>(
    rt: &R,
    alloc: Global,
    floor: &Floor,
    player: &mut Player,
    step: PartStep,
) -> Did
    requires seated { IsSeated floor.now player.old }
    requires at { AreAt (part_places step) player.old.seat.view.held }
    requires ready { IsPartSure floor.now player.old step }
    requires ends { CanEndPart (actor_of player.old.actor) }
    ensures went { WentOn floor.now player.old player.new }
{
    if make(alloc, floor, player, step).is_ok() {
        return Did::Step;
    }
    end_part(rt, alloc, floor, player);
    Did::End
}

/// The same with one more cell, for which the actor waits.
fn take_for_part<R: Wait>(
    rt: &R,
    alloc: Global,
    floor: &Floor,
    player: &mut Player,
    cell: u32,
    rank: u8,
    step: PartStep,
) -> Did
    requires seated { IsSeated floor.now player.old }
    requires can { MayWaitFor floor.now player.old cell rank }
    requires last { numbers (part_places step) ≡ numbers_of player.old.seat.ranks ++ cell ∷ [] }
    requires ready { IsPartSure floor.now player.old step }
    requires ends { CanEndPart (actor_of player.old.actor) }
    ensures went { WentOn floor.now player.old player.new }
{
    take(rt, floor, player, cell, rank);
    make_part(rt, alloc, floor, player, step)
}

/// The actor makes a step at a gate, at a block or of its purse over the cells that it holds. Where it finds no
/// memory, its part ends.
fn make_tree<R: Wait>(
    rt: &R,
    alloc: Global,
    floor: &Floor,
    player: &mut Player,
    step: TreeStep,
) -> Did
    requires seated { IsSeated floor.now player.old }
    requires at { AreAt (tree_places step) player.old.seat.view.held }
    requires ready { IsTreeSure floor.now player.old step }
    requires ends { tree_may_fail step ≡ true → CanEndPart (actor_of player.old.actor) }
    requires row { IsForRow step (actor_of player.old.actor) }
    ensures went { WentOn floor.now player.old player.new }
{
    if make(alloc, floor, player, step).is_ok() {
        return Did::Step;
    }
    end_part(rt, alloc, floor, player);
    Did::End
}

/// The same with one more cell, for which the actor waits.
fn take_for_tree<R: Wait>(
    rt: &R,
    alloc: Global,
    floor: &Floor,
    player: &mut Player,
    cell: u32,
    rank: u8,
    step: TreeStep,
) -> Did
    requires seated { IsSeated floor.now player.old }
    requires can { MayWaitFor floor.now player.old cell rank }
    requires last { numbers (tree_places step) ≡ numbers_of player.old.seat.ranks ++ cell ∷ [] }
    requires ready { IsTreeSure floor.now player.old step }
    requires ends { tree_may_fail step ≡ true → CanEndPart (actor_of player.old.actor) }
    requires row { IsForRow step (actor_of player.old.actor) }
    ensures went { WentOn floor.now player.old player.new }
{
    take(rt, floor, player, cell, rank);
    make_tree(rt, alloc, floor, player, step)
}

/// What is due for a part at its gate.
#[derive(Clone, Copy)]
enum AtGate {
    /// The height of the tree is looked up for the row.
    LooksUp,
    /// The row comes in, or is put in the queue.
    Enters,
    /// The query reads the gate.
    Reads,
}

/// The actor's row, whose purse is filled, comes in at the gate where rows do, and else it is put in the queue.
fn enter_or_queue<R: Wait>(
    rt: &R,
    alloc: Global,
    floor: &Floor,
    player: &mut Player,
    map: u32,
    gate: u32,
) -> Did
    requires seated { IsSeated floor.now player.old }
    requires held { player.old.seat.ranks ≡ (map, Some 1) ∷ (gate, Some 2) ∷ [] }
    requires led { IsLed floor.now player.old map (lead.Gate gate) }
    requires due { IsFor at_gate.Enters (actor_of player.old.actor) }
    ensures went { WentOn floor.now player.old player.new }
{
    if may_enter_at(floor, player, gate) {
        enter(rt, alloc, floor, player, map, gate);
        return Did::Step;
    }
    make_tree(rt, alloc, floor, player, TreeStep::EnterQueue { map, gate })
}

/// The actor's query reads the gate, which the actor holds behind the table that leads to it.
fn read<R: Wait>(
    rt: &R,
    alloc: Global,
    floor: &Floor,
    player: &mut Player,
    map: u32,
    gate: u32,
    steps: &mut Steps,
) -> Did
    requires seated { IsSeated floor.now player.old }
    requires held { player.old.seat.ranks ≡ (map, Some 1) ∷ (gate, Some 2) ∷ [] }
    requires led { IsLed floor.now player.old map (lead.Gate gate) }
    requires unread { IsUnread (actor_of player.old.actor) }
    ensures went { WentOn floor.now player.old player.new }
    ensures kept { steps.old ≤ steps.new }
    ensures none { IsOfEverything floor.now.hierarchy (actor_of player.old.actor) → steps.new ≡ steps.old }
{
    let tests = tests_at(floor, player, gate);
    steps.add(tests);
    make_tree(rt, alloc, floor, player, TreeStep::ReadGate { map, gate })
}

/// The actor's part is at its gate, to which the held table leads.
fn go_on_at_gate<R: Wait>(
    rt: &R,
    alloc: Global,
    floor: &Floor,
    player: &mut Player,
    map: u32,
    gate: u32,
    due: AtGate,
    steps: &mut Steps,
) -> Did
    requires seated { IsSeated floor.now player.old }
    requires held { player.old.seat.ranks ≡ (map, Some 1) ∷ [] }
    requires can { MayWaitFor floor.now player.old gate 2 }
    requires led { IsLed floor.now player.old map (lead.Gate gate) }
    requires due { IsFor due (actor_of player.old.actor) }
    ensures went { WentOn floor.now player.old player.new }
    ensures kept { steps.old ≤ steps.new }
    ensures few { IsOfEverything floor.now.hierarchy (actor_of player.old.actor) → steps.new ≤ steps.old + 1 }
{
    steps.add(1);
    match due {
        AtGate::LooksUp => {
            let step = PartStep::LookUp { map, gate };
            take_for_part(rt, alloc, floor, player, gate, 2, step)
        }
        AtGate::Enters => {
            take(rt, floor, player, gate, 2);
            enter_or_queue(rt, alloc, floor, player, map, gate)
        }
        AtGate::Reads => {
            take(rt, floor, player, gate, 2);
            read(rt, alloc, floor, player, map, gate, steps)
        }
    }
}

/// Where a part goes that has not passed its gate.
#[derive(Clone, Copy)]
struct Route {
    /// The table of its worker.
    map: u32,
    desk: u32,
    shard: u32,
}

/// Where the actor's part goes.
fn route_of(floor: &Floor, actor: &Actor) -> Route
    requires part { IsSome (actor_of actor.now).errand }
    ensures { (e : ErrandValue) → (actor_of actor.now).errand ≡ Some e → IsRouteOf floor.now e result }
{
    match &actor.errand {
        Some(errand) => Route {
            map: map_at(&floor.with, errand.worker),
            desk: desk_at(&floor.with, errand.server),
            shard: errand.shard,
        },
        None => unreachable!(),
    }
}

/// The actor's part, which has not passed its gate, goes on to where the held table leads.
fn follow<R: Wait>(
    rt: &R,
    alloc: Global,
    floor: &Floor,
    player: &mut Player,
    route: Route,
    to: Lead,
    due: AtGate,
    steps: &mut Steps,
) -> Did
    requires seated { IsSeated floor.now player.old }
    requires held { player.old.seat.ranks ≡ (route.map, Some 1) ∷ [] }
    requires route { (e : ErrandValue) → (actor_of player.old.actor).errand ≡ Some e → IsRouteOf floor.now e route }
    requires led { IsLed floor.now player.old route.map to }
    requires due { IsFor due (actor_of player.old.actor) }
    ensures went { WentOn floor.now player.old player.new }
    ensures kept { steps.old ≤ steps.new }
    ensures few { IsOfEverything floor.now.hierarchy (actor_of player.old.actor) → steps.new ≤ steps.old + 1 }
{
    let Route { map, desk, .. } = route;
    match to {
        Lead::Gate(gate) => go_on_at_gate(rt, alloc, floor, player, map, gate, due, steps),
        Lead::Split => {
            let step = PartStep::Expand { map, desk };
            take_for_part(rt, alloc, floor, player, desk, 4, step)
        }
        Lead::Moved => {
            let step = PartStep::Forward { map, desk };
            take_for_part(rt, alloc, floor, player, desk, 4, step)
        }
        Lead::Nowhere => unreachable!(),
    }
}

/// The actor's part, which has not passed its gate, goes on to where the table of its worker leads.
fn go_by_table<R: Wait>(
    rt: &R,
    alloc: Global,
    floor: &Floor,
    player: &mut Player,
    due: AtGate,
    steps: &mut Steps,
) -> Did
    requires stands { Stands floor.now player.old }
    requires due { IsFor due (actor_of player.old.actor) }
    ensures went { WentOn floor.now player.old player.new }
    ensures kept { steps.old ≤ steps.new }
    ensures few { IsOfEverything floor.now.hierarchy (actor_of player.old.actor) → steps.new ≤ steps.old + 2 }
{
    let route = route_of(floor, &player.actor);
    take(rt, floor, player, route.map, 1);
    steps.add(1);
    let to = lead_at(floor, player, route.map, route.shard);
    follow(rt, alloc, floor, player, route, to, due, steps)
}

/// The actor's row, which is carried at the block, is put in it where that is a leaf, and else goes further down.
fn carry<R: Wait>(rt: &R, alloc: Global, floor: &Floor, player: &mut Player, block: u32) -> Did
    requires stands { Stands floor.now player.old }
    requires carried { (gate : ℕ) × HasWay (actor_of player.old.actor) (way.Carried gate block) }
    ensures went { WentOn floor.now player.old player.new }
{
    if is_leaf_at(floor, player, block) {
        return make_tree(
            rt,
            alloc,
            floor,
            player,
            TreeStep::PutInLeaf { leaf: block },
        );
    }
    descend(rt, alloc, floor, player, block);
    Did::Step
}

/// The actor's row is in its place: what is left in the purse is given back before the part ends.
fn finish<R: Wait>(rt: &R, alloc: Global, floor: &Floor, player: &mut Player) -> Did
    requires stands { Stands floor.now player.old }
    requires placed { HasWay (actor_of player.old.actor) way.Placed }
    ensures went { WentOn floor.now player.old player.new }
{
    if is_spent(&player.actor) {
        end_part(rt, alloc, floor, player);
        return Did::End;
    }
    take_for_tree(
        rt,
        alloc,
        floor,
        player,
        stock_place(),
        7,
        TreeStep::GiveBack,
    )
}

/// The actor goes on with its row, which has not passed its gate. The purse is filled for a height that is known
/// without another look at the table: that needs the stock alone.
fn go_on_before<R: Wait>(
    rt: &R,
    alloc: Global,
    floor: &Floor,
    player: &mut Player,
    height: Option<u32>,
    filled: bool,
) -> Did
    requires stands { Stands floor.now player.old }
    requires before { HasWay (actor_of player.old.actor) (way.Before height filled) }
    ensures went { WentOn floor.now player.old player.new }
{
    // A row's steps are not counted.
    let mut steps = Steps::new();
    if height.is_none() {
        return go_by_table(rt, alloc, floor, player, AtGate::LooksUp, &mut steps);
    }
    if filled {
        return go_by_table(rt, alloc, floor, player, AtGate::Enters, &mut steps);
    }
    take_for_tree(rt, alloc, floor, player, stock_place(), 7, TreeStep::Refill)
}

/// The actor goes on with its row, which has come so far.
fn go_on_with_row<R: Wait>(
    rt: &R,
    alloc: Global,
    floor: &Floor,
    player: &mut Player,
    way: Way,
) -> Did
    requires stands { Stands floor.now player.old }
    requires way { HasWay (actor_of player.old.actor) way }
    ensures went { WentOn floor.now player.old player.new }
{
    match way {
        Way::Before { height, filled } => go_on_before(rt, alloc, floor, player, height, filled),
        Way::Carried { block, .. } => carry(rt, alloc, floor, player, block),
        Way::Put { gate } => {
            let step = TreeStep::LeaveTree { gate };
            take_for_tree(rt, alloc, floor, player, gate, 2, step)
        }
        Way::Placed => finish(rt, alloc, floor, player),
    }
}

/// How many gates are taken for the end of the actor's part: the one at which it is pinned, if it is.
fn end_cost(actor: &Actor) -> u64
    ensures alone { HasReadAlone (actor_of actor.now) → result ≡ 0 }
{
    match pin_of(actor) {
        Some(_) => 1,
        None => 0,
    }
}

/// The actor's query visits the block that the actor holds, and which it noted last.
fn visit<R: Wait>(
    rt: &R,
    alloc: Global,
    floor: &Floor,
    player: &mut Player,
    block: u32,
    steps: &mut Steps,
) -> Did
    requires seated { IsSeated floor.now player.old }
    requires held { player.old.seat.ranks ≡ (block, Some 3) ∷ [] }
    requires reading { IsVisiting (actor_of player.old.actor) (Some block) }
    ensures went { WentOn floor.now player.old player.new }
    ensures kept { steps.old ≤ steps.new }
{
    let tests = rows_at(floor, player, block);
    steps.add(tests);
    let end = end_cost(&player.actor);
    match make_tree(rt, alloc, floor, player, TreeStep::VisitBlock { block }) {
        Did::Step => Did::Visit,
        ended => {
            steps.add(end);
            ended
        }
    }
}

/// The actor's query, which has read its gate, visits the block that it noted last, or ends its part.
fn go_on_with_query<R: Wait>(
    rt: &R,
    alloc: Global,
    floor: &Floor,
    player: &mut Player,
    noted: Option<u32>,
    steps: &mut Steps,
) -> Did
    requires stands { Stands floor.now player.old }
    requires reading { IsVisiting (actor_of player.old.actor) noted }
    ensures went { WentOn floor.now player.old player.new }
    ensures kept { steps.old ≤ steps.new }
    ensures none { HasReadAlone (actor_of player.old.actor) → steps.new ≡ steps.old }
{
    let Some(block) = noted else {
        steps.add(end_cost(&player.actor));
        end_part(rt, alloc, floor, player);
        return Did::End;
    };
    take(rt, floor, player, block, 3);
    steps.add(1);
    visit(rt, alloc, floor, player, block, steps)
}

/// The actor goes on with its part by one step, for which it waits for the turns of the cells. Where it finds no
/// memory, its part ends so. The steps of a query are counted.
pub fn go_on_at_part<R: Wait>(
    rt: &R,
    alloc: Global,
    floor: &Floor,
    player: &mut Player,
    steps: &mut Steps,
) -> Did
    requires stands { Stands floor.now player.old }
    requires part { IsSome (actor_of player.old.actor).errand }
    ensures went { WentOn floor.now player.old player.new }
    ensures costs { Costs floor.now.hierarchy (actor_of player.old.actor) steps.old steps.new }
{
    let Some(errand) = &player.actor.errand else {
        unreachable!()
    };
    match &errand.task {
        Task::Row(going) => {
            let way = going.way;
            go_on_with_row(rt, alloc, floor, player, way)
        }
        Task::Unread(_) => go_by_table(rt, alloc, floor, player, AtGate::Reads, steps),
        Task::Read(reading) => {
            let noted = last_noted(&reading.todo);
            go_on_with_query(rt, alloc, floor, player, noted, steps)
        }
    }
}
