//! What is due for an actor that is at a part.
ghost use Rattle.std.specs.Prelude.{◌≡◌, [], option_copied};
ghost use Rattle.core_due.specs.Due.{is_empty, led_to, may_enter};
ghost use Rattle.core_due.specs.Look.{cell_at, setting_by, world_by};
ghost use Rattle.core_due.specs.Parts.{carried_due, ending, gate_due, led_due, part_due, placed_due, read_due, row_due, unread_due};
ghost use Rattle.core_due.specs.Wants.{last_noted};
ghost use Rattle.core_steps.specs.volap_cell.specs.Cells.{GateCell, block_in};
ghost use Rattle.core_steps.specs.volap_cell.specs.Setting.{map_cell};
ghost use Rattle.core_steps.specs.volap_cell.specs.Values.{actor_of, errand_of, reading_of};

use crate::sights::{cell_at, desk_at, is_leaf_at, map_at, where_at};
use core_steps::shard_store::{Gate, Phase};
use core_steps::volap_cell::{Actor, Cell, Errand, Reading, Task, Way};
use core_steps::{PartStep, TreeStep};
use dc_node::Todo;
use mapping_table::Where;
use row_ledger::Use;

/// What is due for an actor that is at a part: a step with its cells, or one whose row's way is still to be
/// picked.
#[derive(Drop)]
pub enum PartDue {
    /// A step between desks, tables of shards and gates.
    Part(PartStep),
    /// A step at a gate or a block, or of the purse.
    Tree(TreeStep),
    /// The row comes in at the gate, to which the worker's table leads.
    Enters { map: u32, gate: u32 },
    /// The row goes down from the block at which it is carried.
    Descends { block: u32 },
}

/// Where the part's worker has its shard.
fn led_to<'a>(with: &Use, cells: &'a [Option<Cell>], errand: &Errand) -> Option<&'a Where>
    ensures { option_copied result ≡ led_to (setting_by [] with.now) (world_by cells.now) (errand_of errand.now) }
{
    where_at(cells, map_at(with, errand.worker), errand.shard)
}

/// Whether the actor has no spare cell.
pub fn is_spent(actor: &Actor) -> bool
    ensures { result ≡ is_empty (actor_of actor.now).purse }
{
    actor.purse.len() == 0
}

/// Whether rows come in at the gate, and the actor has spares for each level of its tree.
pub fn lets_in(gate: &Gate, actor: &Actor) -> bool
    ensures { result ≡ may_enter (GateCell gate.now) (actor_of actor.now) }
{
    match gate.phase {
        Phase::Open => u64::from(gate.height) + 2 <= actor.purse.len() as u64,
        Phase::Frozen { .. } | Phase::Gone => false,
    }
}

/// Whether a row comes in at what is in a cell.
fn may_enter(cells: &[Option<Cell>], gate: u32, actor: &Actor) -> bool
    ensures { result ≡ may_enter (cell_at cells.now gate) (actor_of actor.now) }
{
    match cell_at(cells, gate) {
        Some(Cell::Gate(gate)) => lets_in(gate, actor),
        _ => false,
    }
}

/// What is due for a row at its gate: its height is looked up, the purse is filled by that, and it comes in.
fn gate_due(
    cells: &[Option<Cell>],
    map: u32,
    gate: u32,
    actor: &Actor,
    height: Option<u32>,
    filled: bool,
) -> PartDue
    ensures { result ≡ gate_due map gate (cell_at cells.now gate) (actor_of actor.now) height filled }
{
    if height.is_none() {
        return PartDue::Part(PartStep::LookUp { map, gate });
    }
    if !filled {
        return PartDue::Tree(TreeStep::Refill);
    }
    if may_enter(cells, gate, actor) {
        PartDue::Enters { map, gate }
    } else {
        PartDue::Tree(TreeStep::EnterQueue { map, gate })
    }
}

/// What is due for a row that hasn't passed its gate.
fn before_due(
    with: &Use,
    cells: &[Option<Cell>],
    actor: &Actor,
    errand: &Errand,
    height: Option<u32>,
    filled: bool,
) -> Option<PartDue>
    ensures { result ≡ led_due (setting_by [] with.now) (world_by cells.now) (errand_of errand.now)
        (λ gate. gate_due (map_cell (setting_by [] with.now) (errand_of errand.now).worker) gate (cell_at cells.now gate) (actor_of actor.now) height filled) }
{
    let map = map_at(with, errand.worker);
    let desk = desk_at(with, errand.server);
    match led_to(with, cells, errand) {
        None => None,
        Some(Where::Gate(gate)) => Some(gate_due(cells, map, *gate, actor, height, filled)),
        Some(Where::Split { .. }) => Some(PartDue::Part(PartStep::Expand { map, desk })),
        Some(Where::Moved(_)) => Some(PartDue::Part(PartStep::Forward { map, desk })),
    }
}

/// What is due for a query's part that has read no gate.
fn unread_due(with: &Use, cells: &[Option<Cell>], errand: &Errand) -> Option<PartDue>
    ensures { result ≡ unread_due (setting_by [] with.now) (world_by cells.now) (errand_of errand.now) }
{
    let map = map_at(with, errand.worker);
    let desk = desk_at(with, errand.server);
    match led_to(with, cells, errand) {
        None => None,
        Some(Where::Gate(gate)) => Some(PartDue::Tree(TreeStep::ReadGate { map, gate: *gate })),
        Some(Where::Split { .. }) => Some(PartDue::Part(PartStep::Expand { map, desk })),
        Some(Where::Moved(_)) => Some(PartDue::Part(PartStep::Forward { map, desk })),
    }
}

/// What is due for a row that is carried at a block.
fn carried_due(cells: &[Option<Cell>], block: u32) -> PartDue
    ensures { result ≡ carried_due (world_by cells.now) block }
{
    if is_leaf_at(cells, block) {
        PartDue::Tree(TreeStep::PutInLeaf { leaf: block })
    } else {
        PartDue::Descends { block }
    }
}

/// What is due for a row in its place: what is left of the purse is given back before the part ends.
pub fn placed_due(with: &Use, actor: &Actor, errand: &Errand) -> PartDue
    ensures { result ≡ placed_due (setting_by [] with.now) (actor_of actor.now) (errand_of errand.now) }
{
    if is_spent(actor) {
        PartDue::Part(PartStep::FinishPart {
            desk: desk_at(with, errand.server),
        })
    } else {
        PartDue::Tree(TreeStep::GiveBack)
    }
}

/// What is due for a row that has come so far. Where its shard is matters only before its gate.
fn row_due(
    with: &Use,
    cells: &[Option<Cell>],
    actor: &Actor,
    errand: &Errand,
    way: Way,
) -> Option<PartDue>
    ensures { result ≡ row_due (setting_by [] with.now) (world_by cells.now) (actor_of actor.now) (errand_of errand.now) way }
{
    match way {
        Way::Before { height, filled } => before_due(with, cells, actor, errand, height, filled),
        Way::Carried { block, .. } => Some(carried_due(cells, block)),
        Way::Put { gate } => Some(PartDue::Tree(TreeStep::LeaveTree { gate })),
        Way::Placed => Some(placed_due(with, actor, errand)),
    }
}

/// The block that was noted last.
pub fn last_noted(todo: &Todo) -> Option<u32>
    ensures { result ≡ last_noted todo.now.items }
{
    match todo.last() {
        Some(item) => Some(item.cell),
        None => None,
    }
}

/// The step by which a part ends that is pinned there, or nowhere.
pub fn ending(with: &Use, errand: &Errand, pin: Option<u32>) -> PartStep
    ensures { result ≡ ending (setting_by [] with.now) (errand_of errand.now) pin }
{
    let desk = desk_at(with, errand.server);
    match pin {
        Some(gate) => PartStep::FinishPinned { gate, desk },
        None => PartStep::FinishPart { desk },
    }
}

/// What is due for a query's part that has read its gate: it visits the blocks that it has noted, and then ends.
pub fn read_due(with: &Use, errand: &Errand, reading: &Reading) -> PartDue
    ensures { result ≡ read_due (setting_by [] with.now) (errand_of errand.now) (reading_of reading.now) }
{
    match last_noted(&reading.todo) {
        Some(block) => PartDue::Tree(TreeStep::VisitBlock { block }),
        None => PartDue::Part(ending(with, errand, reading.pin)),
    }
}

/// What is due for an actor that is at this part. Takes no memory.
pub fn part_due(
    with: &Use,
    cells: &[Option<Cell>],
    actor: &Actor,
    errand: &Errand,
) -> Option<PartDue>
    ensures { result ≡ part_due (setting_by [] with.now) (world_by cells.now) (actor_of actor.now) (errand_of errand.now) }
{
    match &errand.task {
        Task::Row(going) => row_due(with, cells, actor, errand, going.way),
        Task::Unread(_) => unread_due(with, cells, errand),
        Task::Read(reading) => Some(read_due(with, errand, reading)),
    }
}
