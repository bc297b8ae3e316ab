//! With all rows of a frozen shard collected, the new trees are made of them.
ghost use Rattle.std.specs.Prelude.{◌≡◌, ◌+◌, ◌<◌, ◌≤◌, ◌^◌, ◌++◌, ◌∷◌, [], length, map, reverse, vec_capacity, None, Some, All, IfOk, OnOk, OnErr, FitsSigned};
ghost use Rattle.std.specs.Int.{w64};
ghost use Rattle.core_admin.specs.BuildDue.{AreBuilt, BuildsTrees, CanBuild, CanBuildTrees, IsMadeOf, MayBuild, blocks_of, is_side, side_of};
ghost use Rattle.describing_set.specs.Plane.{IsHierarchyPlane, goes_left};
ghost use Rattle.dim_hierarchy.specs.Row.{IsCoordOf};
ghost use Rattle.dim_hierarchy.specs.Rows.{IsRowOf};
ghost use Rattle.core_tree.specs.shard_build.specs.Building.{spare_of};
ghost use Rattle.shard_codec.specs.Spelled.{AreSpelled};
ghost use Rattle.shard_plan.specs.Building.{cells_for};
ghost use Rattle.core_tree.specs.volap_cell.specs.AdminKinds.{spent_by, tree_of};
ghost use Rattle.core_tree.specs.volap_cell.specs.Cells.{cell_of};
ghost use Rattle.core_tree.specs.volap_cell.specs.Steps.{IsHere, Makes};
ghost use Rattle.core_tree.specs.volap_cell.specs.Values.{actor_of, building_of, collecting_of, job_of};
ghost use Rattle.core_tree.specs.volap_cell.specs.World.{change, held};
ghost use Rattle.core_tree.specs.volap_cell.specs.declared.kind.Kind.TheVariants.{Collect};

use crate::freezes::copy_of;
use cell_stock::{Purse, Spare};
use core_tree::link_descent::Fresh;
use core_tree::shard_build::{Built, build};
use core_tree::shard_store::CellList;
use core_tree::tree_shape::collect_laws;
use core_tree::volap_cell::{
    Actor, Building, BuiltTree, Cell, Collecting, Job, Stage, Unbuilt, lent,
};
use dc_node::Block;
use describing_set::{Plane, goes_left};
use dim_hierarchy::{ConceptId, Coord, Hierarchy, Items, Measures, Row};
use shard_codec::{CodecFault, decode, encode, text_laws};
use shard_plan::{cells_for, parts_fit};
use std::alloc::{AllocError, Global};

/// With all rows collected, makes the new trees of them, with cells of the purse: one for each side of the
/// plane, or for a move one of all rows, which pass through the transfer text. The memory that the trees
/// take beside their building is made first; where memory is wanting, nothing changes.
pub fn build_trees(
    alloc: Global,
    h: &Hierarchy,
    gate_at: u32,
    gate: &mut Cell,
    actor: &mut Actor,
) -> Result<(), AllocError>
    requires here { IsHere h.now (held gate_at (cell_of gate.old) ∷ []) (actor_of actor.old) }
    requires due { CanBuildTrees gate_at (cell_of gate.old) (actor_of actor.old) }
    ensures made { OnOk result (Makes h.now Collect (change gate_at (cell_of gate.old) (cell_of gate.new) ∷ []) (actor_of actor.old) (actor_of actor.new)) }
    ensures refused { OnErr result ((gate.new ≡ gate.old) × (actor_of actor.new ≡ actor_of actor.old)) }
{
    let _ = gate_at;
    let _ = gate;
    collect_laws();
    parts_fit();
    let job = lent(&mut actor.job);
    build_for(alloc, h, &mut actor.purse, job)
}

/// Makes the trees for the job.
fn build_for(
    alloc: Global,
    h: &Hierarchy,
    purse: &mut Purse,
    job: &mut Job,
) -> Result<(), AllocError>
    requires due { MayBuild h.now purse.old.spares (job_of job.old) }
    ensures made { OnOk result (BuildsTrees h.now purse.old purse.new (job_of job.old) (job_of job.new)) }
    ensures refused { OnErr result ((purse.new.spares ≡ purse.old.spares) × (job_of job.new ≡ job_of job.old)) }
{
    let Stage::Collecting(collecting) = &job.stage else {
        unreachable!()
    };
    let building = built_of(alloc, h, collecting, purse)?;
    job.stage = Stage::Building(building);
    Ok(())
}

/// What is built of what was collected.
fn built_of(
    alloc: Global,
    h: &Hierarchy,
    collecting: &Collecting,
    purse: &mut Purse,
) -> Result<Building, AllocError>
    requires due { CanBuild h.now purse.old.spares (collecting_of collecting.now) }
    ensures made { IfOk result (λ b. IsMadeOf h.now (collecting_of collecting.now) purse.old purse.new (building_of b)) }
    ensures refused { OnErr result (purse.new.spares ≡ purse.old.spares) }
{
    match &collecting.frozen.plane {
        None => one_tree(alloc, h, collecting, purse),
        Some(plane) => two_trees(alloc, h, plane, collecting, purse),
    }
}

/// A tree of all rows.
fn one_tree(
    alloc: Global,
    h: &Hierarchy,
    collecting: &Collecting,
    purse: &mut Purse,
) -> Result<Building, AllocError>
    requires due { CanBuild h.now purse.old.spares (collecting_of collecting.now) }
    requires none { collecting.now.frozen.plane ≡ None }
    ensures made { IfOk result (λ b. IsMadeOf h.now (collecting_of collecting.now) purse.old purse.new (building_of b)) }
    ensures refused { OnErr result (purse.new.spares ≡ purse.old.spares) }
{
    let read = copied(alloc, collecting.read.as_slice())?;
    let rows = passed_on(alloc, h, collecting.rows.as_slice())?;
    let mut room = room_for(alloc, cells_for(rows.len() as u64))?;
    let tree = build(alloc, rows, purse, h)?;
    let left = way_to(&tree);
    place(&mut room, tree.blocks);
    let (unbuilt, spent) = all_placed(room);
    Ok(Building {
        frozen: copy_of(&collecting.frozen),
        read: CellList::from_vec(read),
        left,
        right: None,
        unbuilt,
        spent,
    })
}

/// A tree for each side of the plane.
fn two_trees(
    alloc: Global,
    h: &Hierarchy,
    plane: &Plane,
    collecting: &Collecting,
    purse: &mut Purse,
) -> Result<Building, AllocError>
    requires due { CanBuild h.now purse.old.spares (collecting_of collecting.now) }
    requires cut { collecting.now.frozen.plane ≡ Some plane.now }
    ensures made { IfOk result (λ b. IsMadeOf h.now (collecting_of collecting.now) purse.old purse.new (building_of b)) }
    ensures refused { OnErr result (purse.new.spares ≡ purse.old.spares) }
{
    let read = copied(alloc, collecting.read.as_slice())?;
    let rows_left = rows_on(alloc, h, plane, true, collecting.rows.as_slice())?;
    let rows_right = rows_on(alloc, h, plane, false, collecting.rows.as_slice())?;
    let cells = cells_for(rows_left.len() as u64) + cells_for(rows_right.len() as u64);
    let mut room = room_for(alloc, cells)?;
    let (first, second) = both(alloc, h, rows_left, rows_right, purse)?;
    let left = way_to(&first);
    let right = way_to(&second);
    place(&mut room, second.blocks);
    place(&mut room, first.blocks);
    let (unbuilt, spent) = all_placed(room);
    Ok(Building {
        frozen: copy_of(&collecting.frozen),
        read: CellList::from_vec(read),
        left,
        right: Some(right),
        unbuilt,
        spent,
    })
}

/// Builds two trees. Where there is no memory for the second one, the spares of the first one go back to
/// the purse.
fn both(
    alloc: Global,
    h: &Hierarchy,
    left: Vec<Row>,
    right: Vec<Row>,
    purse: &mut Purse,
) -> Result<(Built, Built), AllocError>
    requires left { All (IsRowOf h.now) left.items }
    requires right { All (IsRowOf h.now) right.items }
    requires few { length left.items + length right.items < 2 ^ 32 }
    requires cells { cells_for (length left.items) + cells_for (length right.items) ≤ length purse.old.spares }
    ensures ok { IfOk result (λ b. AreBuilt h.now left.items right.items purse.old purse.new b.0 b.1) }
    ensures err { OnErr result (purse.new.spares ≡ purse.old.spares) }
{
    let first = build(alloc, left, purse, h)?;
    match build(alloc, right, purse, h) {
        Ok(second) => Ok((first, second)),
        Err(fault) => {
            give_back(first.blocks, purse);
            Err(fault)
        }
    }
}

/// Puts the spares that these blocks took back into the purse. Takes no memory.
fn give_back(blocks: Vec<Fresh>, purse: &mut Purse)
    requires room { length blocks.items ≤ purse.old.room }
    ensures { purse.new.spares ≡ purse.old.spares ++ reverse (map spare_of blocks.items) }
{
    let mut blocks = blocks;
    while let Some(last) = blocks.pop() {
        purse.put(Spare {
            cell: last.cell,
            stamp: last.block.stamp,
        });
    }
}

/// How a gate leads to the tree.
fn way_to(tree: &Built) -> BuiltTree
    ensures { result ≡ tree_of tree.now }
{
    BuiltTree {
        root: tree.root,
        stamp: tree.stamp,
        height: tree.height,
        agg: tree.agg,
        set: tree.set.copy(),
    }
}

/// Memory for the blocks of trees: boxes, and lists of the blocks that are not in their cells, the last one
/// first, and of their spares.
#[derive(Drop)]
struct Room {
    boxes: Vec<Box<Block>>,
    unbuilt: Vec<Unbuilt>,
    spent: Purse,
}

/// Memory for `n` blocks.
fn room_for(alloc: Global, n: u64) -> Result<Room, AllocError>
    ensures { IfOk result (λ r. (n ≤ length r.boxes.items) × (r.unbuilt.items ≡ []) × (n ≤ vec_capacity r.unbuilt) × (r.spent.spares ≡ []) × (n ≤ r.spent.room)) }
{
    let boxes = boxes_for(alloc, n as usize)?;
    let mut spent = Purse::new(alloc);
    spent.reserve(n)?;
    let unbuilt = Vec::with_capacity(alloc, n as usize)?;
    Ok(Room {
        boxes,
        unbuilt,
        spent,
    })
}

/// `n` boxes.
fn boxes_for(alloc: Global, n: usize) -> Result<Vec<Box<Block>>, AllocError>
    ensures { IfOk result (λ xs. length xs.items ≡ n) }
{
    let mut boxes = Vec::with_capacity(alloc, n)?;
    for _ in 0..n {
        boxes.push(Box::new(alloc, Block::leaf(0))?)?;
    }
    Ok(boxes)
}

/// Puts blocks into their boxes, the last one first. Takes no memory.
fn place(room: &mut Room, blocks: Vec<Fresh>)
    requires boxes { length blocks.items ≤ length room.old.boxes.items }
    requires list { length room.old.unbuilt.items + length blocks.items ≤ vec_capacity room.old.unbuilt }
    ensures boxes { length room.new.boxes.items + length blocks.items ≡ length room.old.boxes.items }
    ensures unbuilt { blocks_of room.new.unbuilt.items ≡ blocks_of room.old.unbuilt.items ++ reverse blocks.items }
    ensures count { length room.new.unbuilt.items ≡ length room.old.unbuilt.items + length blocks.items }
    ensures capacity { vec_capacity room.new.unbuilt ≡ vec_capacity room.old.unbuilt }
    ensures spent { room.new.spent ≡ room.old.spent }
{
    let mut blocks = blocks;
    while let Some(last) = blocks.pop() {
        place_one(&mut room.boxes, &mut room.unbuilt, last);
    }
}

/// Puts a block into a box. Takes no memory.
fn place_one(boxes: &mut Vec<Box<Block>>, unbuilt: &mut Vec<Unbuilt>, fresh: Fresh)
    requires boxes { 0 < length boxes.old.items }
    requires list { length unbuilt.old.items + 1 ≤ vec_capacity unbuilt.old }
    ensures boxes { length boxes.new.items + 1 ≡ length boxes.old.items }
    ensures unbuilt { blocks_of unbuilt.new.items ≡ blocks_of unbuilt.old.items ++ fresh ∷ [] }
    ensures count { length unbuilt.new.items ≡ length unbuilt.old.items + 1 }
    ensures capacity { vec_capacity unbuilt.new ≡ vec_capacity unbuilt.old }
{
    let mut home = boxes.take_last();
    *home = fresh.block;
    unbuilt.push_reserved(Unbuilt {
        cell: fresh.cell,
        block: home,
    });
}

/// The blocks that are not in their cells, in order, and their spares. Takes no memory.
fn all_placed(room: Room) -> (Items<Unbuilt>, Purse)
    requires none { room.spent.spares ≡ [] }
    requires enough { length room.unbuilt.items ≤ room.spent.room }
    ensures unbuilt { blocks_of result.0 ≡ reverse (blocks_of room.unbuilt.items) }
    ensures spent { result.1.spares ≡ spent_by (reverse (blocks_of room.unbuilt.items)) }
{
    let Room { unbuilt, spent, .. } = room;
    let mut unbuilt = unbuilt;
    let mut spent = spent;
    unbuilt.reverse();
    spend(unbuilt.as_slice(), &mut spent);
    (Items::from_vec(unbuilt), spent)
}

/// Lists the spares of these blocks. Takes no memory.
fn spend(unbuilt: &[Unbuilt], spent: &mut Purse)
    requires room { length unbuilt.now ≤ spent.old.room }
    ensures { spent.new.spares ≡ spent.old.spares ++ spent_by (blocks_of unbuilt.now) }
{
    for one in unbuilt {
        spent.put(Spare {
            cell: one.cell,
            stamp: one.block.stamp,
        });
    }
}

/// The rows as they come through the transfer text.
fn passed_on(alloc: Global, h: &Hierarchy, rows: &[Row]) -> Result<Vec<Row>, AllocError>
    requires rows { All (IsRowOf h.now) rows.now }
    ensures { IfOk result (λ xs. xs.items ≡ rows.now) }
{
    rows_fit(h, rows);
    let text = encode(alloc, h.dims(), rows)?;
    match decode(alloc, text.as_slice(), h) {
        Ok(rows) => Ok(rows),
        Err(CodecFault::NoMemory) => Err(AllocError),
        Err(_) => unreachable!(),
    }
}

/// A row's fields fit their types.
fn row_fits(row: &Row)
    ensures places { length row.now.at.at ≡ 8 }
    ensures number { row.now.no < 2 ^ 64 }
    ensures measures { FitsSigned w64 row.now.measures }
{
    number_fits(row.no);
    measures_fit(row.measures);
    places_fit(&row.at.at);
}

/// A number fits.
fn number_fits(no: u64)
    ensures { no < 2 ^ 64 }
{
    let _ = no;
}

/// So does a measure.
fn measures_fit(measures: Measures)
    ensures { FitsSigned w64 measures }
{
    let _ = measures;
}

/// So does a coordinate.
fn places_fit(at: &[ConceptId; 8])
    ensures { length at.now ≡ 8 }
{
    let _ = at;
}

/// So do those of rows of a hierarchy, each of which can be written.
fn rows_fit(h: &Hierarchy, rows: &[Row])
    requires rows { All (IsRowOf h.now) rows.now }
    ensures { AreSpelled h.now rows.now }
{
    let _ = h;
    for row in rows {
        row_fits(row);
    }
}

/// The numbers in a vector of their own.
fn copied(alloc: Global, numbers: &[u32]) -> Result<Vec<u32>, AllocError>
    ensures { IfOk result (λ xs. xs.items ≡ numbers.now) }
{
    Vec::from_slice(alloc, numbers)
}

/// Whether a row is on a side of the plane.
fn is_on(h: &Hierarchy, plane: &Plane, left: bool, at: &Coord) -> bool
    requires plane { IsHierarchyPlane h.now plane.now }
    requires at { IsCoordOf h.now at.now }
    ensures { result ≡ is_side left (goes_left h.now plane.now at.now) }
{
    let goes = goes_left(h, plane, at);
    if left { goes } else { !goes }
}

/// The rows on one side of a plane.
pub(crate) fn rows_on(
    alloc: Global,
    h: &Hierarchy,
    plane: &Plane,
    left: bool,
    rows: &[Row],
) -> Result<Vec<Row>, AllocError>
    requires plane { IsHierarchyPlane h.now plane.now }
    requires rows { All (IsRowOf h.now) rows.now }
    ensures { IfOk result (λ xs. xs.items ≡ side_of h.now plane.now left rows.now) }
{
    let mut found = Vec::new(alloc);
    for row in rows {
        if is_on(h, plane, left, &row.at) {
            add_row(&mut found, row)?;
        }
    }
    Ok(found)
}

/// Adds a row at the end.
fn add_row(rows: &mut Vec<Row>, row: &Row) -> Result<(), AllocError>
    ensures { OnOk result (rows.new.items ≡ rows.old.items ++ row.now ∷ []) }
{
    rows.reserve(1)?;
    rows.push_reserved(Row {
        no: row.no,
        at: Coord { at: row.at.at },
        measures: row.measures,
    });
    Ok(())
}
