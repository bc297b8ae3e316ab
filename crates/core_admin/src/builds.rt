//! A block of a new tree is put in its cell, and a job is given up.
ghost use Rattle.std.specs.Prelude.{◌≡◌, ◌≢◌, ◌≤◌, [], ◌∷◌, ◌++◌, is_some, option_map};
ghost use Rattle.core_admin.specs.FinishDue.{BuildsLast, BuildsNext, CanBuildBlock, CanPostpone, Closes, GivesAll, GivesSpent, IsUnbuilt, MayClose, MayGiveAll, NotesGivenUp, gone_by, plans as is_planned};
ghost use Rattle.cell_stock.specs.Stock.{AreOut};
ghost use Rattle.core_tree.specs.volap_cell.specs.AdminKinds.{spent_in};
ghost use Rattle.core_tree.specs.volap_cell.specs.Cells.{BlockCell, cell_of};
ghost use Rattle.core_tree.specs.volap_cell.specs.Steps.{IsHere, Makes};
ghost use Rattle.core_tree.specs.volap_cell.specs.Values.{actor_of, job_of, stage_of};
ghost use Rattle.core_tree.specs.volap_cell.specs.World.{change, held};
ghost use Rattle.core_tree.specs.volap_cell.specs.declared.kind.Kind.TheVariants.{BuildBlock, Postpone};

use cell_stock::{Purse, Stock, laws};
use core_image::advance;
use core_tree::tree_shape::{collect_laws, frame_law};
use core_tree::volap_cell::{
    Actor, Building, Cell, Command, Job, Stage, Unbuilt, Work, ledger_in, lent, stock_in, there,
};
use dc_node::Block;
use dim_hierarchy::{Hierarchy, Items};
use row_ledger::{Event, How, Ledger};
use std::alloc::Global;
use std::mem;

/// Puts the last block of the actor's job that is not in its cell yet there. What the cell had goes. Takes no
/// memory; the allocator is that of the list of blocks.
pub fn build_block(alloc: Global, h: &Hierarchy, at: u32, cell: &mut Cell, actor: &mut Actor)
    requires here { IsHere h.now (held at (cell_of cell.old) ∷ []) (actor_of actor.old) }
    requires due { CanBuildBlock at (actor_of actor.old) }
    ensures made { Makes h.now BuildBlock (change at (cell_of cell.old) (cell_of cell.new) ∷ []) (actor_of actor.old) (actor_of actor.new) }
{
    let _ = h;
    frame_law();
    collect_laws();
    let job = lent(&mut actor.job);
    build_next(alloc, job, cell);
}

/// Puts the last block that is not in its cell yet into the cell, where the job builds.
fn build_next(alloc: Global, job: &mut Job, cell: &mut Cell)
    requires { IsUnbuilt job.old }
    ensures { BuildsNext job.old job.new (cell_of cell.new) }
{
    if let Stage::Building(building) = &mut job.stage {
        build_last(alloc, building, cell);
    }
}

/// Puts the last block that is not in its cell yet into the cell, and takes it off the list.
fn build_last(alloc: Global, building: &mut Building, cell: &mut Cell)
    requires { building.old.unbuilt ≢ [] }
    ensures { BuildsLast building.old building.new (cell_of cell.new) }
{
    let next = take_last(alloc, &mut building.unbuilt);
    put_block(cell, next.block);
}

/// Takes the last block off a list. The list is empty in between, which takes no memory.
fn take_last(alloc: Global, unbuilt: &mut Items<Unbuilt>) -> Unbuilt
    requires some { unbuilt.old ≢ [] }
    ensures { unbuilt.old ≡ unbuilt.new ++ result ∷ [] }
{
    let mut blocks = mem::replace(unbuilt, Items::new(alloc)).into_vec();
    let last = blocks.take_last();
    *unbuilt = Items::from_vec(blocks);
    last
}

/// Puts a block into a cell. What the cell had goes.
fn put_block(cell: &mut Cell, block: Box<Block>)
    ensures { cell_of cell.new ≡ BlockCell block.value }
{
    mem::replace(cell, Cell::Block(block));
}

/// Gives the actor's job up, whose shard is frozen and stays so: all its cells are free again. A balance goes on
/// to its next action, and any other command ends. Takes no memory.
pub fn postpone(
    h: &Hierarchy,
    stock_at: u32,
    stock: &mut Cell,
    ledger_at: u32,
    ledger: &mut Cell,
    actor: &mut Actor,
)
    requires here { IsHere h.now (held stock_at (cell_of stock.old) ∷ held ledger_at (cell_of ledger.old) ∷ []) (actor_of actor.old) }
    requires due { CanPostpone (cell_of stock.old) (cell_of ledger.old) (actor_of actor.old) }
    ensures made { Makes h.now Postpone
        (change stock_at (cell_of stock.old) (cell_of stock.new) ∷ change ledger_at (cell_of ledger.old) (cell_of ledger.new) ∷ [])
        (actor_of actor.old) (actor_of actor.new) }
{
    let _ = h;
    let stock = stock_in(stock);
    let ledger = ledger_in(ledger);
    let command = there(&actor.command);
    let job = lent(&mut actor.job);
    let planned = plans(&command.work);
    note_given_up(ledger, planned, command.of, job.shard);
    give_all(stock, &mut actor.purse, job);
    close(&mut actor.command, &mut actor.job, planned);
    actor.seen = ledger.len();
}

/// Whether a command plans its actions, so that one which is given up is not its end.
pub(crate) fn plans(work: &Work) -> bool
    ensures { result ≡ is_planned work.now }
{
    match work {
        Work::Balance(_) => true,
        _ => false,
    }
}

/// Notes that a job is given up: a planned action is left, and a command of one action ends, with a promise
/// that it did not need.
fn note_given_up(ledger: &mut Ledger, planned: bool, of: u64, shard: u32)
    requires { gone_by planned ≤ ledger.old.promised }
    ensures { NotesGivenUp planned of shard ledger.old ledger.new }
{
    let how = How::Postponed;
    if planned {
        ledger.push(Event::Left { of, shard, how });
    } else {
        ledger.push(Event::Ended { of, how });
        ledger.cancel(1);
    }
}

/// Gives all spares of the purse back to the stock, and those that the job has spent.
fn give_all(stock: &mut Stock, purse: &mut Purse, job: &mut Job)
    requires { MayGiveAll stock.old purse.old.spares (spent_in (stage_of job.old.stage)) }
    ensures { GivesAll stock.old stock.new purse.old purse.new (spent_in (stage_of job.old.stage)) }
{
    laws();
    stock.give(purse);
    give_spent(stock, &mut job.stage);
}

/// Gives what a job has spent for new blocks back to the stock.
fn give_spent(stock: &mut Stock, stage: &mut Stage)
    requires { AreOut stock.old (spent_in (stage_of stage.old)) }
    ensures { GivesSpent stock.old stock.new (spent_in (stage_of stage.old)) }
{
    if let Stage::Building(building) = stage {
        stock.give(&mut building.spent);
    }
}

/// The command goes on where it plans, and ends otherwise.
fn close(command: &mut Option<Command>, job: &mut Option<Box<Job>>, planned: bool)
    requires { MayClose planned command.old (is_some job.old) }
    ensures { Closes planned command.old command.new (option_map (λ j. job_of j.value) job.new) }
{
    if planned {
        advance(command, job);
    } else {
        *command = None;
        *job = None;
    }
}
