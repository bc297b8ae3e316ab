//! What is looked up once a turn, for all actors that are asked in it.
ghost use Rattle.std.specs.Prelude.{◌≡◌, ◌<◌, ◌||◌, ℕ, Some, None, true, false, get_or, length};
ghost use Rattle.std.specs.List.{list_any, position};
ghost use Rattle.query_router.specs.Desk.{is_waiting, waits_for};
ghost use Rattle.seeded_run.specs.Hands.{AreFreeHands};
ghost use Rattle.core_due.specs.Look.{cell_at};
ghost use Rattle.seeded_run.specs.Survey.{AllAwaited, IsSurvey, KnowsAwaited, MarksCarried, mark_of, worker_count};
ghost use Rattle.seeded_run.specs.Takes.{carries_at};
ghost use Rattle.core_pages.specs.volap_cell.specs.Cells.{desk_in};

use crate::hands::FreeHands;
use crate::wanted::block_carried;
use core_due::{cell_at, desk_at};
use core_pages::volap_cell::{Actor, Cell, State};
use query_router::{Desk, Part};
use row_ledger::Use;

/// So many workers a byte tells.
const WORKERS: usize = 256;

/// So many marks there are. A block's mark is what is left of its number when that is divided by this.
const MARKS: usize = 256;

/// What is looked up once a turn. It takes no memory.
#[derive(Drop)]
pub struct Survey {
    /// By worker that there is: whether a part on any desk waits for it.
    awaited: [bool; WORKERS],
    /// By mark: whether a row may be carried at a block with this mark.
    carried: [bool; MARKS],
}

/// The mark of a block.
fn mark_of(block: u32) -> usize
    ensures { result ≡ mark_of block }
{
    (block % 256) as usize
}

/// Notes for which worker a part waits, if it waits.
fn note_part(awaited: &mut [bool; WORKERS], part: &Part)
    ensures { (worker : ℕ) → worker < worker_count → get_or awaited.new worker false ≡ (waits_for worker part.now || get_or awaited.old worker false) }
{
    if part.is_waiting() {
        awaited[usize::from(part.worker)] = true;
    }
}

/// The first worker from one on of whom it isn't known that a part waits for it, or how many workers there are.
fn first_unknown(awaited: &[bool; WORKERS], from: u8, workers: u8) -> u8
    requires known { AllAwaited awaited.now from }
    ensures known { AllAwaited awaited.now result }
{
    let mut known = from;
    while known < workers && awaited[usize::from(known)] {
        known += 1;
    }
    known
}

/// Notes for which workers parts wait, of which the first one that waits is known. It ends where parts wait for all
/// workers that there are. All workers below one are known to be awaited before, and all below the result then.
fn note_parts(
    awaited: &mut [bool; WORKERS],
    parts: &[Part],
    first: usize,
    known: u8,
    workers: u8,
) -> u8
    requires first { position is_waiting parts.now ≡ Some first }
    requires known { AllAwaited awaited.old known }
    ensures noted { (worker : ℕ) → worker < workers → get_or awaited.new worker false ≡ (list_any (waits_for worker) parts.now || get_or awaited.old worker false) }
    ensures known { AllAwaited awaited.new result }
{
    let mut known = known;
    for place in first..parts.len() {
        if known >= workers {
            return known;
        }
        note_part(awaited, &parts[place]);
        known = first_unknown(awaited, known, workers);
    }
    known
}

/// Notes for which workers parts wait on a desk. Mostly none waits there for anybody.
fn note_desk(awaited: &mut [bool; WORKERS], desk: &Desk, known: u8, workers: u8) -> u8
    requires known { AllAwaited awaited.old known }
    ensures noted { (worker : ℕ) → worker < workers → get_or awaited.new worker false ≡ (list_any (waits_for worker) desk.now.parts || get_or awaited.old worker false) }
    ensures known { AllAwaited awaited.new result }
{
    match desk.first_waiting() {
        Some(first) => note_parts(awaited, desk.parts(), first, known, workers),
        None => known,
    }
}

/// Notes for which workers parts wait on the desk in a cell.
fn note_cell(
    awaited: &mut [bool; WORKERS],
    cells: &[Option<Cell>],
    at: u32,
    known: u8,
    workers: u8,
) -> u8
    requires known { AllAwaited awaited.old known }
    ensures noted { (worker : ℕ) → worker < workers → get_or awaited.new worker false ≡ (list_any (waits_for worker) (desk_in (cell_at cells.now at)).parts || get_or awaited.old worker false) }
    ensures known { AllAwaited awaited.new result }
{
    match cell_at(cells, at) {
        Some(Cell::Desk { desk, .. }) => note_desk(awaited, desk, known, workers),
        _ => known,
    }
}

/// By worker, whether a part on any desk waits for it. Where parts wait for all workers nobody looks further.
fn awaited_by(with: &Use, cells: &[Option<Cell>]) -> [bool; WORKERS]
    ensures { KnowsAwaited with.now cells.now result }
{
    let mut awaited = [false; WORKERS];
    let mut known = 0;
    for server in 0..with.servers {
        if known >= with.workers {
            return awaited;
        }
        known = note_cell(
            &mut awaited,
            cells,
            desk_at(with, server),
            known,
            with.workers,
        );
    }
    awaited
}

/// The block at which an actor carries a row, if it does. A hand with nothing to do isn't looked at.
fn carried_at(hands: &FreeHands, actors: &[Option<Actor>], number: usize) -> Option<u32>
    requires within { number < length actors.now }
    requires free { AreFreeHands actors.now hands.now }
    ensures { (block : ℕ) → carries_at (get_or actors.now number None) block ≡ true → result ≡ Some block }
{
    match hands.worker_of(number) {
        Some(_) => None,
        None => block_carried(&actors[number]),
    }
}

/// By mark, whether a row may be carried at a block with this mark.
fn carried_by(hands: &FreeHands, actors: &[Option<Actor>]) -> [bool; MARKS]
    requires free { AreFreeHands actors.now hands.now }
    ensures { MarksCarried actors.now result }
{
    let mut carried = [false; MARKS];
    for number in 0..actors.len() {
        if let Some(block) = carried_at(hands, actors, number) {
            carried[mark_of(block)] = true;
        }
    }
    carried
}

impl Survey {
    /// What is there to be seen in a state, where it is known which hands have nothing to do.
    pub(crate) fn of(with: &Use, state: &State, hands: &FreeHands) -> Survey
        requires free { AreFreeHands state.now.actors.items hands.now }
        ensures { IsSurvey with.now state.now.cells.items state.now.actors.items result }
    {
        Survey {
            awaited: awaited_by(with, &state.cells),
            carried: carried_by(hands, &state.actors),
        }
    }

    /// Whether a part on any desk waits for the worker, of those that there are.
    pub(crate) fn is_awaited(&self, worker: u8) -> bool
        ensures { result ≡ get_or self.now.awaited worker false }
    {
        self.awaited[usize::from(worker)]
    }

    /// Whether a row may be carried at the block: where this says no, nobody carries one there.
    pub(crate) fn is_marked(&self, block: u32) -> bool
        ensures { result ≡ get_or self.now.carried (mark_of block) false }
    {
        self.carried[mark_of(block)]
    }
}
