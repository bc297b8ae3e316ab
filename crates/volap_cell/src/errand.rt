//! A part that an actor took from a desk.
ghost use Rattle.std.specs.Prelude.{◌≡◌, Some};
ghost use Rattle.volap_cell.specs.declared.errand.Errand.{Errand};
ghost use Rattle.volap_cell.specs.declared.errand.RowErrand.{RowErrand};
ghost use Rattle.volap_cell.specs.declared.errand.Task.TheVariants.{Row as OfARow};

use dc_node::Todo;
use describing_set::Path;
use dim_hierarchy::{CompiledFilter, Filter, Row};
use measure_agg::Agg;

/// A part that an actor took from a desk: whose desk it is, and the shard and the worker of the part, by
/// which its place on the desk is found again.
#[derive(Drop)]
pub struct Errand {
    pub server: u8,
    pub shard: u32,
    pub worker: u8,
    pub task: Task,
}

/// What an errand does for its part.
#[derive(Drop)]
pub enum Task {
    /// It takes a row to its place.
    Row(RowErrand),
    /// A query's part that has read no gate.
    Unread(Filter),
    /// A query's part that has read its gate.
    Read(Box<Reading>),
}

/// A row on its way, with the shards by which it came.
#[derive(Drop)]
pub struct RowErrand {
    pub row: Row,
    pub path: Path,
    pub way: Way,
}

/// How far a row has come.
#[derive(Clone, Copy, Debug, PartialEq, Eq)]
pub enum Way {
    /// It has not passed its gate. The height of the tree there, where that was looked up, and whether the
    /// purse was filled by it since the part was taken.
    Before { height: Option<u32>, filled: bool },
    /// It is carried at the head of a group of the gate's tree.
    Carried { gate: u32, block: u32 },
    /// It is in its leaf, and the insert is still counted at the gate.
    Put { gate: u32 },
    /// It is in its place, and nothing is left to do.
    Placed,
}

/// A query's part that has read its gate.
#[derive(Drop)]
pub struct Reading {
    pub wanted: CompiledFilter,
    /// What it has counted.
    pub agg: Agg,
    /// The blocks that it has still to visit.
    pub todo: Todo,
    /// The gate at which it noted the root. It is counted there until the part ends.
    pub pin: Option<u32>,
}

impl Errand {
    /// Its row, where it has one, has come so far.
    fn bring(&mut self, way: Way)
        ensures { (r : RowErrand) → self.old.task ≡ OfARow r → self.new ≡ record self.old { task = OfARow (record r { way = way }) } }
    {
        if let Task::Row(going) = &mut self.task {
            going.way = way;
        }
    }
}

/// The row of an actor's errand, where it has one, has come so far.
pub fn go_on(errand: &mut Option<Errand>, way: Way)
    ensures { (e : Errand) → (r : RowErrand) → errand.old ≡ Some e → e.task ≡ OfARow r
        → errand.new ≡ Some (record e { task = OfARow (record r { way = way }) }) }
{
    if let Some(going) = errand {
        going.bring(way);
    }
}
