//! Laws of rows, of queries and of cells. There is nothing to do at run time.

ghost use Rattle.core_laws.specs.CellUse.{CellUseLaw};
ghost use Rattle.core_laws.specs.Finishing.{FinishLaw};
ghost use Rattle.core_laws.specs.Lines.{LineLaw};
ghost use Rattle.core_laws.specs.Meeting.{MeetLaw};

/// A split or a move that is finished leaves the rows of the shards that stand as they were: each is in one of them, once,
/// before the step and behind it, and no other row is in any.
pub fn finished_splits_and_moves_leave_the_rows()
    ensures { FinishLaw }
{}

/// Each row that was acknowledged is in one shard that stands, once, and that shard is the last one of the row's path or
/// comes from it.
pub fn acknowledged_rows_stay_in_line()
    ensures { LineLaw }
{}

/// What the parts of an open query have read is together the aggregate of the rows that are counted for them, none of
/// them twice. What is beneath a part that has read no gate, or beneath a block that is noted for one, is beneath no
/// other of these and is not counted.
pub fn queries_meet_each_row_once()
    ensures { MeetLaw }
{}

/// Where nobody has spares or a job, and no gate is left of a shard that is gone, the free cells and those of the gates and
/// trees of the shards that stand are together all cells of the stock, each once, and no others.
pub fn each_cell_has_one_use()
    ensures { CellUseLaw }
{}
