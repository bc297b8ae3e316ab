//! Laws of what is due for open commands. There is nothing to do at run time.
ghost use Rattle.core_due.specs.WorkLaws.{ShowLaw, StillLaw, WorkAskedLaw, WorkKindLaw, WorkPreparedLaw, WorkReadyLaw, WorkSeenLaw};

use core_steps::tree_shape::collect_laws;
use shard_plan::parts_fit;

/// What is due for an open command is of the kind that is due, what it asks is so, and its cells are there; so
/// it is of what is done in its place where memory is wanting. A thread that holds the state sees what is due
/// in it, and can make it.
pub fn works_can_be_made()
    ensures kind { WorkKindLaw }
    ensures asked { WorkAskedLaw }
    ensures shown { ShowLaw }
    ensures prepared { WorkPreparedLaw }
    ensures seen { WorkSeenLaw }
    ensures ready { WorkReadyLaw }
    ensures same { StillLaw }
{
    collect_laws();
    parts_fit();
}
