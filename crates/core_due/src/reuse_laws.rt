//! Laws of cells that are used again. There is nothing to do at run time.
ghost use Rattle.core_due.specs.ReuseLaws.{ReusePreparedLaw, ReuseReadyLaw, ReuseSeenLaw, NoneGoneLaw};

/// What is due for an administrator between two commands can be made: what it asks is so, and its cells are there,
/// which nobody must keep. A thread that holds the state sees it, and may make it. Where nobody is at a part and no cell
/// can be used again, no gate is gone.
pub fn cells_can_be_reused()
    ensures prepared { ReusePreparedLaw }
    ensures seen { ReuseSeenLaw }
    ensures ready { ReuseReadyLaw }
    ensures none { NoneGoneLaw }
{}
