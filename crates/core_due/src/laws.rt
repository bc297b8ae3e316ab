//! What is known of what is due for parts, as laws.
ghost use Rattle.core_due.specs.Laws.{PartAskedLaw, PartEndsLaw, PartFreeLaw, PartKindLaw, PartPreparedLaw, PartReadyLaw, PartSeenLaw, RowPreparedLaw, RowReadyLaw, SparesPreparedLaw, SparesReadyLaw};

/// The step that is due for a part is of the kind that is due for it.
pub fn part_kinds()
    ensures { PartKindLaw }
{}

/// In a state that meets the invariant what a part's step asks is so, and its cells are there; nobody else must
/// keep them where what it wants is free. A row whose way is still to be picked has such a step too, and so
/// have spares that are left.
pub fn parts_prepared()
    ensures asked { PartAskedLaw }
    ensures prepared { PartPreparedLaw }
    ensures free { PartFreeLaw }
    ensures rows { RowPreparedLaw }
    ensures spares { SparesPreparedLaw }
{}

/// A state that one thread holds shows what is due for a part, and may make it.
pub fn parts_ready()
    ensures seen { PartSeenLaw }
    ensures ready { PartReadyLaw }
    ensures rows { RowReadyLaw }
    ensures spares { SparesReadyLaw }
{}

/// Where a step found no memory, the part may end.
pub fn parts_end()
    ensures { PartEndsLaw }
{}
