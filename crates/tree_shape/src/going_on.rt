//! Why a run over trees goes on, and ends: not every actor waits for another, and a query's visits come
//! to an end.
ghost use Rattle.tree_shape.specs.Carrying.{DeepestLaw, SomeLaw};
ghost use Rattle.tree_shape.specs.Visiting.{FewLaw, VisitFallsLaw};

/// While rows are carried in a tree, the carrier of one that is deepest finds its child idle; so among
/// the actors there is always one whose next block nobody holds.
pub fn carrying_laws()
    ensures deepest { DeepestLaw }
    ensures some { SomeLaw }
{}

/// An unfinished query has no more blocks to visit than there are cells, and each visit leaves fewer.
pub fn visiting_laws()
    ensures few { FewLaw }
    ensures falls { VisitFallsLaw }
{}
