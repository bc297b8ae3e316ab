//! The page of the tree of a shard.
ghost use Rattle.std.specs.Prelude.{◌≡◌, List, IfOk};
ghost use Rattle.core_pages.specs.Looks.{HasCells, IsValid};
ghost use Rattle.core_pages.specs.Seen.{CanSeeIn, IsOfGate, IsSeenIn};
ghost use Rattle.dim_hierarchy.specs.Dimension.{Dimension};

use crate::looks::Cells;
use crate::walk::page_of;
use row_ledger::TreePage;
use std::alloc::{AllocError, Global};

/// What the tree looks like of the shard whose gate is in a cell, where there are so many cells. The shard
/// stands and nobody is at a part, so no row is on its way through the tree. Takes memory for the lines,
/// and for copies of the entries on the way down.
pub fn tree_page_at<C: Cells>(
    alloc: Global,
    cells: &mut C,
    many: u32,
    gate_at: u32,
) -> Result<TreePage, AllocError>
    requires state { (h : List Dimension) × IsValid h (C.state cells.old) }
    requires there { HasCells many (C.state cells.old) }
    requires can { CanSeeIn (C.state cells.old) many gate_at }
    ensures same { C.state cells.new ≡ C.state cells.old }
    ensures page { IfOk result (λ p. IsSeenIn (C.state cells.old) p) }
    ensures shard { IfOk result (λ p. IsOfGate (C.state cells.old) gate_at p) }
{
    page_of(alloc, cells, many, gate_at)
}
