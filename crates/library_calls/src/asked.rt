//! A row and a question by names.
ghost use Rattle.std.specs.Prelude.{◌≡◌, ◌↔◌, IsTrue, IsOkUnless, IfNone, IfOk, IfSome, All, Err, List, is_none, length, position};
ghost use Rattle.dim_hierarchy.specs.Filter.{IsFilterNamed, picks};
ghost use Rattle.dim_hierarchy.specs.Names.{IsNamePick};
ghost use Rattle.dim_hierarchy.specs.Meaning.{Matches};
ghost use Rattle.dim_hierarchy.specs.Row.{IsCoordNamed, leaves};
ghost use Rattle.dim_hierarchy.specs.declared.filter.Pick.{Pick};
ghost use Rattle.dim_hierarchy.specs.declared.row.Coord.{Coord};

use dim_hierarchy::{FilterFault, Hierarchy, NameFilter, RowNames};
use std::alloc::Global;

/// Whether a row of these names is one that the question in names asks for. Else the first dimension
/// in which a name is not known, of the row before the question, or want of memory.
pub fn is_counted(
    alloc: Global,
    h: &Hierarchy,
    row: &RowNames,
    question: &NameFilter,
) -> Result<bool, FilterFault>
    requires row { length row.now ≡ length h.now }
    requires question { length question.now ≡ length h.now }
    requires some { All IsNamePick question.now }
    ensures row { IfSome (position is_none (leaves h.now row.now)) (λ dim. result ≡ Err (FilterFault.Unknown dim)) }
    ensures question { IfNone (position is_none (leaves h.now row.now))
        (IfSome (position is_none (picks h.now question.now)) (λ dim. result ≡ Err (FilterFault.Unknown dim))) }
    ensures known { IfNone (position is_none (leaves h.now row.now))
        (IfNone (position is_none (picks h.now question.now)) (IsOkUnless result FilterFault.NoMemory)) }
    ensures counted { IfOk result (λ test. (at : Coord) × (f : List Pick)
        × IsCoordNamed h.now row.now at
        × IsFilterNamed h.now question.now f
        × (IsTrue test ↔ Matches h.now f at)) }
{
    let at = match h.coord(row) {
        Ok(at) => at,
        Err(dim) => return Err(FilterFault::Unknown { dim }),
    };
    let filter = h.filter(alloc, question)?;
    Ok(h.matches(&filter, &at))
}
