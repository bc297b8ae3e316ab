//! Rows and questions from the texts of their names.
ghost use Rattle.std.specs.Prelude.{◌≡◌, ◌↔◌, All, Err, IfOk, IsOkUnless, IsTrue, is_none, length, map, position};
ghost use Rattle.dim_hierarchy.specs.Names.{IsNamePick};
ghost use Rattle.dim_hierarchy.specs.Row.{leaves};
ghost use Rattle.library_runs.specs.Names.{AreShort, pick_under};

use dim_hierarchy::{Hierarchy, Name, NameFilter, NamePick, Names, RowNames};
use std::alloc::{AllocError, Global};

/// Why texts are no names of a row.
#[derive(Clone, Copy, Debug, PartialEq, Eq)]
pub enum RowFault {
    /// One has more than 255 bytes.
    TooLong,
    /// No memory was found.
    NoMemory,
}

impl From<AllocError> for RowFault {
    ghost use Rattle.std.specs.Prelude.{◌≡◌};
    ghost use Rattle.library_runs.specs.declared.names.RowFault.TheVariants.{NoMemory};

    ghost from_gives = { λ _ e. e ≡ NoMemory };

    fn from(_: AllocError) -> Self {
        RowFault::NoMemory
    }
}

/// The names of a row, one for each dimension. `TooLong` comes before any want of memory.
pub fn row(alloc: Global, names: &[&str]) -> Result<RowNames, RowFault>
    ensures names { IfOk result (λ row. row ≡ map (λ name. name.now) names.now) }
    ensures count { IfOk result (λ row. length row ≡ length names.now) }
    ensures long { ¬ AreShort names.now → result ≡ Err RowFault.TooLong }
    ensures short { AreShort names.now → IsOkUnless result RowFault.NoMemory }
{
    if !are_short(names) {
        return Err(RowFault::TooLong);
    }
    let mut row = RowNames::new(alloc);
    for name in names {
        row.push(name.as_bytes())?;
    }
    Ok(row)
}

/// Whether none has more than 255 bytes.
fn are_short(names: &[&str]) -> bool
    ensures { IsTrue result ↔ AreShort names.now }
{
    names.iter().all(|name| name.len() <= 255)
}

/// A question, of a list of names for each dimension: it asks for what lies under one of them, or for
/// everything where the list is empty.
pub fn under(alloc: Global, lists: &[&[&str]]) -> Result<NameFilter, AllocError>
    ensures picks { IfOk result (λ filter. filter
        ≡ map (λ names. pick_under (map (λ name. name.now) names.now)) lists.now) }
    ensures count { IfOk result (λ filter. length filter ≡ length lists.now) }
    ensures some { IfOk result (All IsNamePick) }
{
    let mut filter = NameFilter::new(alloc);
    for names in lists {
        filter.push(pick_under(alloc, names)?)?;
    }
    Ok(filter)
}

/// What is asked so of one dimension.
fn pick_under(alloc: Global, names: &[&str]) -> Result<NamePick, AllocError>
    ensures value { IfOk result (λ pick. pick ≡ pick_under (map (λ name. name.now) names.now)) }
    ensures some { IfOk result IsNamePick }
{
    if names.is_empty() {
        return Ok(NamePick::All);
    }
    Ok(NamePick::Any(name_list(alloc, names)?))
}

/// The names of these texts.
fn name_list(alloc: Global, names: &[&str]) -> Result<Names, AllocError>
    ensures { IfOk result (λ list. list ≡ map (λ name. name.now) names.now) }
{
    let mut list = Names::new(alloc);
    for name in names {
        list.push(Name::from_bytes(alloc, name.as_bytes())?)?;
    }
    Ok(list)
}

/// The first dimension whose name is not that of a leaf concept.
pub(crate) fn first_unknown(h: &Hierarchy, names: &RowNames) -> Option<u8>
    requires { length names.now ≡ length h.now }
    ensures { result ≡ position is_none (leaves h.now names.now) }
{
    match h.coord(names) {
        Ok(_) => None,
        Err(dim) => Some(dim),
    }
}
