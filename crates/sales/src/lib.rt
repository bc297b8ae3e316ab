//! Whether a question in names asks for a sale.
//!
//! `is_asked` takes the names of a sale, one for each dimension, and a question in names. Where it answers a
//! test, there are the coordinate of these names and the filter of that question, and the test is whether the
//! one matches the other (`asked`). Else it tells a fault; when which fault comes is not in its contract.
//! `set_of_both` is the describing set of two coordinates.
//!
//! It is a small crate to copy: each function has one contract, and stands on that of `dim_hierarchy` or
//! `describing_set`.
#![tactic(auto)]

ghost use Rattle.std.specs.Prelude.{◌≡◌, ◌↔◌, All, IfOk, IsTrue, List, length};
ghost use Rattle.dim_hierarchy.specs.Filter.{IsFilterNamed};
ghost use Rattle.dim_hierarchy.specs.Names.{IsNamePick};
ghost use Rattle.dim_hierarchy.specs.Meaning.{Matches};
ghost use Rattle.dim_hierarchy.specs.Row.{IsCoordNamed};
ghost use Rattle.dim_hierarchy.specs.declared.filter.Pick.{Pick};
ghost use Rattle.dim_hierarchy.specs.declared.row.Coord.{Coord};

mod sets;

use dim_hierarchy::{FilterFault, Hierarchy, Name, NameFilter, NamePick, Names, RowNames};
pub use sets::set_of_both;
use std::alloc::Global;

/// Whether the question asks for a sale of these names, one for each dimension.
pub fn is_asked(
    alloc: Global,
    h: &Hierarchy,
    sale: &RowNames,
    question: &NameFilter,
) -> Result<bool, FilterFault>
    requires sale { length sale.now ≡ length h.now }
    requires question { length question.now ≡ length h.now }
    requires some { All IsNamePick question.now }
    ensures asked { IfOk result (λ test. (at : Coord) × (f : List Pick) × IsCoordNamed h.now sale.now at
        × IsFilterNamed h.now question.now f × (IsTrue test ↔ Matches h.now f at)) }
{
    let at = match h.coord(sale) {
        Ok(at) => at,
        Err(dim) => return Err(FilterFault::Unknown { dim }),
    };
    let filter = h.filter(alloc, question)?;
    Ok(h.matches(&filter, &at))
}

#[test]
fn a_town_lies_in_its_country(rt: HostRuntime) -> Result<(), std::test::Fail> {
    let alloc = rt.alloc();
    let mut h = Hierarchy::new(alloc);
    let geo = h.add_dim(&Name::from_bytes(alloc, b"geo")?, 2)?;
    let de = h.add_concept(geo, &Name::from_bytes(alloc, b"de")?, None)?;
    h.add_concept(geo, &Name::from_bytes(alloc, b"berlin")?, Some(de))?;
    let mut sale = RowNames::new(alloc);
    sale.push(b"berlin")?;
    let mut countries = Names::new(alloc);
    countries.push(Name::from_bytes(alloc, b"de")?)?;
    let mut question = NameFilter::new(alloc);
    question.push(NamePick::Any(countries))?;
    assert_eq!(rt; is_asked(alloc, &h, &sale, &question), Ok(true));
    Ok(())
}
