//! Hierarchies made of tables, and names, coordinates and rows over them.
ghost use Rattle.std.specs.Prelude.{◌≡◌, ◌+◌, length, All, IfOk, OnOk};
ghost use Rattle.dim_hierarchy.specs.Filter.{IsFilterOf};
ghost use Rattle.dim_hierarchy.specs.Names.{IsNamePick};
ghost use Rattle.dim_hierarchy.specs.Row.{IsCoordOf};
ghost use Rattle.dim_hierarchy.specs.Rows.{IsRowOf};
ghost use Rattle.describing_set.specs.Sets.{IsDescSetOf};

use describing_set::DescSet;
use dim_hierarchy::{
    Coord, Filter, FilterFault, Hierarchy, Name, NameFilter, NamePick, Names, Row, RowNames,
};
use std::alloc::{AllocError, Global};
use std::test::Fail;

/// A dimension: its name, how many levels it has, and its concepts in their order, each after the
/// name of its parent, or after `-` where it has none.
pub type Dim = (&'static str, u8, &'static [[&'static str; 2]]);

/// Two places.
pub const PLACES: [Dim; 1] = [("place", 1, &[["-", "a"], ["-", "b"]])];

/// Adds a concept under the one that has the name of its parent, or on top where none has it.
fn add_concept(
    alloc: Global,
    h: &mut Hierarchy,
    dim: u8,
    parent: &str,
    name: &str,
) -> Result<(), Fail>
    ensures { OnOk result (length h.new ≡ length h.old) }
{
    let parent = h.find_bytes(dim, parent.as_bytes());
    h.add_concept(dim, &Name::from_bytes(alloc, name.as_bytes())?, parent)?;
    Ok(())
}

/// Adds concepts to a dimension.
fn add_concepts(
    alloc: Global,
    h: &mut Hierarchy,
    dim: u8,
    concepts: &[[&str; 2]],
) -> Result<(), Fail>
    ensures { OnOk result (length h.new ≡ length h.old) }
{
    for [parent, name] in concepts {
        add_concept(alloc, h, dim, parent, name)?;
    }
    Ok(())
}

/// Adds a dimension with its concepts.
fn add_dim(alloc: Global, h: &mut Hierarchy, dim: &Dim) -> Result<(), Fail>
    ensures { OnOk result (length h.new ≡ length h.old + 1) }
{
    let (name, levels, concepts) = dim;
    let dim = h.add_dim(&Name::from_bytes(alloc, name.as_bytes())?, *levels)?;
    add_concepts(alloc, h, dim, concepts)
}

/// Adds dimensions with their concepts.
fn add_dims(alloc: Global, h: &mut Hierarchy, dims: &[Dim]) -> Result<(), Fail>
    ensures { OnOk result (length h.new ≡ length h.old + length dims.now) }
{
    for dim in dims {
        add_dim(alloc, h, dim)?;
    }
    Ok(())
}

/// The hierarchy of these dimensions.
pub fn hierarchy(alloc: Global, dims: &[Dim]) -> Result<Hierarchy, Fail>
    ensures { IfOk result (λ h. length h ≡ length dims.now) }
{
    let mut h = Hierarchy::new(alloc);
    add_dims(alloc, &mut h, dims)?;
    Ok(h)
}

/// A list of names.
fn names(alloc: Global, texts: &[&str]) -> Result<Names, AllocError>
    ensures { IfOk result (λ names. length names ≡ length texts.now) }
{
    let mut names = Names::new(alloc);
    for text in texts {
        names.push(Name::from_bytes(alloc, text.as_bytes())?)?;
    }
    Ok(names)
}

/// A pick of these names, of all where there is none.
fn pick(alloc: Global, texts: &[&str]) -> Result<NamePick, AllocError>
    ensures { IfOk result IsNamePick }
{
    if texts.is_empty() {
        return Ok(NamePick::All);
    }
    Ok(NamePick::Any(names(alloc, texts)?))
}

/// A pick for each list of names.
fn picks(alloc: Global, lists: &[&[&str]]) -> Result<NameFilter, AllocError>
    ensures count { IfOk result (λ picks. length picks ≡ length lists.now) }
    ensures some { IfOk result (All IsNamePick) }
{
    let mut picks = NameFilter::new(alloc);
    for texts in lists {
        picks.push(pick(alloc, texts)?)?;
    }
    Ok(picks)
}

/// The filter of lists of names.
pub fn filter(alloc: Global, h: &Hierarchy, lists: &[&[&str]]) -> Result<Filter, FilterFault>
    requires { length lists.now ≡ length h.now }
    ensures { IfOk result (IsFilterOf h.now) }
{
    let Ok(picks) = picks(alloc, lists) else {
        return Err(FilterFault::NoMemory);
    };
    h.filter(alloc, &picks)
}

/// The names of a row, of each text its first 255 bytes.
pub fn row_names(alloc: Global, texts: &[&str]) -> Result<RowNames, AllocError>
    ensures { IfOk result (λ names. length names ≡ length texts.now) }
{
    let mut names = RowNames::new(alloc);
    for text in texts {
        let bytes = text.as_bytes();
        names.push(&bytes[..bytes.len().min(255)])?;
    }
    Ok(names)
}

/// The coordinate of leaf concepts, by their names.
pub fn coord(alloc: Global, h: &Hierarchy, texts: &[&str]) -> Result<Coord, Fail>
    requires { length texts.now ≡ length h.now }
    ensures { IfOk result (IsCoordOf h.now) }
{
    Ok(h.coord(&row_names(alloc, texts)?)?)
}

/// The set of leaf concepts, by their names, where there is one dimension.
pub fn one_set(alloc: Global, h: &Hierarchy, texts: &[&str]) -> Result<DescSet, Fail>
    requires { length h.now ≡ 1 }
    ensures { IfOk result (IsDescSetOf h.now) }
{
    let mut set = DescSet::empty(h);
    for text in texts {
        set.grow(h, &coord(alloc, h, &[*text])?);
    }
    Ok(set)
}

/// The row of a number at a leaf concept, where there is one dimension.
pub fn row(alloc: Global, h: &Hierarchy, no: u64, name: &str, measures: i64) -> Result<Row, Fail>
    requires { length h.now ≡ 1 }
    ensures { IfOk result (IsRowOf h.now) }
{
    let at = coord(alloc, h, &[name])?;
    Ok(Row { no, at, measures })
}
