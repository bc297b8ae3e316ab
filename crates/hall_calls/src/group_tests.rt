//! A page of groups of a hall in which rows were inserted.
ghost use Rattle.std.specs.Prelude.{◌≡◌, ◌≤◌, ◌<◌, All, IfOk, length};
ghost use Rattle.actor_run.specs.Passes.{AreAllIn, IsPassesOf};
ghost use Rattle.dim_hierarchy.specs.Names.{IsNamePick};
ghost use Rattle.hall_calls.specs.Tells.{AreNamesFor};

use crate::two::{two_servers, two_sessions};
use crate::work::{Places, work};
use actor_run::{GroupFault, Hall, Passes};
use dim_hierarchy::{ConceptId, Hierarchy, Name, NameFilter, NamePick, Names, RowNames};
use row_ledger::{GroupPage, Page};
use std::alloc::{AllocError, Global};
use std::sync::Wait;
use std::test::Fail;

/// Adds a dimension of one level with two concepts.
fn add_dim(
    alloc: Global,
    h: &mut Hierarchy,
    dim: &[u8],
    one: &[u8],
    other: &[u8],
) -> Result<(), Fail> {
    let Ok(dim) = h.add_dim(&Name::from_bytes(alloc, dim)?, 1) else {
        return Err("there is room for a dimension".into());
    };
    for name in [one, other] {
        let Ok(_) = h.add_concept(dim, &Name::from_bytes(alloc, name)?, None) else {
            return Err("there is room for a concept".into());
        };
    }
    Ok(())
}

/// Two towns, and two wares.
fn towns_and_wares(alloc: Global) -> Result<Hierarchy, Fail>
    ensures { IfOk result (λ h. length h ≡ 2) }
{
    let mut h = Hierarchy::new(alloc);
    add_dim(alloc, &mut h, b"town", b"berlin", b"munich")?;
    add_dim(alloc, &mut h, b"ware", b"bread", b"salt")?;
    if h.dims() != 2 {
        return Err("there are two dimensions".into());
    }
    Ok(h)
}

/// The row of a ware in a town.
fn row(alloc: Global, town: &[u8], ware: &[u8]) -> Result<RowNames, Fail>
    requires { (length town.now ≤ 255) × (length ware.now ≤ 255) }
    ensures { IfOk result (λ names. length names ≡ 2) }
{
    let mut names = RowNames::new(alloc);
    names.push(town)?;
    names.push(ware)?;
    Ok(names)
}

/// The picks for all rows.
fn all_rows(alloc: Global) -> Result<NameFilter, AllocError>
    ensures { IfOk result (λ picks. (length picks ≡ 2) × All IsNamePick picks) }
{
    let mut all = NameFilter::new(alloc);
    all.push(NamePick::All)?;
    all.push(NamePick::All)?;
    Ok(all)
}

/// The picks for the rows of a ware.
fn rows_of(alloc: Global, ware: &[u8]) -> Result<NameFilter, AllocError>
    ensures { IfOk result (λ picks. (length picks ≡ 2) × All IsNamePick picks) }
{
    let mut names = Names::new(alloc);
    names.push(Name::from_bytes(alloc, ware)?)?;
    let mut picks = NameFilter::new(alloc);
    picks.push(NamePick::All)?;
    picks.push(NamePick::Any(names))?;
    Ok(picks)
}

/// A hall in which a session has inserted as many rows at the two places in turn. All passes are in.
fn filled<R: Wait + Sync>(
    rt: &R,
    alloc: Global,
    hierarchy: Hierarchy,
    places: &Places,
    count: u32,
) -> Result<(Hall, Passes), AllocError>
    requires dims { 0 < length hierarchy }
    requires names { AreNamesFor hierarchy places.now.one.now places.now.other.now places.now.asked.now }
    ensures hierarchy { IfOk result (λ r. r.0.hierarchy ≡ hierarchy) }
    ensures own { IfOk result (λ r. IsPassesOf r.0 r.1) }
    ensures all { IfOk result (λ r. AreAllIn r.1) }
{
    // What a hall asks of the dimensions is known of each hierarchy that is asked how many it has.
    let _dims = hierarchy.dims();
    let roles = two_sessions(alloc)?;
    let (hall, mut passes) = Hall::open(alloc, two_servers(2000), hierarchy, roles)?;
    let Some(pass) = passes.take(&hall, 0) else {
        unreachable!()
    };
    let (pass, _) = work(rt, alloc, &hall, pass, places, count);
    passes.give(&hall, pass);
    Ok((hall, passes))
}

/// The concept of a line of a page, how many rows it has, and their sum.
fn line_at(page: &GroupPage, at: usize) -> Option<(ConceptId, u64, i128)> {
    let line = page.lines.as_slice().get(at)?;
    Some((line.id, line.agg.count(), line.agg.sum()))
}

#[test]
fn groups_have_the_rows_of_each_town(rt: HostRuntime) -> Result<(), Fail> {
    let alloc = rt.alloc();
    let h = towns_and_wares(alloc)?;
    let level = h.levels(0);
    let berlin = h.find_bytes(0, b"berlin").map(|id| (id, 2, 2));
    let munich = h.find_bytes(0, b"munich").map(|id| (id, 3, 3));
    let one = row(alloc, b"munich", b"bread")?;
    let other = row(alloc, b"berlin", b"salt")?;
    let all = all_rows(alloc)?;
    let places = Places {
        one: &one,
        other: &other,
        asked: &all,
    };
    let (hall, mut passes) = filled(&rt, alloc, h, &places, 5)?;
    let Ok(Page::Group(page)) = hall.group(&rt, alloc, &mut passes, 0, level, &all) else {
        panic!(rt; "there is a page");
    };
    assert_eq!(rt; page.lines.len(), 2);
    assert_eq!(rt; line_at(&page, 0), berlin);
    assert_eq!(rt; line_at(&page, 1), munich);
    assert_eq!(rt; page.all.count(), 5);
    assert_eq!(rt; page.all.sum(), 5);
    let bread = rows_of(alloc, b"bread")?;
    let Ok(Page::Group(page)) = hall.group(&rt, alloc, &mut passes, 0, level, &bread) else {
        panic!(rt; "there is a page");
    };
    assert_eq!(rt; page.lines.len(), 1);
    assert_eq!(rt; line_at(&page, 0), munich);
    let wool = rows_of(alloc, b"wool")?;
    let Err(GroupFault::Unknown { dim }) = hall.group(&rt, alloc, &mut passes, 0, level, &wool)
    else {
        panic!(rt; "wool is no ware");
    };
    assert_eq!(rt; dim, 1);
    Ok(())
}
