//! What is tested of `describing_set`.
ghost use Rattle.std.specs.Prelude.{◌≡◌, length, IfOk};
ghost use Rattle.describing_set.specs.Sets.{IsDescSetOf};

use crate::fixtures::{Dim, coord, filter, hierarchy, one_set};
use describing_set::{Bearing, DescSet, FewConcepts, goes_left, plane_of};
use dim_hierarchy::{ConceptId, Coord, Hierarchy};
use std::alloc::Global;
use std::process::Abort;
use std::test::Fail;

/// Seven places of one country.
fn places(alloc: Global) -> Result<Hierarchy, Fail>
    ensures { IfOk result (λ h. length h ≡ 1) }
{
    const PLACES: [Dim; 1] = [(
        "place",
        2,
        &[
            ["-", "D"],
            ["D", "a"],
            ["D", "b"],
            ["D", "c"],
            ["D", "d"],
            ["D", "e"],
            ["D", "f"],
            ["D", "g"],
        ],
    )];
    hierarchy(alloc, &PLACES)
}

/// Six of them.
const SIX: &[&str] = &["a", "b", "c", "d", "e", "f"];

/// All of them.
const SEVEN: &[&str] = &["a", "b", "c", "d", "e", "f", "g"];

/// The level of a set, how many concepts it has there, and its size, where there is one dimension.
type Shape = (u8, usize, u32);

/// The shape of a set in the first dimension.
fn shape(h: &Hierarchy, set: &DescSet) -> Option<Shape>
    requires { IsDescSetOf h.now set.now }
{
    let part = set.parts.as_slice().first()?;
    Some((part.level, part.ids.len(), set.size(h)))
}

/// Compares the shapes of the sets of concepts.
fn expect_shapes<R: Abort>(
    rt: &R,
    alloc: Global,
    h: &Hierarchy,
    cases: &[(&[&str], Shape)],
) -> Result<(), Fail>
    requires { length h.now ≡ 1 }
{
    for (texts, wanted) in cases {
        let set = one_set(alloc, h, texts)?;
        assert_eq!(rt; shape(h, &set), Some(*wanted));
    }
    Ok(())
}

#[test]
fn the_seventh_concept_lifts_a_set(rt: HostRuntime) -> Result<(), Fail> {
    const CASES: [(&[&str], Shape); 3] = [
        (&["c", "a", "b"], (2, 3, 3)),
        (SIX, (2, 6, 6)),
        (SEVEN, (1, 1, 9)),
    ];
    let alloc = rt.alloc();
    expect_shapes(&rt, alloc, &places(alloc)?, &CASES)
}

#[test]
fn a_set_is_lifted_twice_at_once(rt: HostRuntime) -> Result<(), Fail> {
    const TOWNS: [Dim; 1] = [(
        "place",
        3,
        &[
            ["-", "T"],
            ["T", "A"],
            ["T", "B"],
            ["T", "C"],
            ["T", "D"],
            ["T", "E"],
            ["T", "F"],
            ["T", "G"],
            ["A", "a"],
            ["B", "b"],
            ["C", "c"],
            ["D", "d"],
            ["E", "e"],
            ["F", "f"],
            ["G", "g"],
        ],
    )];
    const CASES: [(&[&str], Shape); 2] = [(SIX, (3, 6, 6)), (SEVEN, (1, 1, 17))];
    let alloc = rt.alloc();
    expect_shapes(&rt, alloc, &hierarchy(alloc, &TOWNS)?, &CASES)
}

/// The concepts of a set in the first dimension.
fn concepts(set: &DescSet) -> Option<&[ConceptId]> {
    let part = set.parts.as_slice().first()?;
    Some(part.ids.as_slice())
}

/// Compares the concepts of the set of seven places.
fn expect_country<R: Abort>(rt: &R, alloc: Global, h: &Hierarchy) -> Result<(), Fail>
    requires { length h.now ≡ 1 }
{
    let seven = one_set(alloc, h, SEVEN)?;
    let wanted = [ConceptId(0x1000_0000)];
    assert_eq!(rt; concepts(&seven), Some(wanted.as_slice()));
    Ok(())
}

#[test]
fn a_lifted_set_is_that_of_one_concept_above(rt: HostRuntime) -> Result<(), Fail> {
    let alloc = rt.alloc();
    expect_country(&rt, alloc, &places(alloc)?)
}

/// Compares how much the set of six places grows by the seventh, whether they join to the set of all seven,
/// and whether this covers it.
fn expect_seventh<R: Abort>(rt: &R, alloc: Global, h: &Hierarchy) -> Result<(), Fail>
    requires { length h.now ≡ 1 }
{
    let last = &coord(alloc, h, &["g"])?;
    let six = one_set(alloc, h, SIX)?;
    let seven = one_set(alloc, h, SEVEN)?;
    let joined = six.join(h, &DescSet::of_coord(h, last));
    let growth = six.growth(h, &h.lineages(last));
    let covers = seven.covers(h, &h.lineages(last));
    assert_eq!(rt; (growth, joined == seven, covers), (1, true, true));
    Ok(())
}

#[test]
fn the_seventh_concept_joins(rt: HostRuntime) -> Result<(), Fail> {
    let alloc = rt.alloc();
    expect_seventh(&rt, alloc, &places(alloc)?)
}

/// The concepts at the left of the plane of the set of these.
fn left_of(alloc: Global, h: &Hierarchy, texts: &[&str]) -> Result<Option<FewConcepts>, Fail>
    requires { length h.now ≡ 1 }
{
    let plane = plane_of(&one_set(alloc, h, texts)?);
    Ok(plane.map(|plane| plane.left))
}

/// Compares what is at the left of planes.
fn expect_lefts<R: Abort>(rt: &R, alloc: Global, h: &Hierarchy) -> Result<(), Fail>
    requires { length h.now ≡ 1 }
{
    let left = left_of(alloc, h, &["c", "a", "b"])?.ok_or("a plane")?;
    assert_eq!(rt; left.as_slice(), [ConceptId(0x2000_0000)].as_slice());
    assert!(rt; left_of(alloc, h, &["a"])?.is_none());
    Ok(())
}

#[test]
fn a_plane_has_the_first_half_at_its_left(rt: HostRuntime) -> Result<(), Fail> {
    let alloc = rt.alloc();
    expect_lefts(&rt, alloc, &places(alloc)?)
}

/// How a set lies to a filter, and whether it is inside that and overlaps it.
type Lies = (Bearing, bool, bool);

/// How a set lies to the filter of lists of names.
fn lies(alloc: Global, h: &Hierarchy, set: &DescSet, lists: &[&[&str]]) -> Result<Lies, Fail>
    requires set { IsDescSetOf h.now set.now }
    requires lists { length lists.now ≡ length h.now }
{
    let filter = filter(alloc, h, lists)?;
    let inside = set.inside(h, &filter);
    let overlaps = set.overlaps(h, &filter);
    let bearing = set.bearing(&h.compile(alloc, &filter)?);
    Ok((bearing, inside, overlaps))
}

/// The concepts of a set, those that are picked, and how they lie.
type Case = (&'static [&'static str], &'static [&'static str], Lies);

/// Compares how sets lie to filters, where there is one dimension.
fn expect_lies<R: Abort>(rt: &R, alloc: Global, h: &Hierarchy, cases: &[Case]) -> Result<(), Fail>
    requires { length h.now ≡ 1 }
{
    for (texts, picked, wanted) in cases {
        let set = one_set(alloc, h, texts)?;
        assert_eq!(rt; lies(alloc, h, &set, &[*picked])?, *wanted);
    }
    Ok(())
}

#[test]
fn a_set_is_inside_a_filter_overlaps_it_or_is_apart(rt: HostRuntime) -> Result<(), Fail> {
    const CASES: [Case; 8] = [
        (&["a", "b"], &[], (Bearing::Inside, true, true)),
        (&["a", "b"], &["c", "b", "a"], (Bearing::Inside, true, true)),
        (&["a", "b"], &["D"], (Bearing::Inside, true, true)),
        (&["a", "b"], &["b", "c"], (Bearing::Overlaps, false, true)),
        (SEVEN, &["g"], (Bearing::Overlaps, false, true)),
        (&["a", "b"], &["c"], (Bearing::Apart, false, false)),
        (&[], &[], (Bearing::Inside, true, false)),
        (&[], &["c"], (Bearing::Inside, true, false)),
    ];
    let alloc = rt.alloc();
    expect_lies(&rt, alloc, &places(alloc)?, &CASES)
}

#[test]
fn a_set_of_no_dimension_is_inside_and_overlaps_nothing(rt: HostRuntime) -> Result<(), Fail> {
    let alloc = rt.alloc();
    let h = Hierarchy::new(alloc);
    let set = DescSet::empty(&h);
    assert_eq!(rt; lies(alloc, &h, &set, &[])?, (Bearing::Inside, true, false));
    Ok(())
}

/// Two concepts.
const AB: &[[&str; 2]] = &[["-", "a"], ["-", "b"]];

/// Eight dimensions of two concepts.
fn eight_dims(alloc: Global) -> Result<Hierarchy, Fail>
    ensures { IfOk result (λ h. length h ≡ 8) }
{
    const EIGHT: [Dim; 8] = [
        ("0", 1, AB),
        ("1", 1, AB),
        ("2", 1, AB),
        ("3", 1, AB),
        ("4", 1, AB),
        ("5", 1, AB),
        ("6", 1, AB),
        ("7", 1, AB),
    ];
    hierarchy(alloc, &EIGHT)
}

/// The first concepts of all.
const FIRST: [&str; 8] = ["a", "a", "a", "a", "a", "a", "a", "a"];

/// The second ones in the third dimension and in the fifth.
const OTHER: [&str; 8] = ["a", "a", "b", "a", "b", "a", "a", "a"];

/// A set of eight dimensions with two concepts in the third and in the fifth; how much it has grown by
/// either coordinate, and its size.
fn two_and_two(alloc: Global, h: &Hierarchy) -> Result<(DescSet, [u32; 3]), Fail>
    requires { length h.now ≡ 8 }
    ensures { IfOk result (λ r. IsDescSetOf h.now r.0) }
{
    let first = &coord(alloc, h, &FIRST)?;
    let other = &coord(alloc, h, &OTHER)?;
    let mut set = DescSet::empty(h);
    let all = set.growth(h, &h.lineages(first));
    set.grow(h, first);
    let two = set.growth(h, &h.lineages(other));
    set.grow(h, other);
    let size = set.size(h);
    Ok((set, [all, two, size]))
}

/// The dimension of a set's plane, and whether a coordinate goes left.
fn side(
    alloc: Global,
    h: &Hierarchy,
    set: &DescSet,
    texts: &[&str],
) -> Result<Option<(u8, bool)>, Fail>
    requires set { IsDescSetOf h.now set.now }
    requires texts { length texts.now ≡ length h.now }
{
    // Laid out, as the prover cannot carry the answer itself to the next call.
    let at = Coord {
        at: coord(alloc, h, texts)?.at,
    };
    match plane_of(set) {
        Some(plane) => Ok(Some((plane.dim, goes_left(h, &plane, &at)))),
        None => Ok(None),
    }
}

/// Compares the growths, the size and the plane of that set.
fn expect_growths<R: Abort>(rt: &R, alloc: Global, h: &Hierarchy) -> Result<(), Fail>
    requires { length h.now ≡ 8 }
{
    let (set, growths) = two_and_two(alloc, h)?;
    assert_eq!(rt; growths, [8, 2, 10]);
    assert_eq!(rt; side(alloc, h, &set, &FIRST)?, Some((2, true)));
    assert_eq!(rt; side(alloc, h, &set, &OTHER)?, Some((2, false)));
    Ok(())
}

#[test]
fn eight_dimensions(rt: HostRuntime) -> Result<(), Fail> {
    let alloc = rt.alloc();
    expect_growths(&rt, alloc, &eight_dims(alloc)?)
}

/// How much the set of one coordinate grows by one that differs in two of eight dimensions, where
/// that is at most `most`.
fn growth_within(alloc: Global, h: &Hierarchy, most: u32) -> Result<Option<u32>, Fail>
    requires { length h.now ≡ 8 }
{
    let set = DescSet::of_coord(h, &coord(alloc, h, &FIRST)?);
    let at = coord(alloc, h, &OTHER)?;
    Ok(set.growth_within(h, &h.lineages(&at), most))
}

/// Compares these growths.
fn expect_within<R: Abort>(rt: &R, alloc: Global, h: &Hierarchy) -> Result<(), Fail>
    requires { length h.now ≡ 8 }
{
    for (most, wanted) in [(0, None), (1, None), (2, Some(2)), (3, Some(2))] {
        assert_eq!(rt; growth_within(alloc, h, most)?, wanted);
    }
    Ok(())
}

#[test]
fn a_growth_beyond_the_most_is_not_counted(rt: HostRuntime) -> Result<(), Fail> {
    let alloc = rt.alloc();
    expect_within(&rt, alloc, &eight_dims(alloc)?)
}

/// The names that are picked in each of eight dimensions, and how the set lies to them.
type WideCase = ([&'static [&'static str]; 8], Lies);

/// Compares how the set of eight dimensions lies to filters.
fn expect_wide<R: Abort>(
    rt: &R,
    alloc: Global,
    h: &Hierarchy,
    cases: &[WideCase],
) -> Result<(), Fail>
    requires { length h.now ≡ 8 }
{
    let (set, _growths) = two_and_two(alloc, h)?;
    for (lists, wanted) in cases {
        assert_eq!(rt; lies(alloc, h, &set, lists)?, *wanted);
    }
    Ok(())
}

#[test]
fn a_set_lies_to_a_filter_as_in_all_its_dimensions(rt: HostRuntime) -> Result<(), Fail> {
    const A: &[&str] = &["a"];
    const B: &[&str] = &["b"];
    const BOTH: &[&str] = &["a", "b"];
    const BACK: &[&str] = &["b", "a"];
    const ALL: &[&str] = &[];
    const INSIDE: Lies = (Bearing::Inside, true, true);
    const OVERLAPS: Lies = (Bearing::Overlaps, false, true);
    const APART: Lies = (Bearing::Apart, false, false);
    const CASES: [WideCase; 7] = [
        ([ALL, ALL, ALL, ALL, ALL, ALL, ALL, ALL], INSIDE),
        ([A, BOTH, BACK, ALL, BOTH, ALL, ALL, A], INSIDE),
        ([A, ALL, B, ALL, BOTH, ALL, ALL, A], OVERLAPS),
        ([ALL, ALL, B, ALL, A, ALL, ALL, ALL], OVERLAPS),
        ([ALL, ALL, B, ALL, ALL, ALL, ALL, B], APART),
        ([ALL, B, B, ALL, ALL, ALL, ALL, ALL], APART),
        ([B, ALL, ALL, ALL, ALL, ALL, ALL, ALL], APART),
    ];
    let alloc = rt.alloc();
    expect_wide(&rt, alloc, &eight_dims(alloc)?, &CASES)
}
