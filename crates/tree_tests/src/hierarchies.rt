//! What is tested of `dim_hierarchy`.
ghost use Rattle.std.specs.Prelude.{◌≡◌, ◌<◌, length, IfOk};
ghost use Rattle.dim_hierarchy.specs.Tree.{IsConcept};
ghost use Rattle.dim_hierarchy.specs.Dimension.{tree};
ghost use Rattle.dim_hierarchy.specs.Row.{IsCoordOf};

use crate::fixtures::{Dim, coord, filter, hierarchy, row_names};
use dim_hierarchy::{
    CompiledFilter, ConceptFault, ConceptId, Coord, DimFault, Filter, FilterFault, Hierarchy, Name,
    Pick,
};
use std::alloc::Global;
use std::process::Abort;
use std::test::Fail;

const DE: ConceptId = ConceptId(0x1000_0000);

const FR: ConceptId = ConceptId(0x1000_0001);

const BERLIN: ConceptId = ConceptId(0x2000_0000);

const MUNICH: ConceptId = ConceptId(0x2000_0001);

const PARIS: ConceptId = ConceptId(0x2000_0002);

const MITTE: ConceptId = ConceptId(0x3000_0000);

const BLUE: ConceptId = ConceptId(0x1000_0001);

/// Three cities in their countries, and the colors red and blue.
fn world(alloc: Global) -> Result<Hierarchy, Fail>
    ensures { IfOk result (λ h. length h ≡ 2) }
{
    const WORLD: [Dim; 2] = [
        (
            "geo",
            2,
            &[
                ["-", "de"],
                ["-", "fr"],
                ["de", "berlin"],
                ["de", "munich"],
                ["fr", "paris"],
            ],
        ),
        ("color", 1, &[["-", "red"], ["-", "blue"]]),
    ];
    hierarchy(alloc, &WORLD)
}

/// Two countries, two cities of one and a part of a city.
const TOWNS: [Dim; 1] = [(
    "geo",
    3,
    &[
        ["-", "de"],
        ["-", "fr"],
        ["de", "berlin"],
        ["de", "munich"],
        ["berlin", "mitte"],
    ],
)];

/// What a dimension of this name and these levels comes to.
fn add_dim(alloc: Global, h: &mut Hierarchy, name: &str, levels: u8) -> Result<u8, DimFault> {
    let Ok(name) = Name::from_bytes(alloc, name.as_bytes()) else {
        return Err(DimFault::NoMemory);
    };
    h.add_dim(&name, levels)
}

#[test]
fn dimensions_are_added(rt: HostRuntime) {
    const CASES: [(&str, u8, Result<u8, DimFault>); 14] = [
        ("geo", 2, Ok(0)),
        ("geo", 2, Err(DimFault::Twice)),
        ("geo", 0, Err(DimFault::Twice)),
        ("x", 0, Err(DimFault::BadLevels)),
        ("x", 9, Err(DimFault::BadLevels)),
        ("b", 1, Ok(1)),
        ("c", 8, Ok(2)),
        ("d", 1, Ok(3)),
        ("e", 1, Ok(4)),
        ("f", 1, Ok(5)),
        ("g", 1, Ok(6)),
        ("h", 1, Ok(7)),
        ("i", 1, Err(DimFault::Full)),
        ("geo", 0, Err(DimFault::Full)),
    ];
    let alloc = rt.alloc();
    let mut h = Hierarchy::new(alloc);
    for (name, levels, answer) in &CASES {
        assert_eq!(rt; add_dim(alloc, &mut h, name, *levels), *answer);
    }
    assert_eq!(rt;
        (h.dims(), h.find_dim(b"c"), h.find_dim(b"x")),
        (8, Some(2), None)
    );
}

/// The dimension of a concept, its name and its parent.
type Concept = (u8, &'static str, Option<ConceptId>);

/// What a concept comes to.
fn add_concept(
    alloc: Global,
    h: &mut Hierarchy,
    concept: &Concept,
) -> Result<ConceptId, ConceptFault> {
    let (dim, name, parent) = concept;
    let Ok(name) = Name::from_bytes(alloc, name.as_bytes()) else {
        return Err(ConceptFault::NoMemory);
    };
    h.add_concept(*dim, &name, *parent)
}

#[test]
fn concepts_are_added(rt: HostRuntime) -> Result<(), Fail> {
    const CASES: [(Concept, Result<ConceptId, ConceptFault>); 8] = [
        ((0, "de", None), Ok(DE)),
        ((0, "berlin", Some(DE)), Ok(BERLIN)),
        ((0, "mitte", Some(BERLIN)), Err(ConceptFault::TooDeep)),
        ((0, "de", Some(BERLIN)), Err(ConceptFault::Twice)),
        ((0, "de", Some(FR)), Err(ConceptFault::NoParent)),
        ((1, "a", None), Err(ConceptFault::NoDim)),
        ((0, "fr", Some(ConceptId::ALL)), Ok(FR)),
        ((0, "paris", Some(FR)), Ok(MUNICH)),
    ];
    let alloc = rt.alloc();
    let mut h = hierarchy(alloc, &[("geo", 2, &[])])?;
    for (concept, answer) in &CASES {
        assert_eq!(rt; add_concept(alloc, &mut h, concept), *answer);
    }
    assert_eq!(rt; h.concepts(), 4);
    Ok(())
}

#[test]
fn leaves_are_told_and_names_found(rt: HostRuntime) -> Result<(), Fail> {
    let h = world(rt.alloc())?;
    let leaves = (h.is_leaf(0, PARIS), h.is_leaf(0, FR), h.is_leaf(1, PARIS));
    let found = (h.find_bytes(0, b"paris"), h.find_bytes(1, b"paris"));
    assert_eq!(rt;
        (leaves, found),
        ((true, false, false), (Some(PARIS), None))
    );
    Ok(())
}

#[test]
fn concepts_tell_their_names(rt: HostRuntime) -> Result<(), Fail> {
    const CASES: [(u8, ConceptId, Option<&str>); 7] = [
        (0, DE, Some("de")),
        (0, FR, Some("fr")),
        (0, PARIS, Some("paris")),
        (1, BLUE, Some("blue")),
        (0, ConceptId::ALL, None),
        (1, PARIS, None),
        (2, DE, None),
    ];
    let h = world(rt.alloc())?;
    for (dim, id, name) in &CASES {
        assert_eq!(rt; h.name_of(*dim, *id), name.map(str::as_bytes));
    }
    Ok(())
}

/// Compares the coordinates of names, or the dimension of the first that is no leaf's.
fn expect_coords<R: Abort>(rt: &R, alloc: Global, h: &Hierarchy) -> Result<(), Fail>
    requires { length h.now ≡ 2 }
{
    const ALL: ConceptId = ConceptId::ALL;
    const AT: [ConceptId; 8] = [PARIS, BLUE, ALL, ALL, ALL, ALL, ALL, ALL];
    const CASES: [([&str; 2], Result<Coord, u8>); 4] = [
        (["paris", "blue"], Ok(Coord { at: AT })),
        (["de", "red"], Err(0)),
        (["berlin", "green"], Err(1)),
        (["rome", "green"], Err(0)),
    ];
    for (texts, answer) in &CASES {
        assert_eq!(rt; h.coord(&row_names(alloc, texts)?), *answer);
    }
    Ok(())
}

#[test]
fn names_make_coordinates(rt: HostRuntime) -> Result<(), Fail> {
    let alloc = rt.alloc();
    expect_coords(&rt, alloc, &world(alloc)?)
}

/// The ids that are picked in the first dimension, where all are picked in the second.
fn ids_of(filter: &Filter) -> Option<&[ConceptId]> {
    match filter.as_slice() {
        [Pick::Ids(ids), Pick::All] => Some(ids.as_slice()),
        _ => None,
    }
}

#[test]
fn names_make_filters(rt: HostRuntime) -> Result<(), Fail> {
    let alloc = rt.alloc();
    let h = world(alloc)?;
    let known = filter(alloc, &h, &[&["berlin", "de"], &[]])?;
    assert_eq!(rt; ids_of(&known), Some([BERLIN, DE].as_slice()));
    Ok(())
}

#[test]
fn an_unknown_name_makes_no_filter(rt: HostRuntime) -> Result<(), Fail> {
    let alloc = rt.alloc();
    let h = world(alloc)?;
    let fault = filter(alloc, &h, &[&["de", "rome"], &["green"]]).err();
    assert_eq!(rt; fault, Some(FilterFault::Unknown { dim: 0 }));
    Ok(())
}

/// Whether a filter matches a coordinate.
fn matches(alloc: Global, h: &Hierarchy, lists: &[&[&str]], at: &Coord) -> Result<bool, FilterFault>
    requires lists { length lists.now ≡ length h.now }
    requires at { IsCoordOf h.now at.now }
{
    Ok(h.matches(&filter(alloc, h, lists)?, at))
}

/// Compares which filters match a coordinate in Berlin, of red color.
fn expect_matches<R: Abort>(rt: &R, alloc: Global, h: &Hierarchy) -> Result<(), Fail>
    requires { length h.now ≡ 2 }
{
    const CASES: [([&[&str]; 2], bool); 4] = [
        ([&["berlin", "de"], &["red"]], true),
        ([&["paris", "fr", "de"], &["blue", "red"]], true),
        ([&["de"], &["blue"]], false),
        ([&["paris", "fr"], &["red"]], false),
    ];
    let at = coord(alloc, h, &["berlin", "red"])?;
    for (lists, answer) in &CASES {
        assert_eq!(rt; matches(alloc, h, lists, &at), Ok(*answer));
    }
    Ok(())
}

#[test]
fn filters_match_what_is_under_a_pick(rt: HostRuntime) -> Result<(), Fail> {
    let alloc = rt.alloc();
    expect_matches(&rt, alloc, &world(alloc)?)
}

/// A compiled filter.
fn compiled(alloc: Global, h: &Hierarchy, lists: &[&[&str]]) -> Result<CompiledFilter, Fail>
    requires { length lists.now ≡ length h.now }
    ensures { IfOk result (λ wanted. wanted.hierarchy ≡ h.now) }
{
    Ok(h.compile(alloc, &filter(alloc, h, lists)?)?)
}

/// Whether the filter picks a concept of the first dimension, and whether it picks it or lists one
/// under it.
fn marked(wanted: &CompiledFilter, id: ConceptId) -> (bool, bool)
    requires dim { 0 < length wanted.now.hierarchy }
    requires concept { IsConcept (tree wanted.now.hierarchy 0) id }
{
    let ids = [id];
    let has = wanted.has_all(0, id.level(), &ids);
    (has, wanted.meets_any(0, id.level(), &ids))
}

/// The marks of a concept of the first dimension; none where it is no concept.
fn marks(h: &Hierarchy, wanted: &CompiledFilter, id: ConceptId) -> Option<(bool, bool)>
    requires some { 0 < length h.now }
    requires same { wanted.now.hierarchy ≡ h.now }
{
    if !h.has(0, id) {
        return None;
    }
    Some(marked(wanted, id))
}

/// Compares the marks of concepts under a filter that asks for Berlin.
fn expect_marks<R: Abort>(rt: &R, alloc: Global, h: &Hierarchy) -> Result<(), Fail>
    requires { length h.now ≡ 1 }
{
    const CASES: [(ConceptId, Option<(bool, bool)>); 7] = [
        (ConceptId::ALL, Some((false, true))),
        (DE, Some((false, true))),
        (FR, Some((false, false))),
        (BERLIN, Some((true, true))),
        (MUNICH, Some((false, false))),
        (MITTE, Some((true, true))),
        (ConceptId(0x3000_0001), None),
    ];
    let wanted = compiled(alloc, h, &[&["berlin"]])?;
    for (id, answer) in &CASES {
        assert_eq!(rt; marks(h, &wanted, *id), *answer);
    }
    Ok(())
}

#[test]
fn marks_tell_under_above_and_apart(rt: HostRuntime) -> Result<(), Fail> {
    let alloc = rt.alloc();
    expect_marks(&rt, alloc, &hierarchy(alloc, &TOWNS)?)
}
