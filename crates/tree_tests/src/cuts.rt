//! What is tested of `hierarchy_split`.
ghost use Rattle.std.specs.Prelude.{◌≡◌, ◌≤◌, length, All, IfOk, OnOk};
ghost use Rattle.describing_set.specs.Sets.{IsDescSetOf};

use crate::fixtures::{Dim, coord, hierarchy};
use describing_set::DescSet;
use dim_hierarchy::Hierarchy;
use hierarchy_split::{Cut, HeadCut, HeadCuts, choose};
use std::alloc::Global;
use std::process::Abort;
use std::test::Fail;

/// The names of a row's concepts, in a place and in a year.
type At = [&'static str; 2];

/// How many items there are of a kind, and the rows that each of them has.
type Kind = (u8, &'static [At]);

/// Three places of a country, and years of two decades.
fn world(alloc: Global) -> Result<Hierarchy, Fail>
    ensures { IfOk result (λ h. length h ≡ 2) }
{
    const WORLD: [Dim; 2] = [
        (
            "place",
            2,
            &[["-", "D"], ["D", "a"], ["D", "b"], ["D", "c"]],
        ),
        (
            "year",
            2,
            &[
                ["-", "V"],
                ["V", "x"],
                ["V", "y"],
                ["V", "z"],
                ["-", "W"],
                ["W", "w"],
            ],
        ),
    ];
    hierarchy(alloc, &WORLD)
}

/// Items in one place and in one year.
const AX: &[At] = &[["a", "x"]];

/// The same in the second place.
const BX: &[At] = &[["b", "x"]];

/// The set of these rows.
fn set_of(alloc: Global, h: &Hierarchy, rows: &[At]) -> Result<DescSet, Fail>
    requires { length h.now ≡ 2 }
    ensures { IfOk result (IsDescSetOf h.now) }
{
    let mut set = DescSet::empty(h);
    for row in rows {
        set.grow(h, &coord(alloc, h, row)?);
    }
    Ok(set)
}

/// Adds the sets of the items of a kind.
fn add_kind(alloc: Global, h: &Hierarchy, sets: &mut Vec<DescSet>, kind: &Kind) -> Result<(), Fail>
    requires dims { length h.now ≡ 2 }
    requires sets { All (IsDescSetOf h.now) sets.old.items }
    ensures { OnOk result (All (IsDescSetOf h.now) sets.new.items) }
{
    let (count, rows) = kind;
    for _ in 0..*count {
        sets.push(set_of(alloc, h, rows)?)?;
    }
    Ok(())
}

/// The sets of items of these kinds.
fn sets_of(alloc: Global, h: &Hierarchy, kinds: &[Kind]) -> Result<Vec<DescSet>, Fail>
    requires { length h.now ≡ 2 }
    ensures { IfOk result (λ sets. All (IsDescSetOf h.now) sets.items) }
{
    let mut sets = Vec::new(alloc);
    for kind in kinds {
        add_kind(alloc, h, &mut sets, kind)?;
    }
    Ok(sets)
}

/// The good cut of items of these kinds.
fn cut_of(alloc: Global, h: &Hierarchy, kinds: &[Kind]) -> Result<Option<Cut>, Fail>
    requires { length h.now ≡ 2 }
{
    let sets = sets_of(alloc, h, kinds)?;
    if sets.len() < 2 || sets.len() > 32 {
        return Err("not 2 to 32 items".into());
    }
    Ok(choose(&sets, h))
}

/// The dimension, the level and the number of left items of a cut.
type Found = Option<(u8, u8, u8)>;

/// What a cut has found.
fn found(cut: &Option<Cut>) -> Found {
    match cut {
        Some(cut) => Some((cut.dim, cut.level, cut.left)),
        None => None,
    }
}

/// Compares the good cuts of items.
fn expect_cuts<R: Abort>(
    rt: &R,
    alloc: Global,
    h: &Hierarchy,
    cases: &[(&[Kind], Found)],
) -> Result<(), Fail>
    requires { length h.now ≡ 2 }
{
    for (kinds, wanted) in cases {
        assert_eq!(rt; found(&cut_of(alloc, h, kinds)?), *wanted);
    }
    Ok(())
}

#[test]
fn good_cuts(rt: HostRuntime) -> Result<(), Fail> {
    const CASES: [(&[Kind], Found); 11] = [
        // two places of a country: a third of the items at least on each side
        (&[(11, AX), (21, BX)], Some((0, 2, 11))),
        (&[(10, AX), (22, BX)], None),
        (&[(22, AX), (10, BX)], None),
        (&[(2, AX)], None),
        // two items, of two years: the lower level, then the lower dimension
        (&[(1, AX), (1, &[["b", "w"]])], Some((1, 1, 1))),
        (&[(1, AX), (1, &[["b", "y"]])], Some((0, 2, 1))),
        // two cuts as near to the middle
        (&[(2, &[["c", "x"]]), (2, AX), (2, BX)], Some((0, 2, 2))),
        // a concept on both sides: a fifth of the items at most, and fewer are better
        (
            &[
                (3, &[["a", "x"], ["b", "x"]]),
                (3, &[["b", "x"], ["c", "x"]]),
            ],
            Some((0, 2, 3)),
        ),
        (
            &[
                (2, &[["a", "x"], ["b", "x"]]),
                (2, &[["b", "x"], ["c", "x"]]),
            ],
            None,
        ),
        (
            &[
                (3, &[["a", "x"], ["b", "x"]]),
                (3, &[["b", "y"], ["c", "y"]]),
            ],
            Some((1, 2, 3)),
        ),
        (
            &[
                (5, &[["a", "x"], ["b", "z"]]),
                (5, &[["b", "y"], ["c", "z"]]),
            ],
            Some((0, 2, 5)),
        ),
    ];
    let alloc = rt.alloc();
    expect_cuts(&rt, alloc, &world(alloc)?, &CASES)
}

/// Compares the order of the good cut of items, and how many go left.
fn expect_order<R: Abort>(
    rt: &R,
    alloc: Global,
    h: &Hierarchy,
    kinds: &[Kind],
    order: &[u8],
    wanted: Found,
) -> Result<(), Fail>
    requires { length h.now ≡ 2 }
{
    let cut = cut_of(alloc, h, kinds)?;
    assert_eq!(rt; found(&cut), wanted);
    let cut = cut.expect(rt, "a cut");
    assert_eq!(rt; cut.order.as_slice(), order);
    Ok(())
}

#[test]
fn ties_stay_in_order(rt: HostRuntime) -> Result<(), Fail> {
    const KINDS: [Kind; 5] = [(1, BX), (1, AX), (1, BX), (1, AX), (1, BX)];
    let alloc = rt.alloc();
    let h = world(alloc)?;
    expect_order(&rt, alloc, &h, &KINDS, &[1, 3, 0, 2, 4], Some((0, 2, 2)))
}

/// Seven countries of one place each, and two years of a decade.
const WIDE_WORLD: [Dim; 2] = [
    (
        "place",
        2,
        &[
            ["-", "A"],
            ["-", "B"],
            ["-", "C"],
            ["-", "D"],
            ["-", "E"],
            ["-", "F"],
            ["-", "G"],
            ["A", "a"],
            ["B", "b"],
            ["C", "c"],
            ["D", "d"],
            ["E", "e"],
            ["F", "f"],
            ["G", "g"],
        ],
    ),
    ("year", 2, &[["-", "V"], ["V", "x"], ["V", "y"]]),
];

#[test]
fn a_set_at_level_0_leaves_no_cut(rt: HostRuntime) -> Result<(), Fail> {
    const WIDE: &[At] = &[
        ["a", "x"],
        ["b", "x"],
        ["c", "x"],
        ["d", "x"],
        ["e", "x"],
        ["f", "x"],
        ["g", "x"],
    ];
    const NONE: [(&[Kind], Found); 1] = [(&[(1, AX), (1, WIDE)], None)];
    const KINDS: [Kind; 2] = [(1, &[["a", "y"]]), (1, WIDE)];
    let alloc = rt.alloc();
    let h = hierarchy(alloc, &WIDE_WORLD)?;
    expect_cuts(&rt, alloc, &h, &NONE)?;
    expect_order(&rt, alloc, &h, &KINDS, &[1, 0], Some((1, 2, 1)))
}

/// The good head cut of a group whose head and whose other blocks have items of these sets.
fn best_of(h: &Hierarchy, head: &[DescSet], others: &[DescSet]) -> Option<HeadCut>
    requires some { 2 ≤ length head.now }
    requires few { length head.now ≤ 32 }
    requires head { All (IsDescSetOf h.now) head.now }
    requires others { All (IsDescSetOf h.now) others.now }
{
    let mut cuts = HeadCuts::of(head, h);
    for set in others {
        cuts.strike(h, set);
    }
    cuts.best(h)
}

/// The good head cut of a group whose head and whose other blocks have items of these kinds.
fn head_cut_of(
    alloc: Global,
    h: &Hierarchy,
    head: &[Kind],
    others: &[Kind],
) -> Result<Option<HeadCut>, Fail>
    requires { length h.now ≡ 2 }
{
    let sets = sets_of(alloc, h, head)?;
    if sets.len() < 2 || sets.len() > 32 {
        return Err("not 2 to 32 items".into());
    }
    let others = sets_of(alloc, h, others)?;
    Ok(best_of(h, &sets, &others))
}

/// The dimension, the level, the name of the concept and the number of kept items of a head cut.
type Kept = Option<(u8, u8, &'static str, u8)>;

/// The head cut of which a table tells.
fn head_cut(h: &Hierarchy, kept: &Kept) -> Result<Option<HeadCut>, Fail> {
    let Some((dim, level, name, kept)) = kept else {
        return Ok(None);
    };
    let concept = h.find_bytes(*dim, name.as_bytes()).ok_or("a concept")?;
    Ok(Some(HeadCut {
        dim: *dim,
        level: *level,
        concept,
        kept: *kept,
    }))
}

/// A head's items, those of the other blocks of its group, and the good head cut.
type HeadCase = (&'static [Kind], &'static [Kind], Kept);

/// Compares the good head cuts of groups.
fn expect_head_cuts<R: Abort>(
    rt: &R,
    alloc: Global,
    h: &Hierarchy,
    cases: &[HeadCase],
) -> Result<(), Fail>
    requires { length h.now ≡ 2 }
{
    for (head, others, kept) in cases {
        let cut = head_cut_of(alloc, h, head, others)?;
        assert_eq!(rt; cut, head_cut(h, kept)?);
    }
    Ok(())
}

#[test]
fn good_head_cuts(rt: HostRuntime) -> Result<(), Fail> {
    const CX: &[At] = &[["c", "x"]];
    const CZ: &[At] = &[["c", "z"]];
    const TWO: &[At] = &[["a", "x"], ["b", "x"]];
    const CASES: [HeadCase; 8] = [
        // two places of a country; the other blocks have the one, and neither
        (&[(17, AX), (15, BX)], &[(32, AX)], Some((0, 2, "b", 15))),
        (&[(17, AX), (15, BX)], &[(32, CX)], Some((0, 2, "a", 17))),
        // a third of the items at least
        (&[(11, AX), (21, BX)], &[(1, BX)], Some((0, 2, "a", 11))),
        (&[(10, AX), (22, BX)], &[(1, BX)], None),
        // as many are kept: the lower level, then the lower dimension, then the lower concept
        (
            &[(2, &[["b", "w"]]), (2, AX)],
            &[(1, CZ)],
            Some((1, 1, "W", 2)),
        ),
        (
            &[(2, &[["b", "y"]]), (2, AX)],
            &[(1, CZ)],
            Some((0, 2, "a", 2)),
        ),
        // a concept of kept items that another item of the head has, or one of another block
        (&[(2, TWO), (2, BX)], &[(1, CX)], None),
        (&[(2, TWO), (2, CX)], &[(1, BX)], Some((0, 2, "c", 2))),
    ];
    let alloc = rt.alloc();
    expect_head_cuts(&rt, alloc, &world(alloc)?, &CASES)
}

/// Seven places of one country and one of another, and three years of a decade.
const LONG_WORLD: [Dim; 2] = [
    (
        "place",
        2,
        &[
            ["-", "D"],
            ["D", "a"],
            ["D", "b"],
            ["D", "c"],
            ["D", "d"],
            ["D", "e"],
            ["D", "f"],
            ["D", "g"],
            ["-", "E"],
            ["E", "h"],
        ],
    ),
    ("year", 2, &[["-", "V"], ["V", "x"], ["V", "y"], ["V", "z"]]),
];

#[test]
fn an_item_of_a_higher_level_leaves_no_head_cut(rt: HostRuntime) -> Result<(), Fail> {
    const HEAD: &[Kind] = &[(1, AX), (1, &[["b", "y"]])];
    const WIDE: &[At] = &[
        ["a", "z"],
        ["b", "z"],
        ["c", "z"],
        ["d", "z"],
        ["e", "z"],
        ["f", "z"],
        ["g", "z"],
    ];
    const FAR: &[At] = &[["h", "x"]];
    const CASES: [HeadCase; 3] = [
        (HEAD, &[], Some((0, 2, "a", 1))),
        (HEAD, &[(1, WIDE)], Some((1, 2, "x", 1))),
        (HEAD, &[(1, WIDE), (1, FAR)], Some((1, 2, "y", 1))),
    ];
    let alloc = rt.alloc();
    expect_head_cuts(&rt, alloc, &hierarchy(alloc, &LONG_WORLD)?, &CASES)
}
