//! What is tested of `library_runs`: an index for one thread that is built, filled and asked, and a script from its bytes
//! to its text.
ghost use Rattle.std.specs.Prelude.{◌≡◌, IfOk, length};
ghost use Rattle.library_runs.specs.Index.{IsHeld};

use dim_hierarchy::Hierarchy;
use library_runs::of_olap_top::Status;
use library_runs::{Index, RowFault, row, run_text, under};
use measure_agg::Agg;
use script_form::{Script, read_script};
use std::alloc::Global;
use std::test::Fail;

/// A country with two towns.
const TOWNS: &str =
    "volap,1\nuse,1,1,1,64\ndim,geo,2\nconcept,geo,de,*\nconcept,geo,berlin,de\nconcept,geo,munich,de\n";

/// The hierarchy of the towns.
fn towns(alloc: Global) -> Result<Hierarchy, Fail>
    ensures { IfOk result (λ h. length h ≡ 1) }
{
    let Ok(script) = read_script(alloc, TOWNS.as_bytes()) else {
        return Err("the script is good".into());
    };
    let Script { hierarchy, .. } = script;
    if hierarchy.dims() != 1 {
        return Err("there is one dimension".into());
    }
    Ok(hierarchy)
}

/// The count, the sum, the least and the greatest.
fn parts(total: Option<Agg>) -> Option<(u64, i128, Option<i64>, Option<i64>)> {
    let total = total?;
    Some((total.count(), total.sum(), total.least(), total.greatest()))
}

/// An index of two rows of Berlin and one of Munich.
fn filled(alloc: Global) -> Result<Index, Fail>
    ensures held { IfOk result IsHeld }
    ensures dims { IfOk result (λ x. length x.hierarchy ≡ 1) }
{
    let index = Index::open(alloc, towns(alloc)?, 64)?;
    let (index, _) = index.insert(alloc, row(alloc, &["berlin"])?, 5)?;
    let (index, _) = index.insert(alloc, row(alloc, &["munich"])?, 7)?;
    let (index, _) = index.insert(alloc, row(alloc, &["berlin"])?, -9)?;
    Ok(index)
}

#[test]
fn an_index_counts_what_came_in(rt: HostRuntime) -> Result<(), Fail> {
    let alloc = rt.alloc();
    let index = filled(alloc)?;
    assert_eq!(rt; parts(index.answer()), None);
    let index = index.query(alloc, under(alloc, &[&["berlin"]])?)?;
    assert_eq!(rt; parts(index.answer()), Some((2, -4, Some(-9), Some(5))));
    let index = index.query(alloc, under(alloc, &[&["de"]])?)?;
    assert_eq!(rt; parts(index.answer()), Some((3, 3, Some(-9), Some(7))));
    let index = index.query(alloc, under(alloc, &[&[]])?)?;
    assert_eq!(rt; parts(index.answer()), Some((3, 3, Some(-9), Some(7))));
    // The first pull, and a beginning and an end of each command.
    assert_eq!(rt; index.events().len(), 13);
    Ok(())
}

#[test]
fn an_index_answers_nothing_of_a_name_that_it_does_not_know(rt: HostRuntime) -> Result<(), Fail> {
    let alloc = rt.alloc();
    let index = filled(alloc)?;
    let index = index.query(alloc, under(alloc, &[&["paris"]])?)?;
    assert_eq!(rt; parts(index.answer()), None);
    Ok(())
}

#[test]
fn an_insert_tells_where_a_name_is_not_that_of_a_leaf(rt: HostRuntime) -> Result<(), Fail> {
    let alloc = rt.alloc();
    let index = filled(alloc)?;
    let (index, unknown) = index.insert(alloc, row(alloc, &["paris"])?, 1)?;
    assert_eq!(rt; unknown, Some(0));
    let (index, unknown) = index.insert(alloc, row(alloc, &["de"])?, 1)?;
    assert_eq!(rt; unknown, Some(0));
    let (index, unknown) = index.insert(alloc, row(alloc, &["munich"])?, 1)?;
    assert_eq!(rt; unknown, None);
    let index = index.query(alloc, under(alloc, &[&["munich", "paris"]])?)?;
    assert_eq!(rt; parts(index.answer()), None);
    let index = index.query(alloc, under(alloc, &[&["munich"]])?)?;
    assert_eq!(rt; parts(index.answer()), Some((2, 8, Some(1), Some(7))));
    Ok(())
}

#[test]
fn a_name_of_more_than_255_bytes_is_not_that_of_a_row(rt: HostRuntime) -> Result<(), Fail> {
    let alloc = rt.alloc();
    let long = str::from_utf8(&[b'a'; 256])?;
    assert_eq!(rt;
        row(alloc, &["berlin", long]).err(),
        Some(RowFault::TooLong)
    );
    assert_eq!(rt; row(alloc, &["berlin", &long[1..]])?.len(), 2);
    Ok(())
}

/// A script of two servers, and its lines.
const SCRIPT: &str = "volap,1\ndim,geo,1\nconcept,geo,de,*\ninsert,0,5,de\nsettle\nquery,1,de\n";

const LINES: &str = "1 insert ok\n2 settle ok\n3 query 1 5 5 5\n";

#[test]
fn a_script_from_bytes_to_bytes(rt: HostRuntime) -> Result<(), Fail> {
    let alloc = rt.alloc();
    let script = SCRIPT.as_bytes().to_vec(alloc)?;
    let Ok(answered) = run_text(&rt, alloc, script, 1000) else {
        panic!(rt; "the script is good");
    };
    assert_eq!(rt; answered.text.as_slice(), LINES.as_bytes());
    // Two first pulls, a beginning and an end of each command, and the four pulls of the settle.
    assert_eq!(rt; answered.ledger.len(), 12);
    Ok(())
}

#[test]
fn a_script_that_is_not_answered(rt: HostRuntime) -> Result<(), Fail> {
    let alloc = rt.alloc();
    let cases: [(&str, usize, Status); 3] = [
        ("volap,2\n", 1000, Status::BadScript),
        ("volap,2\n", 3, Status::BadScript),
        (SCRIPT, 5, Status::WriteFault),
    ];
    for (text, room, status) in cases {
        let script = text.as_bytes().to_vec(alloc)?;
        let Err(found) = run_text(&rt, alloc, script, room) else {
            panic!(rt; "it is not answered");
        };
        assert_eq!(rt; found, status);
    }
    Ok(())
}
