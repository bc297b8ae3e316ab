//! Trees that grow row by row. How high they are and how many cells they take is what another program finds, which was
//! written apart from the same rules.
use crate::top::run_top;
use library_runs::of_olap_top::{Outcome, Status};
use row_ledger::{Event, Page, TreePage};
use std::alloc::{AllocError, Global};
use std::fmt::Write;
use std::process::Abort;
use std::sync::Wait;
use std::test::Fail;
use std::thread::Threads;
use volap_io::MemSink;

/// Adds a dimension of six concepts with eight beneath each.
fn push_dim(text: &mut String, dim: &str) -> Result<(), AllocError> {
    for top in 0..6 {
        writeln!(text, "concept,{dim},{top},*")?;
        for leaf in 0..8 {
            writeln!(text, "concept,{dim},{top}{leaf},{top}")?;
        }
    }
    Ok(())
}

/// For each dimension how many of its leaf concepts the rows have, how many rows in turn have the
/// same one, and a step from one concept to the next.
type Shape = [(u64, u64, u64); 3];

/// Adds the name of a row's concept in a dimension.
fn push_name(text: &mut String, places: (u64, u64, u64), no: u64) -> Result<(), AllocError> {
    let (count, turn, step) = places;
    let place = (no / turn.max(1)).wrapping_mul(step) % count.clamp(1, 48);
    let top = place / 8;
    let leaf = place % 8;
    write!(text, ",{top}{leaf}")
}

/// Adds the insert of a number.
fn push_row(text: &mut String, shape: &Shape, no: u64) -> Result<(), AllocError> {
    let measure = (no % 1000) as i64 - 300;
    write!(text, "insert,0,{measure}")?;
    for places in shape {
        push_name(text, *places, no)?;
    }
    writeln!(text)
}

/// A script that inserts so many rows of a shape into one shard, and shows its tree.
fn script(alloc: Global, shape: &Shape, count: u64) -> Result<String, AllocError> {
    const HEAD: &str = "volap,1\nuse,1,1,1,1024\ndim,date,2\ndim,store,2\ndim,product,2\n";
    let mut text = String::from_str(alloc, HEAD)?;
    for dim in &["date", "store", "product"] {
        push_dim(&mut text, dim)?;
    }
    for no in 0..count {
        push_row(&mut text, shape, no)?;
    }
    writeln!(text, "tree,0")?;
    Ok(text)
}

/// The tree that was shown.
fn page(events: &[Event]) -> Option<&TreePage> {
    for event in events {
        if let Event::Shown {
            page: Page::Tree(tree),
            ..
        } = event
        {
            return Some(tree);
        }
    }
    None
}

/// How many blocks a tree has, and how many rows its leaves have.
fn totals(tree: &TreePage) -> (u64, u64) {
    let mut blocks = 0_u64;
    let mut rows = 0_u64;
    for line in tree.nodes.as_slice() {
        blocks = blocks.wrapping_add(line.blocks);
        if line.leaf {
            rows = rows.wrapping_add(line.items);
        }
    }
    (blocks, rows)
}

/// The sum of the measures of so many rows.
fn sum_of(count: u64) -> i128 {
    let mut sum = 0_i128;
    for no in 0..count {
        sum = sum.wrapping_add(i128::from(no % 1000) - 300);
    }
    sum
}

/// How many rows there are beneath the root, and the sum of their measures.
fn beneath(tree: &TreePage) -> Option<(u64, i128)> {
    let root = tree.nodes.as_slice().first()?;
    Some((root.agg.count(), root.agg.sum()))
}

/// The outcome of a script that inserts so many rows of a shape and shows the tree.
fn grown<R: Threads + Wait + Sync>(
    rt: &R,
    alloc: Global,
    shape: &Shape,
    count: u64,
) -> Result<Outcome, AllocError> {
    let text = script(alloc, shape, count)?;
    let mut sink = MemSink::new(alloc, 10_000_000, Vec::new(alloc), 4096)?;
    run_top(rt, alloc, &["step"], text.as_str().as_bytes(), &mut sink)
}

/// The shape of rows, how many there are, how high their tree is, and how many blocks it has.
type Case = (Shape, u64, u32, u64);

/// Compares a tree that was shown.
fn expect_tree<R: Abort>(rt: &R, tree: &TreePage, case: &Case) {
    let (_shape, count, height, blocks) = case;
    assert_eq!(rt; (tree.height, tree.rows, tree.queued), (*height, *count, 0));
    assert_eq!(rt; totals(tree), (*blocks, *count));
    assert_eq!(rt; beneath(tree), Some((*count, sum_of(*count))));
}

/// Compares the height of a tree, and how many blocks it has, where it has all rows.
fn expect_grown<R: Abort + Threads + Wait + Sync>(
    rt: &R,
    alloc: Global,
    case: &Case,
) -> Result<(), Fail> {
    let (shape, count, _height, _blocks) = case;
    let outcome = grown(rt, alloc, shape, *count)?;
    assert_eq!(rt; outcome.status, Status::Done);
    match page(outcome.ledger.events()) {
        Some(tree) => expect_tree(rt, tree, case),
        None => panic!(rt; "no tree was shown"),
    }
    Ok(())
}

/// All rows have one place.
const ONE: Shape = [(1, 1, 1); 3];

/// They have two places in turn.
const TWO: Shape = [(2, 1, 1), (1, 1, 1), (1, 1, 1)];

/// The same, with 33 rows each time.
const TURNS: Shape = [(2, 33, 1), (1, 1, 1), (1, 1, 1)];

#[test]
fn few_rows(rt: HostRuntime) -> Result<(), Fail> {
    const CASES: [Case; 8] = [
        (ONE, 0, 1, 1),
        (ONE, 32, 1, 1),
        (ONE, 33, 1, 2),
        (TWO, 32, 1, 1),
        (TWO, 33, 2, 3),
        (TWO, 66, 2, 5),
        (TURNS, 48, 1, 2),
        (TURNS, 49, 2, 4),
    ];
    for case in &CASES {
        expect_grown(&rt, rt.alloc(), case)?;
    }
    Ok(())
}

#[test]
fn many_rows(rt: HostRuntime) -> Result<(), Fail> {
    const CASES: [Case; 4] = [
        (ONE, 5000, 1, 312),
        (TWO, 5000, 2, 313),
        ([(48, 1, 7), (1, 1, 1), (1, 1, 1)], 5000, 3, 295),
        ([(48, 1, 7), (48, 1, 11), (48, 1, 17)], 5000, 3, 295),
    ];
    for case in &CASES {
        expect_grown(&rt, rt.alloc(), case)?;
    }
    Ok(())
}

#[test]
fn many_rows_in_turns(rt: HostRuntime) -> Result<(), Fail> {
    const CASES: [Case; 3] = [
        (TURNS, 5000, 2, 312),
        ([(48, 33, 7), (1, 1, 1), (1, 1, 1)], 5000, 3, 310),
        ([(48, 33, 7), (48, 20, 11), (48, 50, 17)], 5000, 3, 272),
    ];
    for case in &CASES {
        expect_grown(&rt, rt.alloc(), case)?;
    }
    Ok(())
}
