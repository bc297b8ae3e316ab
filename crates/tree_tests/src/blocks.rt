//! What is tested of `dc_node`.
use dc_node::{Blanks, Block, Body, Entry, Item, Todo};
use dim_hierarchy::Row;
use std::alloc::AllocError;
use std::process::Abort;
use std::test::Fail;

/// How many rows a leaf has; a directory has none.
fn rows_of(block: &Block) -> usize {
    match &block.body {
        Body::Rows(rows) => rows.len(),
        Body::Entries(_) => 0,
    }
}

/// Adds a row to a leaf that has room.
fn add_row<R: Abort>(rt: &R, leaf: &mut Block, blanks: &mut Blanks) -> Result<(), AllocError> {
    assert!(rt; leaf.is_leaf());
    assert!(rt; !leaf.is_full());
    blanks.refill(1)?;
    leaf.add_row(&Row::default(), blanks);
    Ok(())
}

#[test]
fn a_leaf_has_room_for_32_rows(rt: HostRuntime) -> Result<(), Fail> {
    let mut blanks = Blanks::new(rt.alloc());
    let mut leaf = Block::leaf(0);
    for _ in 0..32 {
        add_row(&rt, &mut leaf, &mut blanks)?;
    }
    assert!(rt; leaf.is_full());
    assert_eq!(rt; rows_of(&leaf), 32);
    Ok(())
}

#[test]
fn a_directory_has_room_for_16_entries(rt: HostRuntime) {
    let mut blanks = Blanks::new(rt.alloc());
    assert_eq!(rt; blanks.refill(2), Ok(()));
    let mut directory = Block::directory(blanks.directory(), 0);
    for _ in 0..16 {
        assert!(rt; !directory.is_leaf());
        assert!(rt; !directory.is_full());
        directory.add_entry(Entry::default());
    }
    assert!(rt; directory.is_full());
    assert_eq!(rt; rows_of(&directory), 0);
}

#[test]
fn the_last_noted_is_first(rt: HostRuntime) {
    let mut todo = Todo::new(rt.alloc());
    assert_eq!(rt; todo.reserve(17), Ok(()));
    assert!(rt; todo.is_empty());
    let first = Item { cell: 3, stamp: 8 };
    let second = Item { cell: 5, stamp: 2 };
    todo.push(first);
    todo.push(second);
    assert_eq!(rt; todo.len(), 2);
    let popped = [todo.pop(), todo.pop(), todo.pop()];
    assert_eq!(rt; popped, [Some(second), Some(first), None]);
}
