//! Boxes without items, which are made before they are needed.
ghost use Rattle.std.specs.Prelude.{◌≡◌, ◌+◌, ◌<◌, ◌≤◌, [], length, OnOk};

use crate::block::Body;
use crate::boxed::{EntryBox, RowBox};
use std::alloc::{AllocError, Global};
use std::marker::Model;

/// Boxes without items, for the steps that may take no memory: they are made before an insert, and
/// what it leaves is kept for the next one. Contracts see how many there are of either kind at least.
#[derive(Drop)]
pub struct Blanks {
    alloc: Global,
    leaves: Vec<RowBox>,
    directories: Vec<EntryBox>,
}

impl Model for Blanks {
    ghost use Rattle.std.specs.Prelude.{ℕ, min, length};

    ghost Value = { ℕ };

    ghost view = { λ a. min (length a.leaves.items) (length a.directories.items) };
}

impl Blanks {
    /// No box. Takes no memory.
    pub fn new(alloc: Global) -> Blanks
        ensures { result ≡ 0 }
    {
        Blanks {
            alloc,
            leaves: Vec::new(alloc),
            directories: Vec::new(alloc),
        }
    }

    /// Makes boxes until there are `n` of either kind at least.
    pub fn refill(&mut self, n: u64) -> Result<(), AllocError>
        ensures ok { OnOk result (n ≤ self.new) }
        ensures kept { self.old ≤ self.new }
    {
        fill_leaves(&mut self.leaves, self.alloc, n as usize)?;
        fill_directories(&mut self.directories, self.alloc, n as usize)
    }

    /// Takes the box of a leaf out. Takes no memory.
    pub fn leaf(&mut self) -> RowBox
        requires { 0 < self.old }
        ensures rows { result.items ≡ [] }
        ensures left { self.old ≤ self.new + 1 }
    {
        let mut rows = self.leaves.take_last();
        rows.clear();
        rows
    }

    /// Takes the box of a directory out. Takes no memory.
    pub fn directory(&mut self) -> EntryBox
        requires { 0 < self.old }
        ensures entries { result.items ≡ [] }
        ensures left { self.old ≤ self.new + 1 }
    {
        let mut entries = self.directories.take_last();
        entries.clear();
        entries
    }

    /// Takes the box of a body in, whose items go. Takes no memory where one was taken out before.
    pub fn give(&mut self, body: Body)
        ensures { self.old ≤ self.new }
    {
        match body {
            Body::Rows(rows) => {
                if let Some(rows) = rows.into_box() {
                    let _given = self.leaves.push(rows);
                }
            }
            Body::Entries(entries) => {
                let _given = self.directories.push(entries);
            }
        }
    }
}

/// Makes boxes of leaves until there are `n` at least.
fn fill_leaves(boxes: &mut Vec<RowBox>, alloc: Global, n: usize) -> Result<(), AllocError>
    ensures ok { OnOk result (n ≤ length boxes.new.items) }
    ensures kept { length boxes.old.items ≤ length boxes.new.items }
{
    for _ in boxes.len()..n {
        boxes.push(RowBox::new(alloc)?)?;
    }
    Ok(())
}

/// Makes boxes of directories until there are `n` at least.
fn fill_directories(boxes: &mut Vec<EntryBox>, alloc: Global, n: usize) -> Result<(), AllocError>
    ensures ok { OnOk result (n ≤ length boxes.new.items) }
    ensures kept { length boxes.old.items ≤ length boxes.new.items }
{
    for _ in boxes.len()..n {
        boxes.push(EntryBox::new(alloc)?)?;
    }
    Ok(())
}
