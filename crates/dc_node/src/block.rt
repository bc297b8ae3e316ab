//! The blocks of a tree.
ghost use Rattle.std.specs.Prelude.{◌≡◌, ◌+◌, ◌<◌, ◌≤◌, ◌^◌, ◌∷◌, ◌++◌, [], true, false, length};
ghost use Rattle.dc_node.specs.Limits.{most_of_directory};
ghost use Rattle.dc_node.specs.Block.{rows_in, entries_in, is_leaf, is_full, with_rows, with_entries, replaced, IsBodyOf};
ghost use Rattle.dc_node.specs.Summary.{row_count, IsSummary};
ghost use Rattle.describing_set.specs.Sets.{IsDescSetOf};

use crate::blanks::Blanks;
use crate::boxed::EntryBox;
use crate::entry::Entry;
use crate::leaf::LeafRows;
use crate::summary::{agg_of_entries, set_of_entries};
use describing_set::DescSet;
use dim_hierarchy::{Hierarchy, Row};
use measure_agg::Agg;

/// The items of a block: the rows of a leaf, or the entries of a directory.
#[derive(Drop)]
pub enum Body {
    Rows(LeafRows),
    Entries(EntryBox),
}

/// A node of a tree. Its right link is the cell of the next block of its group; the last block of a
/// group is the first one with the stamp that the group's entry expects.
#[derive(Drop)]
pub struct Block {
    pub stamp: u64,
    pub right: Option<u32>,
    pub body: Body,
}

/// None of these calls takes memory.
impl Block {
    ghost use Rattle.dc_node.specs.declared.block.Body.TheVariants.{Rows, Entries};

    /// A leaf with no rows and no right link. It has no box until the first row comes.
    pub fn leaf(stamp: u64) -> Block
        ensures { result ≡ record { stamp = stamp; right = None; body = Rows (record { items = [] }) } }
    {
        Block {
            stamp,
            right: None,
            body: Body::Rows(LeafRows::new()),
        }
    }

    /// A directory in this box, whose entries go, with no entries and no right link.
    pub fn directory(entries: EntryBox, stamp: u64) -> Block
        ensures { result ≡ record { stamp = stamp; right = None; body = Entries (record { items = [] }) } }
    {
        let mut entries = entries;
        entries.clear();
        Block {
            stamp,
            right: None,
            body: Body::Entries(entries),
        }
    }

    /// Whether its items are rows.
    pub fn is_leaf(&self) -> bool
        ensures { result ≡ is_leaf self.now.body }
    {
        match &self.body {
            Body::Rows(_) => true,
            Body::Entries(_) => false,
        }
    }

    /// Whether there is no room for a further item: a leaf has at most 32 rows, a directory 16 entries.
    pub fn is_full(&self) -> bool
        ensures { result ≡ is_full self.now.body }
    {
        match &self.body {
            Body::Rows(rows) => rows.is_full(),
            Body::Entries(entries) => entries.is_full(),
        }
    }

    /// The entries of a directory in order; none of a leaf.
    pub fn entries(&self) -> &[Entry]
        ensures value { result.now ≡ entries_in self.now.body }
        ensures few { length result.now ≤ most_of_directory }
    {
        match &self.body {
            Body::Rows(_) => &[],
            Body::Entries(entries) => entries.as_slice(),
        }
    }

    /// Adds a row at the end of a leaf that has room. The first row's box comes from the blanks.
    pub fn add_row(&mut self, row: &Row, blanks: &mut Blanks)
        requires leaf { is_leaf self.old.body ≡ true }
        requires room { is_full self.old.body ≡ false }
        requires blanks { 0 < blanks.old }
        ensures blanks { blanks.old ≤ blanks.new + 1 }
        ensures row { self.new ≡ with_rows self.old (rows_in self.old.body ++ row.now ∷ []) }
    {
        if let Body::Rows(rows) = &mut self.body {
            prove!(!rows.is_full());
            rows.push(row, blanks);
        }
    }

    /// Adds an entry at the end of a directory that has room.
    pub fn add_entry(&mut self, entry: Entry)
        requires directory { is_leaf self.old.body ≡ false }
        requires room { is_full self.old.body ≡ false }
        ensures { self.new ≡ with_entries self.old (entries_in self.old.body ++ entry ∷ []) }
    {
        if let Body::Entries(entries) = &mut self.body {
            prove!(!entries.is_full());
            entries.push(entry);
        }
    }

    /// Puts an entry in place of the one at a place of a directory.
    pub fn set_entry(&mut self, place: usize, entry: Entry)
        requires { place < length (entries_in self.old.body) }
        ensures { self.new ≡ with_entries self.old (replaced (entries_in self.old.body) place (entry ∷ [])) }
    {
        if let Body::Entries(entries) = &mut self.body {
            entries.set(place, entry);
        }
    }

    /// Puts two entries in place of the one at a place of a directory that has room.
    pub fn split_entry(&mut self, place: usize, left: Entry, right: Entry)
        requires place { place < length (entries_in self.old.body) }
        requires room { is_full self.old.body ≡ false }
        ensures { self.new ≡ with_entries self.old (replaced (entries_in self.old.body) place (left ∷ right ∷ [])) }
    {
        if let Body::Entries(entries) = &mut self.body {
            prove!(!entries.is_full());
            entries.set(place, left);
            entries.insert(place + 1, right);
        }
    }

    /// The aggregate and the describing set of all items.
    pub fn summary(&self, h: &Hierarchy) -> (Agg, DescSet)
        requires body { IsBodyOf h.now self.now.body }
        requires few { row_count self.now.body < 2 ^ 63 }
        ensures summary { IsSummary h.now self.now.body result.0 result.1 }
        ensures valid { IsDescSetOf h.now result.1 }
    {
        match &self.body {
            Body::Rows(rows) => (rows.total(), rows.set(h)),
            Body::Entries(entries) => {
                let entries = entries.as_slice();
                (agg_of_entries(entries), set_of_entries(entries, h))
            }
        }
    }
}
