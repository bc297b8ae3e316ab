//! What is found so far.
ghost use Rattle.std.specs.Prelude.{◌≡◌, ◌+◌, ◌<◌, ◌≤◌, ◌^◌, [], length, All, IfOk, OnOk};
ghost use Rattle.describing_set.specs.Sets.{IsDescSetOf};
ghost use Rattle.dim_hierarchy.specs.Rows.{IsRowOf};
ghost use Rattle.group_answer.specs.Adding.{IsAdded, with_line, with_row, with_rows};
ghost use Rattle.group_answer.specs.Groups.{IsQuestion, all_of};

use crate::asked::Asked;
use crate::lines::Lines;
use crate::told::{Told, tells};
use describing_set::DescSet;
use dim_hierarchy::{ConceptId, Row};
use measure_agg::Agg;
use std::alloc::{AllocError, Global};

/// The lines so far, and how many gates, blocks and rows of queues were looked at.
#[derive(Drop)]
pub(crate) struct Found {
    pub(crate) lines: Lines,
    pub(crate) looks: u64,
}

impl Found {
    /// Nothing yet. Takes no memory.
    pub(crate) fn new(alloc: Global) -> Found
        ensures lines { result.lines.items ≡ [] }
        ensures looks { result.looks ≡ 0 }
    {
        Found {
            lines: Lines::new(alloc),
            looks: 0,
        }
    }

    /// Counts looks. At the greatest number there is it stays.
    pub(crate) fn look(&mut self, looks: u64)
        ensures few { self.new.looks ≤ self.old.looks + looks }
        ensures lines { self.new.lines.items ≡ self.old.lines.items }
    {
        self.looks = self.looks.saturating_add(looks);
    }

    /// Adds the aggregate of rows that are all under a concept.
    pub(crate) fn add(&mut self, id: ConceptId, agg: &Agg) -> Result<(), AllocError>
        requires few { (all_of self.old.lines.items).count + agg.now.count < 2 ^ 63 }
        ensures lines { OnOk result (self.new.lines.items ≡ with_line id agg.now self.old.lines.items) }
        ensures looks { self.new.looks ≡ self.old.looks }
    {
        self.lines.add(id, agg)
    }

    /// Adds a row, where it matches.
    fn add_row(&mut self, asked: &Asked, row: &Row) -> Result<(), AllocError>
        requires question { IsQuestion asked.now }
        requires row { IsRowOf asked.now.hierarchy row.now }
        requires few { (all_of self.old.lines.items).count + 1 < 2 ^ 63 }
        ensures lines { OnOk result (self.new.lines.items ≡ with_row asked.now row.now self.old.lines.items) }
        ensures looks { self.new.looks ≡ self.old.looks }
    {
        if !asked.matches(row) {
            return Ok(());
        }
        self.add(asked.concept_of(row), &Agg::one(row.measures))
    }

    /// Adds rows one by one.
    pub(crate) fn add_rows(&mut self, asked: &Asked, rows: &[Row]) -> Result<(), AllocError>
        requires question { IsQuestion asked.now }
        requires rows { All (IsRowOf asked.now.hierarchy) rows.now }
        requires few { (all_of self.old.lines.items).count + length rows.now < 2 ^ 63 }
        ensures lines { OnOk result (self.new.lines.items ≡ with_rows asked.now rows.now self.old.lines.items) }
        ensures looks { self.new.looks ≡ self.old.looks }
    {
        for row in rows {
            self.add_row(asked, row)?;
        }
        Ok(())
    }

    /// Adds the rows of a set and its aggregate, where the set tells them, and else none; whether it did.
    pub(crate) fn add_told(
        &mut self,
        asked: &Asked,
        set: &DescSet,
        agg: &Agg,
    ) -> Result<bool, AllocError>
        requires question { IsQuestion asked.now }
        requires set { IsDescSetOf asked.now.hierarchy set.now }
        requires few { (all_of self.old.lines.items).count + agg.now.count < 2 ^ 63 }
        ensures lines { IfOk result (IsAdded asked.now set.now agg.now self.old.lines.items self.new.lines.items) }
        ensures looks { self.new.looks ≡ self.old.looks }
    {
        match tells(asked, set) {
            Told::NoRow => Ok(true),
            Told::Under(id) => {
                self.add(id, agg)?;
                Ok(true)
            }
            Told::Unknown => Ok(false),
        }
    }
}
