//! Lines in the order of their concepts, as aggregates are added.
ghost use Rattle.std.specs.Prelude.{◌≡◌, ◌+◌, ◌<◌, ◌^◌, [], OnOk};
ghost use Rattle.describing_set.specs.Sorted.{Ascends};
ghost use Rattle.group_answer.specs.Adding.{IsPlaceOf, concepts_in, with_line};
ghost use Rattle.group_answer.specs.Groups.{all_of};

use dim_hierarchy::ConceptId;
use measure_agg::Agg;
use row_ledger::{GroupLine, GroupLines};
use std::alloc::{AllocError, Global};
use std::marker::Model;

/// Lines in the order of their concepts, of which each has one.
#[derive(Drop)]
pub(crate) struct Lines {
    lines: Vec<GroupLine>,
}

impl Model for Lines {
    ghost use Rattle.describing_set.specs.Sorted.{Ascends};
    ghost use Rattle.group_answer.specs.Adding.{LinesValue, concepts_in};

    ghost Value = { LinesValue };

    ghost view = { λ l. record { items = l.lines.items } };

    ghost invariant = { λ l. Ascends (concepts_in l.lines.items) };
}

impl Lines {
    /// No line. Takes no memory.
    pub(crate) fn new(alloc: Global) -> Lines
        ensures { result.items ≡ [] }
    {
        Lines {
            lines: Vec::new(alloc),
        }
    }

    /// Adds an aggregate to the line of a concept, which may not have one yet.
    pub(crate) fn add(&mut self, id: ConceptId, agg: &Agg) -> Result<(), AllocError>
        requires few { (all_of self.old.items).count + agg.now.count < 2 ^ 63 }
        ensures { OnOk result (self.new.items ≡ with_line id agg.now self.old.items) }
    {
        add(&mut self.lines, id, agg)
    }

    /// The aggregate of all lines together.
    pub(crate) fn all(&self) -> Agg
        requires few { (all_of self.now.items).count < 2 ^ 63 }
        ensures { result ≡ all_of self.now.items }
    {
        all_of(self.lines.as_slice())
    }

    /// The lines of a page. Takes no memory.
    pub(crate) fn into_lines(self) -> GroupLines
        ensures { result ≡ self.items }
    {
        GroupLines::from_vec(self.lines)
    }
}

/// The place of a concept's line, or the one where it goes. Halves the lines among which it is looked for.
fn place_of(lines: &[GroupLine], id: ConceptId) -> usize
    requires { Ascends (concepts_in lines.now) }
    ensures { IsPlaceOf id lines.now result }
{
    let mut from = 0;
    let mut to = lines.len();
    while from < to {
        let middle = from + (to - from) / 2;
        if lines[middle].id < id {
            from = middle + 1;
        } else {
            to = middle;
        }
    }
    from
}

/// Adds an aggregate to the line of a concept, which may not have one yet.
fn add(lines: &mut Vec<GroupLine>, id: ConceptId, agg: &Agg) -> Result<(), AllocError>
    requires few { (all_of lines.old.items).count + agg.now.count < 2 ^ 63 }
    requires ascends { Ascends (concepts_in lines.old.items) }
    ensures lines { OnOk result (lines.new.items ≡ with_line id agg.now lines.old.items) }
    ensures ascends { Ascends (concepts_in lines.new.items) }
{
    let at = place_of(lines, id);
    if at < lines.len() && lines[at].id == id {
        lines[at] = GroupLine {
            id,
            agg: lines[at].agg.join(agg),
        };
        return Ok(());
    }
    lines.insert(at, GroupLine { id, agg: *agg })?;
    Ok(())
}

/// The aggregate of all lines together.
fn all_of(lines: &[GroupLine]) -> Agg
    requires few { (all_of lines.now).count < 2 ^ 63 }
    ensures { result ≡ all_of lines.now }
{
    let mut all = Agg::EMPTY;
    for line in lines {
        all = all.join(&line.agg);
    }
    all
}
