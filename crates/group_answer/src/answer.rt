//! The page of a group.
ghost use Rattle.std.specs.Prelude.{◌≡◌, ◌+◌, ◌≤◌, [], length, IfOk, OnOk};
ghost use Rattle.core_pages.specs.Looks.{HasCells, IsValid, cells_in};
ghost use Rattle.core_pages.specs.Seen.{IsQuietIn};
ghost use Rattle.core_pages.specs.Shards.{frontier_in};
ghost use Rattle.group_answer.specs.Adding.{with_rows};
ghost use Rattle.group_answer.specs.Groups.{IsQuestion, all_of, question};
ghost use Rattle.group_answer.specs.Reading.{rows_of_spots};
ghost use Rattle.group_answer.specs.Seen.{AreAckedIn, AreGroupsIn, HasCountIn, TellsAll};

use crate::asked::Asked;
use crate::found::Found;
use crate::gates::add_gate;
use core_pages::{Cells, led_at, spot_count};
use dim_hierarchy::{Filter, Hierarchy};
use row_ledger::GroupPage;
use std::alloc::{AllocError, Global};

/// Adds the rows of all shards that stand to nothing.
fn add_shards<C: Cells>(
    alloc: Global,
    cells: &mut C,
    asked: &Asked,
    servers: u8,
    many: u32,
    found: &mut Found,
) -> Result<(), AllocError>
    requires question { IsQuestion asked.now }
    requires state { IsValid asked.now.hierarchy (C.state cells.old) }
    requires quiet { IsQuietIn servers (C.state cells.old) }
    requires there { HasCells many (C.state cells.old) }
    requires count { HasCountIn many (C.state cells.old) }
    requires none { found.old.lines.items ≡ [] }
    requires looks { found.old.looks ≡ 0 }
    ensures same { C.state cells.new ≡ C.state cells.old }
    ensures lines { OnOk result (found.new.lines.items ≡ with_rows asked.now (rows_of_spots servers many (cells_in (C.state cells.old)) (frontier_in (cells_in (C.state cells.old)))) []) }
    ensures looks { TellsAll asked.now servers (C.state cells.old) → found.new.looks ≤ length (frontier_in (cells_in (C.state cells.old))) }
{
    for place in 0..spot_count(cells) {
        let (_, at) = led_at(cells, servers, place);
        add_gate(alloc, cells, many, asked, at, found)?;
    }
    Ok(())
}

/// The concepts of a level of a dimension that a row is under which the filter matches, ascending, each with
/// the aggregate of these rows, and the aggregate of all that match; where there are so many servers and
/// cells and nobody is at a part. `steps` rises by one for each gate, each block and each row of a queue that
/// is looked at, a gate with its queue's aggregate being one; at the greatest number there is it stays. Takes
/// memory for the lines, and for copies of the rows and entries of one group of blocks on each level.
pub fn group<C: Cells>(
    alloc: Global,
    cells: &mut C,
    h: &Hierarchy,
    filter: &Filter,
    dim: u8,
    level: u8,
    servers: u8,
    many: u32,
    steps: &mut u64,
) -> Result<GroupPage, AllocError>
    requires question { IsQuestion (question h.now filter.now dim level) }
    requires state { IsValid h.now (C.state cells.old) }
    requires quiet { IsQuietIn servers (C.state cells.old) }
    requires there { HasCells many (C.state cells.old) }
    requires count { HasCountIn many (C.state cells.old) }
    ensures same { C.state cells.new ≡ C.state cells.old }
    ensures page { IfOk result (λ page. AreGroupsIn (question h.now filter.now dim level) (C.state cells.old) page) }
    ensures acked { IfOk result (λ page. AreAckedIn (question h.now filter.now dim level) (C.state cells.old) page) }
    ensures joined { IfOk result (λ page. all_of page.lines ≡ page.all) }
    ensures steps { TellsAll (question h.now filter.now dim level) servers (C.state cells.old)
        → steps.new ≤ steps.old + length (frontier_in (cells_in (C.state cells.old))) }
{
    let asked = Asked::new(h, filter, dim, level);
    let mut found = Found::new(alloc);
    let added = add_shards(alloc, cells, &asked, servers, many, &mut found);
    *steps = steps.saturating_add(found.looks);
    added?;
    let all = found.lines.all();
    Ok(GroupPage {
        lines: found.lines.into_lines(),
        all,
    })
}
