//! What a page of groups must tell, read off the events before it: ascending, each concept of its level that an acknowledged row is
//! under which the filter matches, with the aggregate of these rows, and the aggregate of all that match. A row's measure is a power
//! of two of its own, so that rows are the sum of their measures.
use crate::bounds::is_of;
use dim_hierarchy::{ConceptId, Filter, Pick, Row};
use row_ledger::{Call, Event, GroupLine, GroupPage};

/// The rows that are asked for, and the level by which they are told apart. Of the first of two dimensions each level above the
/// last has so many concepts, and a concept is under those whose numbers are its own number's remainders. The second has one level.
#[derive(Clone, Copy)]
pub(crate) struct Asked<'a> {
    pub(crate) filter: &'a Filter,
    pub(crate) dim: u8,
    pub(crate) level: u8,
    pub(crate) above: &'a [u32],
}

/// What a row is under at a level of a dimension.
fn up(row: &Row, dim: usize, level: u8, above: &[u32]) -> ConceptId {
    if level == 0 {
        return ConceptId::ALL;
    }
    if dim != 0 {
        return row.at.concept(1);
    }
    let id = row.at.concept(0);
    match above.get(usize::from(level) - 1) {
        Some(count) => ConceptId(u32::from(level) << 28 | id.number() % (*count).max(1)),
        None => id,
    }
}

impl Asked<'_> {
    /// Whether a pick asks for the row's concept of a dimension.
    fn is_picked(&self, pick: &Pick, row: &Row, dim: usize) -> bool {
        match pick {
            Pick::All => true,
            Pick::Ids(ids) => {
                for id in ids.as_slice() {
                    if up(row, dim, id.level(), self.above) == *id {
                        return true;
                    }
                }
                false
            }
        }
    }

    /// Whether a row matches.
    pub(crate) fn matches(&self, row: &Row) -> bool {
        for (dim, pick) in self.filter.as_slice().iter().enumerate() {
            if !self.is_picked(pick, row, dim) {
                return false;
            }
        }
        true
    }

    /// The concept that a row is under.
    pub(crate) fn concept_of(&self, row: &Row) -> ConceptId {
        up(row, usize::from(self.dim), self.level, self.above)
    }

    /// Whether a row is under the concept that is told, if one is.
    fn is_under(&self, row: &Row, under: Option<&ConceptId>) -> bool {
        match under {
            Some(id) => self.concept_of(row) == *id,
            None => true,
        }
    }

    /// The row that began at a place, if it matches and is under the concept that is told, if one is.
    fn row_at(&self, all: &[Event], of: u64, under: Option<&ConceptId>) -> u64 {
        let Some(Event::Begun { row, .. }) = all.get(of as usize) else {
            return 0;
        };
        if !self.matches(row) || !self.is_under(row, under) {
            return 0;
        }
        u64::try_from(row.measures).unwrap_or(0)
    }

    /// The rows acknowledged by these events that match, and are under the concept that is told, if one is.
    fn rows(&self, events: &[Event], under: Option<&ConceptId>) -> u64 {
        let mut rows = 0;
        for event in events {
            if let Event::Acked { of, .. } = event {
                rows |= self.row_at(events, *of, under);
            }
        }
        rows
    }

    /// Whether these are the lines behind these events: none is missing where together they tell of all rows.
    fn are_lines(&self, events: &[Event], lines: &[GroupLine]) -> bool {
        let mut least = 0u64;
        let mut told = 0;
        for line in lines {
            let rows = self.rows(events, Some(&line.id));
            let id = u64::from(line.id.0);
            if line.id.level() != self.level || id < least || rows == 0 || !is_of(&line.agg, rows) {
                return false;
            }
            least = id + 1;
            told |= rows;
        }
        told == self.rows(events, None)
    }

    /// Whether this is the page behind these events.
    fn is_page(&self, events: &[Event], page: &GroupPage) -> bool {
        self.are_lines(events, page.lines.as_slice()) && is_of(&page.all, self.rows(events, None))
    }
}

/// Whether the page of the group that was called at a place tells what it must.
pub(crate) fn is_group(all: &[Event], of: u64, page: &GroupPage, above: &[u32]) -> bool {
    let Some(
        Event::Called {
            call: Call::Group { dim, level, filter },
            ..
        },
    ) = all.get(of as usize)
    else {
        return false;
    };
    let asked = Asked {
        filter,
        dim: *dim,
        level: *level,
        above,
    };
    asked.is_page(&all[..(of as usize).min(all.len())], page)
}
