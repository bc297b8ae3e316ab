//! What a page of groups must tell, read off the events before it: ascending, each concept of its level that an acknowledged row is
//! under which the filter matches, with the aggregate of these rows, and the aggregate of all that match.
use crate::judge::is_allowed;
use crate::known::{bit_of, matches, up};
use dim_hierarchy::{ConceptId, Filter, Row};
use row_ledger::{Call, Event, GroupLine, GroupPage};

/// The rows that a group asks for, and the level by which they are told apart.
#[derive(Clone, Copy)]
pub(crate) struct Asked<'a> {
    filter: &'a Filter,
    dim: usize,
    level: u8,
}

impl<'a> Asked<'a> {
    /// What was called for at a place, if that was a group.
    pub(crate) fn of(events: &'a [Event], place: u64) -> Option<Asked<'a>> {
        match events.get(place as usize) {
            Some(
                Event::Called {
                    call: Call::Group { dim, level, filter },
                    ..
                },
            ) => Some(Asked {
                filter,
                dim: usize::from(*dim),
                level: *level,
            }),
            _ => None,
        }
    }

    /// Whether a row is under the concept that is told, if one is.
    fn is_under(&self, row: &Row, under: Option<&ConceptId>) -> bool {
        match under {
            Some(id) => up(row, self.dim, self.level) == *id,
            None => true,
        }
    }

    /// The row that began at a place, if it matches and is under the concept that is told, if one is.
    fn row_at(&self, events: &[Event], of: u64, under: Option<&ConceptId>) -> u64 {
        let Some(Event::Begun { row, .. }) = events.get(of as usize) else {
            return 0;
        };
        if matches(self.filter, row) && self.is_under(row, under) {
            bit_of(row)
        } else {
            0
        }
    }

    /// The rows acknowledged by these events that match, and are under the concept that is told, if one is.
    fn rows(&self, events: &[Event], under: Option<&ConceptId>) -> u64 {
        let mut rows = 0;
        for event in events {
            if let Event::Acked { of, .. } = event {
                rows |= self.row_at(events, *of, under);
            }
        }
        rows
    }

    /// Whether these are the lines behind these events: none is missing where together they tell of all rows.
    fn are_lines(&self, events: &[Event], lines: &[GroupLine]) -> bool {
        let mut least = 0u64;
        let mut told = 0;
        for line in lines {
            let rows = self.rows(events, Some(&line.id));
            let id = u64::from(line.id.0);
            let is_next = least <= id && line.id.level() == self.level;
            if !is_next || rows == 0 || !is_allowed(rows, &line.agg, rows) {
                return false;
            }
            least = id + 1;
            told |= rows;
        }
        told == self.rows(events, None)
    }

    /// Whether this is the page behind these events.
    pub(crate) fn is_page(&self, events: &[Event], page: &GroupPage) -> bool {
        let rows = self.rows(events, None);
        self.are_lines(events, page.lines.as_slice()) && is_allowed(rows, &page.all, rows)
    }
}
