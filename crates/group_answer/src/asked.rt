//! What is asked for.
ghost use Rattle.std.specs.Prelude.{◌≡◌};
ghost use Rattle.dim_hierarchy.specs.Filter.{matches};
ghost use Rattle.dim_hierarchy.specs.Rows.{IsRowOf};
ghost use Rattle.group_answer.specs.Groups.{IsQuestion, concept_of, question};

use dim_hierarchy::{ConceptId, Filter, Hierarchy, Row};
use std::marker::Model;

/// The rows that a filter matches, told apart by the concept of a level of a dimension.
#[derive(Drop)]
pub(crate) struct Asked<'a> {
    pub(crate) h: &'a Hierarchy,
    pub(crate) filter: &'a Filter,
    pub(crate) dim: u8,
    pub(crate) level: u8,
}

impl<'a> Model for Asked<'a> {
    ghost use Rattle.group_answer.specs.Groups.{Question, question, question_code};

    ghost Value = { Question };

    ghost coded = { question_code };

    ghost view = { λ a. question a.h.now a.filter.now a.dim a.level };
}

impl<'a> Asked<'a> {
    /// These.
    pub(crate) fn new(h: &'a Hierarchy, filter: &'a Filter, dim: u8, level: u8) -> Asked<'a>
        ensures { result ≡ question h.now filter.now dim level }
    {
        Asked {
            h,
            filter,
            dim,
            level,
        }
    }

    /// Whether the filter matches a row.
    pub(crate) fn matches(&self, row: &Row) -> bool
        requires question { IsQuestion self.now }
        requires row { IsRowOf self.now.hierarchy row.now }
        ensures { result ≡ matches self.now.hierarchy self.now.filter row.now.at }
    {
        self.h.matches(self.filter, &row.at)
    }

    /// The concept that a row is under.
    pub(crate) fn concept_of(&self, row: &Row) -> ConceptId
        requires question { IsQuestion self.now }
        requires row { IsRowOf self.now.hierarchy row.now }
        ensures { result ≡ concept_of self.now row.now }
    {
        self.h.up(self.dim, row.at.concept(self.dim), self.level)
    }
}
