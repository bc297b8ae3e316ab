//! The commands of the test, in rounds: a round's rows are those of one concept, and each has a measure of its own, a power of two,
//! so that an answer tells which of them it counts.
ghost use Rattle.std.specs.Prelude.{◌≡◌, All, IfOk, length};
ghost use Rattle.hall_tests.specs.Plans.{IsQuestion, IsRow};

use dim_hierarchy::{ConceptId, Hierarchy, Name, NameFilter, NamePick, Names, RowNames};
use std::alloc::{AllocError, Global};
use std::fmt::Write;
use std::test::Fail;

/// How many rounds there are.
pub(crate) const ROUNDS: u64 = 400;

/// How many commands a round has.
const LENGTH: u64 = 50;

/// How many rows a round has, each a bit of a number of 64.
pub(crate) const ROWS: u64 = 30;

pub(crate) const COMMANDS: u64 = ROUNDS * LENGTH;

/// What a session is to do.
#[derive(Clone, Copy)]
pub(crate) enum Task {
    Insert { round: usize, bit: u64 },
    Query { round: usize },
    InsertUnknown,
    QueryUnknown,
}

/// The command of a number. Those of a round are mixed; of the queries every other one asks for the round before.
pub(crate) fn task_of(number: u64) -> Task {
    let round = number / LENGTH;
    let place = number % LENGTH * 37 % LENGTH;
    if place < ROWS {
        Task::Insert {
            round: round as usize,
            bit: 1 << place,
        }
    } else if place < 45 {
        Task::Query {
            round: round.saturating_sub(place % 2) as usize,
        }
    } else if place < 47 {
        Task::InsertUnknown
    } else {
        Task::QueryUnknown
    }
}

/// The names of rows and of questions, by round, and those that are not known.
#[derive(Drop)]
pub(crate) struct Plan {
    rows: Vec<RowNames>,
    questions: Vec<NameFilter>,
    pub(crate) no_row: RowNames,
    pub(crate) no_question: NameFilter,
    pub(crate) ghost are_rows: { All IsRow rows.items },
    pub(crate) ghost are_questions: { All IsQuestion questions.items },
    pub(crate) ghost is_row: { IsRow no_row },
    pub(crate) ghost is_question: { IsQuestion no_question },
}

impl Plan {
    /// The names of a round's rows.
    pub(crate) fn row(&self, round: usize) -> &RowNames
        ensures { IsRow result.now }
    {
        match self.rows.get(round) {
            Some(row) => row,
            None => &self.no_row,
        }
    }

    /// The question for a round's rows.
    pub(crate) fn question(&self, round: usize) -> &NameFilter
        ensures { IsQuestion result.now }
    {
        match self.questions.get(round) {
            Some(question) => question,
            None => &self.no_question,
        }
    }
}

/// How many rounds lie under one concept.
const GROUP: u64 = 10;

/// The name of a round's concept.
fn name_of(alloc: Global, round: u64) -> Result<Name, AllocError> {
    let mut text = String::new(alloc);
    write!(text, "round{round}")?;
    Name::from_bytes(alloc, text.as_bytes())
}

/// The name of the concept above some rounds.
fn group_name(alloc: Global, group: u64) -> Result<Name, AllocError> {
    let mut text = String::new(alloc);
    write!(text, "group{group}")?;
    Name::from_bytes(alloc, text.as_bytes())
}

/// Adds a concept of this name beneath that one.
fn add(h: &mut Hierarchy, name: &Name, parent: Option<ConceptId>) -> Result<ConceptId, Fail> {
    match h.add_concept(0, name, parent) {
        Ok(id) => Ok(id),
        Err(_) => Err("there is room for a concept".into()),
    }
}

/// One dimension, with a concept for each round, in groups.
pub(crate) fn hierarchy(alloc: Global) -> Result<Hierarchy, Fail>
    ensures { IfOk result (λ h. length h ≡ 1) }
{
    let mut h = Hierarchy::new(alloc);
    let Ok(_) = h.add_dim(&Name::from_bytes(alloc, b"round")?, 2) else {
        return Err("there is room for a dimension".into());
    };
    for group in 0..ROUNDS / GROUP {
        let above = add(&mut h, &group_name(alloc, group)?, None)?;
        for i in 0..GROUP {
            add(&mut h, &name_of(alloc, group * GROUP + i)?, Some(above))?;
        }
    }
    if h.dims() != 1 {
        return Err("there is one dimension".into());
    }
    Ok(h)
}

/// The row of a round.
fn row(alloc: Global, round: u64) -> Result<RowNames, Fail>
    ensures { IfOk result IsRow }
{
    let name = name_of(alloc, round)?;
    let text = name.as_slice();
    if text.len() > 255 {
        return Err("the name is short".into());
    }
    let mut row = RowNames::new(alloc);
    row.push(text)?;
    Ok(row)
}

/// The question for a round's rows.
#[tactic(auto, using(crate::proofs::Picks::asks_one))]
fn question(alloc: Global, round: u64) -> Result<NameFilter, AllocError>
    ensures { IfOk result IsQuestion }
{
    let mut names = Names::new(alloc);
    names.push(name_of(alloc, round)?)?;
    let mut question = NameFilter::new(alloc);
    question.push(NamePick::Any(names))?;
    Ok(question)
}

/// The rows of all rounds.
fn rows(alloc: Global) -> Result<Vec<RowNames>, Fail>
    ensures { IfOk result (λ rows. All IsRow rows.items) }
{
    let mut rows = Vec::new(alloc);
    for round in 0..ROUNDS {
        rows.push(row(alloc, round)?)?;
    }
    Ok(rows)
}

/// The questions for all rounds.
fn questions(alloc: Global) -> Result<Vec<NameFilter>, AllocError>
    ensures { IfOk result (λ questions. All IsQuestion questions.items) }
{
    let mut questions = Vec::new(alloc);
    for round in 0..ROUNDS {
        questions.push(question(alloc, round)?)?;
    }
    Ok(questions)
}

/// The names of all rounds, and of one that there is not.
pub(crate) fn plan_in(alloc: Global) -> Result<Plan, Fail> {
    Ok(Plan {
        rows: rows(alloc)?,
        questions: questions(alloc)?,
        no_row: row(alloc, ROUNDS)?,
        no_question: question(alloc, ROUNDS)?,
    })
}
