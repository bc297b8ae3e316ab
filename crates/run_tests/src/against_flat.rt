//! Scripts made by chance: behind a settle, and of groups anywhere, the word `step` prints what a plain list of rows answers.
ghost use Rattle.std.specs.Prelude.{All};
ghost use Rattle.dim_hierarchy.specs.Rows.{IsRowOf};
ghost use Rattle.script_form.specs.Fits.{Fits};
ghost use Rattle.script_form.specs.declared.script.Command.TheVariants as command;

use crate::chance::Dice;
use crate::flat::FlatRows;
use crate::groups::Asked;
use crate::top::run_top;
use answer_text::{Answer, Line, push_line, push_page};
use dim_hierarchy::{ConceptId, Coord, FilterFault, NameFilter, Row};
use library_runs::of_olap_top::Status;
use measure_agg::Agg;
use row_ledger::{GroupLine, GroupLines, GroupPage, Page};
use script_form::{Command, NewRow, Question, Script, read_script};
use std::alloc::{AllocError, Global};
use std::fmt::Write;
use std::process::Abort;
use std::sync::Wait;
use std::test::Fail;
use std::thread::Threads;
use volap_io::MemSink;

/// How many concepts the levels of the first dimension have. One is beneath that whose number is its own number's remainder.
const PLACES: [u64; 3] = [3, 9, 40];

/// Those of the levels above the last.
pub(crate) const ABOVE: [u32; 2] = [3, 9];

/// How many concepts a level has at most.
const MOST: u32 = 40;

/// How many concepts the second dimension has, on one level.
const DAYS: u64 = 6;

/// Adds the concepts of a level of the first dimension, each beneath one of the level above.
fn push_level(text: &mut String, level: u64, count: u64, above: u64) -> Result<(), AllocError> {
    for number in 0..count {
        write!(text, "concept,place,{level}x{number},")?;
        if level == 0 {
            writeln!(text, "*")?;
        } else {
            let over = level - 1;
            let parent = number % above.max(1);
            writeln!(text, "{over}x{parent}")?;
        }
    }
    Ok(())
}

/// The records before the first command, of two servers and so many workers and cells.
pub(crate) fn head(alloc: Global, workers: u64, cells: u64) -> Result<String, AllocError> {
    let mut text = String::new(alloc);
    write!(
        text,
        "volap,1\nuse,2,{workers},1,{cells}\ndim,place,3\ndim,day,1\n"
    )?;
    push_level(&mut text, 0, PLACES[0], 1)?;
    push_level(&mut text, 1, PLACES[1], PLACES[0])?;
    push_level(&mut text, 2, PLACES[2], PLACES[1])?;
    for number in 0..DAYS {
        writeln!(text, "concept,day,{number},*")?;
    }
    Ok(text)
}

/// Adds the insert with a number, whose measure is a power of two: of up to 62 inserts each has its own,
/// so that a sum tells which rows were counted. Now and then its place is not known.
pub(crate) fn push_insert(
    text: &mut String,
    dice: &mut Dice,
    number: u64,
) -> Result<(), AllocError> {
    let server = dice.number(2);
    let measure = 1u64 << (number % 62);
    let place = dice.number(PLACES[2] + 1);
    let day = dice.number(DAYS);
    writeln!(text, "insert,{server},{measure},2x{place},{day}")
}

/// Adds the field of a filter for the first dimension: a star, or up to three concepts of any levels.
fn push_places(text: &mut String, dice: &mut Dice) -> Result<(), AllocError> {
    if dice.hits(3) {
        return write!(text, "*");
    }
    for i in 0..1 + dice.number(3) {
        let level = dice.number(3);
        let number = dice.number(PLACES[level as usize]);
        let mark = if i == 0 { "" } else { "|" };
        write!(text, "{mark}{level}x{number}")?;
    }
    Ok(())
}

/// Adds a filter to a record, and ends it.
fn push_filter(text: &mut String, dice: &mut Dice) -> Result<(), AllocError> {
    let day = dice.number(DAYS + 1);
    push_places(text, dice)?;
    if day == DAYS {
        writeln!(text, ",*")
    } else {
        writeln!(text, ",{day}")
    }
}

/// Adds a query behind a settle.
fn push_query(text: &mut String, dice: &mut Dice) -> Result<(), AllocError> {
    let server = dice.number(2);
    write!(text, "settle\nquery,{server},")?;
    push_filter(text, dice)
}

/// Adds a group by a level of one of the dimensions.
pub(crate) fn push_group(text: &mut String, dice: &mut Dice) -> Result<(), AllocError> {
    match dice.number(4) {
        0 => write!(text, "group,day,1,")?,
        level => write!(text, "group,place,{level},")?,
    }
    push_filter(text, dice)
}

/// Adds a command with a number: of 32 about two are queries and two are groups, and now and then there is a barrier.
fn push_command(text: &mut String, dice: &mut Dice, number: u64) -> Result<(), AllocError> {
    match dice.number(32) {
        0 | 1 => push_query(text, dice),
        2 => writeln!(text, "barrier"),
        3 | 4 => push_group(text, dice),
        _ => push_insert(text, dice, number),
    }
}

/// A script of so many commands.
fn script(alloc: Global, dice: &mut Dice, cells: u64, count: u64) -> Result<String, AllocError> {
    let workers = 1 + dice.number(2);
    let mut text = head(alloc, workers, cells)?;
    for number in 0..count {
        push_command(&mut text, dice, number)?;
    }
    push_query(&mut text, dice)?;
    Ok(text)
}

/// Adds a row to the list.
fn insert(flat: &mut FlatRows, script: &Script, no: u64, new: &NewRow) -> Result<Answer, Fail>
    requires fits { Fits script.now (command.Insert new.now) }
    requires rows { All (IsRowOf script.now.hierarchy) flat.old.rows }
    ensures { All (IsRowOf script.now.hierarchy) flat.new.rows }
{
    match script.hierarchy.coord(&new.names) {
        Ok(at) => {
            flat.insert(&Row {
                no,
                at,
                measures: new.measures,
            })?;
            Ok(Answer::Ok)
        }
        Err(dim) => Ok(Answer::Unknown { dim }),
    }
}

/// Goes over the list.
fn query(
    alloc: Global,
    flat: &FlatRows,
    script: &Script,
    question: &Question,
) -> Result<Answer, Fail>
    requires fits { Fits script.now (command.Query question.now) }
    requires rows { All (IsRowOf script.now.hierarchy) flat.now.rows }
{
    match script.hierarchy.filter(alloc, &question.filter) {
        Ok(wanted) => Ok(Answer::Total(flat.total(&script.hierarchy, &wanted))),
        Err(FilterFault::Unknown { dim }) => Ok(Answer::Unknown { dim }),
        Err(FilterFault::NoMemory) => Err(AllocError.into()),
    }
}

/// What is answered to an insert, a query or a called command without names.
fn answer(
    alloc: Global,
    flat: &mut FlatRows,
    script: &Script,
    no: u64,
    next: &Command,
) -> Result<Answer, Fail>
    requires fits { Fits script.now next.now }
    requires rows { All (IsRowOf script.now.hierarchy) flat.old.rows }
    ensures { All (IsRowOf script.now.hierarchy) flat.new.rows }
{
    match next {
        Command::Insert(new) => insert(flat, script, no, new),
        Command::Query(question) => query(alloc, flat, script, question),
        Command::Control(_) | Command::Group { .. } => Ok(Answer::Ok),
    }
}

/// Adds a row, laid out as far as its concepts, since the checker plans by the types that it meets.
fn push_row(rows: &mut Vec<Row>, row: &Row) -> Result<(), AllocError> {
    let at = Coord { at: row.at.at };
    rows.push(Row { at, ..*row })?;
    Ok(())
}

/// The rows that are asked for.
fn matching(alloc: Global, rows: &[Row], asked: &Asked) -> Result<Vec<Row>, AllocError> {
    let mut found = Vec::new(alloc);
    for row in rows {
        if asked.matches(row) {
            push_row(&mut found, row)?;
        }
    }
    Ok(found)
}

/// The rows under a concept.
fn under(
    alloc: Global,
    rows: &[Row],
    asked: &Asked,
    id: ConceptId,
) -> Result<Vec<Row>, AllocError> {
    let mut found = Vec::new(alloc);
    for row in rows {
        if asked.concept_of(row) == id {
            push_row(&mut found, row)?;
        }
    }
    Ok(found)
}

/// The page of a group: for each concept of its level it goes over the rows.
fn page(alloc: Global, rows: &[Row], asked: &Asked) -> Result<Page, AllocError> {
    let rows = matching(alloc, rows, asked)?;
    let mut lines = Vec::new(alloc);
    for number in 0..MOST {
        let id = ConceptId(u32::from(asked.level) << 28 | number);
        let rows = under(alloc, &rows, asked, id)?;
        if !rows.is_empty() {
            let agg = Agg::of_rows(&rows);
            lines.push(GroupLine { id, agg })?;
        }
    }
    Ok(Page::Group(GroupPage {
        lines: GroupLines::from_vec(lines),
        all: Agg::of_rows(&rows),
    }))
}

/// Adds what a group tells.
fn push_groups(
    alloc: Global,
    text: &mut String,
    flat: &FlatRows,
    script: &Script,
    number: u64,
    dim: u8,
    level: u8,
    names: &NameFilter,
) -> Result<(), Fail>
    requires { Fits script.now (command.Group dim level names.now) }
{
    match script.hierarchy.filter(alloc, names) {
        Ok(wanted) => {
            let asked = Asked {
                filter: &wanted,
                dim,
                level,
                above: &ABOVE,
            };
            push_page(text, number, &page(alloc, flat.rows.as_slice(), &asked)?)?;
            Ok(())
        }
        Err(FilterFault::Unknown { dim }) => {
            let line = Line {
                number,
                word: "group",
                answer: Answer::Unknown { dim },
            };
            push_line(text, &line)?;
            Ok(())
        }
        Err(FilterFault::NoMemory) => Err(AllocError.into()),
    }
}

/// Adds what is told of a command.
fn push_told(
    alloc: Global,
    text: &mut String,
    flat: &mut FlatRows,
    script: &Script,
    number: u64,
    next: &Command,
) -> Result<(), Fail>
    requires fits { Fits script.now next.now }
    requires rows { All (IsRowOf script.now.hierarchy) flat.old.rows }
    ensures { All (IsRowOf script.now.hierarchy) flat.new.rows }
{
    if let Command::Group { dim, level, filter } = next {
        return push_groups(alloc, text, flat, script, number, *dim, *level, filter);
    }
    let line = Line {
        number,
        word: next.word(),
        answer: answer(alloc, flat, script, number, next)?,
    };
    push_line(text, &line)?;
    Ok(())
}

/// The text of a script, command by command, over a plain list of rows.
fn plain(alloc: Global, script: &Script) -> Result<String, Fail>
    requires { All (Fits script.now) script.now.commands }
{
    let mut flat = FlatRows::new(alloc);
    let mut text = String::new(alloc);
    for (i, next) in script.commands.as_slice().iter().enumerate() {
        push_told(alloc, &mut text, &mut flat, script, i as u64 + 1, next)?;
    }
    Ok(text)
}

/// Runs a script both ways.
fn compare<R: Abort + Threads + Wait + Sync>(
    rt: &R,
    alloc: Global,
    text: &[u8],
) -> Result<(), Fail> {
    assert!(rt; text.len() < 1_000_000);
    let Ok(script) = read_script(alloc, text) else {
        panic!(rt; "the script is good");
    };
    let plain = plain(alloc, &script)?;
    let mut sink = MemSink::new(alloc, 1_000_000, Vec::new(alloc), 4096)?;
    let outcome = run_top(rt, alloc, &["step"], text, &mut sink)?;
    assert_eq!(rt; outcome.status, Status::Done);
    assert_eq!(rt; sink.taken(), plain.as_str().as_bytes());
    Ok(())
}

#[test]
fn scripts_by_chance(rt: HostRuntime) -> Result<(), Fail> {
    let alloc = rt.alloc();
    let dice = &mut Dice::new(1, 1);
    for round in 0..500 {
        // Few cells, which the longer ones of these scripts use up.
        let cells = 64 + 16 * dice.number(3);
        let count = if round % 50 == 0 {
            2000
        } else {
            20 + dice.number(42)
        };
        let text = script(alloc, dice, cells, count)?;
        compare(&rt, alloc, text.as_str().as_bytes())?;
    }
    Ok(())
}
