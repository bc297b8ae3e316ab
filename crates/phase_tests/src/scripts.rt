//! The scripts of the tests. A round's rows are those of two places under one concept, and each has a measure of its own, a power of
//! two, so that an answer tells which of them it counts.
ghost use Rattle.std.specs.Prelude.{All, IfOk};
ghost use Rattle.script_form.specs.Fits.{AreSettings, Fits};

use script_form::{Script, read_script};
use std::alloc::{AllocError, Global};
use std::fmt::Write;
use std::test::Fail;

/// How many rounds there are.
pub(crate) const ROUNDS: u64 = 20;

/// How many rows a round has, each a bit of a number of 64.
pub(crate) const ROWS: u64 = 60;

/// How many queries a round has.
pub(crate) const QUERIES: u64 = 9;

/// One of so many rounds in a row is closed by a settle.
pub(crate) const CLOSINGS: u64 = 5;

/// Two servers, and two workers with two hands each; a concept for each round with two places.
fn head(alloc: Global) -> Result<String, AllocError> {
    let mut text = String::new(alloc);
    write!(text, "volap,1\nuse,2,2,2,16384\ndim,place,2\n")?;
    for round in 0..ROUNDS {
        write!(text, "concept,place,r{round},*\n")?;
        write!(text, "concept,place,a{round},r{round}\n")?;
        write!(text, "concept,place,b{round},r{round}\n")?;
    }
    Ok(text)
}

/// A row of a round, by the two servers in turn, at its two places.
fn push_row(text: &mut String, round: u64, place: u64) -> Result<(), AllocError> {
    let server = place % 2;
    let measure = 1u64 << (place % 64);
    if place % 4 < 2 {
        write!(text, "insert,{server},{measure},a{round}\n")
    } else {
        write!(text, "insert,{server},{measure},b{round}\n")
    }
}

/// What goes on beside the row at a place of a round: queries for its round and for all rows, pulls, splits, moves and a balance.
fn push_beside(text: &mut String, round: u64, place: u64) -> Result<(), AllocError> {
    let third = place / 20;
    let one = third % 2;
    let shard = round.saturating_add(third);
    match place % 20 {
        4 | 14 => write!(text, "query,{one},r{round}\n"),
        9 => write!(text, "query,{one},*\n"),
        7 => write!(text, "sync,{one}\n"),
        3 => write!(text, "split,{shard}\n"),
        13 => write!(text, "move,{shard},{one}\n"),
        19 => write!(text, "balance,4\n"),
        _ => Ok(()),
    }
}

/// What closes a round. Behind a settle each server is asked for all rows, with nobody beside.
fn push_closing(text: &mut String, round: u64) -> Result<(), AllocError> {
    match round % CLOSINGS {
        0 => write!(text, "settle\nquery,0,*\nquery,1,*\nbarrier\n"),
        1 => write!(text, "audit\n"),
        2 => write!(text, "shards\n"),
        3 => write!(text, "tree,{round}\n"),
        _ => write!(text, "group,place,1,*\n"),
    }
}

/// All rounds. Before them a shard goes to the other worker and back, and behind them the first two become two each, as far as they
/// stand still; so there are a move and a split whatever the schedule.
fn rounds(alloc: Global) -> Result<String, AllocError> {
    let mut text = head(alloc)?;
    write!(text, "move,0,1\nmove,0,0\nbarrier\n")?;
    for round in 0..ROUNDS {
        push_round(&mut text, round)?;
    }
    write!(text, "split,0\nsplit,1\nbarrier\n")?;
    Ok(text)
}

/// The commands of a round.
fn push_round(text: &mut String, round: u64) -> Result<(), AllocError> {
    for place in 0..ROWS {
        push_row(text, round, place)?;
        push_beside(text, round, place)?;
    }
    push_closing(text, round)
}

/// The script of a text, which is one.
fn read(alloc: Global, text: &[u8]) -> Result<Script, Fail>
    ensures settings { IfOk result (λ s. AreSettings s.with) }
    ensures fits { IfOk result (λ s. All (Fits s) s.commands) }
{
    match read_script(alloc, text) {
        Ok(script) => Ok(script),
        Err(_) => Err("the text is a script".into()),
    }
}

/// The script of all rounds.
pub(crate) fn all_rounds(alloc: Global) -> Result<Script, Fail>
    ensures settings { IfOk result (λ s. AreSettings s.with) }
    ensures fits { IfOk result (λ s. All (Fits s) s.commands) }
{
    let text = rounds(alloc)?;
    read(alloc, text.as_bytes())
}

/// Rows of three rounds through both servers, and the phase is closed by a group; then groups of a round's places, of rows of which there
/// is none, and of a name that is no concept.
pub(crate) fn groups(alloc: Global) -> Result<Script, Fail>
    ensures settings { IfOk result (λ s. AreSettings s.with) }
    ensures fits { IfOk result (λ s. All (Fits s) s.commands) }
{
    let mut text = head(alloc)?;
    write!(text, "insert,0,1,a0\ninsert,1,2,b0\ninsert,0,4,b3\n")?;
    write!(text, "insert,1,8,a1\ninsert,0,-16,a0\n")?;
    write!(text, "group,place,1,*\ngroup,place,2,r0\n")?;
    write!(text, "group,place,1,r4\ngroup,place,1,elsewhere\n")?;
    read(alloc, text.as_bytes())
}

/// How many commands of the short script stand before its queries.
pub(crate) const BEFORE: usize = 3;

/// A row through each server, and behind a settle a query of each, at once.
pub(crate) fn two_queries(alloc: Global) -> Result<Script, Fail>
    ensures settings { IfOk result (λ s. AreSettings s.with) }
    ensures fits { IfOk result (λ s. All (Fits s) s.commands) }
{
    let mut text = head(alloc)?;
    write!(text, "insert,0,1,a0\ninsert,1,2,b0\nsettle\n")?;
    write!(text, "query,0,*\nquery,1,*\nbarrier\n")?;
    read(alloc, text.as_bytes())
}
