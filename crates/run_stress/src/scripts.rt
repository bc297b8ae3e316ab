//! Scripts made by chance, of two dimensions. A row's measure is a power of two of its own.
use crate::chance::Dice;
use std::alloc::{AllocError, Global};
use std::fmt::Write;

/// How many concepts the first level of the first dimension has. One of the second level is under that whose number is its own
/// number's remainder by this.
pub(crate) const COUNTRIES: u32 = 2;

/// How many concepts the second level has.
const TOWNS: u32 = 10;

/// How many concepts the second dimension has.
const DAYS: u32 = 4;

/// How many commands a script has at most before those at its end. As many rows have a measure each.
const MOST: u32 = 60;

/// What queries and groups pick of the first dimension.
const PLACES: [&str; 12] = [
    "*", "*", "*", "c0", "c1", "t0", "t1", "t2|t5", "t1|c0", "t3|t3", "t9|t6|t0", "nowhere",
];

/// What they pick of the second dimension.
const DATES: [&str; 6] = ["*", "*", "*", "d0", "d1|d3", "d2"];

/// How large the stock is: hardly more cells than the shards begin with, or more.
const CELLS: [u32; 4] = [64, 64, 256, 1024];

/// A script, and what its settings say.
#[derive(Drop)]
pub(crate) struct Made {
    pub(crate) text: String,
    pub(crate) servers: u32,
    pub(crate) workers: u32,
    /// How many commands it has.
    pub(crate) commands: u64,
}

/// Adds the concepts of both dimensions.
fn push_concepts(text: &mut String) -> Result<(), AllocError> {
    write!(text, "dim,place,2\ndim,day,1\n")?;
    for number in 0..COUNTRIES {
        writeln!(text, "concept,place,c{number},*")?;
    }
    for number in 0..TOWNS {
        let over = number % COUNTRIES;
        writeln!(text, "concept,place,t{number},c{over}")?;
    }
    for number in 0..DAYS {
        writeln!(text, "concept,day,d{number},*")?;
    }
    Ok(())
}

/// The records before the first command, of two or three servers and two or three workers with one or two threads each.
fn head(alloc: Global, dice: &mut Dice) -> Result<Made, AllocError> {
    let servers = 2 + dice.roll(2);
    let workers = 2 + dice.roll(2);
    let threads = 1 + dice.roll(2);
    let cells = CELLS[dice.roll(4) as usize];
    let mut text = String::new(alloc);
    writeln!(text, "volap,1\nuse,{servers},{workers},{threads},{cells}")?;
    push_concepts(&mut text)?;
    Ok(Made {
        text,
        servers,
        workers,
        commands: 0,
    })
}

/// Adds an insert, of which one in ten names a town that isn't known. Most rows are of a few towns.
fn push_insert(made: &mut Made, dice: &mut Dice, number: u32) -> Result<(), AllocError> {
    let server = dice.roll(made.servers);
    let measure = 1u64 << (number % MOST);
    let few = if dice.roll(3) == 0 { TOWNS + 1 } else { 3 };
    let town = dice.roll(few);
    let day = dice.roll(DAYS);
    writeln!(made.text, "insert,{server},{measure},t{town},d{day}")
}

/// Adds a query.
fn push_query(made: &mut Made, dice: &mut Dice) -> Result<(), AllocError> {
    let server = dice.roll(made.servers);
    let place = PLACES[dice.roll(12) as usize];
    let date = DATES[dice.roll(6) as usize];
    writeln!(made.text, "query,{server},{place},{date}")
}

/// Adds a split, a move or a balance. The shard may stand or not, and the worker too.
fn push_work(made: &mut Made, dice: &mut Dice) -> Result<(), AllocError> {
    let shard = dice.roll(9);
    let worker = dice.roll(4);
    let most = 1 + dice.roll(4);
    match dice.roll(5) {
        0 => writeln!(made.text, "balance,{most}"),
        1 | 2 => writeln!(made.text, "move,{shard},{worker}"),
        _ => writeln!(made.text, "split,{shard}"),
    }
}

/// Adds a group by a level of one of the dimensions.
fn push_group(made: &mut Made, dice: &mut Dice) -> Result<(), AllocError> {
    let place = PLACES[dice.roll(12) as usize];
    let date = DATES[dice.roll(6) as usize];
    match dice.roll(3) {
        0 => writeln!(made.text, "group,day,1,{place},{date}"),
        level => writeln!(made.text, "group,place,{level},{place},{date}"),
    }
}

/// Adds a command that closes its phase.
fn push_closing(made: &mut Made, dice: &mut Dice) -> Result<(), AllocError> {
    let shard = dice.roll(7);
    match dice.roll(8) {
        0 => writeln!(made.text, "shards"),
        1 => writeln!(made.text, "audit"),
        2 => writeln!(made.text, "tree,{shard}"),
        3 | 4 => writeln!(made.text, "settle"),
        5 | 6 => push_group(made, dice),
        _ => writeln!(made.text, "barrier"),
    }
}

/// Adds a pull.
fn push_sync(made: &mut Made, dice: &mut Dice) -> Result<(), AllocError> {
    let server = dice.roll(made.servers);
    writeln!(made.text, "sync,{server}")
}

/// Adds a command with a number: most are inserts and queries.
fn push_command(made: &mut Made, dice: &mut Dice, number: u32) -> Result<(), AllocError> {
    made.commands = made.commands.saturating_add(1);
    match dice.roll(20) {
        0 | 1 | 2 | 3 | 4 => push_query(made, dice),
        5 | 6 => push_sync(made, dice),
        7 => push_closing(made, dice),
        8 | 9 | 10 => push_work(made, dice),
        _ => push_insert(made, dice, number),
    }
}

/// Adds the end of a script: behind a settle a query of all rows through each server, and pages.
fn push_end(made: &mut Made) -> Result<(), AllocError> {
    writeln!(made.text, "settle")?;
    for server in 0..made.servers {
        writeln!(made.text, "query,{server},*,*")?;
    }
    writeln!(made.text, "shards\naudit\ngroup,place,2,*,*")?;
    let more = 4 + u64::from(made.servers);
    made.commands = made.commands.saturating_add(more);
    Ok(())
}

/// A script.
pub(crate) fn script(alloc: Global, dice: &mut Dice) -> Result<Made, AllocError> {
    let mut made = head(alloc, dice)?;
    for number in 0..20 + dice.roll(MOST - 20) {
        push_command(&mut made, dice, number)?;
    }
    push_end(&mut made)?;
    Ok(made)
}
