//! Lines made by chance.
ghost use Rattle.std.specs.Prelude.{◌<◌, ◌^◌};

use crate::scripts::Line;
use rand_core::utils::NextWord;
use rand_pcg::Pcg32;
use std::alloc::{AllocError, Global};

/// The names of rows. Most rows have one of the first three.
const TOWNS: [&str; 10] = ["t0", "t1", "t2", "t3", "t4", "t5", "t6", "t7", "t8", "t9"];

/// What queries and groups pick: everything, a country, one or two towns, or a name that is not known.
const PICKS: [&[&str]; 24] = [
    &[],
    &[],
    &[],
    &[],
    &["c0"],
    &["c0"],
    &["c1"],
    &["c1"],
    &["nowhere"],
    &["t0"],
    &["t1"],
    &["t2"],
    &["t3"],
    &["t7"],
    &["t0", "t1"],
    &["t0", "t2"],
    &["t1", "t2"],
    &["t2", "t5"],
    &["t1", "t8"],
    &["t3", "t3"],
    &["t4", "t0"],
    &["t9", "t6"],
    &["t6", "t1"],
    &["t8", "c0"],
];

/// Numbers by chance, the same ones in each run.
#[derive(Drop)]
pub(crate) struct Dice {
    words: Pcg32,
}

impl Dice {
    /// By the generator of this number, in a stream of its own.
    pub(crate) fn new(seed: u64, stream: u64) -> Dice {
        Dice {
            words: Pcg32::new(seed, stream),
        }
    }

    /// A number below `sides`, which is 0 where that is 0.
    pub(crate) fn roll(&mut self, sides: u32) -> u32
        ensures below { 0 < sides → result < sides }
    {
        self.words.next_word() % sides.max(1)
    }

    /// The same, of up to 64 bits; it is below 2 to the 32nd.
    pub(crate) fn number(&mut self, sides: u64) -> u64
        ensures below { 0 < sides → result < sides }
        ensures few { result < 2 ^ 32 }
    {
        u64::from(self.words.next_word()) % sides.max(1)
    }

    /// Whether one of so many sides is up.
    pub(crate) fn hits(&mut self, sides: u64) -> bool {
        self.number(sides) == 0
    }

    /// The number of one of two servers, or of two workers.
    fn server(&mut self) -> u8 {
        if self.roll(2) == 0 { 0 } else { 1 }
    }

    /// The name of a row.
    fn town(&mut self) -> &'static str {
        let sides = if self.roll(3) == 0 { 10 } else { 3 };
        TOWNS[self.roll(sides) as usize]
    }

    /// A query.
    fn query(&mut self) -> Line {
        let server = self.server();
        Line::Query(server, PICKS[self.roll(24) as usize])
    }

    /// An insert of this measure.
    fn insert(&mut self, measure: i64) -> Line {
        let server = self.server();
        Line::Insert(server, measure, self.town())
    }

    /// A split or a move of a shard, which may not stand, or some of both.
    fn change(&mut self) -> Line {
        match self.roll(3) {
            0 => Line::Split(self.roll(8)),
            1 => Line::Move(self.roll(8), self.server()),
            _ => Line::Balance(3),
        }
    }

    /// A command that closes no phase.
    fn line(&mut self, measure: i64) -> Line {
        match self.roll(19) {
            16 | 17 | 18 => self.change(),
            0 => Line::Sync(self.server()),
            1 => Line::Insert(0, 5, "nowhere"),
            2 | 3 | 4 | 5 => self.query(),
            _ => self.insert(measure),
        }
    }

    /// A group by a country or by a town.
    fn group(&mut self) -> Line {
        let level = if self.roll(2) == 0 { 1 } else { 2 };
        Line::Group(level, PICKS[self.roll(24) as usize])
    }

    /// The command that closes a phase.
    fn end(&mut self) -> Line {
        match self.roll(6) {
            0 => Line::Settle,
            1 => Line::Tree(self.roll(3)),
            2 | 3 => self.group(),
            _ => Line::Barrier,
        }
    }
}

/// The measure of the next row behind a line that could take this one.
fn next_measure(line: &Line, measure: i64) -> i64 {
    match line {
        Line::Insert(_, taken, _) if *taken == measure => measure.wrapping_mul(2),
        _ => measure,
    }
}

/// Adds the lines of a phase: so many commands, and the one that closes it. The first row has this measure, and each later one
/// twice that of the row before. It tells the measure of the next one.
fn push_phase(
    lines: &mut Vec<Line>,
    dice: &mut Dice,
    commands: u32,
    first: i64,
) -> Result<i64, AllocError> {
    let mut measure = first;
    for _ in 0..commands {
        let line = dice.line(measure);
        measure = next_measure(&line, measure);
        lines.push(line)?;
    }
    lines.push(dice.end())?;
    Ok(measure)
}

/// The lines of so many phases, of so many commands each. Each row's measure is a power of two of its own; there may be
/// 63 of them.
pub(crate) fn lines(
    alloc: Global,
    dice: &mut Dice,
    phases: u32,
    commands: u32,
) -> Result<Vec<Line>, AllocError> {
    let mut lines = Vec::new(alloc);
    let mut measure = 1;
    for _ in 0..phases {
        measure = push_phase(&mut lines, dice, commands, measure)?;
    }
    Ok(lines)
}
