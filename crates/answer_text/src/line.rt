//! A line of the output.
ghost use Rattle.std.specs.Prelude.{◌≡◌, ◌++◌, OnOk, string_bytes};
ghost use Rattle.answer_text.specs.Answer.{said};
ghost use Rattle.answer_text.specs.Printed.{line};

use crate::answer::Answer;
use std::alloc::AllocError;
use std::fmt::{self, Write};

/// The line of a command: its number from 1, its word, and what is said of it.
#[derive(Clone, Copy, Debug, PartialEq, Eq)]
pub struct Line {
    pub number: u64,
    pub word: &'static str,
    pub answer: Answer,
}

impl fmt::Display for Line {
    ghost use Rattle.std.specs.Prelude.{Some};
    ghost use Rattle.answer_text.specs.Answer.{said};
    ghost use Rattle.answer_text.specs.Printed.{line};

    ghost output = { λ l. Some (line l.number l.word.now (said l.answer)) };

    fn fmt<W: fmt::Write>(&self, f: &mut fmt::Formatter<W>) -> fmt::Result {
        let number = self.number;
        let word = self.word;
        let answer = &self.answer;
        writeln!(f, "{number} {word} {answer}")
    }
}

/// Adds a line at the end of a text.
pub fn push_line(text: &mut String, next: &Line) -> Result<(), AllocError>
    ensures { OnOk result (string_bytes text.new
        ≡ string_bytes text.old ++ line next.now.number next.now.word.now (said next.now.answer)) }
{
    write!(text, "{next}")
}
