//! The line that tells the first bad record of a text.
use script_form::Cause;
use std::fmt;

/// The answer to a bad script: the number of its first bad record, counted from 1, and the cause.
#[derive(Clone, Copy, Debug, PartialEq, Eq)]
pub struct BadLine {
    pub at: u64,
    pub cause: Cause,
}

/// The word of a cause.
#[derive(Drop)]
struct CauseWord(Cause);

impl fmt::Display for CauseWord {
    ghost use Rattle.std.specs.Prelude.{Some};
    ghost use Rattle.answer_text.specs.Printed.{cause_word};

    ghost output = { λ c. Some (cause_word c.0) };

    fn fmt<W: fmt::Write>(&self, f: &mut fmt::Formatter<W>) -> fmt::Result {
        match self.0 {
            Cause::Version => write!(f, "version"),
            Cause::Kind => write!(f, "kind"),
            Cause::Order => write!(f, "order"),
            Cause::Fields => write!(f, "fields"),
            Cause::Number => write!(f, "number"),
            Cause::Name => write!(f, "name"),
            Cause::DimFull => write!(f, "dimfull"),
            Cause::DimTwice => write!(f, "dimtwice"),
            Cause::NoDim => write!(f, "nodim"),
            Cause::NoParent => write!(f, "noparent"),
            Cause::ConceptTwice => write!(f, "concepttwice"),
            Cause::TooDeep => write!(f, "toodeep"),
        }
    }
}

impl fmt::Display for BadLine {
    ghost use Rattle.std.specs.Prelude.{Some};
    ghost use Rattle.answer_text.specs.Printed.{bad_line};

    ghost output = { λ b. Some (bad_line b.at b.cause) };

    fn fmt<W: fmt::Write>(&self, f: &mut fmt::Formatter<W>) -> fmt::Result {
        let at = self.at;
        let word = CauseWord(self.cause);
        writeln!(f, "bad {at} {word}")
    }
}
