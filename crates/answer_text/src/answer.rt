//! What is said of a command: how it ended, or what was asked for.
use measure_agg::Agg;
use row_ledger::{Call, Decline, Event, How};
use script_form::Command;
use std::fmt;

/// A number, or a dash for none.
#[derive(Drop)]
struct OrDash(Option<i64>);

impl fmt::Display for OrDash {
    ghost use Rattle.std.specs.Prelude.{Some};
    ghost use Rattle.answer_text.specs.Printed.{or_dash};

    ghost output = { λ d. Some (or_dash d.0) };

    fn fmt<W: fmt::Write>(&self, f: &mut fmt::Formatter<W>) -> fmt::Result {
        match self.0 {
            Some(x) => write!(f, "{x}"),
            None => write!(f, "-"),
        }
    }
}

/// An aggregate: count, sum, least and greatest.
#[derive(Drop)]
pub(crate) struct Total(pub(crate) Agg);

impl fmt::Display for Total {
    ghost use Rattle.std.specs.Prelude.{Some};
    ghost use Rattle.answer_text.specs.Printed.{total_text};

    ghost output = { λ t. Some (total_text t.0) };

    fn fmt<W: fmt::Write>(&self, f: &mut fmt::Formatter<W>) -> fmt::Result {
        let total = &self.0;
        let count = total.count();
        let sum = total.sum();
        let least = OrDash(total.least());
        let greatest = OrDash(total.greatest());
        write!(f, "{count} {sum} {least} {greatest}")
    }
}

/// Why a command is declined.
#[derive(Drop)]
struct Why(Decline);

impl fmt::Display for Why {
    ghost use Rattle.std.specs.Prelude.{Some};
    ghost use Rattle.answer_text.specs.Printed.{decline_text};

    ghost output = { λ w. Some (decline_text w.0) };

    fn fmt<W: fmt::Write>(&self, f: &mut fmt::Formatter<W>) -> fmt::Result {
        match self.0 {
            Decline::Unknown => write!(f, "unknown"),
            Decline::OnePlace => write!(f, "oneplace"),
            Decline::NoCell { need, free } => write!(f, "nocell {need} {free}"),
        }
    }
}

/// What is said of a command.
#[derive(Clone, Copy, Debug, PartialEq, Eq)]
pub enum Answer {
    /// It did what it was to do.
    Ok,
    /// It split a shard into these two.
    Halves { left: u32, right: u32 },
    /// It did so many of the actions that it had planned.
    Balanced { done: u8, planned: u8 },
    /// A name of this dimension, the first such one, isn't known.
    Unknown { dim: u8 },
    /// It did nothing, and why.
    Declined(Decline),
    /// It is put off for want of memory.
    Postponed,
    /// It found no memory.
    NoMemory,
    /// The answer to a query.
    Total(Agg),
}

impl Answer {
    ghost use Rattle.std.specs.Prelude.{◌≡◌};
    ghost use Rattle.std.specs.Option.{option_copied};
    ghost use Rattle.answer_text.specs.Answer.{said};
    ghost use Rattle.answer_text.specs.Printed.{answer_text, end_text, fine_text, how_text, starved_call_text, starved_text};

    /// What is said of a called command that found no memory.
    fn of_starved_call(call: &Call) -> Answer
        ensures { said result ≡ starved_call_text call.now }
    {
        match call {
            Call::Split(_) | Call::Move(_, _) => Answer::Postponed,
            _ => Answer::NoMemory,
        }
    }

    /// What is said of a command that found no memory.
    pub fn of_starved(command: &Command) -> Answer
        ensures { said result ≡ starved_text command.now }
    {
        match command {
            Command::Control(call) => Answer::of_starved_call(call),
            _ => Answer::NoMemory,
        }
    }

    /// What is said of a called command that did what it was to do.
    fn of_fine(call: &Call, split: Option<&Event>) -> Answer
        ensures { said result ≡ fine_text call.now (option_copied split.entry) }
    {
        match (call, split) {
            (Call::Split(_), Some(Event::Split { left, right, .. })) => Answer::Halves {
                left: *left,
                right: *right,
            },
            _ => Answer::Ok,
        }
    }

    /// What is said of a called command by how it ended.
    fn of_how(call: &Call, split: Option<&Event>, how: How) -> Answer
        ensures { said result ≡ how_text call.now (option_copied split.entry) how }
    {
        match how {
            How::Fine => Answer::of_fine(call, split),
            How::Balanced { done, planned } => Answer::Balanced { done, planned },
            How::Declined(why) => Answer::Declined(why),
            How::Postponed => Answer::Postponed,
            How::NoMemory => Answer::of_starved_call(call),
        }
    }

    /// What is said of a command by how it ended. An insert or a query never ends so, and a group without a page
    /// found no memory.
    fn of_end(command: &Command, split: Option<&Event>, how: How) -> Answer
        ensures { said result ≡ end_text command.now (option_copied split.entry) how }
    {
        match command {
            Command::Control(call) => Answer::of_how(call, split, how),
            _ => Answer::of_starved(command),
        }
    }

    /// What is said of a command by the events that begin and end it, and the newest that splits a
    /// shard for it; without an end it found no memory.
    pub fn of(
        command: &Command,
        begin: Option<&Event>,
        end: Option<&Event>,
        split: Option<&Event>,
    ) -> Answer
        ensures { said result ≡ answer_text command.now (option_copied begin.entry) (option_copied end.entry) (option_copied split.entry) }
    {
        if let Some(Event::Unknown { dim, .. }) = begin {
            return Answer::Unknown { dim: *dim };
        }
        match end {
            Some(Event::Acked { .. }) => Answer::Ok,
            Some(Event::Answered { agg, .. }) => Answer::Total(*agg),
            Some(Event::Ended { how, .. }) => Answer::of_end(command, split, *how),
            _ => Answer::of_starved(command),
        }
    }
}

impl fmt::Display for Answer {
    ghost use Rattle.std.specs.Prelude.{Some};
    ghost use Rattle.answer_text.specs.Answer.{said};

    ghost output = { λ a. Some (said a) };

    fn fmt<W: fmt::Write>(&self, f: &mut fmt::Formatter<W>) -> fmt::Result {
        match self {
            Answer::Ok => write!(f, "ok"),
            Answer::Halves { left, right } => write!(f, "ok {left} {right}"),
            Answer::Balanced { done, planned } => write!(f, "{done} {planned}"),
            Answer::Unknown { dim } => write!(f, "unknown {dim}"),
            Answer::Declined(why) => {
                let why = Why(*why);
                write!(f, "declined {why}")
            }
            Answer::Postponed => write!(f, "postponed"),
            Answer::NoMemory => write!(f, "nomem"),
            Answer::Total(total) => {
                let total = Total(*total);
                write!(f, "{total}")
            }
        }
    }
}
