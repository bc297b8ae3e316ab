//! How a text of cases is read.
use crate::cases::{Case, Item, Run, Wants};
use crate::fault::{BadCase, Fault};
use crate::said::{calls_of, status_of, tree_of, wanted_of, words_of};
use crate::texts::{NamedText, number_of, push_line};
use olap_top::Status;
use std::alloc::{AllocError, Global};
use std::mem;
use std::rt::Files;

/// Where the text belongs that is read.
#[derive(Drop)]
enum Where {
    /// Nowhere: no line of a text may come.
    Nothing,
    /// To the texts that others name, by this name.
    Named(String),
    /// To the open case, as its script.
    Script,
    /// To the open run, as one of those that it may print.
    Printed,
}

/// What was read so far.
#[derive(Drop)]
struct Reading {
    alloc: Global,
    items: Vec<Item>,
    named: Vec<NamedText>,
    case: Option<Case>,
    run: Option<Run>,
    /// Whether the open run has its status.
    has_status: bool,
    wants: Option<Wants>,
    text: Vec<u8>,
    into: Where,
}

impl Reading {
    /// Nothing is read yet.
    fn new(alloc: Global) -> Reading {
        Reading {
            alloc,
            items: Vec::new(alloc),
            named: Vec::new(alloc),
            case: None,
            run: None,
            has_status: false,
            wants: None,
            text: Vec::new(alloc),
            into: Where::Nothing,
        }
    }

    /// Gives the open case its script.
    fn put_script(&mut self, text: Vec<u8>) -> Result<(), Fault> {
        let Some(case) = &mut self.case else {
            return Err(Fault::Place);
        };
        case.script = text;
        Ok(())
    }

    /// Adds a text to those that the open run may print.
    fn put_printed(&mut self, text: Vec<u8>) -> Result<(), Fault> {
        let Some(run) = &mut self.run else {
            return Err(Fault::Place);
        };
        Ok(run.texts.push(text)?)
    }

    /// Begins a text that belongs there. The one before it is whole.
    fn begin(&mut self, into: Where) -> Result<(), Fault> {
        let text = mem::replace(&mut self.text, Vec::new(self.alloc));
        match mem::replace(&mut self.into, into) {
            Where::Nothing => Ok(()),
            Where::Named(name) => Ok(self.named.push(NamedText { name, bytes: text })?),
            Where::Script => self.put_script(text),
            Where::Printed => self.put_printed(text),
        }
    }

    /// Ends the open run, if there is one.
    fn end_run(&mut self) -> Result<(), Fault> {
        self.begin(Where::Nothing)?;
        let Some(run) = self.run.take() else {
            return Ok(());
        };
        let Some(case) = &mut self.case else {
            return Err(Fault::Place);
        };
        if !self.has_status {
            return Err(Fault::Unfinished);
        }
        Ok(case.runs.push(run)?)
    }

    /// Ends the open case, if there is one. Words that wait for what they want are unfinished.
    fn end_case(&mut self) -> Result<(), Fault> {
        self.end_run()?;
        if self.wants.is_some() {
            return Err(Fault::Unfinished);
        }
        let Some(case) = self.case.take() else {
            return Ok(());
        };
        if case.runs.is_empty() {
            return Err(Fault::Unfinished);
        }
        Ok(self.items.push(Item::Case(case))?)
    }

    /// Begins a text with this name.
    fn begin_text(&mut self, name: &str) -> Result<(), Fault> {
        self.end_case()?;
        let name = String::from_str(self.alloc, name)?;
        self.begin(Where::Named(name))
    }

    /// Begins a case with this name.
    fn begin_case(&mut self, name: &str) -> Result<(), Fault> {
        self.end_case()?;
        self.case = Some(Case {
            name: String::from_str(self.alloc, name)?,
            script: Vec::new(self.alloc),
            runs: Vec::new(self.alloc),
        });
        Ok(())
    }

    /// Begins words that must want something.
    fn begin_wants(&mut self, said: &str) -> Result<(), Fault> {
        self.end_case()?;
        self.wants = Some(Wants {
            said: String::from_str(self.alloc, said)?,
            words: words_of(self.alloc, said)?,
            wanted: None,
        });
        Ok(())
    }

    /// Begins the script of the open case.
    fn begin_script(&mut self) -> Result<(), Fault> {
        if self.case.is_none() || self.run.is_some() {
            return Err(Fault::Place);
        }
        self.begin(Where::Script)
    }

    /// Begins a run by these words.
    fn begin_run(&mut self, said: &str) -> Result<(), Fault> {
        self.end_run()?;
        if self.case.is_none() {
            return Err(Fault::Place);
        }
        self.run = Some(run_of(self.alloc, said)?);
        self.has_status = false;
        Ok(())
    }

    /// The status of the open run is told, or what words want.
    fn push_end(&mut self, line: &str) -> Result<(), Fault> {
        if let Some(mut wants) = self.wants.take() {
            wants.wanted = wanted_of(line)?;
            return Ok(self.items.push(Item::Wants(wants))?);
        }
        let status = status_of(line).ok_or(Fault::Word)?;
        let Some(run) = &mut self.run else {
            return Err(Fault::Place);
        };
        if self.has_status {
            return Err(Fault::Place);
        }
        run.status = status;
        self.has_status = true;
        self.begin(Where::Printed)
    }

    /// Another text may come in place of the last.
    fn push_or(&mut self) -> Result<(), Fault> {
        if self.run.is_none() || !self.has_status {
            return Err(Fault::Place);
        }
        self.begin(Where::Printed)
    }

    /// Something more is told of the open run.
    fn push_more(&mut self, word: &str, rest: &str) -> Result<(), Fault> {
        self.begin(Where::Nothing)?;
        let Some(run) = &mut self.run else {
            return Err(Fault::Place);
        };
        match word {
            "reads" => run.reads = Some(calls_of(self.alloc, rest)?),
            "writes" => run.writes = Some(calls_of(self.alloc, rest)?),
            "room" => run.room = Some(number_of(rest)? as usize),
            "events" => run.events = Some(number_of(rest)?),
            "tree" => run.tree = Some(tree_of(rest)?),
            _ => run.is_end = true,
        }
        Ok(())
    }

    /// Adds a line of a text.
    fn push_text<R: Files + AllocGlobal>(&mut self, rt: &R, line: &str) -> Result<(), Fault> {
        if matches!(self.into, Where::Nothing) {
            return Err(Fault::Place);
        }
        push_line(rt, &mut self.text, line, self.named.as_slice())
    }

    /// Reads a line that is no line of a text.
    fn push_word(&mut self, line: &str) -> Result<(), Fault> {
        let (word, rest) = line.split_once(' ').unwrap_or((line, ""));
        match word {
            "text" => self.begin_text(rest),
            "case" => self.begin_case(rest),
            "wants" => self.begin_wants(rest),
            "script" => self.begin_script(),
            "run" => self.begin_run(rest),
            "or" => self.push_or(),
            "reads" | "writes" | "room" | "events" | "tree" | "ending" => {
                self.push_more(word, rest)
            }
            _ => self.push_end(line),
        }
    }

    /// Reads a line.
    fn push<R: Files + AllocGlobal>(&mut self, rt: &R, line: &str) -> Result<(), Fault> {
        if let Some(text) = line.strip_prefix("  ") {
            return self.push_text(rt, text);
        }
        if line.is_empty() || line.starts_with('#') {
            return Ok(());
        }
        self.push_word(line)
    }
}

/// A run by these words, of which nothing more is known.
fn run_of(alloc: Global, said: &str) -> Result<Run, AllocError> {
    Ok(Run {
        said: String::from_str(alloc, said)?,
        words: words_of(alloc, said)?,
        reads: None,
        writes: None,
        room: None,
        status: Status::Done,
        texts: Vec::new(alloc),
        is_end: false,
        events: None,
        tree: None,
    })
}

/// The cases and the lists of words that a text tells, in its order.
pub(crate) fn read_items<R: Files + AllocGlobal>(rt: &R, text: &str) -> Result<Vec<Item>, BadCase> {
    let mut reading = Reading::new(rt.alloc());
    let mut at = 0u64;
    for line in text.lines() {
        at = at.saturating_add(1);
        if let Err(fault) = reading.push(rt, line) {
            return Err(BadCase { at, fault });
        }
    }
    match reading.end_case() {
        Ok(()) => Ok(reading.items),
        Err(fault) => Err(BadCase { at, fault }),
    }
}
