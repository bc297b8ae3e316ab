//! How a case says a status, what words want and which calls fail.
use crate::cases::{Calls, TreeLine};
use crate::fault::Fault;
use crate::texts::{number_before, number_of};
use olap_top::{Status, Wanted};
use std::alloc::{AllocError, Global};

/// The status that a word says.
pub(crate) fn status_of(word: &str) -> Option<Status> {
    match word {
        "Done" => Some(Status::Done),
        "ReadFault" => Some(Status::ReadFault),
        "BadWords" => Some(Status::BadWords),
        "BadScript" => Some(Status::BadScript),
        "WriteFault" => Some(Status::WriteFault),
        "TooLarge" => Some(Status::TooLarge),
        _ => None,
    }
}

/// The word that says a status.
pub(crate) fn word_of(status: Status) -> &'static str {
    match status {
        Status::Done => "Done",
        Status::ReadFault => "ReadFault",
        Status::BadWords => "BadWords",
        Status::BadScript => "BadScript",
        Status::WriteFault => "WriteFault",
        Status::NoMemory => "NoMemory",
        Status::TooLarge => "TooLarge",
    }
}

/// What a load wants, as `3 1` or `3 1 threads`: its rows, its seed, and whether with threads.
fn load_of(said: &str) -> Result<Wanted, Fault> {
    let (rows, rest) = number_before(said)?;
    let (seed, more) = rest.split_once(' ').unwrap_or((rest, ""));
    let threads = match more {
        "threads" => true,
        "" => false,
        _ => return Err(Fault::Word),
    };
    let seed = number_of(seed)?;
    Ok(Wanted::Load {
        rows,
        seed,
        threads,
    })
}

/// What is wanted, as a line says it: `Step`, `Seeded 7`, `Run`, `Load 3 1`, `Load 3 1 threads` or `nothing`.
pub(crate) fn wanted_of(line: &str) -> Result<Option<Wanted>, Fault> {
    let (word, rest) = line.split_once(' ').unwrap_or((line, ""));
    match word {
        "Step" => Ok(Some(Wanted::Step)),
        "Seeded" => Ok(Some(Wanted::Seeded(number_of(rest)?))),
        "Run" => Ok(Some(Wanted::Run)),
        "Load" => Ok(Some(load_of(rest)?)),
        "nothing" => Ok(None),
        _ => Err(Fault::Word),
    }
}

/// The line that says what is wanted.
pub(crate) fn line_of(alloc: Global, wanted: Option<Wanted>) -> Result<String, AllocError> {
    match wanted {
        None => format!(in alloc; "nothing"),
        Some(Wanted::Step) => format!(in alloc; "Step"),
        Some(Wanted::Seeded(seed)) => format!(in alloc; "Seeded {seed}"),
        Some(Wanted::Run) => format!(in alloc; "Run"),
        Some(
            Wanted::Load {
                rows,
                seed,
                threads,
            },
        ) => {
            let more = if threads { " threads" } else { "" };
            format!(in alloc; "Load {rows} {seed}{more}")
        }
    }
}

/// The words that stand between spaces, where two quotes are a word without a letter.
pub(crate) fn words_of(alloc: Global, said: &str) -> Result<Vec<String>, AllocError> {
    let mut words = Vec::new(alloc);
    for word in said.split_whitespace() {
        let word = if word == "\"\"" { "" } else { word };
        words.push(String::from_str(alloc, word)?)?;
    }
    Ok(words)
}

/// The calls that a line tells, as `10 4 5`: of 10 bytes at most, of which those with the numbers 4 and 5
/// fail.
pub(crate) fn calls_of(alloc: Global, said: &str) -> Result<Calls, Fault> {
    let (most, rest) = said.split_once(' ').unwrap_or((said, ""));
    let most = number_of(most)?;
    let mut fail = Vec::new(alloc);
    for word in rest.split_whitespace() {
        fail.push(number_of(word)?)?;
    }
    Ok(Calls {
        most: most as usize,
        fail,
    })
}

/// What a page of a tree must tell, as `2 2000 some`: its height, its rows, and whether some of them queue
/// or none.
pub(crate) fn tree_of(said: &str) -> Result<TreeLine, Fault> {
    let (height, rest) = number_before(said)?;
    let (rows, queued) = number_before(rest)?;
    let is_queued = match queued {
        "some" => true,
        "none" => false,
        _ => return Err(Fault::Word),
    };
    Ok(TreeLine {
        height,
        rows,
        is_queued,
    })
}
