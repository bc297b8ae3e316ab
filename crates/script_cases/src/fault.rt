//! Why a text of cases is not read to its end.
use std::alloc::{AllocError, AllocFailed};
use std::fmt;

/// What is wrong with a line.
#[derive(Clone, Copy, Debug, PartialEq, Eq)]
pub(crate) enum Fault {
    /// It begins with a word that is not known.
    Word,
    /// A number is not one, or not one that may stand there.
    Number,
    /// Behind a backslash stands what is not known.
    Escape,
    /// No text of that name stands above.
    Name,
    /// No file of that name can be read.
    File,
    /// It stands where it may not.
    Place,
    /// What ends above it is not whole: a run without a status, or words without what they want.
    Unfinished,
    /// No memory was found.
    NoMemory,
}

/// The first line that is wrong, counted from 1, and what is wrong with it.
#[derive(Clone, Copy, Debug, PartialEq, Eq)]
pub(crate) struct BadCase {
    pub(crate) at: u64,
    pub(crate) fault: Fault,
}

impl From<AllocError> for Fault {
    fn from(_: AllocError) -> Self {
        Fault::NoMemory
    }
}

impl<T: Drop> From<AllocFailed<T>> for Fault {
    fn from(_: AllocFailed<T>) -> Self {
        Fault::NoMemory
    }
}

impl fmt::Display for Fault {
    fn fmt<W: fmt::Write>(&self, f: &mut fmt::Formatter<W>) -> fmt::Result {
        match self {
            Fault::Word => write!(f, "no such word"),
            Fault::Number => write!(f, "no such number"),
            Fault::Escape => write!(f, "no such escape"),
            Fault::Name => write!(f, "no text of that name"),
            Fault::File => write!(f, "no such file"),
            Fault::Place => write!(f, "out of place"),
            Fault::Unfinished => write!(f, "what stands above is unfinished"),
            Fault::NoMemory => write!(f, "no memory"),
        }
    }
}
