//! What a call of the top leaves.
use core_laws::volap_cell::State;
use row_ledger::Ledger;

/// How a call of the top ended. The numbers, from 0 in this order, are the program's exit statuses.
#[derive(Clone, Copy, Debug, PartialEq, Eq)]
pub enum Status {
    /// The input was read, every command ended, and the whole text was taken.
    Done,
    /// A read failed.
    ReadFault,
    /// The words are none that this program knows.
    BadWords,
    /// What was read is no script.
    BadScript,
    /// A write failed.
    WriteFault,
    /// No memory was found.
    NoMemory,
    /// The source gave more than 2^26 bytes.
    TooLarge,
}

impl Status {
    ghost use Rattle.std.specs.Prelude.{◌≡◌};
    ghost use Rattle.olap_top.specs.Statuses.{code_of};

    /// The number with which a process ends that ends so.
    pub fn code(&self) -> u8
        ensures { result ≡ code_of self.now }
    {
        *self as u8
    }
}

/// What a call of the top leaves: how it ended, the history that it kept, and where something ran,
/// the state of the core, in which the ledger's cell is free.
#[derive(Drop)]
pub struct Outcome {
    pub status: Status,
    pub ledger: Ledger,
    pub rest: Option<State>,
}
