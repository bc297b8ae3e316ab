//! Called commands by words, as tables have them.
use dim_hierarchy::{Filter, NameFilter};
use row_ledger::Call;
use script_form::Command;
use std::alloc::Global;

/// A called command in a table.
#[derive(Clone, Copy, Debug, PartialEq, Eq)]
pub(crate) enum Word {
    Sync(u8),
    Split(u32),
    Move(u32, u8),
    Balance(u8),
    Barrier,
    Settle,
    Shards,
    Tree(u32),
    Audit,
    /// A group by a level of the first dimension.
    Group(u8),
}

/// The call of a word. A group has an empty filter.
pub(crate) fn call_of(alloc: Global, word: Word) -> Call {
    match word {
        Word::Sync(server) => Call::Sync(server),
        Word::Split(shard) => Call::Split(shard),
        Word::Move(shard, worker) => Call::Move(shard, worker),
        Word::Balance(most) => Call::Balance(most),
        Word::Barrier => Call::Barrier,
        Word::Settle => Call::Settle,
        Word::Shards => Call::Shards,
        Word::Tree(shard) => Call::Tree(shard),
        Word::Audit => Call::Audit,
        Word::Group(level) => Call::Group {
            dim: 0,
            level,
            filter: Filter::new(alloc),
        },
    }
}

/// The command of a word.
pub(crate) fn command_of(alloc: Global, word: Word) -> Command {
    match word {
        Word::Group(level) => Command::Group {
            dim: 0,
            level,
            filter: NameFilter::new(alloc),
        },
        _ => Command::Control(call_of(alloc, word)),
    }
}

/// The word of a call.
fn word_of(call: &Call) -> Word {
    match call {
        Call::Sync(server) => Word::Sync(*server),
        Call::Split(shard) => Word::Split(*shard),
        Call::Move(shard, worker) => Word::Move(*shard, *worker),
        Call::Balance(most) => Word::Balance(*most),
        Call::Barrier => Word::Barrier,
        Call::Settle => Word::Settle,
        Call::Shards => Word::Shards,
        Call::Tree(shard) => Word::Tree(*shard),
        Call::Audit => Word::Audit,
        Call::Group { level, .. } => Word::Group(*level),
    }
}

/// The word of a command that calls without names.
pub(crate) fn word_in(command: &Command) -> Option<Word> {
    match command {
        Command::Control(call) => Some(word_of(call)),
        _ => None,
    }
}
