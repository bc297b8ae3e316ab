//! Called commands by class: those of one class begin, go on and end alike.
ghost use Rattle.std.specs.Prelude.{◌≡◌};
ghost use Rattle.row_ledger.specs.Classes.{class_of};

use crate::settings::Call;
use shard_plan::Action;

/// What a page tells of.
#[derive(Clone, Copy, Debug, PartialEq, Eq)]
pub enum Subject {
    /// The shards that stand.
    Shards,
    /// The tree of the shard with this id.
    Tree(u32),
    /// All rows.
    Rows,
    /// The rows that a filter matches, by the concept of a level that they are under.
    Groups,
}

/// What a called command is.
#[derive(Clone, Copy, Debug, PartialEq, Eq)]
pub enum Class {
    /// The server pulls.
    Sync(u8),
    /// Each server pulls, and then each once more.
    Settle,
    /// Nothing is to be done.
    Bare,
    /// A page of this is shown.
    Page(Subject),
    /// A shard is split, or moved.
    Action(Action),
    /// At most so many actions are planned and made.
    Balance(u8),
}

impl Call {
    /// The class of the command.
    pub fn class(&self) -> Class
        ensures { result ≡ class_of self.now }
    {
        match self {
            Call::Sync(server) => Class::Sync(*server),
            Call::Split(shard) => Class::Action(Action::Split { shard: *shard }),
            Call::Move(shard, worker) => Class::Action(Action::Move {
                shard: *shard,
                worker: *worker,
            }),
            Call::Balance(most) => Class::Balance(*most),
            Call::Barrier => Class::Bare,
            Call::Settle => Class::Settle,
            Call::Shards => Class::Page(Subject::Shards),
            Call::Tree(shard) => Class::Page(Subject::Tree(*shard)),
            Call::Audit => Class::Page(Subject::Rows),
            Call::Group { .. } => Class::Page(Subject::Groups),
        }
    }
}
