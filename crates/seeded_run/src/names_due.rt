//! Whether the names of a command that is to begin are known.
ghost use Rattle.std.specs.Prelude.{◌≡◌};
ghost use Rattle.seeded_run.specs.Due.{are_known};
ghost use Rattle.seeded_run.specs.Look.{HasNames};

use dim_hierarchy::Hierarchy;
use script_form::Command;

/// Whether no name of the command is unknown. Takes no memory.
pub(crate) fn are_known(h: &Hierarchy, command: &Command) -> bool
    requires names { HasNames h.now command.now }
    ensures { result ≡ are_known h.now command.now }
{
    match command {
        Command::Insert(new) => h.coord(&new.names).is_ok(),
        Command::Query(question) => h.first_unknown(&question.filter).is_none(),
        Command::Group { filter, .. } => h.first_unknown(filter).is_none(),
        Command::Control(_) => true,
    }
}
