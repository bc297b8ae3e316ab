//! The phases of a script.
ghost use Rattle.std.specs.Prelude.{◌≡◌, ◌-◌, ◌<◌, ◌≤◌, ◌∷◌, length, take, drop};
ghost use Rattle.script_run.specs.Phases.{closes, phases};
ghost use Rattle.script_run.specs.Streams.{NoneCloses};

use row_ledger::Class;
use script_form::Command;

/// Whether a command closes its phase.
pub fn closes(command: &Command) -> bool
    ensures { result ≡ closes command.now }
{
    match command {
        Command::Insert(_) | Command::Query(_) => false,
        Command::Control(call) => {
            matches!(call.class(), Class::Bare | Class::Settle | Class::Page(_))
        }
        Command::Group { .. } => true,
    }
}

/// How many commands the first phase of some commands has: all up to the first that closes it,
/// before which none closes it.
pub fn phase_len(commands: &[Command]) -> usize
    requires { 0 < length commands.now }
    ensures some { 0 < result }
    ensures within { result ≤ length commands.now }
    ensures closing { NoneCloses (take (result - 1) commands.now) }
    ensures phase { phases commands.now ≡ take result commands.now ∷ phases (drop result commands.now) }
{
    for (i, command) in commands.iter().enumerate() {
        if closes(command) {
            return i + 1;
        }
    }
    commands.len()
}
