//! The sessions of commands.
ghost use Rattle.std.specs.Prelude.{◌≡◌, ◌≢◌, ◌<◌, ◌≤◌, ℕ, length, slice_get, Some};
ghost use Rattle.script_form.specs.declared.script.Command as script;
ghost use Rattle.script_run.specs.Places.{session_of};

use row_ledger::{Call, Use};
use script_form::Command;

/// The session of every command is below this: a server is a `u8`, the pulling session has
/// the number of servers, and the controlling session one more.
pub const SESSIONS: usize = 257;

/// The session of a command.
pub fn session_of(with: &Use, command: &Command) -> u16
    ensures value { result ≡ session_of with.now command.now }
    ensures few { result < SESSIONS }
{
    match command {
        Command::Insert(row) => u16::from(row.server),
        Command::Query(question) => u16::from(question.server),
        Command::Control(Call::Sync(_)) => u16::from(with.servers),
        Command::Control(_) | Command::Group { .. } => u16::from(with.servers) + 1,
    }
}

/// The first command of a session from a place on, or the number of all where there is none.
pub fn next_of(with: &Use, commands: &[Command], session: u16, from: usize) -> usize
    requires { from ≤ length commands.now }
    ensures past { from ≤ result }
    ensures within { result ≤ length commands.now }
    ensures none { (i : ℕ) (c : script.Command) → slice_get commands.now i ≡ Some c → from ≤ i → i < result → session_of with.now c ≢ session }
    ensures own { (c : script.Command) → slice_get commands.now result ≡ Some c → session_of with.now c ≡ session }
{
    for i in from..commands.len() {
        if session_of(with, &commands[i]) == session {
            return i;
        }
    }
    commands.len()
}
