//! Scripts made of tables of lines.
ghost use Rattle.std.specs.Prelude.{◌≡◌, All, IfOk, OnOk, true};
ghost use Rattle.dim_hierarchy.specs.Names.{IsNamePick};
ghost use Rattle.script_form.specs.Fits.{AreSettings};
ghost use Rattle.script_form.specs.declared.script.Command.TheVariants as script_is;
ghost use Rattle.library_runs.specs.seeded_run.specs.Phase.{MayAllRun, MayRun};

use dim_hierarchy::{Hierarchy, Name, NameFilter, NamePick, Names, RowNames};
use row_ledger::{Call, Use};
use script_form::{Command, Commands, NewRow, Question, Script, read_script};
use std::alloc::{AllocError, Global};

/// A line of a script over one dimension.
#[derive(Clone, Copy)]
pub(crate) enum Line {
    /// A row that comes through a server: its measure and its name.
    Insert(u8, i64, &'static str),
    /// What a server is asked for: rows under one of these names, or all where there are none.
    Query(u8, &'static [&'static str]),
    /// Such rows, by the concept of a level that they are under.
    Group(u8, &'static [&'static str]),
    Sync(u8),
    Split(u32),
    Move(u32, u8),
    Balance(u8),
    Barrier,
    Settle,
    Shards,
    Tree(u32),
}

/// The names that are picked, or all where there are none.
fn pick(alloc: Global, picked: &[&str]) -> Result<NamePick, AllocError> {
    if picked.is_empty() {
        return Ok(NamePick::All);
    }
    let mut names = Names::new(alloc);
    for name in picked {
        names.push(Name::from_bytes(alloc, name.as_bytes())?)?;
    }
    Ok(NamePick::Any(names))
}

/// The insert of a row, of whose name the first 255 bytes count.
fn insert(alloc: Global, server: u8, measures: i64, name: &str) -> Result<Command, AllocError> {
    let bytes = name.as_bytes();
    let mut names = RowNames::new(alloc);
    names.push(&bytes[..bytes.len().min(255)])?;
    Ok(Command::Insert(NewRow {
        server,
        measures,
        names,
    }))
}

/// The filter of what is picked.
fn filter(alloc: Global, picked: &[&str]) -> Result<NameFilter, AllocError> {
    let mut filter = NameFilter::new(alloc);
    filter.push(pick(alloc, picked)?)?;
    Ok(filter)
}

/// A query for what is picked.
fn query(alloc: Global, server: u8, picked: &[&str]) -> Result<Command, AllocError> {
    let filter = filter(alloc, picked)?;
    Ok(Command::Query(Question { server, filter }))
}

/// A group of what is picked by a level.
fn group(alloc: Global, level: u8, picked: &[&str]) -> Result<Command, AllocError> {
    let filter = filter(alloc, picked)?;
    Ok(Command::Group {
        dim: 0,
        level,
        filter,
    })
}

/// The command of a line.
fn command(alloc: Global, line: &Line) -> Result<Command, AllocError> {
    match line {
        Line::Insert(server, measures, name) => insert(alloc, *server, *measures, name),
        Line::Query(server, picked) => query(alloc, *server, picked),
        Line::Group(level, picked) => group(alloc, *level, picked),
        Line::Sync(server) => Ok(Command::Control(Call::Sync(*server))),
        Line::Split(shard) => Ok(Command::Control(Call::Split(*shard))),
        Line::Move(shard, worker) => Ok(Command::Control(Call::Move(*shard, *worker))),
        Line::Balance(most) => Ok(Command::Control(Call::Balance(*most))),
        Line::Barrier => Ok(Command::Control(Call::Barrier)),
        Line::Settle => Ok(Command::Control(Call::Settle)),
        Line::Shards => Ok(Command::Control(Call::Shards)),
        Line::Tree(shard) => Ok(Command::Control(Call::Tree(*shard))),
    }
}

/// Whether a pick by names lists one.
fn is_pick(pick: &NamePick) -> bool
    ensures { result ≡ true → IsNamePick pick.now }
{
    match pick {
        NamePick::All => true,
        NamePick::Any(names) => !names.is_empty(),
    }
}

/// Whether each pick by names lists one.
fn are_picks(picks: &[NamePick]) -> bool
    ensures { result ≡ true → All IsNamePick picks.now }
{
    for pick in picks {
        if !is_pick(pick) {
            return false;
        }
    }
    true
}

/// Whether this call may run: a pull is for a server that is there. A group is no such command.
fn may_call(h: &Hierarchy, with: &Use, call: &Call) -> bool
    ensures { result ≡ true → MayRun h.now with.now (script_is.Control call.now) }
{
    match call {
        Call::Sync(server) => *server < with.servers,
        Call::Split(_) | Call::Move(_, _) | Call::Balance(_) => true,
        Call::Barrier | Call::Settle | Call::Shards | Call::Tree(_) | Call::Audit => true,
        Call::Group { .. } => false,
    }
}

/// Whether this command may run.
fn may_run(h: &Hierarchy, with: &Use, command: &Command) -> bool
    ensures { result ≡ true → MayRun h.now with.now command.now }
{
    let dims = usize::from(h.dims());
    match command {
        Command::Insert(row) => row.server < with.servers && row.names.len() == dims,
        Command::Query(question) => {
            question.server < with.servers
                && 0 < dims
                && question.filter.len() == dims
                && are_picks(question.filter.as_slice())
        }
        Command::Control(call) => may_call(h, with, call),
        Command::Group { dim, level, filter } => {
            usize::from(*dim) < dims
                && *level <= h.levels(*dim)
                && filter.len() == dims
                && are_picks(filter.as_slice())
        }
    }
}

/// Adds the command of a line, which may run.
fn add_line(
    alloc: Global,
    h: &Hierarchy,
    with: &Use,
    commands: &mut Commands,
    line: &Line,
) -> Result<(), AllocError>
    requires { All (MayRun h.now with.now) commands.old }
    ensures { OnOk result (All (MayRun h.now with.now) commands.new) }
{
    let command = command(alloc, line)?;
    if !may_run(h, with, &command) {
        return Err(AllocError);
    }
    commands.push(command)
}

/// The commands of lines, all of which may run.
fn commands(
    alloc: Global,
    h: &Hierarchy,
    with: &Use,
    lines: &[Line],
) -> Result<Commands, AllocError>
    ensures { IfOk result (λ commands. All (MayRun h.now with.now) commands) }
{
    let mut commands = Commands::new(alloc);
    for line in lines {
        add_line(alloc, h, with, &mut commands, line)?;
    }
    Ok(commands)
}

/// The script of a text that has no command.
fn opening(alloc: Global, head: &str) -> Result<Script, AllocError>
    ensures { IfOk result (λ s. AreSettings s.with) }
{
    match read_script(alloc, head.as_bytes()) {
        Ok(script) => Ok(script),
        Err(_) => Err(AllocError),
    }
}

/// The script of a text that has no command, and of lines behind it.
pub(crate) fn script(alloc: Global, head: &str, lines: &[Line]) -> Result<Script, AllocError>
    ensures settings { IfOk result (λ s. AreSettings s.with) }
    ensures may_run { IfOk result (λ s. MayAllRun s.hierarchy s.with s.commands) }
{
    let mut script = opening(alloc, head)?;
    script.commands = commands(alloc, &script.hierarchy, &script.with, lines)?;
    Ok(script)
}
