//! A session's commands of a phase, one after the other.
ghost use Rattle.std.specs.Prelude.{◌≡◌, ◌<◌, [], ◌∷◌, OnErr, OnOk};
ghost use Rattle.script_form.specs.declared.script.Command.TheVariants as is_command;
ghost use Rattle.session_runs.specs.Sessions.{BeginsNothing, DoesInTurn};
ghost use Rattle.threaded_run.specs.Streams.{AllFit, DoesAll, DoesSome, FitsFloor, IsOfServer};

use hall_hands::of_actor_run::{Session, Steps};
use script_form::{Command, NewRow, Question};
use std::alloc::{AllocError, Global};
use std::sync::Wait;
use volap_io::Meet;

/// The session does its own of these commands, one after the other. It is an error where no memory is found for one, of which
/// nothing stands in the history then; neither it nor one behind it has begun.
pub(crate) fn do_commands<'a, R: Wait + Sync, M: Meet>(
    rt: &R,
    alloc: Global,
    session: &mut Session<'a>,
    server: u8,
    commands: &[Command],
    meet: &M,
) -> Result<(), AllocError>
    requires server { IsOfServer server session.old }
    requires fits { AllFit session.old.floor commands.now }
    ensures same { session.new ≡ record session.old { seen = session.new.seen } }
    ensures done { OnOk result (DoesAll session.old.floor server commands.now session.old.seen session.new.seen) }
    ensures stopped { OnErr result (DoesSome session.old.floor server commands.now session.old.seen session.new.seen) }
{
    for command in commands {
        do_command(rt, alloc, session, server, command, meet)?;
    }
    Ok(())
}

/// The session does this command, if it is one of its own. It is an error where no memory is found for it.
fn do_command<'a, R: Wait + Sync, M: Meet>(
    rt: &R,
    alloc: Global,
    session: &mut Session<'a>,
    server: u8,
    command: &Command,
    meet: &M,
) -> Result<(), AllocError>
    requires server { IsOfServer server session.old }
    requires fits { FitsFloor session.old.floor command.now }
    ensures same { session.new ≡ record session.old { seen = session.new.seen } }
    ensures done { OnOk result (DoesAll session.old.floor server (command.now ∷ []) session.old.seen session.new.seen) }
    ensures none { OnErr result (BeginsNothing server session.old.seen session.new.seen) }
{
    match command {
        Command::Insert(new) if new.server == server => insert(rt, alloc, session, new, meet),
        Command::Query(question) if question.server == server => {
            query(rt, alloc, session, question, meet)
        }
        _ => Ok(()),
    }
}

/// The session does this insert, which is its own.
fn insert<'a, R: Wait + Sync, M: Meet>(
    rt: &R,
    alloc: Global,
    session: &mut Session<'a>,
    new: &NewRow,
    meet: &M,
) -> Result<(), AllocError>
    requires server { IsOfServer new.now.server session.old }
    requires fits { FitsFloor session.old.floor (is_command.Insert new.now) }
    ensures same { session.new ≡ record session.old { seen = session.new.seen } }
    ensures done { OnOk result (DoesInTurn session.old.floor.with session.old.floor.hierarchy new.now.server
        (is_command.Insert new.now ∷ []) session.old.seen session.new.seen) }
    ensures none { OnErr result (BeginsNothing new.now.server session.old.seen session.new.seen) }
{
    session.try_insert(rt, alloc, &new.names, new.measures, meet)?;
    Ok(())
}

/// The session asks this question, which is its own.
fn query<'a, R: Wait + Sync, M: Meet>(
    rt: &R,
    alloc: Global,
    session: &mut Session<'a>,
    question: &Question,
    meet: &M,
) -> Result<(), AllocError>
    requires server { IsOfServer question.now.server session.old }
    requires fits { FitsFloor session.old.floor (is_command.Query question.now) }
    ensures same { session.new ≡ record session.old { seen = session.new.seen } }
    ensures done { OnOk result (DoesInTurn session.old.floor.with session.old.floor.hierarchy question.now.server
        (is_command.Query question.now ∷ []) session.old.seen session.new.seen) }
    ensures none { OnErr result (BeginsNothing question.now.server session.old.seen session.new.seen) }
{
    let mut steps = Steps::new();
    session.try_query(rt, alloc, &question.filter, meet, &mut steps)?;
    Ok(())
}
