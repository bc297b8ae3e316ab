//! The calls of a puller and of an administrator in a phase, one after the other.
ghost use Rattle.std.specs.Prelude.{◌≡◌, ◌+◌, [], ◌∷◌, false, OnErr, OnOk};
ghost use Rattle.script_run.specs.Phases.{closes};
ghost use Rattle.session_runs.specs.Sessions.{BeginsNothing};
ghost use Rattle.threaded_run.specs.Streams.{AllFit, DoesAll, DoesSome, FitsFloor, NoneClosesAt};

use hall_admin::{Admin, Puller};
use row_ledger::Call;
use script_form::Command;
use std::alloc::{AllocError, Global};
use std::sync::Wait;

/// The puller makes its own of these calls, one after the other. It is an error where no memory is found for one, of which
/// nothing stands in the history then; neither it nor one behind it has begun.
pub(crate) fn pull_all<'a, R: Wait>(
    rt: &R,
    alloc: Global,
    puller: &mut Puller<'a>,
    commands: &[Command],
) -> Result<(), AllocError>
    requires number { puller.old.number ≡ puller.old.floor.with.servers }
    requires fits { AllFit puller.old.floor commands.now }
    ensures same { puller.new ≡ record puller.old { seen = puller.new.seen } }
    ensures done { OnOk result (DoesAll puller.old.floor puller.old.number commands.now puller.old.seen puller.new.seen) }
    ensures stopped { OnErr result (DoesSome puller.old.floor puller.old.number commands.now puller.old.seen puller.new.seen) }
{
    for command in commands {
        pull(rt, alloc, puller, command)?;
    }
    Ok(())
}

/// The puller makes this call, if it is one of its own. It is an error where no memory is found for it.
fn pull<'a, R: Wait>(
    rt: &R,
    alloc: Global,
    puller: &mut Puller<'a>,
    command: &Command,
) -> Result<(), AllocError>
    requires number { puller.old.number ≡ puller.old.floor.with.servers }
    requires fits { FitsFloor puller.old.floor command.now }
    ensures same { puller.new ≡ record puller.old { seen = puller.new.seen } }
    ensures done { OnOk result (DoesAll puller.old.floor puller.old.number (command.now ∷ []) puller.old.seen puller.new.seen) }
    ensures none { OnErr result (BeginsNothing puller.old.number puller.old.seen puller.new.seen) }
{
    let Command::Control(call) = command else {
        return Ok(());
    };
    match call {
        Call::Sync(server) => {
            puller.try_sync(rt, alloc, *server)?;
            Ok(())
        }
        _ => Ok(()),
    }
}

/// The administrator makes its own of these calls, one after the other; no one of them closes a phase. It is an error where no
/// memory is found for one, of which nothing stands in the history then; neither it nor one behind it has begun.
pub(crate) fn manage_all<'a, R: Wait>(
    rt: &R,
    alloc: Global,
    admin: &mut Admin<'a>,
    commands: &[Command],
) -> Result<(), AllocError>
    requires number { admin.old.number ≡ admin.old.floor.with.servers + 1 }
    requires fits { AllFit admin.old.floor commands.now }
    requires none_closes { NoneClosesAt commands.now }
    ensures same { admin.new ≡ record admin.old { seen = admin.new.seen } }
    ensures done { OnOk result (DoesAll admin.old.floor admin.old.number commands.now admin.old.seen admin.new.seen) }
    ensures stopped { OnErr result (DoesSome admin.old.floor admin.old.number commands.now admin.old.seen admin.new.seen) }
{
    for command in commands {
        manage(rt, alloc, admin, command)?;
    }
    Ok(())
}

/// The administrator makes this call, if it is one of its own. It is an error where no memory is found for it.
fn manage<'a, R: Wait>(
    rt: &R,
    alloc: Global,
    admin: &mut Admin<'a>,
    command: &Command,
) -> Result<(), AllocError>
    requires number { admin.old.number ≡ admin.old.floor.with.servers + 1 }
    requires fits { FitsFloor admin.old.floor command.now }
    requires none_closes { closes command.now ≡ false }
    ensures same { admin.new ≡ record admin.old { seen = admin.new.seen } }
    ensures done { OnOk result (DoesAll admin.old.floor admin.old.number (command.now ∷ []) admin.old.seen admin.new.seen) }
    ensures none { OnErr result (BeginsNothing admin.old.number admin.old.seen admin.new.seen) }
{
    let Command::Control(call) = command else {
        return Ok(());
    };
    match call {
        Call::Sync(_) => Ok(()),
        _ => {
            admin.try_call(rt, alloc, call)?;
            Ok(())
        }
    }
}
