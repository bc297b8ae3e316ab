//! The command that closes a phase, when all others of it have ended.
ghost use Rattle.std.specs.Prelude.{ℕ, ◌≡◌, [], ◌∷◌, true, OnErr, OnOk};
ghost use Rattle.row_ledger.specs.Classes.{class_of};
ghost use Rattle.script_form.specs.declared.script.Command.TheVariants.{Control, Group};
ghost use Rattle.script_run.specs.Phases.{closes, is_closing};
ghost use Rattle.session_runs.specs.Sessions.{BeginsNothing, EachDoes};
ghost use Rattle.threaded_run.specs.Phases.{AreBack, ArePhased};
ghost use Rattle.threaded_run.specs.Streams.{FitsFloor};

use dim_hierarchy::NameFilter;
use hall_hands::of_actor_run::{Hall, Passes};
use hall_hands::of_whole_steps::{Paged, Settled};
use row_ledger::{Call, Class};
use script_form::Command;
use std::alloc::{AllocError, Global};
use std::sync::Wait;

/// The administrator does this command, which closes a phase, and nobody else begins anything. It is an error where no memory is
/// found for it, and nothing of it stands in the history then.
pub(crate) fn close_phase<R: Wait>(
    rt: &R,
    alloc: Global,
    hall: &Hall,
    passes: &mut Passes,
    command: &Command,
) -> Result<(), AllocError>
    requires phased { ArePhased hall.now passes.old }
    requires fits { FitsFloor hall.now command.now }
    requires closing { closes command.now ≡ true }
    ensures back { AreBack hall.now passes.old passes.new }
    ensures done { OnOk result (EachDoes hall.now.with hall.now.hierarchy (command.now ∷ []) passes.old.seen passes.new.seen) }
    ensures none { OnErr result ((session : ℕ) → BeginsNothing session passes.old.seen passes.new.seen) }
{
    match command {
        Command::Control(call) => close_by_call(rt, alloc, hall, passes, call),
        Command::Group { dim, level, filter } => {
            close_by_group(rt, alloc, hall, passes, *dim, *level, filter)
        }
        _ => unreachable!(),
    }
}

/// The administrator makes this call, which is a barrier, a settle or one for a page. It is an error where no memory is found for
/// it.
fn close_by_call<R: Wait>(
    rt: &R,
    alloc: Global,
    hall: &Hall,
    passes: &mut Passes,
    call: &Call,
) -> Result<(), AllocError>
    requires phased { ArePhased hall.now passes.old }
    requires fits { FitsFloor hall.now (Control call.now) }
    requires closing { is_closing (class_of call.now) ≡ true }
    ensures back { AreBack hall.now passes.old passes.new }
    ensures done { OnOk result (EachDoes hall.now.with hall.now.hierarchy (Control call.now ∷ []) passes.old.seen passes.new.seen) }
    ensures none { OnErr result ((session : ℕ) → BeginsNothing session passes.old.seen passes.new.seen) }
{
    match call.class() {
        Class::Bare => hall.barrier(rt, alloc, passes),
        Class::Settle => match hall.settled(rt, alloc, passes) {
            Settled::NotBegun => Err(AllocError),
            _ => Ok(()),
        },
        Class::Page(_) => match hall.told(rt, alloc, passes, call) {
            Paged::NotBegun => Err(AllocError),
            _ => Ok(()),
        },
        _ => unreachable!(),
    }
}

/// The administrator calls for the group that these names stand for, or notes which one stands for nothing. It is an error where no
/// memory is found for it.
fn close_by_group<R: Wait>(
    rt: &R,
    alloc: Global,
    hall: &Hall,
    passes: &mut Passes,
    dim: u8,
    level: u8,
    filter: &NameFilter,
) -> Result<(), AllocError>
    requires phased { ArePhased hall.now passes.old }
    requires fits { FitsFloor hall.now (Group dim level filter.now) }
    ensures back { AreBack hall.now passes.old passes.new }
    ensures done { OnOk result (EachDoes hall.now.with hall.now.hierarchy (Group dim level filter.now ∷ []) passes.old.seen passes.new.seen) }
    ensures none { OnErr result ((session : ℕ) → BeginsNothing session passes.old.seen passes.new.seen) }
{
    let Ok(told) = hall.told_group(rt, alloc, passes, dim, level, filter) else {
        return Ok(());
    };
    match told {
        Paged::NotBegun => Err(AllocError),
        _ => Ok(()),
    }
}
