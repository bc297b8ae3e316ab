//! The steps by which an actor begins its next command.
ghost use Rattle.std.specs.Prelude.{ℕ, ◌≡◌, true, Err, OnErr, OnOk, Some};
ghost use Rattle.core_due.specs.core_steps.specs.Steps.{IsFurther, IsSame};
ghost use Rattle.dim_hierarchy.specs.declared.hierarchy.FilterFault.TheVariants.{Unknown};
ghost use Rattle.script_form.specs.declared.script.Command.TheVariants.{Control, Group, Insert, Query};
ghost use Rattle.script_run.specs.Runs.{first_unknown};
ghost use Rattle.seeded_run.specs.Commands.{GoesBy, IsToBegin, beginning, may_be_refused};
ghost use Rattle.seeded_run.specs.Core.{HasCore, StepsOn};
ghost use Rattle.core_pages.specs.volap_cell.specs.ImageKinds.{asks_registry};
ghost use Rattle.core_pages.specs.volap_cell.specs.declared.kind.Kind.TheVariants.{Note};

use core_due::core_steps::{BeginStep, NoteStep, desk_place, image_place, make};
use core_pages::volap_cell::State;
use dim_hierarchy::{FilterFault, Hierarchy, NameFilter};
use row_ledger::{Call, Class, Subject, Use};
use script_form::{Command, NewRow, Question};
use std::alloc::{AllocError, Global};

/// The actor begins its insert at the image of its server. Where a name is not that of a leaf concept, or
/// memory is wanting, the state stays as it was.
fn begin_insert(
    alloc: Global,
    h: &Hierarchy,
    with: &Use,
    state: &mut State,
    number: usize,
    new: &NewRow,
) -> Result<(), FilterFault>
    requires core { HasCore h.now with.now state.old.cells.items state.old.actors.items }
    requires begins { IsToBegin h.now with.now state.old.cells.items state.old.actors.items number (Insert new.now) }
    ensures made { OnOk result (IsFurther h.now (beginning h.now (Insert new.now)) number state.old state.new) }
    ensures unknown { (dim : ℕ) → result ≡ Err (Unknown dim) → first_unknown h.now (Insert new.now) ≡ Some dim }
    ensures begun { OnOk result (GoesBy with.now h.now (Insert new.now) state.old.cells.items state.old.actors.items state.new.cells.items state.new.actors.items) }
    ensures stays { OnErr result (IsSame state.old state.new) }
{
    let _ = with;
    let image = image_place(new.server);
    match h.coord(&new.names) {
        Ok(at) => {
            let measures = new.measures;
            let step = BeginStep::Insert {
                image,
                at,
                measures,
            };
            make(alloc, h, state, number, step)?;
            Ok(())
        }
        Err(dim) => Err(FilterFault::Unknown { dim }),
    }
}

/// The actor begins its query at the empty desk of its server. Where a name is not that of a concept, or
/// memory is wanting, the state stays as it was.
fn begin_query(
    alloc: Global,
    h: &Hierarchy,
    with: &Use,
    state: &mut State,
    number: usize,
    question: &Question,
) -> Result<(), FilterFault>
    requires core { HasCore h.now with.now state.old.cells.items state.old.actors.items }
    requires begins { IsToBegin h.now with.now state.old.cells.items state.old.actors.items number (Query question.now) }
    ensures made { OnOk result (IsFurther h.now (beginning h.now (Query question.now)) number state.old state.new) }
    ensures unknown { (dim : ℕ) → result ≡ Err (Unknown dim) → first_unknown h.now (Query question.now) ≡ Some dim }
    ensures begun { OnOk result (GoesBy with.now h.now (Query question.now) state.old.cells.items state.old.actors.items state.new.cells.items state.new.actors.items) }
    ensures stays { OnErr result (IsSame state.old state.new) }
{
    let desk = desk_place(with, question.server);
    let image = image_place(question.server);
    let filter = h.filter(alloc, &question.filter)?;
    let step = BeginStep::Query {
        desk,
        image,
        filter,
    };
    make(alloc, h, state, number, step)?;
    Ok(())
}

/// Whether the call asks the registry what stands.
fn asks_registry(class: Class) -> bool
    ensures { result ≡ asks_registry class }
{
    matches!(
        class,
        Class::Action(_) | Class::Balance(_) | Class::Page(Subject::Tree(_))
    )
}

/// The actor begins its command that is no insert and no query. Where memory is wanting for that, the state
/// stays as it was.
fn begin_call(
    alloc: Global,
    h: &Hierarchy,
    with: &Use,
    state: &mut State,
    number: usize,
    called: &Call,
) -> Result<(), AllocError>
    requires core { HasCore h.now with.now state.old.cells.items state.old.actors.items }
    requires begins { IsToBegin h.now with.now state.old.cells.items state.old.actors.items number (Control called.now) }
    ensures made { OnOk result (IsFurther h.now Note number state.old state.new) }
    ensures begun { OnOk result (GoesBy with.now h.now (Control called.now) state.old.cells.items state.old.actors.items state.new.cells.items state.new.actors.items) }
    ensures stays { OnErr result (IsSame state.old state.new) }
{
    let step = if asks_registry(called.class()) {
        NoteStep::Asking {
            call: called,
            workers: with.workers,
        }
    } else {
        NoteStep::Called { call: called }
    };
    make(alloc, h, state, number, step)
}

/// The actor begins its command that is a group. Where a name is not that of a concept, or memory is wanting,
/// the state stays as it was.
fn begin_group(
    alloc: Global,
    h: &Hierarchy,
    with: &Use,
    state: &mut State,
    number: usize,
    dim: u8,
    level: u8,
    names: &NameFilter,
) -> Result<(), FilterFault>
    requires core { HasCore h.now with.now state.old.cells.items state.old.actors.items }
    requires begins { IsToBegin h.now with.now state.old.cells.items state.old.actors.items number (Group dim level names.now) }
    ensures made { OnOk result (IsFurther h.now Note number state.old state.new) }
    ensures unknown { (dimension : ℕ) → result ≡ Err (Unknown dimension) → first_unknown h.now (Group dim level names.now) ≡ Some dimension }
    ensures begun { OnOk result (GoesBy with.now h.now (Group dim level names.now) state.old.cells.items state.old.actors.items state.new.cells.items state.new.actors.items) }
    ensures stays { OnErr result (IsSame state.old state.new) }
{
    let _ = with;
    let filter = h.filter(alloc, names)?;
    let call = Call::Group { dim, level, filter };
    make(alloc, h, state, number, NoteStep::Called { call: &call })?;
    Ok(())
}

/// The actor begins its next command. Where that names what is not known, or memory is wanting, the state
/// stays as it was.
fn begin_known(
    alloc: Global,
    h: &Hierarchy,
    with: &Use,
    state: &mut State,
    number: usize,
    command: &Command,
) -> Result<(), FilterFault>
    requires core { HasCore h.now with.now state.old.cells.items state.old.actors.items }
    requires begins { IsToBegin h.now with.now state.old.cells.items state.old.actors.items number command.now }
    ensures made { OnOk result (IsFurther h.now (beginning h.now command.now) number state.old state.new) }
    ensures unknown { (dim : ℕ) → result ≡ Err (Unknown dim) → first_unknown h.now command.now ≡ Some dim }
    ensures begun { OnOk result (GoesBy with.now h.now command.now state.old.cells.items state.old.actors.items state.new.cells.items state.new.actors.items) }
    ensures stays { OnErr result (IsSame state.old state.new) }
{
    match command {
        Command::Insert(new) => begin_insert(alloc, h, with, state, number, new),
        Command::Query(question) => begin_query(alloc, h, with, state, number, question),
        Command::Control(called) => {
            begin_call(alloc, h, with, state, number, called)?;
            Ok(())
        }
        Command::Group { dim, level, filter } => begin_group(
            alloc, h, with, state, number, *dim, *level, filter,
        ),
    }
}

/// The actor's next command names what is not known, first in this dimension, and ends with that. Where
/// memory is wanting for it, the state stays as it was.
fn end_unknown(
    alloc: Global,
    h: &Hierarchy,
    with: &Use,
    state: &mut State,
    number: usize,
    command: &Command,
    dim: u8,
) -> Result<(), AllocError>
    requires core { HasCore h.now with.now state.old.cells.items state.old.actors.items }
    requires begins { IsToBegin h.now with.now state.old.cells.items state.old.actors.items number command.now }
    requires unknown { first_unknown h.now command.now ≡ Some dim }
    ensures made { OnOk result (IsFurther h.now Note number state.old state.new) }
    ensures begun { OnOk result (GoesBy with.now h.now command.now state.old.cells.items state.old.actors.items state.new.cells.items state.new.actors.items) }
    ensures stays { OnErr result (IsSame state.old state.new) }
{
    let _ = with;
    let _ = command;
    make(alloc, h, state, number, NoteStep::Unknown { dim })
}

/// The actor begins its next command, or ends it where it names what is not known. Where memory is wanting
/// for that, the state stays as it was.
fn try_to_begin(
    alloc: Global,
    h: &Hierarchy,
    with: &Use,
    state: &mut State,
    number: usize,
    command: &Command,
) -> Result<(), AllocError>
    requires core { HasCore h.now with.now state.old.cells.items state.old.actors.items }
    requires begins { IsToBegin h.now with.now state.old.cells.items state.old.actors.items number command.now }
    ensures made { OnOk result (IsFurther h.now (beginning h.now command.now) number state.old state.new) }
    ensures begun { OnOk result (GoesBy with.now h.now command.now state.old.cells.items state.old.actors.items state.new.cells.items state.new.actors.items) }
    ensures stays { OnErr result (IsSame state.old state.new) }
{
    match begin_known(alloc, h, with, state, number, command) {
        Ok(()) => Ok(()),
        Err(FilterFault::Unknown { dim }) => end_unknown(
            alloc, h, with, state, number, command, dim,
        ),
        Err(FilterFault::NoMemory) => Err(AllocError),
    }
}

/// Whether the command may find no memory before it begins, and end with that.
fn may_be_refused(command: &Command) -> bool
    ensures { result ≡ may_be_refused command.now }
{
    match command {
        Command::Control(called) => !matches!(called.class(), Class::Bare),
        _ => true,
    }
}

/// For the actor's next command there was no memory before it began, and it ends with that. Where memory is
/// wanting for that too, the state stays as it was.
fn refuse(
    alloc: Global,
    h: &Hierarchy,
    with: &Use,
    state: &mut State,
    number: usize,
    command: &Command,
) -> Result<(), AllocError>
    requires core { HasCore h.now with.now state.old.cells.items state.old.actors.items }
    requires begins { IsToBegin h.now with.now state.old.cells.items state.old.actors.items number command.now }
    requires refused { may_be_refused command.now ≡ true }
    ensures made { OnOk result (IsFurther h.now Note number state.old state.new) }
    ensures begun { OnOk result (GoesBy with.now h.now command.now state.old.cells.items state.old.actors.items state.new.cells.items state.new.actors.items) }
    ensures stays { OnErr result (IsSame state.old state.new) }
{
    let _ = with;
    let _ = command;
    make(alloc, h, state, number, NoteStep::Refused)
}

/// The actor begins its next command, or ends it where it names what is not known. Where no memory is found
/// for that, it is refused, but for a barrier, which never is. Where none is found for that either, the
/// state stays as it was.
pub(crate) fn begin(
    alloc: Global,
    h: &Hierarchy,
    with: &Use,
    state: &mut State,
    number: usize,
    command: &Command,
) -> Result<(), AllocError>
    requires core { HasCore h.now with.now state.old.cells.items state.old.actors.items }
    requires begins { IsToBegin h.now with.now state.old.cells.items state.old.actors.items number command.now }
    ensures made { OnOk result (StepsOn h.now (beginning h.now command.now) number state.old.cells.items state.old.actors.items state.new.cells.items state.new.actors.items) }
    ensures begun { OnOk result (GoesBy with.now h.now command.now state.old.cells.items state.old.actors.items state.new.cells.items state.new.actors.items) }
    ensures stays { OnErr result (IsSame state.old state.new) }
{
    match try_to_begin(alloc, h, with, state, number, command) {
        Ok(()) => Ok(()),
        Err(error) if !may_be_refused(command) => Err(error),
        Err(_) => refuse(alloc, h, with, state, number, command),
    }
}
