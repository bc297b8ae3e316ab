//! The kinds of the steps that are due.
ghost use Rattle.std.specs.Prelude.{◌≡◌};
ghost use Rattle.core_due.specs.Parts.{due_kind};
ghost use Rattle.core_due.specs.Works.{work_due_kind};
ghost use Rattle.core_due.specs.core_steps.specs.Books.{book_kind};
ghost use Rattle.core_due.specs.core_steps.specs.Jobs.{job_kind};
ghost use Rattle.core_due.specs.core_steps.specs.Parts.{part_kind};
ghost use Rattle.core_due.specs.core_steps.specs.Trees.{tree_kind};
ghost use Rattle.seeded_run.specs.Commands.{beginning};
ghost use Rattle.seeded_run.specs.Look.{HasNames};

use crate::names_due::are_known;
use core_due::core_steps::{BookStep, JobStep, PartStep, TreeStep};
use core_due::{PartDue, WorkDue};
use core_pages::volap_cell::Kind;
use dim_hierarchy::Hierarchy;
use script_form::Command;

/// The kind of a step between desks, tables of shards and gates.
fn kind_of_step(step: &PartStep) -> Kind
    ensures { result ≡ part_kind step.now }
{
    match step {
        PartStep::TakePart { .. } => Kind::TakePart,
        PartStep::LookUp { .. } => Kind::LookUp,
        PartStep::Forward { .. } => Kind::Forward,
        PartStep::Expand { .. } => Kind::Expand,
        PartStep::FinishPart { .. } | PartStep::FinishPinned { .. } => Kind::FinishPart,
    }
}

/// The kind of a step at a gate or a block, or of a purse.
fn kind_of_tree(step: &TreeStep) -> Kind
    ensures { result ≡ tree_kind step.now }
{
    match step {
        TreeStep::PutInLeaf { .. } => Kind::PutInLeaf,
        TreeStep::LeaveTree { .. } => Kind::LeaveTree,
        TreeStep::EnterQueue { .. } => Kind::EnterQueue,
        TreeStep::ReadGate { .. } => Kind::GateRead,
        TreeStep::VisitBlock { .. } => Kind::BlockVisit,
        TreeStep::Refill | TreeStep::GiveBack => Kind::Refill,
    }
}

/// The kind of what is due for a part or a purse.
pub(crate) fn kind_of_part(due: &PartDue) -> Kind
    ensures { result ≡ due_kind due.now }
{
    match due {
        PartDue::Part(step) => kind_of_step(step),
        PartDue::Tree(step) => kind_of_tree(step),
        PartDue::Enters { .. } => Kind::EnterTree,
        PartDue::Descends { .. } => Kind::Down,
    }
}

/// The kind of a step at a desk or an image.
fn kind_of_book(step: &BookStep) -> Kind
    ensures { result ≡ book_kind step.now }
{
    match step {
        BookStep::Route { .. } => Kind::Route,
        BookStep::Ack { .. } => Kind::Ack,
        BookStep::Answer { .. } => Kind::Answer,
        BookStep::Sync { .. } => Kind::Sync,
        BookStep::FailUnrouted { .. } | BookStep::FailRouted { .. } | BookStep::FailQuery { .. } =>
            Kind::Note,
    }
}

/// The kind of a step of a job or of a balance.
fn kind_of_job(step: &JobStep) -> Kind
    ensures { result ≡ job_kind step.now }
{
    match step {
        JobStep::ReadLoad { .. } => Kind::LookUp,
        JobStep::Freeze { .. } => Kind::Freeze,
        JobStep::Drained { .. } => Kind::Drained,
        JobStep::CollectBlock { .. } | JobStep::CollectRow { .. } | JobStep::BuildTrees { .. } =>
            Kind::Collect,
        JobStep::BuildBlock { .. } => Kind::BuildBlock,
        JobStep::FinishSplit { .. } => Kind::FinishSplit,
        JobStep::FinishMove { .. } | JobStep::FinishHere { .. } => Kind::FinishMove,
        JobStep::Postpone => Kind::Postpone,
    }
}

/// The kind of what is due for an open command.
pub(crate) fn kind_of_work(due: &WorkDue) -> Kind
    ensures { result ≡ work_due_kind due.now }
{
    match due {
        WorkDue::Takes(_) => Kind::TakePart,
        WorkDue::Books(step) => kind_of_book(step),
        WorkDue::Jobs(step) => kind_of_job(step),
        WorkDue::Splits { .. } => Kind::FinishSplit,
        WorkDue::Ends(_) | WorkDue::Leaves | WorkDue::Shows(_) => Kind::Note,
    }
}

/// The kind of step by which a command begins. One that names what is not known ends with a note.
pub(crate) fn kind_of_beginning(h: &Hierarchy, command: &Command) -> Kind
    requires names { HasNames h.now command.now }
    ensures { result ≡ beginning h.now command.now }
{
    if !are_known(h, command) {
        return Kind::Note;
    }
    match command {
        Command::Insert(_) => Kind::BeginInsert,
        Command::Query(_) => Kind::BeginQuery,
        Command::Control(_) | Command::Group { .. } => Kind::Note,
    }
}
