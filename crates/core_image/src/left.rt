//! The step that leaves an action of a balance, and how a balance goes on to its next action.
ghost use Rattle.std.specs.Prelude.{◌≡◌, ◌+◌, ◌<◌, ◌^◌, Some, [], ◌∷◌, true, is_some, option_map};
ghost use Rattle.core_image.specs.NotesDue.{CanNoteLeft, GoesOn, MayBeLeft, MayGoOn};
ghost use Rattle.volap_cell.specs.ImageKinds.{LeavesAs};
ghost use Rattle.volap_cell.specs.Cells.{cell_of};
ghost use Rattle.volap_cell.specs.Planning.{HasLoadNext, next_job};
ghost use Rattle.volap_cell.specs.Steps.{IsHere, Makes};
ghost use Rattle.volap_cell.specs.Values.{actor_of, job_of, stage_of};
ghost use Rattle.volap_cell.specs.World.{change, held};
ghost use Rattle.volap_cell.specs.declared.kind.Kind.TheVariants.{Note};

use dim_hierarchy::Hierarchy;
use row_ledger::{Event, How};
use volap_cell::{Actor, Balance, Cell, Command, Job, Stage, Work, ledger_in, there};

/// Leaves the action that the actor's balance is at, which was declined or found no memory before its
/// shard was frozen. The next action's job is begun in the same box. Takes no memory.
pub fn note_left(h: &Hierarchy, ledger_at: u32, ledger: &mut Cell, actor: &mut Actor)
    requires here { IsHere h.now (held ledger_at (cell_of ledger.old) ∷ []) (actor_of actor.old) }
    requires due { CanNoteLeft (cell_of ledger.old) (actor_of actor.old) }
    ensures made { Makes h.now Note (change ledger_at (cell_of ledger.old) (cell_of ledger.new) ∷ []) (actor_of actor.old) (actor_of actor.new) }
{
    let _ = h;
    let ledger = ledger_in(ledger);
    let command = there(&actor.command);
    let job = there(&actor.job);
    let how = how_left(&job.stage);
    ledger.push(Event::Left {
        of: command.of,
        shard: job.shard,
        how,
    });
    advance(&mut actor.command, &mut actor.job);
    actor.seen = ledger.len();
}

/// How an action is left whose job is at this stage.
fn how_left(stage: &Stage) -> How
    requires { MayBeLeft (stage_of stage.now) }
    ensures { LeavesAs (stage_of stage.now) result }
{
    match stage {
        Stage::Declined(decline) => How::Declined(*decline),
        _ => How::Postponed,
    }
}

/// The actor's balance goes on to its next action, whose job is begun in the same box. Takes no memory.
pub fn advance(command: &mut Option<Command>, job: &mut Option<Box<Job>>)
    requires { MayGoOn command.old (is_some job.old) }
    ensures { GoesOn command.old command.new (option_map (λ j. job_of j.value) job.new) }
{
    if let Some(command) = command {
        onward(command, job);
    }
}

/// So does a command that is a balance.
fn onward(command: &mut Command, job: &mut Option<Box<Job>>)
    requires { MayGoOn (Some command.old) (is_some job.old) }
    ensures { GoesOn (Some command.old) (Some command.new) (option_map (λ j. job_of j.value) job.new) }
{
    if let Work::Balance(balance) = &mut command.work {
        go_on(balance, job);
    }
}

/// Goes on to a balance's next action, and turns its job into that one's; no job stays behind the last
/// one.
fn go_on(balance: &mut Balance, job: &mut Option<Box<Job>>)
    requires few { balance.old.over + 1 < 2 ^ 8 }
    requires stands { HasLoadNext (record balance.old { over = balance.old.over + 1 }) }
    requires some { is_some job.old ≡ true }
    ensures over { balance.new ≡ record balance.old { over = balance.old.over + 1 } }
    ensures next { option_map (λ j. job_of j.value) job.new ≡ next_job balance.new }
{
    balance.over += 1;
    match balance.plan.get(balance.over) {
        None => *job = None,
        Some(action) => {
            let Some(job) = job else { unreachable!() };
            **job = Job::of_action(balance.standing.as_slice(), action);
        }
    }
}
