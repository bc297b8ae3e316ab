//! Whether everyone but one actor is idle.
ghost use Rattle.std.specs.Prelude.{◌≡◌, option_copied};
ghost use Rattle.core_due.specs.Due.{does_nothing};
ghost use Rattle.seeded_run.specs.Look.{alone_by, others_end, others_rest, rests};
ghost use Rattle.core_pages.specs.volap_cell.specs.Values.{actor_of};

use core_due::is_spent;
use core_pages::volap_cell::Actor;
use script_form::Command;

/// Whether the actor has nothing to do, and is not counted in at its desk.
pub(crate) fn does_nothing(actor: &Actor) -> bool
    ensures { result ≡ does_nothing (actor_of actor.now) }
{
    actor.command.is_none()
        && actor.errand.is_none()
        && actor.job.is_none()
        && is_spent(actor)
        && !actor.counted
}

/// Whether the actor at a place has nothing to do, or none is there.
pub(crate) fn rests(place: &Option<Actor>) -> bool
    ensures { result ≡ rests place.now }
{
    match place {
        Some(actor) => does_nothing(actor),
        None => true,
    }
}

/// Whether all other actors have nothing to do. It looks at each.
fn others_rest(actors: &[Option<Actor>], number: usize) -> bool
    ensures { result ≡ others_rest actors.now number }
{
    for other in 0..actors.len() {
        if other != number && !rests(&actors[other]) {
            return false;
        }
    }
    true
}

/// Whether all streams are at their ends but that of an actor with this next command, where so many
/// aren't.
fn others_end(next: Option<&Command>, left: usize) -> bool
    ensures { result ≡ others_end (option_copied next.entry) left }
{
    match next {
        Some(_) => left == 1,
        None => left == 0,
    }
}

/// Whether everyone but an actor is idle, with nothing left in the streams: its next command, and how
/// many streams aren't at their ends, are given.
pub(crate) fn is_alone(
    actors: &[Option<Actor>],
    number: usize,
    next: Option<&Command>,
    left: usize,
) -> bool
    ensures { result ≡ alone_by actors.now number (option_copied next.entry) left }
{
    others_end(next, left) && others_rest(actors, number)
}
