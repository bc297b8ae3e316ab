//! How many parts of its open command an actor has ended or sent on.
ghost use Rattle.std.specs.Prelude.{◌≡◌, if◌then◌else◌, is_some};
ghost use Rattle.core_counts.specs.Counting.{one_more, went_if};
ghost use Rattle.core_told.specs.volap_cell.specs.Values.{actor_of};

use core_told::volap_cell::Actor;

/// What a step's count is made of, taken before the step.
#[derive(Clone, Copy)]
pub(crate) struct Count {
    /// Whether a command was open.
    begun: bool,
    /// Whether the actor was at a part.
    at_part: bool,
    went: u64,
}

impl Count {
    /// Of an actor that is to make a step.
    pub(crate) fn of(actor: &Actor) -> Count
        ensures { result ≡ record { begun = is_some (actor_of actor.now).command; at_part = is_some (actor_of actor.now).errand; went = actor.now.went } }
    {
        Count {
            begun: actor.command.is_some(),
            at_part: is_at_part(actor),
            went: actor.went,
        }
    }

    /// The number behind the step; where the step was not made, it is as before.
    pub(crate) fn after(self, actor: &Actor, made: bool) -> u64
        ensures { result ≡ (if made then went_if self.begun self.at_part (is_some (actor_of actor.now).errand) self.went else self.went) }
    {
        if !made {
            return self.went;
        }
        match (self.begun, self.at_part, is_at_part(actor)) {
            (false, _, _) => 0,
            (true, true, false) => one_more(self.went),
            (true, _, _) => self.went,
        }
    }
}

/// Whether the actor is at a part.
fn is_at_part(actor: &Actor) -> bool
    ensures { result ≡ is_some (actor_of actor.now).errand }
{
    actor.errand.is_some()
}

/// One more, as far as the number goes.
fn one_more(went: u64) -> u64
    ensures { result ≡ one_more went }
{
    went.saturating_add(1)
}
