//! Which hands have nothing to do.
ghost use Rattle.std.specs.Prelude.{◌≡◌, ◌≢◌, ℕ, Some, None, get_or};
ghost use Rattle.seeded_run.specs.Hands.{AreFreeHands, IsFreeHandAt};

use crate::alone::does_nothing;
use core_pages::volap_cell::{Actor, Role};

/// So many actors are told of, the first ones. A script has no more.
const ACTORS: usize = 256;

/// By actor, of the first ones: the worker of a hand that has nothing to do. Of anyone else nothing is told.
#[derive(Drop)]
pub struct FreeHands {
    workers: [Option<u8>; ACTORS],
}

/// The worker of the hand at a place that has nothing to do, if one does.
fn free_hand(place: &Option<Actor>) -> Option<u8>
    ensures { (worker : ℕ) → result ≡ Some worker → IsFreeHandAt place.now worker }
{
    match place {
        Some(actor) => match actor.role {
            Role::Hand { worker } if does_nothing(actor) => Some(worker),
            _ => None,
        },
        None => None,
    }
}

impl FreeHands {
    /// Nothing is told of anyone. Takes no memory.
    pub(crate) fn none() -> FreeHands
        ensures { (n : ℕ) → get_or result.workers n None ≡ None }
    {
        FreeHands {
            workers: [None; ACTORS],
        }
    }

    /// Told of each actor, whether it is a hand with nothing to do. Takes no memory.
    pub(crate) fn among(actors: &[Option<Actor>]) -> FreeHands
        ensures { AreFreeHands actors.now result }
    {
        let mut hands = FreeHands::none();
        for number in 0..actors.len() {
            hands.note(number, &actors[number]);
        }
        hands
    }

    /// The worker of an actor that is told to be a hand with nothing to do.
    pub(crate) fn worker_of(&self, number: usize) -> Option<u8>
        ensures { result ≡ get_or self.now.workers number None }
    {
        if number < ACTORS {
            self.workers[number]
        } else {
            None
        }
    }

    /// Notes of an actor whether it is a hand with nothing to do.
    pub(crate) fn note(&mut self, number: usize, place: &Option<Actor>)
        ensures own { (worker : ℕ) → get_or self.new.workers number None ≡ Some worker → IsFreeHandAt place.now worker }
        ensures others { (n : ℕ) → n ≢ number → get_or self.new.workers n None ≡ get_or self.old.workers n None }
    {
        if number < ACTORS {
            self.workers[number] = free_hand(place);
        }
    }
}

/// What is told as a phase begins. Where the commands go in order nobody asks, and nothing is.
pub(crate) fn first_hands(in_order: bool, actors: &[Option<Actor>]) -> FreeHands
    ensures { AreFreeHands actors.now result }
{
    if in_order {
        FreeHands::none()
    } else {
        FreeHands::among(actors)
    }
}
