//! What a run asks of actors that make steps.
ghost use Rattle.std.specs.Prelude.{◌≡◌, ◌<◌, ℕ, Bool, is_some, IfSome, OnOk, OnErr};

use std::alloc::{AllocError, Global};

/// Actors by number, some of which can step.
pub trait Machine: Sized {
    /// What is due for an actor that can step. It is looked up once a turn, and handed to the step.
    type Kind: Drop;

    /// What is looked up once a turn, for all actors that are asked in it.
    type Survey: Drop;

    /// How many actors there are.
    ghost actors: { Self → ℕ };

    /// Whether an actor can step.
    ghost can: { Self → ℕ → Bool };

    /// This is due for an actor, which can step.
    ghost IsDue: { Self → ℕ → Self.Kind → Type 0 };

    /// A survey tells this much.
    ghost Tells: { Self → Self.Survey → Type 0 };

    /// What holds between steps.
    ghost Holds: { Self → Type 0 };

    /// What a step of an actor does.
    ghost makes: { Self → ℕ → Self → Type 0 };

    /// What stays where a step finds no memory: all but what the room in a vector says, or the like.
    ghost stays: { Self → Self → Type 0 };

    /// At most so many steps are left. A relation, so that the number may rest on what no value tells.
    ghost Left: { Self → ℕ → Type 0 };

    /// The number of actors.
    fn actors(&self) -> u32
        requires { Holds self.now }
        ensures { result ≡ actors self.now };

    /// What is due for an actor, if it can step. In order it is asked of each actor up to the first that can.
    fn due(&self, actor: u32) -> Option<Self::Kind>
        requires within { actor < actors self.now }
        requires holds { Holds self.now }
        ensures can { is_some result ≡ can self.now actor }
        ensures due { IfSome result (IsDue self.now actor) };

    /// Looks up what is the same for all actors in a turn. Takes no memory.
    fn survey(&self) -> Self::Survey
        requires { Holds self.now }
        ensures { Tells self.now result };

    /// What is due for an actor, if it can step, by a survey of this turn. Where a generator draws it is asked of each
    /// actor, and then of the one that is drawn.
    fn due_by(&self, survey: &Self::Survey, actor: u32) -> Option<Self::Kind>
        requires within { actor < actors self.now }
        requires holds { Holds self.now }
        requires told { Tells self.now survey.now }
        ensures can { is_some result ≡ can self.now actor }
        ensures due { IfSome result (IsDue self.now actor) };

    /// One step of an actor, by what is due for it. Where it finds no memory, nothing of what it does is done.
    fn step(&mut self, alloc: Global, actor: u32, kind: Self::Kind) -> Result<(), AllocError>
        requires within { actor < actors self.old }
        requires holds { Holds self.old }
        requires due { IsDue self.old actor kind }
        ensures holds { Holds self.new }
        ensures step { OnOk result (makes self.old actor self.new) }
        ensures left { OnOk result ((n : ℕ) → Left self.old n → (m : ℕ) × Left self.new m × (m < n)) }
        ensures refused { OnErr result (stays self.old self.new) };
}
