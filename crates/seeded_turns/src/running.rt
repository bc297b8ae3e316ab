//! A run to its end.
ghost use Rattle.std.specs.Prelude.{◌≡◌, ◌<◌, [], OnOk, OnErr, ℕ};
ghost use Rattle.seeded_turns.specs.Drawn.{able, Reaches, Stops};

use crate::choice::choose;
use crate::machine::Machine;
use crate::schedule::Schedule;
use std::alloc::{AllocError, Global};
use std::sync::ledger::{Blank, Ledger};

/// Turn after turn until nobody can step. It ends, as with each step less is left; the steps made are
/// counted in a ledger that is nothing at run time, since what is left may be told by no value. Where
/// a step finds no memory the run stops before it; the word that drew its actor is gone.
pub fn run<M: Machine, L: Ledger>(
    machine: &mut M,
    alloc: Global,
    schedule: &mut Schedule,
    blank: Blank,
) -> Result<(), AllocError>
    ghost bound: { ℕ }
    requires name { blank.name ≡ L.name }
    requires parts { blank.parts ≡ L.parts }
    requires some { 0 < L.parts }
    requires holds { M.Holds machine.old }
    requires left { M.Left machine.old bound }
    ensures holds { M.Holds machine.new }
    ensures turns { OnOk result (Reaches M (λ s. able (M.can s) (M.actors s)) M.makes
        record { state = machine.old; schedule = schedule.old } machine.new schedule.new) }
    ensures ended { OnOk result (able (M.can machine.new) (M.actors machine.new) ≡ []) }
    ensures stopped { OnErr result (Stops M (λ s. able (M.can s) (M.actors s)) M.makes M.stays
        record { state = machine.old; schedule = schedule.old } machine.new schedule.new) }
{
    let (mut book, mut share) = blank.open::<L>();
    while let Some((actor, kind)) = choose(machine, schedule) {
        if let Err(refused) = machine.step(alloc, actor, kind) {
            return Err(refused);
        }
        book.add(&mut share, 1);
    }
    Ok(())
}
