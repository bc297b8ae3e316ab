//! Cells of gates that are gone are used again, while all passes of a hall are in.
ghost use Rattle.std.specs.Prelude.{ℕ, ◌≡◌, [], vec_capacity, vec_len};
ghost use Rattle.actor_run.specs.Passes.{AreAllIn, ArePasses, IsAbout, IsPassesOf, gone_of, missing};
ghost use Rattle.actor_run.specs.Wholes.{HaveReused};
ghost use Rattle.script_run.specs.Places.{begins_of};
ghost use Rattle.turn_table.specs.Numbered.{Extends};
ghost use Rattle.whole_steps.specs.volap_cell.specs.Values.{actor_of};

use crate::hall::Hall;
use crate::passes::{Passes, put, taken};
use crate::whole::{admin_among, own_number};
use std::alloc::Global;
use std::sync::Wait;
use turn_table::Seat;
use whole_steps::of_seat_steps::Floor;
use whole_steps::of_volap_cell::Actor;
use whole_steps::of_volap_turns::Volap;
use whole_steps::reuse_all;

impl Hall {
    /// The cells of gates that are gone are used again, until no such gate is left. All passes are in. Takes no memory.
    pub fn reuse<R: Wait>(&self, rt: &R, passes: &mut Passes)
        requires own { IsPassesOf self.now passes.old }
        requires all { AreAllIn passes.old }
        ensures on { HaveReused self.now passes.old passes.new }
        ensures none { (passes.new).gone ≡ [] }
    {
        let Some(seat) = &mut passes.seat else {
            unreachable!()
        };
        reuse_with(
            rt,
            self.alloc,
            &self.floor,
            seat,
            &mut passes.own,
            &mut passes.actors,
        );
    }
}

/// The administrator, who is one of these, uses the cells again.
fn reuse_with<R: Wait>(
    rt: &R,
    alloc: Global,
    floor: &Floor,
    seat: &mut Seat<Volap>,
    own: &mut Actor,
    actors: &mut Vec<Option<Actor>>,
)
    requires are { ArePasses seat.old own.old actors.old.items }
    requires all { missing 0 actors.old.items ≡ [] }
    requires about { IsAbout floor.now seat.old.table_id (actor_of own.old).setting }
    ensures are { ArePasses seat.new own.new actors.new.items }
    ensures all { missing 0 actors.new.items ≡ [] }
    ensures room { (vec_len actors.new ≡ vec_len actors.old) × (vec_capacity actors.new ≡ vec_capacity actors.old) }
    ensures table { seat.new.table_id ≡ seat.old.table_id }
    ensures setting { (actor_of own.new).setting ≡ (actor_of own.old).setting }
    ensures later { Extends seat.new.view.seen seat.old.view.seen }
    ensures nothing { (k : ℕ) → begins_of seat.new.view.seen k ≡ begins_of seat.old.view.seen k }
    ensures none { gone_of own.new actors.new.items ≡ [] }
{
    let Some(number) = admin_among(actors) else {
        let number = own_number(actors);
        reuse_all(rt, alloc, floor, seat, number, own);
        return;
    };
    let Some(mut actor) = taken(actors, number) else {
        unreachable!()
    };
    reuse_all(rt, alloc, floor, seat, number, &mut actor);
    put(actors, number, actor);
}
