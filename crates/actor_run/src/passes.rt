//! The passes of a hall.
ghost use Rattle.std.specs.Prelude.{◌≡◌, ◌+◌, ◌^◌, ◌<◌, IfSome, IfNone, None, Some, get_or, length, set, vec_len, vec_capacity};
ghost use Rattle.row_ledger.specs.Right.{IsRight};
ghost use Rattle.whole_steps.specs.volap_cell.specs.Setting.{actor_count, site_in};
ghost use Rattle.actor_run.specs.Passes.{HasGiven, HasTaken, IsOut, IsPass, IsPassOf, IsPassesOf, pass_of};

use crate::hall::Hall;
use std::marker::Model;
use std::mem::{forget, replace};
use turn_table::Seat;
use whole_steps::of_seat_steps::Player;
use whole_steps::of_volap_cell::Actor;
use whole_steps::of_volap_turns::Volap;

/// An actor of a hall, with nothing to do, and its seat, which holds no cell. Contracts see its table, its setting, its
/// role, its number and the history that it has seen.
#[derive(Drop)]
pub struct Pass {
    pub(crate) player: Player,
}

impl Model for Pass {
    ghost use Rattle.dim_hierarchy.specs.Stored.{dimension_code};
    ghost use Rattle.std.specs.Coded.{codes};
    ghost use Rattle.actor_run.specs.Passes.{IsPass, PassValue, pass_of};

    ghost Value = { PassValue };

    ghost coded = { Prim.hlevel (codes, dimension_code) };

    ghost view = { λ p. pass_of p.player };

    ghost invariant = { λ p. IsPass p.player };
}

/// The passes of a hall, but for those that are out. Contracts see their table, their setting, the numbers that are out, and the
/// history that they have seen together.
#[derive(Drop)]
pub struct Passes {
    /// It is out only while a call has all passes.
    pub(crate) seat: Option<Seat<Volap>>,
    /// The hall's own, whose number is behind those of the roles.
    pub(crate) own: Actor,
    /// By number; `None` where the pass is out.
    pub(crate) actors: Vec<Option<Actor>>,
}

impl Model for Passes {
    ghost use Rattle.dim_hierarchy.specs.Stored.{dimension_code};
    ghost use Rattle.std.specs.Coded.{codes};
    ghost use Rattle.std.specs.Prelude.{◌<◌, IsSome, vec_len, vec_capacity};
    ghost use Rattle.actor_run.specs.Passes.{ArePasses, PassesValue, in_seat, passes_of};

    ghost Value = { PassesValue };

    ghost coded = { Prim.hlevel (codes, dimension_code) };

    ghost view = { λ p. passes_of (in_seat p.seat) p.own p.actors.items };

    // There is room for the hall's own, which is put behind the others at the end.
    ghost invariant = { λ p. ArePasses (in_seat p.seat) p.own p.actors.items × (vec_len p.actors < vec_capacity p.actors) × IsSome p.seat };
}

impl Pass {
    /// The actor of the pass at its seat, for what actors of its role do.
    pub fn into_player(self) -> Player
        ensures pass { IsPass result }
        ensures same { pass_of result ≡ self }
    {
        let Pass { player } = self;
        player
    }

    /// The pass of an actor that has nothing to do.
    pub fn of(player: Player) -> Pass
        requires { IsPass player }
        ensures { result ≡ pass_of player }
    {
        Pass { player }
    }
}

impl Passes {
    /// How many roles there are.
    pub fn roles(&self) -> usize
        ensures count { result + 1 ≡ actor_count self.now.setting }
        ensures few { result + 1 < 2 ^ 16 }
    {
        self.actors.len()
    }

    /// The history that they have seen is right. Takes nothing, and changes nothing.
    pub fn right(&self)
        ensures { IsRight (site_in self.now.setting) self.now.seen }
    {
        let _ = &self.seat;
    }

    /// Gives out the pass of the role at this place; `None` exactly where there is no such role, or its pass is out. Takes no memory.
    pub fn take(&mut self, hall: &Hall, number: u16) -> Option<Pass>
        requires own { IsPassesOf hall.now self.old }
        ensures own { IsPassesOf hall.now self.new }
        ensures some { IfSome result (HasTaken number self.old self.new) }
        ensures of { IfSome result (IsPassOf hall.now) }
        ensures none { IfNone result (IsOut number self.old) }
        ensures same { IfNone result (self.new ≡ self.old) }
    {
        let number = u32::from(number);
        let actor = taken(&mut self.actors, number)?;
        let Some(all) = &mut self.seat else {
            unreachable!()
        };
        let seat = hall.floor.table.split_seat(all, number);
        Some(Pass {
            player: Player {
                number,
                actor,
                seat,
            },
        })
    }

    /// Puts a pass of the hall back. Takes no memory.
    pub fn give(&mut self, hall: &Hall, pass: Pass)
        requires own { IsPassesOf hall.now self.old }
        requires of { IsPassOf hall.now pass }
        ensures own { IsPassesOf hall.now self.new }
        ensures given { HasGiven pass self.old self.new }
    {
        let Pass {
            player: Player {
                number,
                actor,
                seat,
            },
        } = pass;
        let Some(all) = &mut self.seat else {
            unreachable!()
        };
        hall.floor.table.join_seat(all, seat);
        put(&mut self.actors, number, actor);
    }
}

/// Takes out the actor at this place, if one stands there.
pub(crate) fn taken(actors: &mut Vec<Option<Actor>>, number: u32) -> Option<Actor>
    ensures some { IfSome result (λ x. (number < length actors.old.items) × (get_or actors.old.items number None ≡ Some x)) }
    ensures none { IfNone result (get_or actors.old.items number None ≡ None) }
    ensures now { actors.new.items ≡ set actors.old.items number None }
    ensures room { (vec_len actors.new ≡ vec_len actors.old) × (vec_capacity actors.new ≡ vec_capacity actors.old) }
{
    let at = number as usize;
    if at < actors.len() {
        actors[at].take()
    } else {
        None
    }
}

/// Puts an actor at its place, which is empty: nothing is dropped there.
pub(crate) fn put(actors: &mut Vec<Option<Actor>>, number: u32, actor: Actor)
    requires { number < length actors.old.items }
    ensures now { actors.new.items ≡ set actors.old.items number (Some actor) }
    ensures room { (vec_len actors.new ≡ vec_len actors.old) × (vec_capacity actors.new ≡ vec_capacity actors.old) }
{
    forget(replace(&mut actors[number as usize], Some(actor)));
}
