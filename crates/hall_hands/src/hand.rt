//! The calls of a hand.
ghost use Rattle.std.specs.Prelude.{◌≡◌};
ghost use Rattle.actor_run.specs.Passes.{IsPassOf};
ghost use Rattle.hall_hands.specs.Hands.{BecomesHand, HasServedAll, IsHandRole};

use crate::rounds::serve;
use actor_run::{Hall, Pass};
use hand_steps::of_seat_steps::Player;
use hand_steps::of_volap_cell::Role;
use std::alloc::Global;
use std::marker::Model;
use std::sync::Wait;
use volap_io::Meet;

/// A hand of a worker. Contracts see its hall, its pass's number, its worker and the history that it has seen, the newest event first.
#[derive(Drop)]
pub struct Hand<'a> {
    hall: &'a Hall,
    worker: u8,
    player: Player,
}

impl<'a> Model for Hand<'a> {
    ghost use Rattle.dim_hierarchy.specs.Stored.{dimension_code};
    ghost use Rattle.std.specs.Coded.{codes};
    ghost use Rattle.hall_hands.specs.Hands.{HandValue, IsHand, hand_of};

    ghost Value = { HandValue };

    ghost coded = { Prim.hlevel (codes, dimension_code) };

    ghost view = { λ h. hand_of h.hall.now h.worker h.player };

    ghost invariant = { λ h. IsHand h.hall.now h.worker h.player };
}

impl<'a> Hand<'a> {
    /// The hand of a pass of the hall whose role is a hand's.
    pub fn new(hall: &'a Hall, pass: Pass) -> Hand<'a>
        requires of { IsPassOf hall.now pass }
        requires role { IsHandRole pass.role }
        ensures made { BecomesHand hall.now pass result }
    {
        let player = pass.into_player();
        let Role::Hand { worker } = player.actor.role else {
            unreachable!()
        };
        Hand {
            hall,
            worker,
            player,
        }
    }

    /// Does the parts that wait for its worker, as they come. It returns when it has found each server's desk without a
    /// session that is counted there.
    pub fn serve<R: Wait + Sync, M: Meet>(&mut self, rt: &R, alloc: Global, meet: &M)
        ensures served { HasServedAll self.old self.new }
    {
        serve(rt, alloc, self.hall, &mut self.player, self.worker, meet);
    }

    /// The hand's pass again.
    pub fn end(self) -> Pass
        ensures of { IsPassOf self.entry.floor result }
        ensures made { BecomesHand self.entry.floor result self.entry }
    {
        let Hand {
            hall: _,
            worker: _,
            player,
        } = self;
        Pass::of(player)
    }
}
