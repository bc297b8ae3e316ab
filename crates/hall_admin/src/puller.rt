//! The calls of a puller.
ghost use Rattle.std.specs.Prelude.{◌≡◌, ◌<◌};
ghost use Rattle.actor_run.specs.Passes.{IsPassOf};
ghost use Rattle.hall_admin.specs.Callers.{BecomesCaller, MakesCall};
ghost use Rattle.hall_admin.specs.Pulls.{TriesToSync, how_of};
ghost use Rattle.row_ledger.specs.declared.settings.Call.TheVariants as is_call;
ghost use Rattle.job_steps.specs.volap_cell.specs.declared.role.Role.TheVariants as is_role;

use crate::calls::pull_for;
use actor_run::{Hall, Pass};
use job_steps::of_seat_steps::Player;
use std::alloc::{AllocError, Global};
use std::marker::Model;
use std::sync::Wait;

/// How a pull ended.
#[derive(Clone, Copy)]
pub enum Synced {
    /// The server has pulled.
    Ok,
    NoMemory,
}

/// A puller of a hall. Contracts see its hall, its pass's number and the history that it has seen, the newest event first.
#[derive(Drop)]
pub struct Puller<'a> {
    hall: &'a Hall,
    player: Player,
}

impl<'a> Model for Puller<'a> {
    ghost use Rattle.dim_hierarchy.specs.Stored.{dimension_code};
    ghost use Rattle.std.specs.Coded.{codes};
    ghost use Rattle.hall_admin.specs.Callers.{CallerValue, IsCaller, caller_of};
    ghost use Rattle.job_steps.specs.volap_cell.specs.declared.role.Role.TheVariants as is_role;

    ghost Value = { CallerValue };

    ghost coded = { Prim.hlevel (codes, dimension_code) };

    ghost view = { λ p. caller_of p.hall.now p.player };

    ghost invariant = { λ p. IsCaller p.hall.now is_role.Puller p.player };
}

impl<'a> Puller<'a> {
    /// The puller of a pass of the hall whose role is a puller's.
    pub fn new(hall: &'a Hall, pass: Pass) -> Puller<'a>
        requires of { IsPassOf hall.now pass }
        requires role { pass.role ≡ is_role.Puller }
        ensures made { BecomesCaller hall.now is_role.Puller pass result }
    {
        Puller {
            hall,
            player: pass.into_player(),
        }
    }

    /// The server pushes what its image has grown by, and pulls what stands.
    pub fn sync<R: Wait>(&mut self, rt: &R, alloc: Global, server: u8) -> Synced
        requires server { server < self.old.floor.with.servers }
        ensures made { MakesCall (is_call.Sync server) (how_of result) self.old self.new }
    {
        match self.try_sync(rt, alloc, server) {
            Ok(synced) => synced,
            Err(_) => Synced::NoMemory,
        }
    }

    /// The same. It is an error where no memory is found even for a note in the history that the pull was refused.
    pub fn try_sync<R: Wait>(
        &mut self,
        rt: &R,
        alloc: Global,
        server: u8,
    ) -> Result<Synced, AllocError>
        requires server { server < self.old.floor.with.servers }
        ensures tried { TriesToSync server result self.old self.new }
    {
        let floor = self.hall.floor();
        pull_for(rt, alloc, floor, &mut self.player, server)
    }

    /// The puller's pass again.
    pub fn end(self) -> Pass
        ensures of { IsPassOf self.entry.floor result }
        ensures made { BecomesCaller self.entry.floor is_role.Puller result self.entry }
    {
        let Puller { hall: _, player } = self;
        Pass::of(player)
    }
}
