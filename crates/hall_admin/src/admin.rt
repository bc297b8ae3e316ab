//! The calls of an administrator.
ghost use Rattle.std.specs.Prelude.{◌≡◌};
ghost use Rattle.actor_run.specs.Passes.{IsPassOf};
ghost use Rattle.hall_admin.specs.Callers.{BecomesCaller, MakesCall, TriesToCall};
ghost use Rattle.hall_admin.specs.Jobs.{IsOfJob};
ghost use Rattle.row_ledger.specs.Classes.{class_of};
ghost use Rattle.row_ledger.specs.declared.settings.Call.TheVariants as is_call;
ghost use Rattle.job_steps.specs.volap_cell.specs.declared.role.Role.TheVariants as is_role;

use crate::calls::make_call;
use actor_run::{Hall, Pass};
use job_steps::of_seat_steps::Player;
use row_ledger::{Call, How};
use std::alloc::{AllocError, Global};
use std::marker::Model;
use std::sync::Wait;

/// The administrator of a hall. Contracts see its hall, its pass's number and the history that it has seen, the newest event
/// first.
#[derive(Drop)]
pub struct Admin<'a> {
    hall: &'a Hall,
    player: Player,
}

impl<'a> Model for Admin<'a> {
    ghost use Rattle.dim_hierarchy.specs.Stored.{dimension_code};
    ghost use Rattle.std.specs.Coded.{codes};
    ghost use Rattle.hall_admin.specs.Callers.{CallerValue, IsCaller, caller_of};
    ghost use Rattle.job_steps.specs.volap_cell.specs.declared.role.Role.TheVariants as is_role;

    ghost Value = { CallerValue };

    ghost coded = { Prim.hlevel (codes, dimension_code) };

    ghost view = { λ a. caller_of a.hall.now a.player };

    ghost invariant = { λ a. IsCaller a.hall.now is_role.Admin a.player };
}

impl<'a> Admin<'a> {
    /// The administrator of the pass of the hall whose role is the administrator's.
    pub fn new(hall: &'a Hall, pass: Pass) -> Admin<'a>
        requires of { IsPassOf hall.now pass }
        requires role { pass.role ≡ is_role.Admin }
        ensures made { BecomesCaller hall.now is_role.Admin pass result }
    {
        Admin {
            hall,
            player: pass.into_player(),
        }
    }

    /// The shard with this id becomes two.
    pub fn split<R: Wait>(&mut self, rt: &R, alloc: Global, shard: u32) -> How
        ensures made { MakesCall (is_call.Split shard) result self.old self.new }
    {
        self.call(rt, alloc, &Call::Split(shard))
    }

    /// The shard with this id goes to this worker.
    pub fn move_to<R: Wait>(&mut self, rt: &R, alloc: Global, shard: u32, worker: u8) -> How
        ensures made { MakesCall (is_call.Move shard worker) result self.old self.new }
    {
        self.call(rt, alloc, &Call::Move(shard, worker))
    }

    /// At most so many shards are moved or split.
    pub fn balance<R: Wait>(&mut self, rt: &R, alloc: Global, most: u8) -> How
        ensures made { MakesCall (is_call.Balance most) result self.old self.new }
    {
        self.call(rt, alloc, &Call::Balance(most))
    }

    /// Makes the call, to its end.
    fn call<R: Wait>(&mut self, rt: &R, alloc: Global, call: &Call) -> How
        requires job { IsOfJob (class_of call.now) }
        ensures made { MakesCall call.now result self.old self.new }
    {
        match self.try_call(rt, alloc, call) {
            Ok(how) => how,
            Err(_) => How::NoMemory,
        }
    }

    /// Makes the call, which is a split, a move or a balance. It is an error where no memory is found even for a note in the history
    /// that it was refused.
    pub fn try_call<R: Wait>(
        &mut self,
        rt: &R,
        alloc: Global,
        call: &Call,
    ) -> Result<How, AllocError>
        requires job { IsOfJob (class_of call.now) }
        ensures tried { TriesToCall call.now result self.old self.new }
    {
        let floor = self.hall.floor();
        make_call(rt, alloc, floor, &mut self.player, call)
    }

    /// The administrator's pass again.
    pub fn end(self) -> Pass
        ensures of { IsPassOf self.entry.floor result }
        ensures made { BecomesCaller self.entry.floor is_role.Admin result self.entry }
    {
        let Admin { hall: _, player } = self;
        Pass::of(player)
    }
}
