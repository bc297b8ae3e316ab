//! The calls of a session.
ghost use Rattle.std.specs.Prelude.{◌≡◌, ◌≤◌, length, All, IfOk, IfErr};
ghost use Rattle.actor_run.specs.Cursors.{IsCursorFor, IsNoAnswer};
ghost use Rattle.actor_run.specs.Everything.{CostsFew};
ghost use Rattle.actor_run.specs.Passes.{IsPassOf};
ghost use Rattle.actor_run.specs.Sessions.{BecomesPass, DoesInsert, DoesQuery, DoesSync, DoesTryInsert, DoesTryQuery, IsPassFor, IsSessionRole, IsSessionWith, session_of};
ghost use Rattle.dim_hierarchy.specs.Names.{IsNamePick};

use crate::calls::{insert, query, sync};
use crate::cursor::Cursor;
use crate::gates::begin;
use crate::hall::Hall;
use crate::passes::Pass;
use dim_hierarchy::{Measures, NameFilter, RowNames};
use measure_agg::Agg;
use std::alloc::{AllocError, Global};
use std::marker::Model;
use std::snapshot::Snapshot;
use std::sync::Wait;
use volap_io::Meet;
use whole_steps::of_part_steps::Steps;
use whole_steps::of_seat_steps::Player;
use whole_steps::of_session_steps::{come, empty_purse, hear, leave};
use whole_steps::of_volap_cell::Role;

/// How an insert ended.
#[derive(Clone, Copy)]
pub enum Inserted {
    /// It is acknowledged. It began with the event at this position.
    Ok { of: u64 },
    /// The first dimension whose name isn't that of a leaf concept.
    Unknown { dim: u8 },
    NoMemory,
}

/// How a query ended.
#[derive(Clone, Copy)]
pub enum Asked {
    /// It began with the event at this position.
    Answer { of: u64, agg: Agg },
    /// The first dimension with a name that isn't that of a concept.
    Unknown { dim: u8 },
    NoMemory,
}

/// How a pull ended.
#[derive(Clone, Copy)]
pub enum Synced {
    /// The server has pulled.
    Ok,
    NoMemory,
}

/// A session of a hall, which makes one command after the other. Contracts see its hall, its number, its server and the history that
/// it has seen, the newest event first.
#[derive(Drop)]
pub struct Session<'a> {
    pub(crate) hall: &'a Hall,
    pub(crate) server: u8,
    pub(crate) player: Player,
    /// How many events it has seen.
    pub(crate) seen: u64,
}

impl<'a> Model for Session<'a> {
    ghost use Rattle.dim_hierarchy.specs.Stored.{dimension_code};
    ghost use Rattle.std.specs.Coded.{codes};
    ghost use Rattle.actor_run.specs.Sessions.{IsSessionWith, SessionValue, session_of};

    ghost Value = { SessionValue };

    ghost coded = { Prim.hlevel (codes, dimension_code) };

    ghost view = { λ s. session_of s.hall.now s.server s.player };

    ghost invariant = { λ s. IsSessionWith s.hall.now s.server s.player s.seen };
}

impl<'a> Session<'a> {
    /// The session of a pass of the hall whose role is a session's. Its server's desk counts it from now on.
    /// Takes no memory.
    pub fn new<R: Wait>(rt: &R, hall: &'a Hall, pass: Pass) -> Session<'a>
        requires of { IsPassOf hall.now pass }
        requires role { IsSessionRole pass.role }
        ensures made { IsPassFor hall.now pass result }
    {
        let Pass { mut player } = pass;
        let Role::Session { server } = player.actor.role else {
            unreachable!()
        };
        come(rt, hall.alloc, &hall.floor, &mut player);
        let seen = hear(rt, &hall.floor, &mut player);
        Session {
            hall,
            server,
            player,
            seen,
        }
    }

    /// Inserts a row of these names, one for each dimension, and these measures.
    pub fn insert<R: Wait + Sync, M: Meet>(
        &mut self,
        rt: &R,
        alloc: Global,
        names: &RowNames,
        measures: Measures,
        meet: &M,
    ) -> Inserted
        requires names { length names.now ≡ length self.old.floor.hierarchy }
        ensures does { DoesInsert result names.now measures self.old self.new }
    {
        match self.try_insert(rt, alloc, names, measures, meet) {
            Ok(inserted) => inserted,
            Err(_) => Inserted::NoMemory,
        }
    }

    /// The same. It is an error where no memory is found even for a note in the history that the insert was refused.
    pub fn try_insert<R: Wait + Sync, M: Meet>(
        &mut self,
        rt: &R,
        alloc: Global,
        names: &RowNames,
        measures: Measures,
        meet: &M,
    ) -> Result<Inserted, AllocError>
        requires names { length names.now ≡ length self.old.floor.hierarchy }
        ensures does { DoesTryInsert result names.now measures self.old self.new }
    {
        let hall = self.hall;
        insert(
            rt,
            alloc,
            &hall.floor,
            hall.bell(self.server),
            &mut self.player,
            &mut self.seen,
            names,
            measures,
            meet,
        )
    }

    /// Asks for the aggregate of the rows that match these picks by name, one for each dimension. Its steps are
    /// counted: each turn of a table, a gate or a block that this call takes, and each row that it tests.
    pub fn query<R: Wait + Sync, M: Meet>(
        &mut self,
        rt: &R,
        alloc: Global,
        filter: &NameFilter,
        meet: &M,
        steps: &mut Steps,
    ) -> Asked
        requires count { length filter.now ≡ length self.old.floor.hierarchy }
        requires some { All IsNamePick filter.now }
        ensures does { DoesQuery result filter.now self.old self.new }
        ensures kept { steps.old ≤ steps.new }
        ensures steps { CostsFew self.new.floor filter.now self.new.seen steps.old steps.new }
    {
        match self.try_query(rt, alloc, filter, meet, steps) {
            Ok(asked) => asked,
            Err(_) => Asked::NoMemory,
        }
    }

    /// The same. It is an error where no memory is found even for a note in the history that the query was refused.
    pub fn try_query<R: Wait + Sync, M: Meet>(
        &mut self,
        rt: &R,
        alloc: Global,
        filter: &NameFilter,
        meet: &M,
        steps: &mut Steps,
    ) -> Result<Asked, AllocError>
        requires count { length filter.now ≡ length self.old.floor.hierarchy }
        requires some { All IsNamePick filter.now }
        ensures does { DoesTryQuery result filter.now self.old self.new }
        ensures kept { steps.old ≤ steps.new }
        ensures steps { CostsFew self.new.floor filter.now self.new.seen steps.old steps.new }
    {
        let hall = self.hall;
        query(
            rt,
            alloc,
            &hall.floor,
            hall.bell(self.server),
            &hall.hands,
            &mut self.player,
            &mut self.seen,
            filter,
            meet,
            steps,
        )
    }

    /// Its server pushes what its image has grown by, and pulls what stands.
    pub fn sync<R: Wait>(&mut self, rt: &R, alloc: Global) -> Synced
        ensures does { DoesSync result self.old self.new }
    {
        let hall = self.hall;
        let server = self.server;
        sync(
            rt,
            alloc,
            &hall.floor,
            &mut self.player,
            &mut self.seen,
            server,
        )
    }

    /// Begins a query, takes its first part that waits and goes on with it until it has read a gate, or no part waits. Where the
    /// query can't begin, the session comes back with the answer, which says why.
    pub fn cursor<R: Wait>(
        self,
        rt: &R,
        alloc: Global,
        filter: &NameFilter,
    ) -> Result<Cursor<'a>, (Session<'a>, Asked)>
        requires count { length filter.now ≡ length self.floor.hierarchy }
        requires some { All IsNamePick filter.now }
        ensures asked { IfOk result (IsCursorFor filter.now self.entry) }
        ensures refused { IfErr result (λ r. DoesQuery r.1 filter.now self.entry r.0) }
        ensures no_answer { IfErr result (λ r. IsNoAnswer r.1) }
    {
        let Session {
            hall,
            server,
            mut player,
            mut seen,
        } = self;
        let was = Snapshot::of(&player);
        let bell = hall.bell(server);
        match begin(
            rt,
            alloc,
            &hall.floor,
            bell,
            &hall.hands,
            &mut player,
            &mut seen,
            filter,
        ) {
            Ok((of, filter)) => Ok(Cursor {
                hall,
                server,
                player,
                of,
                was,
                filter,
            }),
            Err(answer) => {
                let session = Session {
                    hall,
                    server,
                    player,
                    seen,
                };
                Err((session, answer))
            }
        }
    }

    /// The actor of the session at its seat, and how many events it has seen.
    pub fn into_player(self) -> (Player, u64)
        ensures session { IsSessionWith self.entry.floor self.entry.server result.0 result.1 }
        ensures same { session_of self.entry.floor self.entry.server result.0 ≡ self.entry }
    {
        let Session {
            hall: _,
            server: _,
            player,
            seen,
        } = self;
        (player, seen)
    }

    /// The session of a server's actor at its seat, which has seen so many events.
    pub fn of(hall: &'a Hall, server: u8, player: Player, seen: u64) -> Session<'a>
        requires session { IsSessionWith hall.now server player seen }
        ensures { result ≡ session_of hall.now server player }
    {
        Session {
            hall,
            server,
            player,
            seen,
        }
    }

    /// How many events of the history the session has seen.
    pub fn seen(&self) -> u64
        ensures { result ≡ length self.now.seen }
    {
        self.seen
    }

    /// The session's pass again. Its server's desk counts it no more. Takes no memory.
    pub fn end<R: Wait>(self, rt: &R) -> Pass
        ensures of { IsPassOf self.entry.floor result }
        ensures made { BecomesPass self.entry result }
    {
        let Session {
            hall,
            server: _,
            mut player,
            seen: _,
        } = self;
        empty_purse(rt, hall.alloc, &hall.floor, &mut player);
        leave(rt, hall.alloc, &hall.floor, &mut player);
        hall.hands.ring_all(rt);
        Pass { player }
    }
}
