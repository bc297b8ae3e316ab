//! A query that its caller takes block by block.
ghost use Rattle.std.specs.Prelude.{◌≡◌, ◌≢◌, ◌≤◌, ◌↔◌, Some, None, Ok, IfOk, IfErr, OnOk};
ghost use Rattle.actor_run.specs.Cursors.{HasFinished, HasRoom, Visited, WasRefused};
ghost use Rattle.actor_run.specs.declared.cursor.Visit.TheVariants.{NonePending};
ghost use Rattle.whole_steps.specs.part_steps.specs.Reads.{noted_by};

use crate::driving::drive;
use crate::hall::Hall;
use crate::session::{Asked, Session};
use dim_hierarchy::Filter;
use std::alloc::{AllocError, Global};
use std::marker::Model;
use std::snapshot::Snapshot;
use std::sync::Wait;
use turn_table::Busy;
use volap_io::Quiet;
use whole_steps::of_part_steps::Steps;
use whole_steps::of_seat_steps::Player;
use whole_steps::of_session_steps::{End, noted_by, reserve_notes, try_visit};

/// What a try to visit came to.
#[derive(Clone, Copy)]
pub enum Visit {
    /// The block that was noted last was visited.
    Went,
    /// No block is noted.
    NonePending,
}

/// A session's query that has begun and goes on by its caller's calls. Between them it holds no turn. Contracts see the session as it
/// was, where the query began and with which filter, the history that is seen now, what the actor is at, and the tries at its seat.
#[derive(Drop)]
pub struct Cursor<'a> {
    pub(crate) hall: &'a Hall,
    pub(crate) server: u8,
    pub(crate) player: Player,
    /// Where the query began.
    pub(crate) of: u64,
    /// The session before the query, and the query's filter: for contracts alone.
    pub(crate) was: Snapshot<Player>,
    pub(crate) filter: Snapshot<Filter>,
}

impl<'a> Model for Cursor<'a> {
    ghost use Rattle.dim_hierarchy.specs.Stored.{dimension_code};
    ghost use Rattle.std.specs.Coded.{codes};
    ghost use Rattle.actor_run.specs.Cursors.{CursorValue, IsCursor, cursor_of};

    ghost Value = { CursorValue };

    ghost coded = { Prim.hlevel (codes, dimension_code) };

    ghost view = { λ c. cursor_of c.hall.now c.server c.was.value c.of c.filter.value c.player };

    ghost invariant = { λ c. IsCursor c.hall.now c.server c.was.value c.of c.filter.value c.player };
}

impl<'a> Cursor<'a> {
    /// Makes room for what one visit notes.
    pub fn reserve(&mut self) -> Result<(), AllocError>
        ensures ok { OnOk result (HasRoom self.new) }
        ensures same { self.new ≡ record self.old { room = self.new.room } }
        ensures room { self.old.room ≤ self.new.room }
    {
        reserve_notes(&mut self.player.actor)
    }

    /// Visits the block that was noted last, if its turn is free, and waits for nobody. Takes no memory: room comes by `reserve`.
    pub fn try_visit(&mut self) -> Result<Visit, Busy>
        requires room { HasRoom self.old }
        ensures visited { IfOk result (λ v. Visited v self.old self.new) }
        ensures none { (result ≡ Ok NonePending) ↔ (noted_by self.old.actor ≡ None) }
        ensures busy { IfErr result (λ b. (noted_by self.old.actor ≡ Some b.cell) × (b.word ≢ 0)) }
        ensures read { IfErr result (λ b. WasRefused b.cell b.word self.old self.new) }
    {
        let hall = self.hall;
        match noted_by(&self.player.actor) {
            None => Ok(Visit::NonePending),
            Some(block) => {
                try_visit(hall.alloc, &hall.floor, &mut self.player, block)?;
                Ok(Visit::Went)
            }
        }
    }

    /// Does what is left of the query. It may wait.
    pub fn finish<R: Wait + Sync>(self, rt: &R, alloc: Global) -> (Session<'a>, Asked)
        ensures finished { HasFinished result.1 self.entry result.0 }
    {
        let Cursor {
            hall,
            server,
            mut player,
            of,
            ..
        } = self;
        // The steps of a cursor are not counted.
        let mut steps = Steps::new();
        let end = drive(
            rt,
            alloc,
            &hall.floor,
            hall.bell(server),
            &mut player,
            &Quiet,
            &mut steps,
        );
        let seen = player.actor.seen;
        let session = Session {
            hall,
            server,
            player,
            seen,
        };
        let answer = match end {
            End::Acked => unreachable!(),
            End::Answered(agg) => Asked::Answer { of, agg },
            End::Failed => Asked::NoMemory,
        };
        (session, answer)
    }
}
