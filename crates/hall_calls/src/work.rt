//! What a session of the example does: it inserts rows at two places, and asks.
ghost use Rattle.std.specs.Prelude.{◌≡◌, ◌≤◌, ◌<◌, ◌+◌, ◌^◌, ◌⊎◌, length};
ghost use Rattle.actor_run.specs.Passes.{IsPassOf};
ghost use Rattle.actor_run.specs.Sessions.{IsSessionRole};
ghost use Rattle.hall_calls.specs.Tells.{AreNamesFor, HasOwn, HasWorked, IsTold, teller_of};

use actor_run::{Asked, Hall, Inserted, Pass, Session, Steps};
use dim_hierarchy::{NameFilter, RowNames};
use std::alloc::Global;
use std::sync::Wait;
use volap_io::Quiet;

/// The names of two rows, and a question.
#[derive(Clone, Copy)]
pub struct Places<'a> {
    pub one: &'a RowNames,
    pub other: &'a RowNames,
    pub asked: &'a NameFilter,
}

/// What a session tells: how many of its inserts were acknowledged, how its query ended, and how many steps that took.
#[derive(Clone, Copy)]
pub struct Told {
    pub acked: u64,
    pub answer: Asked,
    pub steps: u64,
}

/// Inserts a row of measure 1. `acked` inserts were acknowledged before, and the answer is how many are then.
fn insert_one<'a, R: Wait + Sync>(
    rt: &R,
    alloc: Global,
    session: &mut Session<'a>,
    names: &RowNames,
    acked: u64,
) -> u64
    requires names { length names.now ≡ length session.old.floor.hierarchy }
    requires few { acked < 2 ^ 32 }
    requires own { HasOwn session.old acked }
    ensures same { session.new ≡ record session.old { seen = session.new.seen } }
    ensures few { result ≤ acked + 1 }
    ensures own { HasOwn session.new result }
{
    match session.insert(rt, alloc, names, 1, &Quiet) {
        Inserted::Ok { .. } => acked + 1,
        Inserted::Unknown { .. } => acked,
        Inserted::NoMemory => acked,
    }
}

impl<'a> Places<'a> {
    /// The names for the insert of this number: those of the two rows in turn.
    fn names(&self, number: u32) -> &'a RowNames
        ensures { (result.now ≡ self.now.one.now) ⊎ (result.now ≡ self.now.other.now) }
    {
        if number % 2 == 0 {
            self.one
        } else {
            self.other
        }
    }
}

/// Inserts as many rows, at the two places in turn, and tells how many were acknowledged.
fn insert_in_turn<'a, R: Wait + Sync>(
    rt: &R,
    alloc: Global,
    session: &mut Session<'a>,
    places: &Places,
    count: u32,
) -> u64
    requires names { AreNamesFor session.old.floor.hierarchy places.now.one.now places.now.other.now places.now.asked.now }
    ensures same { session.new ≡ record session.old { seen = session.new.seen } }
    ensures own { HasOwn session.new result }
{
    let mut acked = 0u64;
    for i in 0..count {
        acked = insert_one(rt, alloc, session, places.names(i), acked);
    }
    acked
}

/// Inserts as many rows, at the two places in turn, and then asks.
pub fn insert_and_ask<'a, R: Wait + Sync>(
    rt: &R,
    alloc: Global,
    session: &mut Session<'a>,
    places: &Places,
    count: u32,
) -> Told
    requires names { AreNamesFor session.old.floor.hierarchy places.now.one.now places.now.other.now places.now.asked.now }
    ensures same { session.new ≡ record session.old { seen = session.new.seen } }
    ensures told { IsTold session.new.floor.hierarchy places.now.asked.now (teller_of session.new) session.new.seen result }
{
    let acked = insert_in_turn(rt, alloc, session, places, count);
    let mut steps = Steps::new();
    let answer = session.query(rt, alloc, places.asked, &Quiet, &mut steps);
    Told {
        acked,
        answer,
        steps: steps.count(),
    }
}

/// Makes the session of a pass, does this with it, and gives the pass back.
pub(crate) fn work<R: Wait + Sync>(
    rt: &R,
    alloc: Global,
    hall: &Hall,
    pass: Pass,
    places: &Places,
    count: u32,
) -> (Pass, Told)
    requires of { IsPassOf hall.now pass }
    requires role { IsSessionRole pass.role }
    requires names { AreNamesFor hall.now.hierarchy places.now.one.now places.now.other.now places.now.asked.now }
    ensures { HasWorked hall.now places.now.asked.now pass result.0 result.1 }
{
    let mut session = Session::new(rt, hall, pass);
    let told = insert_and_ask(rt, alloc, &mut session, places, count);
    (session.end(rt), told)
}
