//! A session of the test at work.
ghost use Rattle.std.specs.Prelude.{◌≡◌, length};
ghost use Rattle.hall_calls.specs.Passing.{CanWork, IsBack};

use crate::board::Board;
use crate::judge::{Counts, is_allowed};
use crate::plan::{COMMANDS, Plan, Task, task_of};
use hall_calls::of_actor_run::{Asked, Hall, Inserted, Pass, Session, Steps};
use measure_agg::Agg;
use std::alloc::Global;
use std::sync::Wait;
use volap_io::Quiet;

/// An answer, and where its query began.
#[derive(Clone, Copy)]
pub(crate) struct Heard {
    pub(crate) of: u64,
    pub(crate) agg: Agg,
}

/// What a session has done.
#[derive(Drop)]
pub(crate) struct Report {
    pub(crate) counts: Counts,
    pub(crate) heard: Vec<Heard>,
}

impl Report {
    fn new(alloc: Global) -> Report {
        Report {
            counts: Counts::NONE,
            heard: Vec::new(alloc),
        }
    }

    /// Notes an insert of a known name.
    fn insert(&mut self, is_right: bool) {
        self.counts.add_insert();
        self.counts.check(is_right);
    }

    /// Notes a command that names what is not known.
    fn unknown(&mut self, is_told: bool) {
        self.counts.add_unknown();
        self.counts.check(is_told);
    }

    /// Notes an answer, as far as there is memory.
    fn hear(&mut self, heard: Heard, is_allowed: bool) {
        self.counts.add_answer();
        self.counts.check(is_allowed);
        let _ = self.heard.push(heard);
    }
}

/// What a session works with.
#[derive(Clone, Copy)]
pub(crate) struct Job<'a> {
    pub(crate) alloc: Global,
    pub(crate) server: usize,
    pub(crate) plan: &'a Plan,
    pub(crate) board: &'a Board,
}

/// Inserts a row of a round.
fn insert<'a, R: Wait + Sync>(
    rt: &R,
    job: &Job,
    session: &mut Session<'a>,
    report: &mut Report,
    round: usize,
    bit: u64,
)
    requires one { length session.old.floor.hierarchy ≡ 1 }
    ensures same { session.new ≡ record session.old { seen = session.new.seen } }
{
    let measure = i64::try_from(bit).unwrap_or(0);
    job.board.begin(round, bit);
    let end = session.insert(rt, job.alloc, job.plan.row(round), measure, &Quiet);
    let seen = session.seen();
    match end {
        Inserted::Ok { of } => {
            job.board.acknowledge(job.server, round, bit);
            report.insert(of < seen);
        }
        Inserted::Unknown { .. } => report.insert(false),
        Inserted::NoMemory => report.counts.add_refused(),
    }
}

/// Asks for the rows of a round.
#[tactic(auto, using(crate::proofs::Picks::picks_are))]
fn query<'a, R: Wait + Sync>(
    rt: &R,
    job: &Job,
    session: &mut Session<'a>,
    report: &mut Report,
    round: usize,
)
    requires one { length session.old.floor.hierarchy ≡ 1 }
    ensures same { session.new ≡ record session.old { seen = session.new.seen } }
{
    let must = job.board.must(job.server, round);
    let mut steps = Steps::new();
    let end = session.query(rt, job.alloc, job.plan.question(round), &Quiet, &mut steps);
    let seen = session.seen();
    let may = job.board.may(round);
    match end {
        Asked::Answer { of, agg } => {
            report.hear(Heard { of, agg }, of < seen && is_allowed(must, may, &agg));
        }
        Asked::Unknown { .. } => report.unknown(false),
        Asked::NoMemory => report.counts.add_refused(),
    }
}

/// Inserts a row of a name that is not known.
fn insert_unknown<'a, R: Wait + Sync>(
    rt: &R,
    job: &Job,
    session: &mut Session<'a>,
    report: &mut Report,
)
    requires one { length session.old.floor.hierarchy ≡ 1 }
    ensures same { session.new ≡ record session.old { seen = session.new.seen } }
{
    let end = session.insert(rt, job.alloc, &job.plan.no_row, 1, &Quiet);
    match end {
        Inserted::Ok { .. } => report.insert(false),
        Inserted::Unknown { dim } => report.unknown(dim == 0),
        Inserted::NoMemory => report.counts.add_refused(),
    }
}

/// Asks for a name that is not known.
#[tactic(auto, using(crate::proofs::Picks::picks_are))]
fn query_unknown<'a, R: Wait + Sync>(
    rt: &R,
    job: &Job,
    session: &mut Session<'a>,
    report: &mut Report,
)
    requires one { length session.old.floor.hierarchy ≡ 1 }
    ensures same { session.new ≡ record session.old { seen = session.new.seen } }
{
    let mut steps = Steps::new();
    let end = session.query(rt, job.alloc, &job.plan.no_question, &Quiet, &mut steps);
    match end {
        Asked::Answer { .. } => report.unknown(false),
        Asked::Unknown { dim } => report.unknown(dim == 0),
        Asked::NoMemory => report.counts.add_refused(),
    }
}

/// Does one command.
fn do_task<'a, R: Wait + Sync>(
    rt: &R,
    job: &Job,
    session: &mut Session<'a>,
    report: &mut Report,
    task: Task,
)
    requires one { length session.old.floor.hierarchy ≡ 1 }
    ensures same { session.new ≡ record session.old { seen = session.new.seen } }
{
    match task {
        Task::Insert { round, bit } => insert(rt, job, session, report, round, bit),
        Task::Query { round } => query(rt, job, session, report, round),
        Task::InsertUnknown => insert_unknown(rt, job, session, report),
        Task::QueryUnknown => query_unknown(rt, job, session, report),
    }
}

/// Makes the session of a pass, does commands with it until none is left, and gives the pass back.
pub(crate) fn work<R: Wait + Sync>(rt: &R, hall: &Hall, pass: Pass, job: &Job) -> (Pass, Report)
    requires pass { CanWork hall.now pass }
    requires one { length hall.now.hierarchy ≡ 1 }
    ensures { IsBack hall.now pass result.0 }
{
    let mut session = Session::new(rt, hall, pass);
    let mut report = Report::new(job.alloc);
    for _ in 0..COMMANDS {
        let number = job.board.draw();
        if number >= COMMANDS {
            break;
        }
        do_task(rt, job, &mut session, &mut report, task_of(number));
    }
    (session.end(rt), report)
}
