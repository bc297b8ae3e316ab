//! The desk of a server.
ghost use Rattle.std.specs.Prelude.{◌≡◌, ◌+◌, ◌<◌, ◌^◌, [], position, slice_get, slice_set, option_map, IsSome, IsNone, IfSome, OnOk, OnErr, false};
ghost use Rattle.std.specs.List.{list_any};

use crate::part::{Part, PartState, Verdict};
use describing_set::Path;
use measure_agg::Agg;
use std::alloc::{AllocError, Global};
use std::marker::Model;
use std::mem;

/// The desk of a server: the number of the command that stands on it, its parts in order, and how
/// many of the server's sessions are counted in. It is empty where no command stands on it.
#[derive(Drop)]
pub struct Desk {
    op: Option<u64>,
    parts: Vec<Part>,
    /// The parts before this place are at an end, so nobody looks at them again until all are.
    ended: usize,
    /// How many parts are not at an end.
    open_count: usize,
    sessions: u16,
    alloc: Global,
}

impl Model for Desk {
    ghost use Rattle.query_router.specs.Desk.{DeskValue};
    ghost use Rattle.query_router.specs.Progress.{IsProgress};

    ghost Value = { DeskValue };

    ghost view = { λ d. record { op = d.op; parts = d.parts.items; sessions = d.sessions } };

    ghost invariant = { λ d. IsProgress d.parts.items d.ended d.open_count };
}

impl Desk {
    ghost use Rattle.std.specs.Prelude.{None, Some};
    ghost use Rattle.query_router.specs.Desk.{is_waiting, is_taken, is_open, waits_for, is_with, taken_from, expanded, sum_of, verdict_of, IsAt};

    /// The empty desk, with no session counted in. Takes no memory.
    pub fn new(alloc: Global) -> Desk
        ensures { result ≡ record { op = None; parts = []; sessions = 0 } }
    {
        Desk {
            op: None,
            parts: Vec::new(alloc),
            ended: 0,
            open_count: 0,
            sessions: 0,
            alloc,
        }
    }

    /// The number of the command on the desk, `None` where it is empty.
    pub fn op(&self) -> Option<u64>
        ensures { result ≡ self.now.op }
    {
        self.op
    }

    /// The parts in order.
    pub fn parts(&self) -> &[Part]
        ensures { result.now ≡ self.now.parts }
    {
        self.parts.as_slice()
    }

    /// A path of no shards, for a part of a query. Takes no memory.
    pub fn no_path(&self) -> Path
        ensures { result ≡ [] }
    {
        Path::new(self.alloc)
    }

    /// How many sessions are counted in.
    pub fn sessions(&self) -> u16
        ensures { result ≡ self.now.sessions }
    {
        self.sessions
    }

    /// Counts a session in.
    pub fn count_in(&mut self)
        requires { self.old.sessions + 1 < 2 ^ 16 }
        ensures { self.new ≡ record self.old { sessions = self.old.sessions + 1 } }
    {
        self.sessions += 1;
    }

    /// Counts a session out.
    pub fn count_out(&mut self)
        requires { 0 < self.old.sessions }
        ensures { self.old ≡ record self.new { sessions = self.new.sessions + 1 } }
    {
        self.sessions -= 1;
    }

    /// Lays a command with its parts on the empty desk. Takes no memory.
    pub fn put(&mut self, op: u64, parts: Vec<Part>)
        requires { IsNone self.old.op }
        ensures { self.new ≡ record self.old { op = Some op; parts = parts.items } }
    {
        self.op = Some(op);
        self.open_count = count_open(&parts);
        self.ended = 0;
        self.parts = parts;
    }

    /// Hands a waiting part out. In its place stays a taken part of the same shard and worker, with
    /// an empty path. Takes no memory.
    pub fn take(&mut self, place: usize) -> Part
        requires { IsAt is_waiting self.old.parts place }
        ensures part { slice_get self.old.parts place ≡ Some result }
        ensures taken { self.new ≡ record self.old { parts = slice_set self.old.parts place (taken_from result) } }
    {
        let alloc = self.alloc;
        let part = &mut self.parts[place];
        let taken = Part {
            shard: part.shard,
            worker: part.worker,
            path: Path::new(alloc),
            state: PartState::Taken,
        };
        mem::replace(part, taken)
    }

    /// Puts a part in the place of a taken one. Takes no memory.
    pub fn set(&mut self, place: usize, part: Part)
        requires { IsAt is_taken self.old.parts place }
        ensures { self.new ≡ record self.old { parts = slice_set self.old.parts place part } }
    {
        self.open_count = self.open_count - 1 + usize::from(part.is_open());
        self.parts[place] = part;
        self.ended = first_open(&self.parts, self.ended);
    }

    /// Puts two parts in the place of a taken one.
    pub fn expand(&mut self, place: usize, left: Part, right: Part) -> Result<(), AllocError>
        requires { IsAt is_taken self.old.parts place }
        ensures ok { OnOk result (self.new ≡ record self.old { parts = expanded self.old.parts place left right }) }
        ensures err { OnErr result (self.new ≡ self.old) }
    {
        self.parts.reserve(1)?;
        self.open_count = self.open_count - 1
            + usize::from(left.is_open())
            + usize::from(right.is_open());
        self.parts[place] = left;
        let inserted = self.parts.insert(place + 1, right);
        prove!(inserted.is_ok());
        Ok(())
    }

    /// Takes the command off the desk, whose parts are all at an end. Takes no memory.
    pub fn clear(&mut self) -> Vec<Part>
        requires { list_any is_open self.old.parts ≡ false }
        ensures parts { result.items ≡ self.old.parts }
        ensures empty { self.new ≡ record self.old { op = None; parts = [] } }
    {
        self.op = None;
        self.ended = 0;
        self.open_count = 0;
        mem::replace(&mut self.parts, Vec::new(self.alloc))
    }

    /// Whether a part is not at an end.
    pub fn has_open(&self) -> bool
        ensures { result ≡ list_any is_open self.now.parts }
    {
        self.open_count > 0
    }

    /// Whether a part waits for a worker.
    pub fn has_waiting(&self) -> bool
        ensures { result ≡ list_any is_waiting self.now.parts }
    {
        any_waits(&self.parts[self.ended..])
    }

    /// Whether a part waits for this worker.
    pub fn awaits(&self, worker: u8) -> bool
        ensures { result ≡ list_any (waits_for worker) self.now.parts }
    {
        any_waits_for(&self.parts[self.ended..], worker)
    }

    /// The place of the first part that waits, whichever worker has its shard.
    pub fn first_waiting(&self) -> Option<usize>
        ensures place { result ≡ position is_waiting self.now.parts }
        ensures waiting { IfSome result (IsAt is_waiting self.now.parts) }
    {
        behind(self.ended, waiting_in(&self.parts[self.ended..]))
    }

    /// The place of the first part that waits for a worker.
    pub fn ready(&self, worker: u8) -> Option<usize>
        ensures place { result ≡ position (waits_for worker) self.now.parts }
        ensures waiting { IfSome result (IsAt is_waiting self.now.parts) }
    {
        behind(self.ended, ready_in(&self.parts[self.ended..], worker))
    }

    /// The place of the part of a shard that a worker has taken. It shifts where another part is
    /// expanded, so whoever took a part looks for it anew.
    pub fn taken(&self, shard: u32, worker: u8) -> Option<usize>
        ensures place { result ≡ position (is_with shard worker) self.now.parts }
        ensures taken { IfSome result (IsAt is_taken self.now.parts) }
    {
        behind(
            self.ended,
            taken_in(&self.parts[self.ended..], shard, worker),
        )
    }

    /// What the command on the desk comes to, `None` where a part is not at an end.
    pub fn answer(&self) -> Option<Verdict>
        requires some { IsSome self.now.op }
        requires few { (sum_of self.now.parts).count < 2 ^ 63 }
        ensures { result ≡ verdict_of self.now.parts }
    {
        if self.has_open() {
            return None;
        }
        if has_refused(&self.parts) {
            return Some(Verdict::NoMemory);
        }
        if has_placed(&self.parts) {
            return Some(Verdict::Placed);
        }
        Some(Verdict::Sum(sum(&self.parts)))
    }
}

ghost use Rattle.std.specs.Prelude.{count_by};
ghost use Rattle.query_router.specs.Desk.{is_open, is_placed, is_refused, is_taken, is_waiting, is_with, sum_of, waits_for, IsAt};
ghost use Rattle.query_router.specs.Progress.{HasEnded};

/// How many parts are not at an end.
fn count_open(parts: &[Part]) -> usize
    ensures { result ≡ count_by is_open parts.now }
{
    parts.iter().filter(|part| part.is_open()).count()
}

/// The first place from one on at which a part is not at an end, or the end of the list.
fn first_open(parts: &[Part], from: usize) -> usize
    requires { HasEnded parts.now from }
    ensures { HasEnded parts.now result }
{
    let mut ended = from;
    while ended < parts.len() && !parts[ended].is_open() {
        ended += 1;
    }
    ended
}

/// Whether a part waits for a worker.
fn any_waits(parts: &[Part]) -> bool
    ensures { result ≡ list_any is_waiting parts.now }
{
    parts.iter().any(|part| part.is_waiting())
}

/// Whether a part waits for this worker.
fn any_waits_for(parts: &[Part], worker: u8) -> bool
    ensures { result ≡ list_any (waits_for worker) parts.now }
{
    parts
        .iter()
        .any(|part| part.worker == worker && part.is_waiting())
}

/// The place of the first part that waits.
fn waiting_in(parts: &[Part]) -> Option<usize>
    ensures place { result ≡ position is_waiting parts.now }
    ensures waiting { IfSome result (IsAt is_waiting parts.now) }
{
    parts.iter().position(|part| part.is_waiting())
}

/// The place of the first part that waits for the worker.
fn ready_in(parts: &[Part], worker: u8) -> Option<usize>
    ensures place { result ≡ position (waits_for worker) parts.now }
    ensures waiting { IfSome result (IsAt is_waiting parts.now) }
{
    parts
        .iter()
        .position(|part| part.worker == worker && part.is_waiting())
}

/// The place of the part of the shard that is with the worker.
fn taken_in(parts: &[Part], shard: u32, worker: u8) -> Option<usize>
    ensures place { result ≡ position (is_with shard worker) parts.now }
    ensures taken { IfSome result (IsAt is_taken parts.now) }
{
    parts.iter().position(|part| part.shard == shard && part.worker == worker && part.is_taken())
}

/// A place in what stands behind so many parts, counted from the first of all.
fn behind(before: usize, place: Option<usize>) -> Option<usize>
    requires { IfSome place (λ i. before + i < 2 ^ 64) }
    ensures { result ≡ option_map (λ i. before + i) place }
{
    match place {
        None => None,
        Some(place) => Some(before + place),
    }
}

/// Whether no memory was found for a part.
fn has_refused(parts: &[Part]) -> bool
    ensures { result ≡ list_any is_refused parts.now }
{
    parts.iter().any(|part| part.is_refused())
}

/// Whether a part's row has a place.
fn has_placed(parts: &[Part]) -> bool
    ensures { result ≡ list_any is_placed parts.now }
{
    parts.iter().any(|part| part.is_placed())
}

/// The aggregates of the parts that are done, together.
fn sum(parts: &[Part]) -> Agg
    requires { (sum_of parts.now).count < 2 ^ 63 }
    ensures { result ≡ sum_of parts.now }
{
    measure_agg::laws();
    let mut total = Agg::EMPTY;
    for part in parts {
        total = total.join(&part.done());
    }
    total
}
