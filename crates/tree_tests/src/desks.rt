//! What is tested of `query_router`.
ghost use Rattle.std.specs.Prelude.{◌≡◌, ◌+◌, ◌<◌, ◌^◌};
ghost use Rattle.query_router.specs.Desk.{done_of};

use describing_set::Path;
use dim_hierarchy::Filter;
use measure_agg::Agg;
use query_router::{Desk, Part, PartState, Verdict, Want};
use std::alloc::Global;
use std::process::Abort;
use std::test::Fail;

/// A part of a shard that is with a worker or waits for it, asking for a filter of no dimension.
fn part(alloc: Global, shard: u32, worker: u8) -> Part {
    Part {
        shard,
        worker,
        path: Path::new(alloc),
        state: PartState::Waiting(Want::Filter(Filter::new(alloc))),
    }
}

/// A part that has come so far.
fn part_in(alloc: Global, shard: u32, state: PartState) -> Part
    ensures { result.state ≡ state }
{
    Part {
        shard,
        worker: 0,
        path: Path::new(alloc),
        state,
    }
}

/// Compares the shards of a desk's parts.
fn expect_shards<R: Abort>(rt: &R, alloc: Global, desk: &Desk, wanted: &[u32]) -> Result<(), Fail> {
    let mut shards = Vec::new(alloc);
    for part in desk.parts() {
        shards.push(part.shard)?;
    }
    assert_eq!(rt; shards.as_slice(), wanted);
    Ok(())
}

/// A desk with a command of a part for worker 1 and one for worker 0.
fn two_parts(alloc: Global) -> Result<Desk, Fail> {
    let parts = vec![in alloc; part(alloc, 4, 1), part(alloc, 0, 0)]?;
    let mut desk = Desk::new(alloc);
    desk.put(9, parts);
    Ok(desk)
}

/// Takes the first part that waits for a worker.
fn take<R: Abort>(rt: &R, desk: &mut Desk, worker: u8) -> Part {
    let place = desk.ready(worker).expect(rt, "a part that waits");
    desk.take(place)
}

/// The first part is taken.
fn takes<R: Abort>(rt: &R, desk: &mut Desk) {
    let taken = take(rt, desk, 1);
    assert_eq!(rt; (taken.shard, taken.worker), (4, 1));
    assert_eq!(rt;
        [desk.ready(1), desk.taken(4, 1), desk.taken(4, 0)],
        [None, Some(0), None]
    );
}

/// Two parts stand in the place of the one that was taken.
fn expands<R: Abort>(rt: &R, alloc: Global, desk: &mut Desk) -> Result<(), Fail> {
    let place = desk.taken(4, 1).expect(rt, "the part taken");
    desk.expand(place, part(alloc, 5, 1), part(alloc, 6, 1))?;
    Ok(())
}

/// The last part, whose place has shifted, is done.
fn finishes<R: Abort>(rt: &R, desk: &mut Desk) {
    assert_eq!(rt; desk.ready(0), Some(2));
    let mut other = take(rt, desk, 0);
    other.state = PartState::Done(Agg::one(5));
    let place = desk.taken(0, 0).expect(rt, "the part taken");
    desk.set(place, other);
    assert_eq!(rt; [desk.ready(0), desk.taken(0, 0)], [None, None]);
}

#[test]
fn two_parts_stand_in_the_place_of_the_one_taken(rt: HostRuntime) -> Result<(), Fail> {
    let alloc = rt.alloc();
    let desk = &mut two_parts(alloc)?;
    assert_eq!(rt; desk.op(), Some(9));
    assert_eq!(rt;
        [desk.ready(0), desk.ready(1), desk.ready(2)],
        [Some(1), Some(0), None]
    );
    takes(&rt, desk);
    expands(&rt, alloc, desk)?;
    expect_shards(&rt, alloc, desk, &[5, 6, 0])?;
    finishes(&rt, desk);
    Ok(())
}

/// What a command of two parts in these states comes to.
fn verdict(alloc: Global, left: PartState, right: PartState) -> Result<Option<Verdict>, Fail>
    requires { (done_of left).count + (done_of right).count < 2 ^ 63 }
{
    let parts = vec![in alloc; part_in(alloc, 0, left), part_in(alloc, 1, right)]?;
    let mut desk = Desk::new(alloc);
    desk.put(7, parts);
    Ok(desk.answer())
}

#[test]
fn the_first_cause_in_order_is_the_verdict(rt: HostRuntime) -> Result<(), Fail> {
    let alloc = rt.alloc();
    let five = Agg::one(5);
    let less = Agg::one(-7);
    let verdicts = [
        verdict(alloc, PartState::NoMemory, PartState::Taken)?,
        verdict(
            alloc,
            PartState::Done(five),
            PartState::Waiting(Want::Filter(Filter::new(alloc))),
        )?,
        verdict(
            alloc,
            PartState::Placed(Path::new(alloc)),
            PartState::NoMemory,
        )?,
        verdict(
            alloc,
            PartState::Done(five),
            PartState::Placed(Path::new(alloc)),
        )?,
        verdict(alloc, PartState::Done(five), PartState::Done(less))?,
    ];
    let wanted = [
        None,
        None,
        Some(Verdict::NoMemory),
        Some(Verdict::Placed),
        Some(Verdict::Sum(five.join(&less))),
    ];
    assert_eq!(rt; verdicts, wanted);
    Ok(())
}

#[test]
fn a_command_without_parts_sums_to_nothing(rt: HostRuntime) {
    let alloc = rt.alloc();
    let mut desk = Desk::new(alloc);
    assert_eq!(rt; desk.op(), None);
    desk.count_in();
    desk.put(3, Vec::new(alloc));
    assert_eq!(rt; desk.answer(), Some(Verdict::Sum(Agg::EMPTY)));
    assert_eq!(rt; desk.clear().len(), 0);
    assert_eq!(rt; (desk.op(), desk.sessions()), (None, 1));
    desk.count_out();
    assert_eq!(rt; desk.sessions(), 0);
}
