//! A copy of the whole history, made by the seat that has all actors.
ghost use Rattle.std.specs.Prelude.{◌≡◌, ◌<◌, [], true, IfOk, OnErr, OnOk};
ghost use Rattle.turn_table.specs.Seat.{cell_count};
ghost use Rattle.core_pages.specs.volap_cell.specs.Setting.{ledger_cell};
ghost use Rattle.whole_steps.specs.Copies.{is_small};
ghost use Rattle.whole_steps.specs.Seats.{HasEveryone, HasTurned, Knows};

use crate::copies::copy_page;
use crate::reads::{ReadsHistory, lend_history};
use call_steps::of_volap_turns::Volap;
use describing_set::Path;
use dim_hierarchy::copy_filter;
use row_ledger::{Event, History};
use std::alloc::{AllocError, Global};
use std::sync::Wait;
use turn_table::{Seat, TurnTable};

/// A copy of a path. Takes memory for it where it has several ids.
fn copy_path(alloc: Global, path: &Path) -> Result<Path, AllocError>
    ensures { IfOk result (λ copy. copy ≡ path.now) }
{
    let mut copy = Path::new(alloc);
    for id in path.as_slice() {
        copy.push(*id)?;
    }
    Ok(copy)
}

/// A copy of an event. Takes memory for it.
fn copy_event(alloc: Global, event: &Event) -> Result<Event, AllocError>
    ensures { IfOk result (λ copy. copy ≡ event.now) }
{
    match event {
        Event::Synced { server, listing } => Ok(Event::Synced {
            server: *server,
            listing: listing.share()?,
        }),
        Event::Acked { of, path } => Ok(Event::Acked {
            of: *of,
            path: copy_path(alloc, path)?,
        }),
        Event::Asked {
            session,
            server,
            filter,
        } => Ok(Event::Asked {
            session: *session,
            server: *server,
            filter: copy_filter(alloc, filter)?,
        }),
        Event::Called { session, call } => Ok(Event::Called {
            session: *session,
            call: call.copy(alloc)?,
        }),
        Event::Shown { of, page } => Ok(Event::Shown {
            of: *of,
            page: copy_page(alloc, page)?,
        }),
        other => Ok(copy_small(other)),
    }
}

/// A copy of an event that takes no memory.
fn copy_small(event: &Event) -> Event
    requires { is_small event.now ≡ true }
    ensures { result ≡ event.now }
{
    match event {
        Event::Begun {
            session,
            server,
            row,
        } => Event::Begun {
            session: *session,
            server: *server,
            row: *row,
        },
        Event::Answered { of, agg } => Event::Answered { of: *of, agg: *agg },
        Event::Unknown {
            session,
            server,
            dim,
        } => Event::Unknown {
            session: *session,
            server: *server,
            dim: *dim,
        },
        Event::Failed { of } => Event::Failed { of: *of },
        Event::Refused { session } => Event::Refused { session: *session },
        Event::Split {
            of,
            shard,
            left,
            right,
        } => Event::Split {
            of: *of,
            shard: *shard,
            left: *left,
            right: *right,
        },
        Event::Moved { of, shard, worker } => Event::Moved {
            of: *of,
            shard: *shard,
            worker: *worker,
        },
        Event::Left { of, shard, how } => Event::Left {
            of: *of,
            shard: *shard,
            how: *how,
        },
        Event::Ended { of, how } => Event::Ended { of: *of, how: *how },
        _ => unreachable!(),
    }
}

/// Copies of the events. Takes memory for them.
fn copy_events(alloc: Global, events: &[Event]) -> Result<Vec<Event>, AllocError>
    ensures { IfOk result (λ copy. copy.items ≡ events.now) }
{
    let mut copy = Vec::new(alloc);
    for event in events {
        copy.push(copy_event(alloc, event)?)?;
    }
    Ok(copy)
}

/// A reader that copies what it reads.
#[derive(Drop)]
struct Copying {
    alloc: Global,
    /// The copies, once it has read.
    copied: Result<Vec<Event>, AllocError>,
}

impl ReadsHistory for Copying {
    ghost use Rattle.std.specs.Prelude.{◌≡◌, IfOk};

    ghost asks = { λ copying events. Unit {0} };

    ghost tells = { λ was events now. IfOk now.copied (λ copy. copy.items ≡ events) };

    /// Copies the events. Takes memory for them.
    fn read(&mut self, events: &[Event]) {
        self.copied = copy_events(self.alloc, events);
    }
}

/// `into` becomes a copy of the whole history. Takes memory for it; where that is wanting, `into` is as it was.
pub fn copy_history<R: Wait>(
    rt: &R,
    alloc: Global,
    table: &TurnTable<Volap>,
    seat: &mut Seat<Volap>,
    into: &mut History,
) -> Result<(), AllocError>
    requires everyone { HasEveryone table.now seat.old }
    requires bare { seat.old.ranks ≡ [] }
    requires ledger { ledger_cell < cell_count table.now }
    ensures everyone { HasEveryone table.now seat.new }
    ensures turned { HasTurned seat.old seat.new }
    ensures bare { seat.new.ranks ≡ [] }
    ensures knows { Knows seat.new ledger_cell }
    ensures all { OnOk result (into.new ≡ seat.new.view.seen) }
    ensures same { OnErr result (into.new ≡ into.old) }
{
    let mut copying = Copying {
        alloc,
        copied: Err(AllocError),
    };
    lend_history(rt, table, seat, &mut copying);
    let Copying { alloc: _, copied } = copying;
    *into = History::from_vec(copied?);
    Ok(())
}
