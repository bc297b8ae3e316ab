//! What a history tells of.
use crate::page::Page;
use crate::settings::{Call, How};
use describing_set::{Path, SharedListing};
use dim_hierarchy::{Filter, Row};
use measure_agg::Agg;

/// What happened. `of` is the place in the history of the event that began the command.
#[derive(Drop)]
pub enum Event {
    /// The server knows these shards from here on; one for each server stands first.
    Synced {
        server: u8,
        listing: SharedListing,
    },
    /// An insert of known leaf concepts begins; `row.no` is the place of this event.
    Begun {
        session: u16,
        server: u8,
        row: Row,
    },
    /// The insert is acknowledged; its row went to the last shard of the path.
    Acked {
        of: u64,
        path: Path,
    },
    /// A query begins.
    Asked {
        session: u16,
        server: u8,
        filter: Filter,
    },
    /// The query is answered.
    Answered {
        of: u64,
        agg: Agg,
    },
    /// A command names what is not known, first in this dimension. It ends with this.
    Unknown {
        session: u16,
        server: u8,
        dim: u8,
    },
    /// The insert or query ends for want of memory; an insert then left no row anywhere.
    Failed {
        of: u64,
    },
    /// A command finds no memory before it began. It ends with this.
    Refused {
        session: u16,
    },
    /// A command that is no insert and no query begins.
    Called {
        session: u16,
        call: Call,
    },
    /// The called command has split a shard into two.
    Split {
        of: u64,
        shard: u32,
        left: u32,
        right: u32,
    },
    /// The called command has moved a shard to this worker.
    Moved {
        of: u64,
        shard: u32,
        worker: u8,
    },
    /// The called balance leaves a planned action on this shard, which is declined or postponed.
    Left {
        of: u64,
        shard: u32,
        how: How,
    },
    /// The called command shows a page.
    Shown {
        of: u64,
        page: Page,
    },
    /// The called command ends.
    Ended {
        of: u64,
        how: How,
    },
}
