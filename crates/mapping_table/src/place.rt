//! Where the id of a shard leads.

use describing_set::Plane;

/// Where a shard id leads: to the gate in this cell, left or right of a plane to one of two shards,
/// or to another worker.
#[derive(Debug, Drop, PartialEq)]
pub enum Where {
    Gate(u32),
    Split { plane: Plane, left: u32, right: u32 },
    Moved(u8),
}
