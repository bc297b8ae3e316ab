//! The largest shards of a worker.
ghost use Rattle.std.specs.Prelude.{◌≡◌, ◌==◌, filter};
ghost use Rattle.shard_plan.specs.Balancing.{earlier, largest, is_larger};
ghost use Rattle.balancer.specs.Turn.{fits_gap};

use shard_plan::Load;

/// The largest shard of the worker that makes the gap smaller where it is moved.
pub fn largest_to_move(loads: &[Load], worker: u8, gap: u64) -> Option<Load>
    ensures { result ≡ largest (filter (fits_gap worker gap) loads.now) }
{
    let mut found = None;
    for load in loads {
        if load.worker == worker && load.rows > 0 && load.rows <= gap / 2 {
            found = Some(larger(found, *load));
        }
    }
    found
}

/// The largest shard of the worker.
pub fn largest_on(loads: &[Load], worker: u8) -> Option<Load>
    ensures { result ≡ largest (filter (λ load. load.worker == worker) loads.now) }
{
    let mut found = None;
    for load in loads {
        if load.worker == worker {
            found = Some(larger(found, *load));
        }
    }
    found
}

/// The one of more rows, on a tie the one of the lower id; the one found before stays where the two are alike.
fn larger(found: Option<Load>, load: Load) -> Load
    ensures { Some result ≡ earlier is_larger found load }
{
    match found {
        Some(had) if !is_larger(&load, &had) => had,
        _ => load,
    }
}

/// Whether a load comes before another one where the largest is looked for.
fn is_larger(a: &Load, b: &Load) -> bool
    ensures { result ≡ is_larger a.now b.now }
{
    a.rows > b.rows || (a.rows == b.rows && a.shard < b.shard)
}
