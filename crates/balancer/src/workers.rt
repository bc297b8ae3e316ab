//! Workers, by the rows that they have.
ghost use Rattle.std.specs.Prelude.{◌≡◌, ◌^◌, ◌<◌};
ghost use Rattle.shard_plan.specs.Balancing.{rows_on, fullest, emptiest};
ghost use Rattle.balancer.specs.Turn.{rows_of_all};

use shard_plan::Load;

/// How many rows the worker has.
pub fn rows_on(loads: &[Load], worker: u8) -> u64
    requires { rows_of_all loads.now < 2 ^ 63 }
    ensures { result ≡ rows_on loads.now worker }
{
    let mut rows = 0;
    for load in loads {
        if load.worker == worker {
            rows += load.rows;
        }
    }
    rows
}

/// The worker with the most rows, on a tie the one of the lower number.
pub fn fullest(loads: &[Load], workers: u8) -> u8
    requires { rows_of_all loads.now < 2 ^ 63 }
    ensures { result ≡ fullest loads.now workers }
{
    let mut found = 0;
    for worker in 0..workers {
        if rows_on(loads, worker) > rows_on(loads, found) {
            found = worker;
        }
    }
    found
}

/// The worker with the fewest rows, on a tie the one of the lower number.
pub fn emptiest(loads: &[Load], workers: u8) -> u8
    requires { rows_of_all loads.now < 2 ^ 63 }
    ensures { result ≡ emptiest loads.now workers }
{
    let mut found = 0;
    for worker in 0..workers {
        if rows_on(loads, worker) < rows_on(loads, found) {
            found = worker;
        }
    }
    found
}
