//! An actor gets a part, or gives it back.
ghost use Rattle.std.specs.Prelude.{◌≡◌, [], None, Some, IsSome};
ghost use Rattle.core_shard.specs.Due.{IsOut, WaitsFor};
ghost use Rattle.volap_cell.specs.Values.{errand_of};

use describing_set::Path;
use query_router::{Part, PartState, Want};
use volap_cell::{Errand, Task};

/// An actor without a part gets one.
pub fn give(errand: &mut Option<Errand>, to: Errand)
    requires none { errand.old ≡ None }
    ensures given { errand.new ≡ Some to }
{
    *errand = Some(to);
}

/// An actor gives its part back, and has none.
pub fn leave(errand: &mut Option<Errand>) -> Errand
    requires some { IsSome errand.old }
    ensures left { errand.old ≡ Some result }
    ensures none { errand.new ≡ None }
{
    errand.take().unwrap()
}

/// The part that an errand has been, where it waits for a worker. The empty path is for a part that has
/// none.
pub fn waiting(errand: Errand, worker: u8, no_path: Path) -> Part
    requires out { IsOut (errand_of errand).task }
    requires empty { no_path ≡ [] }
    ensures value { WaitsFor (errand_of errand) worker result }
{
    let Errand { shard, task, .. } = errand;
    match task {
        Task::Row(going) => Part {
            shard,
            worker,
            path: going.path,
            state: PartState::Waiting(Want::Row(going.row)),
        },
        Task::Unread(filter) => Part {
            shard,
            worker,
            path: no_path,
            state: PartState::Waiting(Want::Filter(filter)),
        },
        Task::Read(_) => unreachable!(),
    }
}
