//! An open split, move or balance, to its end.
ghost use Rattle.std.specs.Prelude.{ℕ};
ghost use Rattle.actor_run.specs.call_steps.specs.Opened.{IsCallDone};
ghost use Rattle.hall_admin.specs.Jobs.{GoesOnCall, IsJobOpen};
ghost use Rattle.row_ledger.specs.declared.settings.Call.{Call};
ghost use Rattle.job_steps.specs.seat_steps.specs.declared.floor.Player.{Player};

use actor_run::of_call_steps::{end_call, leave_action};
use job_steps::of_seat_steps::{Floor, Player};
use job_steps::{JobDid, go_on_with_job};
use row_ledger::How;
use std::alloc::Global;
use std::sync::Wait;
use std::thread::yield_now;

/// The administrator goes on with its call until that ends.
pub(crate) fn drive<R: Wait>(rt: &R, alloc: Global, floor: &Floor, player: &mut Player) -> How
    requires opened { (of : ℕ) × (call : Call) × (start : Player) × IsJobOpen floor.now of call start player.old }
    ensures done { (of : ℕ) (call : Call) (start : Player) → IsJobOpen floor.now of call start player.old → IsCallDone floor.now of call result start player.new }
{
    for _ in rt.forever() {
        match go_on(rt, alloc, floor, player) {
            None => {}
            Some(how) => return how,
        }
    }
    unreachable!()
}

/// The administrator goes on with its call by one step. The answer is how it ended, if it did. Where the step waits for others,
/// they come to run first.
fn go_on<R: Wait>(rt: &R, alloc: Global, floor: &Floor, player: &mut Player) -> Option<How>
    requires opened { (of : ℕ) × (call : Call) × (start : Player) × IsJobOpen floor.now of call start player.old }
    ensures goes { (of : ℕ) (call : Call) (start : Player) → IsJobOpen floor.now of call start player.old → GoesOnCall floor.now result of call start player.new }
{
    match go_on_with_job(rt, alloc, floor, player) {
        JobDid::Step => None,
        JobDid::Passed => None,
        JobDid::Waits => {
            yield_now();
            None
        }
        JobDid::Leaves => {
            leave_action(rt, alloc, floor, player);
            None
        }
        JobDid::Ends(how) => {
            end_call(rt, alloc, floor, player, how);
            Some(how)
        }
        JobDid::Ended(how) => Some(how),
    }
}
