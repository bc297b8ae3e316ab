//! What a command may still push.
ghost use Rattle.std.specs.Prelude.{◌≡◌, ◌≤◌};
ghost use Rattle.volap_cell.specs.Commands.{owes};

use volap_cell::Work;

/// How many pushes a command may still need.
pub(crate) fn owed(work: &Work) -> u64
    ensures value { result ≡ owes work.now }
    ensures few { result ≤ 256 }
{
    match work {
        Work::Action(_) => 2,
        Work::Balance(balance) => {
            (u64::from(balance.most) + 1).saturating_sub(u64::from(balance.over))
        }
        Work::Page { shown: true, .. } => 1,
        Work::Page { .. } => 2,
        _ => 1,
    }
}
