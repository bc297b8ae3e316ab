//! When an answer is of all that was acknowledged. Each function's contract is a law about the
//! definitions, and there is nothing to do at run time.

ghost use Rattle.row_ledger.specs.Settled.{SettledIsAll, SettleTellsAll};

/// In a right history a settled answer is the aggregate of all matching rows that were acknowledged
/// when its query began.
pub fn settled_is_all()
    ensures { SettledIsAll }
{}

/// After the pulls of a settle each server must know all that was acknowledged before it.
pub fn settle_tells_all()
    ensures { SettleTellsAll }
{}
