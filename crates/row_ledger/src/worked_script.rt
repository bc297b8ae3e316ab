//! The history of a whole small script. Each function's contract is a law about the definitions, and
//! there is nothing to do at run time.

ghost use Rattle.row_ledger.specs.Right.{IsRight};
ghost use Rattle.row_ledger.specs.Worked.{site, once, nothing};
ghost use Rattle.row_ledger.specs.WorkedScript.{whole_history};

/// The history in which the query is told of the row is right.
pub fn whole_history_is_right()
    ensures { IsRight site (whole_history once) }
{}

/// The same with an answer that leaves the row out is wrong.
pub fn whole_history_without_the_row_is_wrong()
    ensures { IsRight site (whole_history nothing) → ⊥ }
{}
