//! A worked balance. Each function's contract is a law about the definitions, and there is nothing to
//! do at run time.

ghost use Rattle.row_ledger.specs.Right.{IsRight};
ghost use Rattle.row_ledger.specs.Worked.{site};
ghost use Rattle.row_ledger.specs.WorkedBalance.{balanced, balanced_without};

/// Of two planned moves one is done and one is left.
pub fn balance_with_one_left_is_right()
    ensures { IsRight site balanced }
{}

/// A balance that says nothing of a planned move is wrong.
pub fn balance_without_its_left_is_wrong()
    ensures { IsRight site balanced_without → ⊥ }
{}
