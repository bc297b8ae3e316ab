//! Worked pulls: what a server must know that it did not acknowledge itself. Each function's contract
//! is a law about the definitions, and there is nothing to do at run time.

ghost use Rattle.row_ledger.specs.Right.{IsRight};
ghost use Rattle.row_ledger.specs.Worked.{site, once, nothing, first_listing};
ghost use Rattle.row_ledger.specs.WorkedPulls.{pulled, asked_elsewhere, under_box, both};

/// Where its server has pulled and then another one, the other one knows the row.
pub fn row_known_by_two_pulls_is_right()
    ensures { IsRight site (asked_elsewhere once) }
{}

/// An answer that leaves such a row out is wrong.
pub fn passed_row_left_out_is_wrong()
    ensures { IsRight site (asked_elsewhere nothing) → ⊥ }
{}

/// Where a server has pulled a box that covers the row, it knows the row.
pub fn row_known_by_its_box_is_right()
    ensures { IsRight site (under_box both) }
{}

/// An answer that leaves such a row out is wrong.
pub fn row_under_a_box_left_out_is_wrong()
    ensures { IsRight site (under_box once) → ⊥ }
{}

/// A listing whose boxes miss a row that its server acknowledged before is wrong.
pub fn listing_without_the_row_is_wrong()
    ensures { IsRight site (pulled first_listing) → ⊥ }
{}
