//! A worked row: which answers to a query, and which pages of a tree, are right after one insert.
//! Each function's contract is a law about the definitions, and there is nothing to do at run time.

ghost use Rattle.std.specs.Prelude.{◌∷◌};
ghost use Rattle.row_ledger.specs.declared.event.Event.TheVariants.{Ended};
ghost use Rattle.row_ledger.specs.declared.settings.How.TheVariants.{Fine};
ghost use Rattle.row_ledger.specs.Right.{IsRight};
ghost use Rattle.row_ledger.specs.Worked.{site, answered, answered_and_failed, once, twice, nothing, called, shown, page_with};

/// An acknowledged row is counted once.
pub fn row_one_is_right()
    ensures { IsRight site (answered once) }
{}

/// An answer that counts the row twice is wrong.
pub fn counted_twice_is_wrong()
    ensures { IsRight site (answered twice) → ⊥ }
{}

/// An answer that leaves out a row which was acknowledged through the same server is wrong.
pub fn own_row_left_out_is_wrong()
    ensures { IsRight site (answered nothing) → ⊥ }
{}

/// An answer that counts a row whose insert fails later is wrong.
pub fn failed_row_counted_is_wrong()
    ensures { IsRight site (answered_and_failed once) → ⊥ }
{}

/// An answer that leaves such a row out is right.
pub fn failed_row_left_out_is_right()
    ensures { IsRight site (answered_and_failed nothing) }
{}

/// A page of the tree that has the row is right.
pub fn page_with_the_row_is_right()
    ensures { IsRight site (shown (page_with 0 1 once)) }
{}

/// A page that leaves the row out is wrong.
pub fn page_without_the_row_is_wrong()
    ensures { IsRight site (shown (page_with 0 0 nothing)) → ⊥ }
{}

/// A page that has the row twice is wrong.
pub fn page_with_the_row_twice_is_wrong()
    ensures { IsRight site (shown (page_with 0 2 twice)) → ⊥ }
{}

/// A page of another shard is wrong.
pub fn page_of_another_shard_is_wrong()
    ensures { IsRight site (shown (page_with 1 1 once)) → ⊥ }
{}

/// A tree that ends fine without a page is wrong.
pub fn tree_without_a_page_is_wrong()
    ensures { IsRight site (Ended 4 Fine ∷ called) → ⊥ }
{}
