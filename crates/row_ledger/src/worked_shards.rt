//! Worked splits, moves and pages. Each function's contract is a law about the definitions, and
//! there is nothing to do at run time.

ghost use Rattle.std.specs.Prelude.{[], ◌∷◌};
ghost use Rattle.row_ledger.specs.declared.page.Page.{Page};
ghost use Rattle.row_ledger.specs.declared.settings.Decline.TheVariants.{OnePlace, NoCell};
ghost use Rattle.row_ledger.specs.Right.{IsRight};
ghost use Rattle.row_ledger.specs.Worked.{site, once, twice};
ghost use Rattle.row_ledger.specs.WorkedShards.{across_split, split_declined, split_twice, with_path, shards_shown, lines_without, audit_shown, tree_shown, tree_of_two, shown_amid, moved};

/// A query that began before a split and is answered behind it counts the row once.
pub fn query_across_a_split_is_right()
    ensures { IsRight site (across_split once) }
{}

/// An answer that counts the row in both shards is wrong.
pub fn row_counted_twice_after_a_split_is_wrong()
    ensures { IsRight site (across_split twice) → ⊥ }
{}

/// A split that is declined for one place is wrong where the rows stand in two cities.
pub fn one_place_of_two_cities_is_wrong()
    ensures { IsRight site (split_declined OnePlace) → ⊥ }
{}

/// A split that is declined for want of cells is right where there are fewer than it needs: two
/// rows need five.
pub fn split_without_cells_is_right()
    ensures { IsRight site (split_declined (NoCell 5 4)) }
{}

/// It is wrong where there are as many as it needs.
pub fn split_with_enough_cells_is_wrong()
    ensures { IsRight site (split_declined (NoCell 5 5)) → ⊥ }
{}

/// A second split of one call is wrong.
pub fn second_split_of_a_call_is_wrong()
    ensures { IsRight site split_twice → ⊥ }
{}

/// A path goes down to a child that a split has made.
pub fn path_down_a_split_is_right()
    ensures { IsRight site (with_path (0 ∷ 3 ∷ [])) }
{}

/// A path with an id that no split has made is wrong.
pub fn path_to_no_child_is_wrong()
    ensures { IsRight site (with_path (0 ∷ 4 ∷ [])) → ⊥ }
{}

/// The pages of the shards, of all rows and of a tree, with each row, are right.
pub fn pages_after_a_split_are_right()
    ensures { IsRight site (tree_shown tree_of_two) }
{}

/// A page of the shards on which a row stands nowhere is wrong.
pub fn row_on_no_page_is_wrong()
    ensures { IsRight site (shards_shown lines_without) → ⊥ }
{}

/// An audit that leaves a row out is wrong.
pub fn audit_without_a_row_is_wrong()
    ensures { IsRight site (audit_shown once) → ⊥ }
{}

/// A page that is shown while an insert is open is wrong, whatever it shows.
pub fn page_amid_an_insert_is_wrong()
    ensures { (page : Page) → IsRight site (shown_amid page) → ⊥ }
{}

/// A move to a worker that is not there is declined, and one to a worker that is there is done.
pub fn declined_and_fine_moves_are_right()
    ensures { IsRight site moved }
{}
