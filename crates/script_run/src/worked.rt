//! Worked runs: a settle with two servers. Each function's contract is a law about the definitions,
//! and there is nothing to do at run time.
ghost use Rattle.std.specs.Prelude.{List};
ghost use Rattle.describing_set.specs.declared.listing.Spot.{Spot};
ghost use Rattle.dim_hierarchy.specs.Dimension.{Dimension};
ghost use Rattle.script_run.specs.Runs.{IsRunOf};
ghost use Rattle.script_run.specs.Worked.{ended_early, settle, settled, two};

/// A settle that pulls for each server, and for each once more, is a run.
pub fn settle_with_all_pulls_is_a_run()
    ensures { (h : List Dimension) (l : List Spot) → IsRunOf two h settle (settled l) }
{}

/// A settle that ends well without its last pull is none.
pub fn settle_without_its_last_pull_is_no_run()
    ensures { (h : List Dimension) (l : List Spot) → IsRunOf two h settle (ended_early l) → ⊥ }
{}
