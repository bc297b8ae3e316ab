//! Worked sessions of two servers. Each function's contract is a law about the definitions, and there is nothing to do at run
//! time.
ghost use Rattle.std.specs.Prelude.{◌≡◌, List};
ghost use Rattle.describing_set.specs.declared.listing.Spot.{Spot};
ghost use Rattle.dim_hierarchy.specs.Dimension.{Dimension};
ghost use Rattle.row_ledger.specs.declared.settings.Call.TheVariants.{Sync};
ghost use Rattle.script_form.specs.declared.script.Command.TheVariants.{Control};
ghost use Rattle.script_form.specs.declared.script.NewRow.{NewRow};
ghost use Rattle.script_run.specs.Worked.{two};
ghost use Rattle.session_runs.specs.Sessions.{DoesCommand, EachDoes};
ghost use Rattle.session_runs.specs.Worked.{at_once, opened, pulled_twice, row_and_sync};

/// An insert that is refused while a sync is open, and the sync, are done by their two sessions.
pub fn insert_and_sync_at_once_are_done()
    ensures { (h : List Dimension) (l : List Spot) (new : NewRow) → new.server ≡ 0 → EachDoes two h (row_and_sync new) (opened l) (at_once l) }
{}

/// A sync that pulled twice, with nobody else there, is not done.
pub fn sync_with_two_pulls_is_not_done()
    ensures { (h : List Dimension) (l : List Spot) → DoesCommand two h 2 (Control (Sync 0)) (opened l) (pulled_twice l) → ⊥ }
{}
