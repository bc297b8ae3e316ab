//! Laws of tellers, with no code.
ghost use Rattle.std.specs.Prelude.{ℕ, Bool, List};
ghost use Rattle.row_ledger.specs.Right.{StandsRight};
ghost use Rattle.row_ledger.specs.Site.{Site};
ghost use Rattle.row_ledger.specs.declared.event.Event as event;
ghost use Rattle.answer_text.specs.Marks.{RefersBack};
ghost use Rattle.answer_text.specs.Told.{NewTellerLaw, TellerLaw};

/// In a right history each event that belongs to a command stands behind its beginning.
pub fn right_histories_refer_back()
    ensures { (site : Site) (usable : ℕ → Bool) (h : List event.Event) → StandsRight site usable h → RefersBack h }
{}

/// A new teller may tell the first phase, and one that has told some commands may go on when there
/// are more of them and the history has grown.
pub fn tellers_go_on()
    ensures new { NewTellerLaw }
    ensures next { TellerLaw }
{}
