//! Laws of the core under turns. There is nothing to do at run time.

ghost use Rattle.volap_turns.specs.Rule.{TurnLaw};
ghost use Rattle.volap_turns.specs.Wholes.{OpeningLaw};

/// One step of any kind keeps what holds of all cells and actors, and keeps or extends the history.
pub fn step_is_lawful()
    ensures { TurnLaw }
{}

/// What a core begins with can be opened to turns.
pub fn opening_is_whole()
    ensures { OpeningLaw }
{}
