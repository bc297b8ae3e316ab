//! Laws of what a step tells the history, and of pulls. There is nothing to do at run time.

ghost use Rattle.core_told.specs.Pulling.{EndingLaw, OpenedPullingLaw, PullingLaw, RestingLaw};
ghost use Rattle.core_told.specs.Told.{OthersLaw, ToldLaw};

/// A step tells the history nothing, or one of the things that its actor's command comes to next; and
/// all other actors stay as they are.
pub fn steps_tell_so()
    ensures told { ToldLaw }
    ensures others { OthersLaw }
{}

/// Where an open command had pulled as far as its actor says, if no other one pulled, it has so after each step.
pub fn pulls_go_on()
    ensures { PullingLaw }
{}

/// Where no actor has a command, as in an opening, each open one has pulled so.
pub fn opening_has_pulled()
    ensures resting { RestingLaw }
    ensures opened { OpenedPullingLaw }
{}

/// So what pulled alone ends with the pulls that it was to make, however it may note its end.
pub fn ends_have_pulls()
    ensures { EndingLaw }
{}
