//! Laws of sessions that do their commands one after the other, all at once.
ghost use Rattle.session_runs.specs.Laws.{AloneLaw, PhaseLaw, RunLaw, StopLaw, TogetherLaw};

/// Where each session has done its commands and none of them closes the phase, the history is through with them.
pub fn sessions_do_their_commands()
    ensures { TogetherLaw }
{}

/// So it is where one command was done while no other began, which may close the phase.
pub fn one_command_is_done_alone()
    ensures { AloneLaw }
{}

/// So it is behind a phase whose last command alone may close it, and is done when all others are.
pub fn phases_are_done()
    ensures { PhaseLaw }
{}

/// Where the phases of a script were done one after the other, the history is a run of it.
pub fn scripts_are_run()
    ensures { RunLaw }
{}

/// Where sessions stop on their way, as when they find no memory, the history is a part of a run.
pub fn sessions_that_stop_make_a_part()
    ensures { StopLaw }
{}
