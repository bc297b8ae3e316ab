//! Laws of what is due, and of what the streams of a phase still have. There is nothing to do at run time.
ghost use Rattle.seeded_run.specs.Cursors.{CursorLaw, FirstLaw, LastLaw};
ghost use Rattle.seeded_run.specs.Kept.{BehindBeginsLaw, BehindEndsLaw, KeepsBeginningLaw, KeepsOtherLaw, MadeLaw, PhaseBeginsLaw, PhaseEndsLaw, QuietLaw, RunsLaw, StopsLaw};
ghost use Rattle.seeded_run.specs.Laws.{WholeLaw, RestLaw, IdleLaw, AtPartLaw, CarrierLaw, WantedLaw, FreeLaw, OrderLaw};
ghost use Rattle.seeded_run.specs.Phase.{OneTurnLaw};
ghost use Rattle.seeded_run.specs.Progress.{CanLaw, DueLaw, EndLaw, OrderEndLaw, ScriptLaw};
ghost use Rattle.seeded_run.specs.Measure.{CountedLaw, FewerLaw, LimitsLaw, MostLaw, StepsLeftLaw};
ghost use Rattle.seeded_run.specs.Ranks.{RankFallsLaw, StepFallsLaw, WaitingLaw};

/// A stream has all its commands as the phase begins, and one less whenever one begins.
pub fn streams_run_out()
    ensures whole { WholeLaw }
    ensures rest { RestLaw }
{}

/// What a session still has are its commands from its cursor on.
pub fn cursors_tell_rests()
    ensures cursor { CursorLaw }
    ensures first { FirstLaw }
    ensures last { LastLaw }
{}

/// Who is idle and has nothing to begin makes no step, but that the administrator uses cells again.
pub fn idle_actors_wait()
    ensures { IdleLaw }
{}

/// Who is at a part can go on with it, and who carries a row wants no block but a child of its own.
pub fn parts_go_on()
    ensures part { AtPartLaw }
    ensures carrier { CarrierLaw }
    ensures wanted { WantedLaw }
    ensures free { FreeLaw }
{}

/// Where the commands go one after the other, one actor at most can make a step: that of the first one that isn't
/// over, and then the administrator.
pub fn one_steps_in_order()
    ensures { OrderLaw }
{}

/// What is left to do in a phase is one number, where limits hold, and each step leaves less.
pub fn less_is_left()
    ensures rank { RankFallsLaw }
    ensures step { StepFallsLaw }
    ensures waiting { WaitingLaw }
{}

/// In each state that meets the invariant the lower three of the numbers of what is left are below limits
/// that the size of the core gives.
pub fn limits_hold()
    ensures { LimitsLaw }
{}

/// So the steps of a phase can be counted: with each one fewer are left, if it doesn't count a session at its
/// desk, and if the commands begin in turn. A step counts nobody that is no note, or that changes the history
/// or its actor's command. For a core that one thread holds there is such a number as a phase begins, and a
/// smaller one after each step.
pub fn steps_run_out()
    ensures step { StepsLeftLaw }
    ensures counted { CountedLaw }
    ensures most { MostLaw }
    ensures fewer { FewerLaw }
{}

/// While an actor isn't idle, or a stream isn't at its end, something is due for somebody, and somebody
/// can do what is due for it. So where nobody can step, the phase is over; where the commands go one after
/// the other too.
pub fn somebody_goes_on()
    ensures due { DueLaw }
    ensures can { CanLaw }
    ensures over { EndLaw }
    ensures order { OrderEndLaw }
{}

/// The actors of a script's run and a phase of it are such as the laws above ask for.
pub fn scripts_run_so()
    ensures { ScriptLaw }
{}

/// A phase begins where everybody is idle, and where nobody can make a step any more everybody is idle again, no gate
/// is gone whose cells could be used again, and each session has begun all its commands. Between its steps it runs as
/// the laws of progress ask.
pub fn phases_begin_and_end()
    ensures begins { PhaseBeginsLaw }
    ensures ends { PhaseEndsLaw }
    ensures runs { RunsLaw }
{}

/// Where commands were through as it began, it runs behind them: where it stops so far is a part of a run of
/// these and of those of the phase, and at its end they are through too.
pub fn phases_go_on_behind()
    ensures begins { BehindBeginsLaw }
    ensures stops { StopsLaw }
    ensures ends { BehindEndsLaw }
{}

/// What holds between the steps of a phase, and what it runs behind, holds after a step that begins nothing and
/// counts nobody at a desk, and after one that begins the next command of its session. Which steps begin nothing.
pub fn steps_keep_a_phase()
    ensures other { KeepsOtherLaw }
    ensures beginning { KeepsBeginningLaw }
    ensures quiet { QuietLaw }
{}

/// On each turn the step is made that is due, if it is of a kind that takes no memory. And in each state the
/// schedule alone tells whose turn it is, and so which kind is due.
pub fn due_steps_are_made()
    ensures made { MadeLaw }
    ensures one { OneTurnLaw }
{}
