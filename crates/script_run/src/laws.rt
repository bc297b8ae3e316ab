//! Laws of runs, as histories grow.
ghost use Rattle.script_run.specs.Between.{ClosingLaw, OpeningLaw, OrderBeginLaw, OrderOtherLaw, OrderStartLaw, PhaseEndLaw, PhaseStartLaw, ThroughLaw};
ghost use Rattle.script_run.specs.Parts.{PartLaw, SerialLaw};
ghost use Rattle.script_run.specs.Streams.{StreamBeginLaw, FinishLaw, NextLaw, StreamOtherLaw, PhaseBeginLaw, PhaseOtherLaw, RankLaw, StartLaw};

/// A part by places is a part of a run; and a serial one, where each command waits for all before
/// it.
pub fn parts_by_places()
    ensures part { PartLaw }
    ensures serial { SerialLaw }
{}

/// A session begins its commands in their order.
pub fn streams_go_on()
    ensures next { NextLaw }
    ensures begin { StreamBeginLaw }
    ensures other { StreamOtherLaw }
    ensures start { StartLaw }
    ensures finish { FinishLaw }
{}

/// A phase goes on, event by event.
pub fn phases_go_on()
    ensures begin { PhaseBeginLaw }
    ensures other { PhaseOtherLaw }
    ensures rank { RankLaw }
{}

/// Between phases a run is through with the commands so far. A phase begins there, and where all of it is
/// over the run is through with it too.
pub fn phases_begin_and_end()
    ensures through { ThroughLaw }
    ensures opening { OpeningLaw }
    ensures start { PhaseStartLaw }
    ensures end { PhaseEndLaw }
{}

/// Commands that begin one after the other, each when all before it are over, stay in that order.
pub fn commands_stay_in_order()
    ensures start { OrderStartLaw }
    ensures other { OrderOtherLaw }
    ensures begin { OrderBeginLaw }
{}

/// A command that closes its phase stands alone: each other one was over when it began, or began when it
/// was over.
pub fn closing_commands_stand_alone()
    ensures { ClosingLaw }
{}
