//! What is told of a run, read off its history.
ghost use Rattle.std.specs.Prelude.{◌≡◌, IfOk, IfSome, OnOk, is_some, reverse, take};
ghost use Rattle.answer_text.specs.Marks.{RefersBack};
ghost use Rattle.answer_text.specs.Told.{HasTold, IsTeller, IsToldOf, seen_of};
ghost use Rattle.olap_top.specs.RunSoFar.{tells_phases, untold_text};

use crate::wanted::Wanted;
use answer_text::{Teller, summary};
use row_ledger::{Event, Use};
use script_form::Command;
use std::alloc::{AllocError, Global};
use threaded_run::of_actor_run::ReadsHistory;

/// What tells the phases of a run that is wanted, where they are told.
pub(crate) fn teller_of(alloc: Global, wanted: Wanted) -> Result<Option<Teller>, AllocError>
    ensures tells { IfOk result (λ teller. is_some teller ≡ tells_phases wanted) }
    ensures has { IfOk result (λ teller. IfSome teller IsTeller) }
{
    match wanted {
        Wanted::Step | Wanted::Seeded(_) | Wanted::Run => Ok(Some(Teller::new(alloc)?)),
        Wanted::Load { .. } => Ok(None),
    }
}

/// The text of the commands that a teller has not told, a phase that has ended; no bytes without a teller.
fn tell(
    teller: &mut Option<Teller>,
    alloc: Global,
    with: &Use,
    commands: &[Command],
    events: &[Event],
) -> Result<Vec<u8>, AllocError>
    requires told { IfSome teller.old (IsToldOf with.now commands.now events.now) }
    requires refers { IfSome teller.old (λ t. RefersBack (reverse (take (seen_of t) events.now))) }
    ensures text { IfOk result (λ text. text.items ≡ untold_text teller.old with.now commands.now (reverse events.now)) }
    ensures told { OnOk result (IfSome teller.new (HasTold with.now commands.now (reverse events.now))) }
    ensures same { is_some teller.new ≡ is_some teller.old }
{
    match teller {
        Some(teller) => teller.phase(alloc, with, commands, events),
        None => Ok(Vec::new(alloc)),
    }
}

/// The text of a phase that has ended, whose last command is the last of these.
#[derive(Drop)]
pub(crate) struct PhaseText<'a> {
    pub(crate) alloc: Global,
    pub(crate) with: &'a Use,
    pub(crate) commands: &'a [Command],
    pub(crate) teller: Option<Teller>,
    pub(crate) text: Result<Vec<u8>, AllocError>,
}

impl<'a> ReadsHistory for PhaseText<'a> {
    ghost use Rattle.olap_top.specs.Tells.{AsksForPhase, TellsPhase};

    ghost asks = { λ r events. AsksForPhase r.with.now r.commands.now r.teller events };

    ghost tells = { λ r events now. TellsPhase r.with.now r.commands.now r.teller events now.teller now.text };

    fn read(&mut self, events: &[Event]) {
        self.text = tell(
            &mut self.teller,
            self.alloc,
            self.with,
            self.commands,
            events,
        );
    }
}

/// The summary of a run of the generated script.
#[derive(Drop)]
pub(crate) struct SummaryText<'a> {
    pub(crate) alloc: Global,
    pub(crate) rows: u64,
    pub(crate) seed: u64,
    pub(crate) with: &'a Use,
    pub(crate) commands: &'a [Command],
    pub(crate) text: Result<Vec<u8>, AllocError>,
}

impl<'a> ReadsHistory for SummaryText<'a> {
    ghost use Rattle.std.specs.Prelude.{◌≡◌, ⊤, IfOk, reverse};
    ghost use Rattle.answer_text.specs.Summary.{summary};

    ghost asks = { λ r events. ⊤ };

    ghost tells = { λ r events now. IfOk now.text (λ text. text.items ≡ summary r.rows r.seed r.with.now r.commands.now (reverse events)) };

    fn read(&mut self, events: &[Event]) {
        self.text = summary(
            self.alloc,
            self.rows,
            self.seed,
            self.with,
            self.commands,
            events,
        );
    }
}
