//! An index for one thread: rows come in and questions are answered, one after the other.
ghost use Rattle.std.specs.Prelude.{◌≡◌, ◌<◌, ◌≤◌, ◌^◌, All, IfOk, IfSome, List, None, is_none, length, position, reverse};
ghost use Rattle.dim_hierarchy.specs.Names.{IsNamePick};
ghost use Rattle.dim_hierarchy.specs.Dimension.{Dimension};
ghost use Rattle.dim_hierarchy.specs.Row.{leaves};
ghost use Rattle.row_ledger.specs.declared.settings.Use as settings;
ghost use Rattle.script_form.specs.declared.script.Command.TheVariants as command;
ghost use Rattle.olap_top.specs.seeded_run.specs.Phase.{IsCoreHeld, MayRun, held};
ghost use Rattle.olap_top.specs.volap_cell.specs.Steps.{history_in};
ghost use Rattle.library_runs.specs.Index.{AnswersLast, AnswersNothing, HasDone, IsHeld, IsNew, IsRightIndex, alone, history_of};

use crate::names::first_unknown;
use dim_hierarchy::{Hierarchy, Measures, NameFilter, RowNames};
use measure_agg::Agg;
use olap_top::of_seeded_run::{Schedule, open_core, run_phase};
use olap_top::of_volap_cell::{Cell, State};
use row_ledger::{Event, Use};
use script_form::{Command, Commands, NewRow, Question};
use std::alloc::{AllocError, Global};

/// One server and one worker, on one thread.
fn alone(cells: u32) -> Use
    ensures { result ≡ alone cells }
{
    Use {
        servers: 1,
        workers: 1,
        threads: 1,
        cells,
    }
}

/// The events that a core keeps, the oldest first.
fn events_in(state: &State) -> &[Event]
    requires core { (h : List Dimension) × (with : settings.Use) × IsCoreHeld h with state.now }
    ensures { (h : List Dimension) (with : settings.Use) → reverse result.now ≡ history_in (held h with state.now) }
{
    match state.cells.get(0) {
        Some(Some(Cell::Ledger(ledger))) => ledger.events(),
        _ => unreachable!(),
    }
}

/// An index of rows, with the commands that were done in it. What `open` gives meets `IsHeld`, and each call keeps it.
#[derive(Drop)]
pub struct Index {
    pub hierarchy: Hierarchy,
    pub cells: u32,
    pub commands: Commands,
    pub state: State,
}

impl Index {
    /// An index with no rows yet, with so many cells for the blocks of its tree.
    pub fn open(alloc: Global, hierarchy: Hierarchy, cells: u32) -> Result<Index, AllocError>
        requires enough { 2 ≤ cells }
        requires few { cells < 2 ^ 31 }
        ensures held { IfOk result IsHeld }
        ensures new { IfOk result (IsNew hierarchy cells) }
    {
        // What `open_core` asks of the dimensions is known of each hierarchy that is asked how many it has.
        let _dims = hierarchy.dims();
        let state = open_core(alloc, &hierarchy, &alone(cells))?;
        Ok(Index {
            hierarchy,
            cells,
            commands: Commands::new(alloc),
            state,
        })
    }

    /// Does one command more. Where no memory is found even to note that, the index is lost.
    fn go_on(self, alloc: Global, next: Command) -> Result<Index, AllocError>
        requires held { IsHeld self }
        requires may_run { MayRun self.hierarchy (alone self.cells) next }
        ensures held { IfOk result IsHeld }
        ensures done { IfOk result (HasDone self next) }
    {
        let Index {
            hierarchy,
            cells,
            mut commands,
            mut state,
        } = self;
        let done = commands.len();
        commands.push(next)?;
        let (before, phase) = commands.as_slice().split_at(done);
        run_phase(
            alloc,
            &hierarchy,
            &alone(cells),
            before,
            phase,
            &mut state,
            &mut Schedule::Order,
        )?;
        Ok(Index {
            hierarchy,
            cells,
            commands,
            state,
        })
    }

    /// Inserts a row, of one name for each dimension. Beside the index comes the first dimension whose
    /// name is not that of a leaf concept, where there is one; then no row came in.
    pub fn insert(
        self,
        alloc: Global,
        names: RowNames,
        measures: Measures,
    ) -> Result<(Index, Option<u8>), AllocError>
        requires held { IsHeld self }
        requires names { length names ≡ length self.hierarchy }
        ensures held { IfOk result (λ next. IsHeld next.0) }
        ensures done { IfOk result (λ next. HasDone self (command.Insert (record { server = 0; measures = measures; names = names })) next.0) }
        ensures unknown { IfOk result (λ next. next.1 ≡ position is_none (leaves self.hierarchy names)) }
    {
        let unknown = first_unknown(&self.hierarchy, &names);
        let next = self.go_on(
            alloc,
            Command::Insert(NewRow {
                server: 0,
                measures,
                names,
            }),
        )?;
        Ok((next, unknown))
    }

    /// Asks for the rows under a filter, of one pick for each dimension.
    pub fn query(self, alloc: Global, filter: NameFilter) -> Result<Index, AllocError>
        requires held { IsHeld self }
        requires dims { 0 < length self.hierarchy }
        requires filter { length filter ≡ length self.hierarchy }
        requires some { All IsNamePick filter }
        ensures held { IfOk result IsHeld }
        ensures done { IfOk result (HasDone self (command.Query (record { server = 0; filter = filter }))) }
    {
        self.go_on(alloc, Command::Query(Question { server: 0, filter }))
    }

    /// What happened so far, the oldest first.
    pub fn events(&self) -> &[Event]
        requires { IsHeld self.now }
        ensures told { reverse result.now ≡ history_of self.now }
        ensures right { IsRightIndex self.now }
    {
        events_in(&self.state)
    }

    /// The answer to the query that was done last, where it was answered.
    pub fn answer(&self) -> Option<Agg>
        requires { IsHeld self.now }
        ensures some { IfSome result (AnswersLast self.now) }
        ensures none { result ≡ None → AnswersNothing self.now }
    {
        match events_in(&self.state).last() {
            Some(Event::Answered { agg, .. }) => Some(*agg),
            _ => None,
        }
    }
}
