//! The core as the turn table knows it.
use core_told::volap_cell::{Actor, Cell};
use row_ledger::Event;
use turn_table::Core;

/// The core's cells and actors. No value of it is made.
pub struct Volap;

impl Core for Volap {
    type Cell = Cell;

    type Actor = Actor;

    type Entry = Event;

    ghost use Rattle.core_told.specs.volap_cell.specs.Setting.{ledger_cell};
    ghost use Rattle.volap_turns.specs.Rule.{Goes, IsValid, Needs, Rests, history_of};
    ghost use Rattle.volap_turns.specs.Law.{lawful, rests-free};

    ghost invariant = { IsValid };

    ghost log_at = { ledger_cell };

    ghost log = { history_of };

    ghost change = { Goes };

    ghost needs = { Needs };

    ghost idle = { Rests };

    ghost idle_free = { rests-free };

    ghost lawful = { lawful };
}
