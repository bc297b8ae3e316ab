//! The list of gates that are gone.
ghost use Rattle.std.specs.Prelude.{◌≡◌, ◌+◌, ◌<◌, ◌≤◌, [], ◌∷◌, ◌++◌, OnOk};
ghost use Rattle.volap_cell.specs.Reusing.{without_gate};

use std::alloc::{AllocError, Global};
use std::marker::Model;

/// The cells of the gates that are gone and whose own cells are not free again, the last one that went last.
#[derive(Drop)]
pub struct GoneGates {
    cells: Vec<u32>,
}

impl Model for GoneGates {
    ghost use Rattle.std.specs.Prelude.{◌-◌, vec_capacity, vec_len};
    ghost use Rattle.volap_cell.specs.Reusing.{GoneGatesValue};

    ghost Value = { GoneGatesValue };

    ghost view = { λ l. record { cells = l.cells.items; room = vec_capacity l.cells - vec_len l.cells } };
}

impl GoneGates {
    /// No gate is gone. Takes no memory.
    pub fn new(alloc: Global) -> GoneGates
        ensures { result.cells ≡ [] }
    {
        GoneGates {
            cells: Vec::new(alloc),
        }
    }

    /// Makes room for one gate more.
    pub fn reserve(&mut self) -> Result<(), AllocError>
        ensures cells { self.new.cells ≡ self.old.cells }
        ensures ok { OnOk result (0 < self.new.room) }
    {
        self.cells.reserve(1)?;
        Ok(())
    }

    /// A gate, for which there is room, is gone. Takes no memory.
    pub fn push(&mut self, gate: u32)
        requires { 0 < self.old.room }
        ensures { self.new.cells ≡ self.old.cells ++ gate ∷ [] }
    {
        self.cells.push_reserved(gate);
    }

    /// The cell of a gate is free again, and the gate on the list no more. Takes no memory.
    pub fn take_off(&mut self, gate: u32)
        ensures { self.new.cells ≡ without_gate gate self.old.cells }
    {
        self.cells.retain(|cell| *cell != gate);
    }

    /// The cells of the gates.
    pub fn as_slice(&self) -> &[u32]
        ensures { result.now ≡ self.now.cells }
    {
        self.cells.as_slice()
    }
}
