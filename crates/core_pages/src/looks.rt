//! Cells that are lent one at a time.
ghost use Rattle.std.specs.Prelude.{◌≡◌, Some, IsSome};
ghost use Rattle.std.specs.Borrow.{sem};
ghost use Rattle.std.specs.Io.BufRead.{Rests};
ghost use Rattle.core_image.specs.volap_cell.specs.Cells.{cell_of};

use core_image::volap_cell::{Cell, State};

/// A state as one reads it who looks at one cell at a time. What is lent is given back when the next
/// cell is looked at.
pub trait Cells {
    ghost use Rattle.core_pages.specs.Looks.{StateValue};

    /// What stands in each cell, and each actor.
    ghost state: { Self → StateValue };

    /// What stands in a cell. No cell and no actor changes.
    fn look(&mut self, cell: u32) -> &Cell
        requires stands { IsSome ((state self.old).cells cell) }
        ensures value { (state self.old).cells cell ≡ Some (cell_of result.now) }
        ensures* same { sem 𝓛 (Rests Self.row self.entry (λ new. state new ≡ state self.old)) };
}

/// A state that one thread holds, and that is only read meanwhile.
#[derive(Drop)]
pub struct Lent<'a> {
    pub state: &'a State,
}

impl<'a> Cells for Lent<'a> {
    ghost use Rattle.core_pages.specs.Looks.{state_of};

    ghost state = { λ lent. state_of lent.state.now.cells.items lent.state.now.actors.items };

    fn look(&mut self, cell: u32) -> &Cell {
        match &self.state.cells[cell as usize] {
            Some(cell) => cell,
            None => unreachable!(),
        }
    }
}
