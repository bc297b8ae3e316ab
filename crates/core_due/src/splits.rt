//! The end of a split as a step: either child of the shard gets a gate, in the cells of the last two spares of a purse.
ghost use Rattle.std.specs.Prelude.{◌≡◌, ◌≤◌, Some, length};
ghost use Rattle.core_due.specs.Splits.{split_of};

use crate::spares::last_two;
use cell_stock::Purse;
use core_steps::JobStep;

/// The end of a split, whose table and gate these are. Takes no memory.
pub fn split_of(purse: &mut Purse, map: u32, gate: u32) -> JobStep
    requires two { 2 ≤ length purse.old.spares }
    ensures step { split_of map gate purse.old.spares ≡ Some result }
    ensures unchanged { purse.new ≡ purse.old }
{
    let (last, before) = last_two(purse);
    JobStep::FinishSplit {
        map,
        gate,
        left: last.unwrap(),
        right: before.unwrap(),
    }
}
