//! What is seen on a desk that a session holds.
ghost use Rattle.std.specs.Prelude.{◌≡◌, Some};
ghost use mathlib.Core.Option.{some};
ghost use Rattle.part_steps.specs.core_due.specs.Due.{is_empty_desk};
ghost use Rattle.part_steps.specs.core_due.specs.Works.{parts_due};
ghost use Rattle.part_steps.specs.core_image.specs.Asking.{IsSum};
ghost use Rattle.query_router.specs.Desk.{verdict_of};
ghost use Rattle.query_router.specs.declared.part.Verdict.TheVariants.{Sum};
ghost use Rattle.session_steps.specs.Books.{CanSum, SumsTo};
ghost use Rattle.part_steps.specs.seat_steps.specs.Floors.{IsSeated};
ghost use Rattle.part_steps.specs.seat_steps.specs.Looks.{Sees};
ghost use Rattle.turn_table.specs.Numbered.{value_of};
ghost use Rattle.part_steps.specs.volap_cell.specs.Cells.{cell_of, desk_in};
ghost use Rattle.part_steps.specs.volap_cell.specs.declared.cell.Cell.{Cell};

use measure_agg::Agg;
use part_steps::of_core_due::{WorkDue, parts_due};
use part_steps::of_core_steps::BookStep;
use part_steps::of_seat_steps::{Floor, Player};
use part_steps::of_volap_cell::{Cell, there};
use query_router::Verdict;

/// Whether no command stands on the desk in a cell.
fn is_empty_in(cell: &Cell) -> bool
    ensures { result ≡ is_empty_desk (Some (desk_in (cell_of cell.now))) }
{
    match cell {
        Cell::Desk { desk, .. } => desk.op().is_none(),
        _ => true,
    }
}

/// What is due for the command on the desk in a cell.
fn due_in(cell: &Cell, at: u32, image: u32, failed: BookStep) -> Option<WorkDue>
    ensures { result ≡ parts_due at image failed (desk_in (cell_of cell.now)) }
{
    match cell {
        Cell::Desk { desk, .. } => parts_due(at, image, failed, desk),
        _ => Some(WorkDue::Books(BookStep::Answer { desk: at })),
    }
}

/// The sum to which the parts on the desk in a cell come.
fn sum_in(cell: &Cell) -> Agg
    requires { CanSum (desk_in (cell_of cell.now)) }
    ensures { verdict_of (desk_in (cell_of cell.now)).parts ≡ Some (Sum result) }
{
    let Cell::Desk { desk, .. } = cell else {
        unreachable!()
    };
    let come = desk.answer();
    agg_in(there(&come))
}

/// The sum to which parts come.
fn agg_in(come: &Verdict) -> Agg
    requires { IsSum (Some come.now) }
    ensures { come.now ≡ Sum result }
{
    let Verdict::Sum(agg) = come else {
        unreachable!()
    };
    *agg
}

/// Whether no command stands on the desk in a held cell.
pub(crate) fn is_empty_at(floor: &Floor, player: &mut Player, at: u32) -> bool
    requires seated { IsSeated floor.now player.old }
    requires held { (c : Cell) × (value_of player.old.seat.view.held at ≡ some c) }
    ensures seen { Sees player.old at (λ cell. result ≡ is_empty_desk (Some (desk_in cell))) }
    ensures same { player.new ≡ player.old }
{
    is_empty_in(player.seat.see(&floor.table, at))
}

/// What is due for the command on the desk in a held cell.
pub(crate) fn due_at(
    floor: &Floor,
    player: &mut Player,
    at: u32,
    image: u32,
    failed: BookStep,
) -> Option<WorkDue>
    requires seated { IsSeated floor.now player.old }
    requires held { (c : Cell) × (value_of player.old.seat.view.held at ≡ some c) }
    ensures seen { Sees player.old at (λ cell. result ≡ parts_due at image failed (desk_in cell)) }
    ensures same { player.new ≡ player.old }
{
    due_in(player.seat.see(&floor.table, at), at, image, failed)
}

/// The sum to which the parts on the desk in a held cell come.
pub(crate) fn sum_at(floor: &Floor, player: &mut Player, at: u32) -> Agg
    requires seated { IsSeated floor.now player.old }
    requires held { (c : Cell) × (value_of player.old.seat.view.held at ≡ some c) }
    requires sums { Sees player.old at (λ cell. CanSum (desk_in cell)) }
    ensures sum { SumsTo player.old at result }
    ensures same { player.new ≡ player.old }
{
    sum_in(player.seat.see(&floor.table, at))
}
