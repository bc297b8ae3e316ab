//! The step that answers a query.
ghost use Rattle.std.specs.Prelude.{◌≡◌, ◌<◌, ◌^◌, [], ◌∷◌, IsSome, Some};
ghost use Rattle.core_image.specs.Asking.{CanAnswer, CanGive, GivesAnswer, IsSum};
ghost use Rattle.query_router.specs.Desk.{sum_of, verdict_of};
ghost use Rattle.query_router.specs.declared.part.Verdict.TheVariants.{Sum};
ghost use Rattle.volap_cell.specs.Cells.{cell_of};
ghost use Rattle.volap_cell.specs.Steps.{IsHere, Makes};
ghost use Rattle.volap_cell.specs.Values.{actor_of};
ghost use Rattle.volap_cell.specs.World.{change, held};
ghost use Rattle.volap_cell.specs.declared.kind.Kind.TheVariants.{Answer};

use dim_hierarchy::Hierarchy;
use measure_agg::Agg;
use query_router::{Desk, Verdict};
use row_ledger::{Event, Ledger};
use volap_cell::{Actor, Cell, desk_in, ledger_in, there};

/// Answers the actor's query with what its parts have counted together, and clears its desk. Takes no
/// memory.
pub fn answer(
    h: &Hierarchy,
    desk_at: u32,
    desk: &mut Cell,
    ledger_at: u32,
    ledger: &mut Cell,
    actor: &mut Actor,
)
    requires here { IsHere h.now (held desk_at (cell_of desk.old) ∷ held ledger_at (cell_of ledger.old) ∷ []) (actor_of actor.old) }
    requires due { CanAnswer (cell_of desk.old) (cell_of ledger.old) (actor_of actor.old) }
    ensures made { Makes h.now Answer
        (change desk_at (cell_of desk.old) (cell_of desk.new) ∷ change ledger_at (cell_of ledger.old) (cell_of ledger.new) ∷ [])
        (actor_of actor.old) (actor_of actor.new) }
{
    let _ = h;
    let desk = desk_in(desk);
    let ledger = ledger_in(ledger);
    let command = there(&actor.command);
    give(desk, ledger, command.of);
    actor.command = None;
    actor.seen = ledger.len();
}

/// Puts the answer of the query that began at this place in the ledger.
fn give(desk: &mut Desk, ledger: &mut Ledger, of: u64)
    requires due { CanGive desk.old ledger.old }
    ensures given { GivesAnswer of desk.old desk.new ledger.old ledger.new }
{
    let agg = total(desk);
    let _ = desk.clear();
    ledger.push(Event::Answered { of, agg });
}

/// What the parts on the desk come to, which is a sum.
fn total(desk: &Desk) -> Agg
    requires op { IsSome desk.now.op }
    requires few { (sum_of desk.now.parts).count < 2 ^ 63 }
    requires sum { IsSum (verdict_of desk.now.parts) }
    ensures { verdict_of desk.now.parts ≡ Some (Sum result) }
{
    let come = desk.answer();
    let verdict = there(&come);
    sum_in(verdict)
}

/// The sum that parts come to.
fn sum_in(verdict: &Verdict) -> Agg
    requires { IsSum (Some verdict.now) }
    ensures { verdict.now ≡ Sum result }
{
    let Verdict::Sum(agg) = verdict else {
        unreachable!()
    };
    *agg
}
