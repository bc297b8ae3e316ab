//! Commands that show a page of the whole state, from their beginnings to their ends, and one that does nothing.
ghost use Rattle.std.specs.Prelude.{◌≡◌, ◌≤◌, [], ◌∷◌, length, IfOk, OnErr, OnOk};
ghost use Rattle.call_steps.specs.Calls.{CanCall};
ghost use Rattle.row_ledger.specs.Classes.{class_of};
ghost use Rattle.row_ledger.specs.Right.{Asks};
ghost use Rattle.row_ledger.specs.declared.event.Event.TheVariants.{Ended};
ghost use Rattle.row_ledger.specs.declared.settings.Call.TheVariants.{Barrier};
ghost use Rattle.row_ledger.specs.declared.settings.How.TheVariants.{Fine};
ghost use Rattle.turn_table.specs.Seat.{cell_count};
ghost use Rattle.core_pages.specs.volap_cell.specs.Values.{actor_of};
ghost use Rattle.whole_steps.specs.Commands.{IsAtPage, IsPageIn};
ghost use Rattle.whole_steps.specs.Done.{HasDone, HasNotBegun, HasPaged, HasToldPage, is_there};
ghost use Rattle.whole_steps.specs.Pages.{CanTell, IsForPage};
ghost use Rattle.whole_steps.specs.Seats.{HasEveryone, HasTurned, KnowsAll, state_at};
ghost use Rattle.whole_steps.specs.Sole.{StandsSole, player};

use crate::calls::{begin_call, end_call, show};
use crate::copies::with_copy;
use crate::looks::{Looks, Start};
use crate::pages::page_of;
use crate::turns::look_round;
use call_steps::of_seat_steps::Floor;
use call_steps::of_volap_turns::Volap;
use core_pages::volap_cell::{Actor, Command, Work};
use row_ledger::{Call, Decline, How, Page};
use std::alloc::{AllocError, Global};
use std::marker::Brand;
use std::sync::Wait;
use turn_table::Seat;

/// What came of a command that shows a page.
#[derive(Drop)]
pub enum Paged {
    /// It was shown.
    Page(Page),
    /// What it is of doesn't stand.
    Unknown,
    /// No memory was found for it.
    Failed,
    /// None was found for the command.
    NotBegun,
}

/// The page of this call in the state that the seat knows, and the seat, which holds no cell.
pub fn make_page<R: Wait>(
    rt: &R,
    alloc: Global,
    floor: &Floor,
    seat: Seat<Volap>,
    call: &Call,
) -> (Seat<Volap>, Result<Page, AllocError>)
    requires everyone { HasEveryone floor.now.table seat }
    requires knows { KnowsAll floor.now.table seat }
    requires can { CanTell floor.now.hierarchy floor.now.with (cell_count floor.now.table) (state_at seat) call.now }
    ensures everyone { HasEveryone floor.now.table result.0 }
    ensures turned { HasTurned seat result.0 }
    ensures bare { result.0.ranks ≡ [] }
    ensures page { IfOk result.1 (λ p. IsPageIn floor.now.hierarchy (state_at seat) p) }
    ensures asked { IfOk result.1 (λ p. Asks (class_of call.now) p) }
{
    make_from::<R, Brand>(rt, alloc, floor, seat, call)
}

/// The same, of a seat that the call picks.
fn make_from<R: Wait, B: Start>(
    rt: &R,
    alloc: Global,
    floor: &Floor,
    seat: Seat<Volap>,
    call: &Call,
) -> (Seat<Volap>, Result<Page, AllocError>)
    requires start { seat ≡ B.seat }
    requires everyone { HasEveryone floor.now.table seat }
    requires knows { KnowsAll floor.now.table seat }
    requires can { CanTell floor.now.hierarchy floor.now.with (cell_count floor.now.table) (state_at seat) call.now }
    ensures everyone { HasEveryone floor.now.table result.0 }
    ensures turned { HasTurned seat result.0 }
    ensures bare { result.0.ranks ≡ [] }
    ensures page { IfOk result.1 (λ p. IsPageIn floor.now.hierarchy (state_at seat) p) }
    ensures asked { IfOk result.1 (λ p. Asks (class_of call.now) p) }
{
    let mut looks = Looks::<R, B>::new(rt, &floor.table, seat);
    let page = page_of(alloc, floor, &mut looks, call);
    (looks.end(), page)
}

/// Whether there is what the actor's page is of.
fn is_there(actor: &Actor) -> bool
    ensures { result ≡ is_there (actor_of actor.now).command }
{
    match &actor.command {
        Some(
            Command {
                work: Work::Page { there, .. },
                ..
            },
        ) => *there,
        _ => false,
    }
}

/// The page that is due of the actor's command is made and shown, and the command ends. Where memory is wanting for the page, it
/// ends with that.
fn tell<R: Wait>(
    rt: &R,
    alloc: Global,
    floor: &Floor,
    seat: Seat<Volap>,
    number: u32,
    actor: &mut Actor,
    call: &Call,
) -> (Seat<Volap>, Paged)
    requires stands { StandsSole floor.now (player number actor.old seat) }
    requires knows { KnowsAll floor.now.table seat }
    requires due { IsAtPage floor.now.hierarchy call.now (player number actor.old seat) }
    requires noted { (actor_of actor.old).seen ≤ length seat.view.seen }
    ensures told { HasToldPage floor.now result.1 (player number actor.old seat) (player number actor.new result.0) }
{
    let (mut seat, page) = make_page(rt, alloc, floor, seat, call);
    match with_copy(alloc, page) {
        Ok((page, copy)) => {
            show(rt, alloc, floor, &mut seat, number, actor, page);
            end_call(rt, alloc, floor, &mut seat, number, actor, How::Fine);
            (seat, Paged::Page(copy))
        }
        Err(_) => {
            end_call(rt, alloc, floor, &mut seat, number, actor, How::NoMemory);
            (seat, Paged::Failed)
        }
    }
}

/// The actor makes this call for a page, for which the seat takes each cell once and gives it back.
pub fn call_page<R: Wait>(
    rt: &R,
    alloc: Global,
    floor: &Floor,
    seat: Seat<Volap>,
    number: u32,
    actor: &mut Actor,
    call: &Call,
) -> (Seat<Volap>, Paged)
    requires stands { StandsSole floor.now (player number actor.old seat) }
    requires begins { CanCall floor.now call.now (player number actor.old seat) }
    requires page { IsForPage call.now }
    ensures paged { HasPaged floor.now call.now result.1 (player number actor.old seat) (player number actor.new result.0) }
{
    let mut seat = seat;
    look_round(rt, &floor.table, &mut seat);
    if begin_call(rt, alloc, floor, &mut seat, number, actor, call).is_err() {
        return (seat, Paged::NotBegun);
    }
    if is_there(actor) {
        return tell(rt, alloc, floor, seat, number, actor, call);
    }
    let how = How::Declined(Decline::Unknown);
    end_call(rt, alloc, floor, &mut seat, number, actor, how);
    (seat, Paged::Unknown)
}

/// The actor calls a barrier, which ends at once.
pub fn call_barrier<R: Wait>(
    rt: &R,
    alloc: Global,
    floor: &Floor,
    seat: &mut Seat<Volap>,
    number: u32,
    actor: &mut Actor,
) -> Result<(), AllocError>
    requires stands { StandsSole floor.now (player number actor.old seat.old) }
    requires begins { CanCall floor.now Barrier (player number actor.old seat.old) }
    ensures done { OnOk result (HasDone floor.now Barrier (λ of. Ended of Fine ∷ []) (player number actor.old seat.old) (player number actor.new seat.new)) }
    ensures same { OnErr result (HasNotBegun floor.now (player number actor.old seat.old) (player number actor.new seat.new)) }
{
    begin_call(rt, alloc, floor, seat, number, actor, &Call::Barrier)?;
    end_call(rt, alloc, floor, seat, number, actor, How::Fine);
    Ok(())
}
