//! A pull of one server, as a command.
ghost use Rattle.std.specs.Prelude.{◌≡◌, ◌<◌};
ghost use Rattle.call_steps.specs.Calls.{CanCall};
ghost use Rattle.call_steps.specs.Syncs.{HasSynced};
ghost use Rattle.row_ledger.specs.declared.settings.Call.TheVariants.{Sync};
ghost use Rattle.session_steps.specs.seat_steps.specs.Floors.{Stands};
ghost use Rattle.session_steps.specs.volap_cell.specs.Values.{actor_of};

use crate::calls::begin_call;
use crate::ends::end_call;
use crate::pulls::pull;
use row_ledger::{Call, How};
use session_steps::of_seat_steps::{Floor, Player};
use std::alloc::Global;
use std::sync::Wait;

/// What came of a pull.
#[derive(Clone, Copy)]
pub enum Synced {
    /// The server has pulled. The call began with the event at this position.
    Ok(u64),
    /// No memory was found for the pull. The call began with the event at this position.
    Failed(u64),
    /// None was found for the call.
    NotBegun,
}

/// The actor calls a pull for the server, which pulls.
pub fn sync<R: Wait>(
    rt: &R,
    alloc: Global,
    floor: &Floor,
    player: &mut Player,
    server: u8,
) -> Synced
    requires stands { Stands floor.now player.old }
    requires begins { CanCall floor.now (Sync server) player.old }
    ensures synced { HasSynced floor.now server result player.old player.new }
    ensures purse { (actor_of player.new.actor).purse ≡ (actor_of player.old.actor).purse }
{
    let call = Call::Sync(server);
    let Ok(of) = begin_call(rt, alloc, floor, player, &call) else {
        return Synced::NotBegun;
    };
    if pull(rt, alloc, floor, player, server).is_ok() {
        end_call(rt, alloc, floor, player, How::Fine);
        Synced::Ok(of)
    } else {
        end_call(rt, alloc, floor, player, How::NoMemory);
        Synced::Failed(of)
    }
}
