//! The desk and the image of the server of a session.
ghost use Rattle.std.specs.Prelude.{ℕ, ◌≡◌, ◌<◌, ◌^◌, [], ◌∷◌, None, Some};
ghost use Rattle.session_steps.specs.Books.{AreBooksOf};
ghost use Rattle.part_steps.specs.seat_steps.specs.Floors.{IsSeated, Stands};
ghost use Rattle.part_steps.specs.seat_steps.specs.Takes.{Takes};
ghost use Rattle.part_steps.specs.volap_cell.specs.Values.{actor_of};
ghost use Rattle.part_steps.specs.volap_cell.specs.declared.role.Role.TheVariants.{Session};

use part_steps::of_core_steps::{desk_place, image_place};
use part_steps::of_seat_steps::{Floor, Player, take, take_first};
use part_steps::of_volap_cell::Role;
use row_ledger::Use;
use std::sync::Wait;

/// The ranks that are told for a desk and an image.
pub(crate) const DESK: u8 = 4;

const IMAGE: u8 = 5;

/// The cells of the desk and of the image of a session's server.
pub(crate) fn books_of(floor: &Floor, player: &Player) -> (u32, u32)
    requires seated { IsSeated floor.now player.now }
    requires session { (server : ℕ) × ((actor_of player.now.actor).role ≡ Session server) }
    ensures { AreBooksOf floor.now player.now result.0 result.1 }
{
    let Role::Session { server } = player.actor.role else {
        unreachable!()
    };
    tell_servers(&floor.with);
    (desk_place(&floor.with, server), image_place(server))
}

/// What the number of servers tells by its type. Nothing is done at run time.
fn tell_servers(with: &Use)
    ensures { with.now.servers < 2 ^ 8 }
{
    let _servers = with.servers;
}

/// A session waits for the turn of the image of its server, whose desk it holds.
pub(crate) fn take_image<R: Wait>(rt: &R, floor: &Floor, player: &mut Player, desk: u32, image: u32)
    requires seated { IsSeated floor.now player.old }
    requires books { AreBooksOf floor.now player.old desk image }
    requires ranks { player.old.seat.ranks ≡ (desk, Some 4) ∷ [] }
    ensures seated { IsSeated floor.now player.new }
    ensures took { Takes image 5 player.old player.new }
    ensures ranks { player.new.seat.ranks ≡ (desk, Some 4) ∷ (image, Some 5) ∷ [] }
{
    take(rt, floor, player, image, IMAGE);
}

/// The same with no desk, for a session that holds no cell.
pub(crate) fn take_image_alone<R: Wait>(
    rt: &R,
    floor: &Floor,
    player: &mut Player,
    desk: u32,
    image: u32,
)
    requires stands { Stands floor.now player.old }
    requires no_part { (actor_of player.old.actor).errand ≡ None }
    requires books { AreBooksOf floor.now player.old desk image }
    ensures seated { IsSeated floor.now player.new }
    ensures took { Takes image 5 player.old player.new }
    ensures ranks { player.new.seat.ranks ≡ (image, Some 5) ∷ [] }
{
    take_first(rt, floor, player, image, IMAGE);
}
