//! A hall: the cells of a core under turns.
ghost use Rattle.std.specs.List.{list_any};
ghost use Rattle.std.specs.Prelude.{◌≡◌, ◌<◌, IfOk, vec_len, vec_capacity};
ghost use Rattle.actor_run.specs.Halls.{HasClosed, HasOpened, IsHallFor, hall_setting, is_admin, own_role};
ghost use Rattle.actor_run.specs.Opened.{IsOpenedTable};
ghost use Rattle.actor_run.specs.Passes.{AreAllIn, IsPassesOf};
ghost use Rattle.whole_steps.specs.volap_turns.specs.Rule.{all_there};

use crate::bell::{Bell, HandBells, bells};
use crate::passes::Passes;
use dim_hierarchy::Hierarchy;
use row_ledger::Use;
use std::alloc::{AllocError, Global};
use std::marker::Model;
use turn_table::{Seat, TurnTable};
use whole_steps::of_seat_steps::Floor;
use whole_steps::of_volap_cell::{Actor, Role, RoleList, State};
use whole_steps::of_volap_turns::{Volap, close, open, opening_is_whole};

/// The cells of a core under turns, for as many threads as there are passes. Contracts see its dimensions, its settings and its table.
#[derive(Drop)]
pub struct Hall {
    pub(crate) floor: Floor,
    /// One for each server's desk.
    pub(crate) bells: Vec<Bell>,
    pub(crate) hands: HandBells,
    pub(crate) alloc: Global,
}

impl Model for Hall {
    ghost use Rattle.std.specs.Prelude.{◌≡◌, ◌<◌, length, vec_len};
    ghost use Rattle.dim_hierarchy.specs.Stored.{dimension_code};
    ghost use Rattle.std.specs.Coded.{codes};
    ghost use Rattle.whole_steps.specs.seat_steps.specs.declared.floor.Floor.{Floor};

    ghost Value = { Floor };

    ghost coded = { Prim.hlevel (codes, dimension_code) };

    ghost view = { λ h. h.floor };

    ghost invariant = { λ h. (0 < length h.floor.hierarchy) × (vec_len h.bells ≡ h.floor.with.servers) × (vec_len h.hands.bells ≡ h.floor.with.workers) };
}

impl Hall {
    /// Opens a hall, and its passes: one for each role, with the number of its place. The history begins with one pull of each
    /// server. `with.threads` has no effect.
    pub fn open(
        alloc: Global,
        with: Use,
        hierarchy: Hierarchy,
        roles: RoleList,
    ) -> Result<(Hall, Passes), AllocError>
        requires fits { IsHallFor hierarchy with roles }
        ensures opened { IfOk result (λ r. HasOpened hierarchy with roles r.0 r.1) }
    {
        let (table, seat, mut actors) = opened(alloc, &with, &hierarchy, roles)?;
        let Some(own) = actors.pop() else {
            unreachable!()
        };
        let actors = places(alloc, actors)?;
        let desks = bells(alloc, with.servers)?;
        let hands = HandBells::new(alloc, with.workers)?;
        let floor = Floor {
            hierarchy,
            with,
            table,
        };
        Ok((
            Hall {
                floor,
                bells: desks,
                hands,
                alloc,
            },
            Passes {
                seat: Some(seat),
                own,
                actors,
            },
        ))
    }

    /// The bell of a server's desk, which whoever empties the desk rings.
    pub fn bell(&self, server: u8) -> &Bell
        requires { server < self.now.with.servers }
    {
        &self.bells[usize::from(server)]
    }

    /// The bell of a worker's hands, which is rung where a part may wait that they should do, or the last session has gone.
    pub fn hand_bell(&self, worker: u8) -> &Bell
        requires { worker < self.now.with.workers }
    {
        self.hands.of(worker)
    }

    /// What all seats of the hall share.
    pub fn floor(&self) -> &Floor
        ensures { result.now ≡ self.now }
    {
        &self.floor
    }

    /// The state at the end of a hall whose passes are all in, with its ledger, its actors and all else. Takes no memory.
    pub fn close(self, passes: Passes) -> State
        requires own { IsPassesOf self passes }
        requires all { AreAllIn passes }
        ensures closed { HasClosed self passes result }
    {
        let Hall {
            floor: Floor {
                hierarchy,
                with: _,
                table,
            },
            bells: _,
            hands: _,
            alloc: _,
        } = self;
        let Passes {
            seat,
            own,
            mut actors,
        } = passes;
        let Some(seat) = seat else { unreachable!() };
        actors.push_reserved(Some(own));
        close(&hierarchy, table, seat, actors)
    }
}

/// A table over what a core with these roles and an own actor begins with, a seat with all actors, and these.
fn opened(
    alloc: Global,
    with: &Use,
    h: &Hierarchy,
    mut roles: RoleList,
) -> Result<(TurnTable<Volap>, Seat<Volap>, Vec<Actor>), AllocError>
    requires fits { IsHallFor h.now with.now roles }
    ensures { IfOk result (λ r. IsOpenedTable (hall_setting h.now with.now roles) r.0 r.1 r.2.items) }
{
    let own = own_role(roles.as_slice());
    roles.push(own)?;
    opening_is_whole();
    open(
        alloc,
        h,
        whole_steps::of_volap_cell::open(alloc, h, with, roles)?,
    )
}

/// The role of the hall's own actor, which is the administrator where none of these is that.
fn own_role(roles: &[Role]) -> Role
    ensures { result ≡ own_role roles.now }
{
    if has_admin(roles) {
        Role::Puller
    } else {
        Role::Admin
    }
}

/// Whether one of the roles is the administrator's.
fn has_admin(roles: &[Role]) -> bool
    ensures { result ≡ list_any is_admin roles.now }
{
    roles.iter().any(|role| matches!(role, Role::Admin))
}

/// A place for each actor, with room for one more.
fn places(alloc: Global, actors: Vec<Actor>) -> Result<Vec<Option<Actor>>, AllocError>
    ensures items { IfOk result (λ v. v.items ≡ all_there actors.items) }
    ensures room { IfOk result (λ v. vec_len v < vec_capacity v) }
{
    let mut places: Vec<Option<Actor>> = actors
        .into_iter()
        .map(|actor| Some(actor))
        .collect(alloc)?;
    places.reserve(1)?;
    Ok(places)
}
