//! Calls for which all passes of a hall are in: pages of the whole state, barriers and settles.
ghost use Rattle.std.specs.Prelude.{ℕ, ◌≡◌, ◌<◌, ◌≤◌, ◌^◌, All, List, [], ◌∷◌, length, reverse, get_or, true, IfOk, IfErr, IfSome, IfNone, None, OnErr, OnOk, vec_len, vec_capacity};
ghost use Rattle.actor_run.specs.Passes.{AreAllIn, ArePasses, IsAbout, IsAdminOf, IsPassesOf, missing, passes_of};
ghost use Rattle.actor_run.specs.Wholes.{AddsNothing, AreToldBy, AreToldGroup, EndsIn, EndsUnknown, HaveGoneOn, HaveNotSettled, HaveNotedUnknown, HaveRested, HaveSettled, HaveSettledSo, HaveShown, HaveShownGroup, IsGroupFault, IsNoMemory, IsTreeFault, is_admin_at};
ghost use Rattle.dim_hierarchy.specs.Dimension.{tree};
ghost use Rattle.dim_hierarchy.specs.Names.{IsNamePick};
ghost use Rattle.dim_hierarchy.specs.Tree.{leaf_level};
ghost use Rattle.row_ledger.specs.Groups.{IsCallOf};
ghost use Rattle.row_ledger.specs.declared.event.Event.{Event};
ghost use Rattle.row_ledger.specs.declared.event.Event.TheVariants.{Ended};
ghost use Rattle.row_ledger.specs.declared.settings.Call.TheVariants.{Audit, Barrier, Shards, Tree};
ghost use Rattle.row_ledger.specs.declared.settings.How.TheVariants.{Fine};
ghost use Rattle.script_run.specs.Places.{begins_of};
ghost use Rattle.turn_table.specs.Numbered.{Extends};
ghost use Rattle.whole_steps.specs.Pages.{IsForPage};
ghost use Rattle.whole_steps.specs.volap_cell.specs.Values.{actor_of};

use crate::hall::Hall;
use crate::passes::{Passes, put, taken};
use dim_hierarchy::{FilterFault, NameFilter};
use row_ledger::{Call, History, Page};
use std::alloc::{AllocError, Global};
use std::sync::Wait;
use turn_table::Seat;
use whole_steps::of_seat_steps::Floor;
use whole_steps::of_volap_cell::{Actor, Role};
use whole_steps::of_volap_turns::Volap;
use whole_steps::{
    Paged, ReadsHistory, Settled, call_barrier, call_page, call_settle, copy_history, lend_history,
    note_unknown,
};

/// Why the page of a tree isn't shown.
#[derive(Clone, Copy)]
pub enum TreeFault {
    /// No such shard stands.
    Unknown,
    NoMemory,
}

/// Why the page of a group isn't shown.
#[derive(Clone, Copy)]
pub enum GroupFault {
    /// The first dimension with a name that isn't that of a concept.
    Unknown { dim: u8 },
    NoMemory,
}

impl Hall {
    /// The page of the shards that stand. All passes are in, and their seat takes each cell once and gives it back.
    pub fn shards<R: Wait>(
        &self,
        rt: &R,
        alloc: Global,
        passes: &mut Passes,
    ) -> Result<Page, AllocError>
        requires own { IsPassesOf self.now passes.old }
        requires all { AreAllIn passes.old }
        ensures on { HaveGoneOn self.now passes.old passes.new }
        ensures shown { IfOk result (λ p. HaveShown self.now Shards p passes.old passes.new) }
        ensures none { OnErr result (IsNoMemory Shards passes.old passes.new) }
    {
        match self.told(rt, alloc, passes, &Call::Shards) {
            Paged::Page(page) => Ok(page),
            Paged::Unknown => unreachable!(),
            Paged::Failed | Paged::NotBegun => Err(AllocError),
        }
    }

    /// The page of the tree of a shard. All passes are in, and their seat takes each cell once and gives it back.
    pub fn tree<R: Wait>(
        &self,
        rt: &R,
        alloc: Global,
        passes: &mut Passes,
        shard: u32,
    ) -> Result<Page, TreeFault>
        requires own { IsPassesOf self.now passes.old }
        requires all { AreAllIn passes.old }
        ensures on { HaveGoneOn self.now passes.old passes.new }
        ensures shown { IfOk result (λ p. HaveShown self.now (Tree shard) p passes.old passes.new) }
        ensures fault { IfErr result (λ fault. IsTreeFault fault (Tree shard) passes.old passes.new) }
    {
        let call = Call::Tree(shard);
        match self.told(rt, alloc, passes, &call) {
            Paged::Page(page) => Ok(page),
            Paged::Unknown => Err(TreeFault::Unknown),
            Paged::Failed | Paged::NotBegun => Err(TreeFault::NoMemory),
        }
    }

    /// The aggregate of all rows, and how many shards stand. All passes are in, and their seat takes each cell once and gives it back.
    pub fn audit<R: Wait>(
        &self,
        rt: &R,
        alloc: Global,
        passes: &mut Passes,
    ) -> Result<Page, AllocError>
        requires own { IsPassesOf self.now passes.old }
        requires all { AreAllIn passes.old }
        ensures on { HaveGoneOn self.now passes.old passes.new }
        ensures shown { IfOk result (λ p. HaveShown self.now Audit p passes.old passes.new) }
        ensures none { OnErr result (IsNoMemory Audit passes.old passes.new) }
    {
        match self.told(rt, alloc, passes, &Call::Audit) {
            Paged::Page(page) => Ok(page),
            Paged::Unknown => unreachable!(),
            Paged::Failed | Paged::NotBegun => Err(AllocError),
        }
    }

    /// The aggregate of the rows under each concept of a level of a dimension, of those rows that match these picks by name, one for
    /// each dimension. All passes are in, and their seat takes each cell once and gives it back.
    pub fn group<R: Wait>(
        &self,
        rt: &R,
        alloc: Global,
        passes: &mut Passes,
        dim: u8,
        level: u8,
        filter: &NameFilter,
    ) -> Result<Page, GroupFault>
        requires own { IsPassesOf self.now passes.old }
        requires all { AreAllIn passes.old }
        requires dim { dim < length self.now.hierarchy }
        requires level { level ≤ leaf_level (tree self.now.hierarchy dim) }
        requires count { length filter.now ≡ length self.now.hierarchy }
        requires some { All IsNamePick filter.now }
        ensures on { HaveGoneOn self.now passes.old passes.new }
        ensures shown { IfOk result (λ p. HaveShownGroup self.now dim level filter.now p passes.old passes.new) }
        ensures fault { IfErr result (λ fault. IsGroupFault fault self.now dim level filter.now passes.old passes.new) }
    {
        match self.told_group(rt, alloc, passes, dim, level, filter) {
            Ok(Paged::Page(page)) => Ok(page),
            Ok(Paged::Unknown) => unreachable!(),
            Ok(Paged::Failed | Paged::NotBegun) => Err(GroupFault::NoMemory),
            Err(dim) => Err(GroupFault::Unknown { dim }),
        }
    }

    /// A barrier, while all passes are in: its beginning and its end.
    pub fn barrier<R: Wait>(
        &self,
        rt: &R,
        alloc: Global,
        passes: &mut Passes,
    ) -> Result<(), AllocError>
        requires own { IsPassesOf self.now passes.old }
        requires all { AreAllIn passes.old }
        ensures on { HaveGoneOn self.now passes.old passes.new }
        ensures done { OnOk result (EndsIn Barrier (λ of. Ended of Fine ∷ []) passes.old passes.new) }
        ensures none { OnErr result (AddsNothing passes.old passes.new) }
    {
        let Some(seat) = &mut passes.seat else {
            unreachable!()
        };
        barrier_with(
            rt,
            alloc,
            &self.floor,
            seat,
            &mut passes.own,
            &mut passes.actors,
        )
    }

    /// A settle, while all passes are in: each server pulls, in the order of their numbers, and then each once more.
    pub fn settle<R: Wait>(
        &self,
        rt: &R,
        alloc: Global,
        passes: &mut Passes,
    ) -> Result<(), AllocError>
        requires own { IsPassesOf self.now passes.old }
        requires all { AreAllIn passes.old }
        ensures on { HaveGoneOn self.now passes.old passes.new }
        ensures done { OnOk result (HaveSettled self.now passes.old passes.new) }
        ensures none { OnErr result (HaveNotSettled self.now passes.old passes.new) }
    {
        match self.settled(rt, alloc, passes) {
            Settled::Ok => Ok(()),
            Settled::Failed | Settled::NotBegun => Err(AllocError),
        }
    }

    /// The same, and where memory is wanting, whether anything of it stands in the history.
    pub fn settled<R: Wait>(&self, rt: &R, alloc: Global, passes: &mut Passes) -> Settled
        requires own { IsPassesOf self.now passes.old }
        requires all { AreAllIn passes.old }
        ensures on { HaveGoneOn self.now passes.old passes.new }
        ensures settled { HaveSettledSo self.now result passes.old passes.new }
    {
        let Some(seat) = &mut passes.seat else {
            unreachable!()
        };
        settle_with(
            rt,
            alloc,
            &self.floor,
            seat,
            &mut passes.own,
            &mut passes.actors,
        )
    }

    /// Lends the whole history to a reader, while all passes are in.
    pub fn read_history<R: Wait, T: ReadsHistory>(
        &self,
        rt: &R,
        passes: &mut Passes,
        reader: &mut T,
    )
        requires own { IsPassesOf self.now passes.old }
        requires all { AreAllIn passes.old }
        requires asked { (events : List Event) → HaveRested self.now passes.old (record passes.old { seen = reverse events }) → T.asks reader.old events }
        ensures on { HaveRested self.now passes.old passes.new }
        ensures told { T.tells reader.old (reverse passes.new.seen) reader.new }
    {
        let Some(seat) = &mut passes.seat else {
            unreachable!()
        };
        lend_history(rt, &self.floor.table, seat, reader);
    }

    /// `into` becomes a copy of the whole history, while all passes are in. Takes memory for it; where that is wanting, `into` is as
    /// it was.
    pub fn catch_up<R: Wait>(
        &self,
        rt: &R,
        alloc: Global,
        passes: &mut Passes,
        into: &mut History,
    ) -> Result<(), AllocError>
        requires own { IsPassesOf self.now passes.old }
        requires all { AreAllIn passes.old }
        ensures on { HaveRested self.now passes.old passes.new }
        ensures whole { OnOk result (into.new ≡ passes.new.seen) }
        ensures same { OnErr result (into.new ≡ into.old) }
    {
        let Some(seat) = &mut passes.seat else {
            unreachable!()
        };
        copy_history(rt, alloc, &self.floor.table, seat, into)
    }

    /// The page for which the administrator makes this call while all passes are in; where there is none, why.
    pub fn told<R: Wait>(&self, rt: &R, alloc: Global, passes: &mut Passes, call: &Call) -> Paged
        requires own { IsPassesOf self.now passes.old }
        requires all { AreAllIn passes.old }
        requires page { IsForPage call.now }
        requires valid { IsCallOf self.now.hierarchy call.now }
        ensures on { HaveGoneOn self.now passes.old passes.new }
        ensures told { AreToldBy self.now call.now result passes.old passes.new }
    {
        let Some(seat) = passes.seat.take() else {
            unreachable!()
        };
        let (seat, told) = page_with(
            rt,
            alloc,
            &self.floor,
            seat,
            &mut passes.own,
            &mut passes.actors,
            call,
        );
        passes.seat = Some(seat);
        told
    }

    /// The same for a group with a filter by name. It is an error with the first dimension in which a name isn't that of a concept.
    pub fn told_group<R: Wait>(
        &self,
        rt: &R,
        alloc: Global,
        passes: &mut Passes,
        dim: u8,
        level: u8,
        filter: &NameFilter,
    ) -> Result<Paged, u8>
        requires own { IsPassesOf self.now passes.old }
        requires all { AreAllIn passes.old }
        requires dim { dim < length self.now.hierarchy }
        requires level { level ≤ leaf_level (tree self.now.hierarchy dim) }
        requires count { length filter.now ≡ length self.now.hierarchy }
        requires some { All IsNamePick filter.now }
        ensures on { HaveGoneOn self.now passes.old passes.new }
        ensures told { IfOk result (λ told. AreToldGroup self.now dim level filter.now told passes.old passes.new) }
        ensures unknown { IfErr result (λ unknown. HaveNotedUnknown self.now filter.now unknown passes.old passes.new) }
    {
        match self.floor.hierarchy.filter(alloc, filter) {
            Ok(filter) => {
                let call = Call::Group { dim, level, filter };
                Ok(self.told(rt, alloc, passes, &call))
            }
            Err(FilterFault::Unknown { dim }) => match self.note_unknown(rt, alloc, passes, dim) {
                Ok(()) => Err(dim),
                Err(_) => Ok(Paged::NotBegun),
            },
            Err(FilterFault::NoMemory) => {
                self.rests(passes);
                Ok(Paged::NotBegun)
            }
        }
    }

    /// The administrator begins nothing. Takes nothing, and changes nothing.
    fn rests(&self, passes: &Passes)
        requires own { IsPassesOf self.now passes.now }
        requires all { AreAllIn passes.now }
        ensures on { HaveGoneOn self.now passes.now passes.now }
        ensures none { AddsNothing passes.now passes.now }
    {
        let _ = &passes.seat;
    }

    /// The administrator notes, while all passes are in, that its next command names what is not known, first in this dimension.
    fn note_unknown<R: Wait>(
        &self,
        rt: &R,
        alloc: Global,
        passes: &mut Passes,
        dim: u8,
    ) -> Result<(), AllocError>
        requires own { IsPassesOf self.now passes.old }
        requires all { AreAllIn passes.old }
        ensures on { HaveGoneOn self.now passes.old passes.new }
        ensures noted { OnOk result (EndsUnknown dim passes.old passes.new) }
        ensures none { OnErr result (AddsNothing passes.old passes.new) }
    {
        let Some(seat) = &mut passes.seat else {
            unreachable!()
        };
        unknown_with(
            rt,
            alloc,
            &self.floor,
            seat,
            &mut passes.own,
            &mut passes.actors,
            dim,
        )
    }
}

/// Whether the administrator stands at a place.
fn is_admin_at(place: &Option<Actor>) -> bool
    ensures { result ≡ is_admin_at place.now }
{
    match place {
        Some(actor) => matches!(actor.role, Role::Admin),
        None => false,
    }
}

/// How many actors have roles, which is the number of the hall's own.
pub(crate) fn own_number(actors: &Vec<Option<Actor>>) -> u32
    requires few { length actors.now.items < 2 ^ 16 }
    ensures { result ≡ length actors.now.items }
{
    actors.len() as u32
}

/// The place of the administrator among the actors of the roles; `None` where the hall's own is that.
pub(crate) fn admin_among(actors: &Vec<Option<Actor>>) -> Option<u32>
    requires few { length actors.now.items < 2 ^ 16 }
    ensures some { IfSome result (λ k. (k < length actors.now.items) × (is_admin_at (get_or actors.now.items k None) ≡ true)) }
    ensures none { IfNone result ((k : ℕ) → k < length actors.now.items → is_admin_at (get_or actors.now.items k None) ≡ true → ⊥) }
{
    for at in 0..actors.len() {
        if is_admin_at(&actors[at]) {
            return Some(at as u32);
        }
    }
    None
}

/// The administrator, who is one of these, makes this call for a page.
fn page_with<R: Wait>(
    rt: &R,
    alloc: Global,
    floor: &Floor,
    seat: Seat<Volap>,
    own: &mut Actor,
    actors: &mut Vec<Option<Actor>>,
    call: &Call,
) -> (Seat<Volap>, Paged)
    requires are { ArePasses seat own.old actors.old.items }
    requires all { missing 0 actors.old.items ≡ [] }
    requires about { IsAbout floor.now seat.table_id (actor_of own.old).setting }
    requires page { IsForPage call.now }
    requires valid { IsCallOf floor.now.hierarchy call.now }
    ensures are { ArePasses result.0 own.new actors.new.items }
    ensures all { missing 0 actors.new.items ≡ [] }
    ensures room { (vec_len actors.new ≡ vec_len actors.old) × (vec_capacity actors.new ≡ vec_capacity actors.old) }
    ensures table { result.0.table_id ≡ seat.table_id }
    ensures setting { (actor_of own.new).setting ≡ (actor_of own.old).setting }
    ensures later { Extends result.0.view.seen seat.view.seen }
    ensures others { (k : ℕ) → (IsAdminOf (actor_of own.old).setting k → ⊥) → begins_of result.0.view.seen k ≡ begins_of seat.view.seen k }
    ensures told { AreToldBy floor.now call.now result.1 (passes_of seat own.old actors.old.items) (passes_of result.0 own.new actors.new.items) }
{
    let Some(number) = admin_among(actors) else {
        let number = own_number(actors);
        return call_page(rt, alloc, floor, seat, number, own, call);
    };
    let Some(mut actor) = taken(actors, number) else {
        unreachable!()
    };
    let (seat, told) = call_page(rt, alloc, floor, seat, number, &mut actor, call);
    put(actors, number, actor);
    (seat, told)
}

/// The administrator, who is one of these, calls a barrier.
fn barrier_with<R: Wait>(
    rt: &R,
    alloc: Global,
    floor: &Floor,
    seat: &mut Seat<Volap>,
    own: &mut Actor,
    actors: &mut Vec<Option<Actor>>,
) -> Result<(), AllocError>
    requires are { ArePasses seat.old own.old actors.old.items }
    requires all { missing 0 actors.old.items ≡ [] }
    requires about { IsAbout floor.now seat.old.table_id (actor_of own.old).setting }
    ensures are { ArePasses seat.new own.new actors.new.items }
    ensures all { missing 0 actors.new.items ≡ [] }
    ensures room { (vec_len actors.new ≡ vec_len actors.old) × (vec_capacity actors.new ≡ vec_capacity actors.old) }
    ensures table { seat.new.table_id ≡ seat.old.table_id }
    ensures setting { (actor_of own.new).setting ≡ (actor_of own.old).setting }
    ensures later { Extends seat.new.view.seen seat.old.view.seen }
    ensures others { (k : ℕ) → (IsAdminOf (actor_of own.old).setting k → ⊥) → begins_of seat.new.view.seen k ≡ begins_of seat.old.view.seen k }
    ensures done { OnOk result (EndsIn Barrier (λ of. Ended of Fine ∷ []) (passes_of seat.old own.old actors.old.items) (passes_of seat.new own.new actors.new.items)) }
    ensures none { OnErr result (AddsNothing (passes_of seat.old own.old actors.old.items) (passes_of seat.new own.new actors.new.items)) }
{
    let Some(number) = admin_among(actors) else {
        let number = own_number(actors);
        return call_barrier(rt, alloc, floor, seat, number, own);
    };
    let Some(mut actor) = taken(actors, number) else {
        unreachable!()
    };
    let done = call_barrier(rt, alloc, floor, seat, number, &mut actor);
    put(actors, number, actor);
    done
}

/// The administrator, who is one of these, notes that its next command names what is not known, first in this dimension.
fn unknown_with<R: Wait>(
    rt: &R,
    alloc: Global,
    floor: &Floor,
    seat: &mut Seat<Volap>,
    own: &mut Actor,
    actors: &mut Vec<Option<Actor>>,
    dim: u8,
) -> Result<(), AllocError>
    requires are { ArePasses seat.old own.old actors.old.items }
    requires all { missing 0 actors.old.items ≡ [] }
    requires about { IsAbout floor.now seat.old.table_id (actor_of own.old).setting }
    ensures are { ArePasses seat.new own.new actors.new.items }
    ensures all { missing 0 actors.new.items ≡ [] }
    ensures room { (vec_len actors.new ≡ vec_len actors.old) × (vec_capacity actors.new ≡ vec_capacity actors.old) }
    ensures table { seat.new.table_id ≡ seat.old.table_id }
    ensures setting { (actor_of own.new).setting ≡ (actor_of own.old).setting }
    ensures later { Extends seat.new.view.seen seat.old.view.seen }
    ensures others { (k : ℕ) → (IsAdminOf (actor_of own.old).setting k → ⊥) → begins_of seat.new.view.seen k ≡ begins_of seat.old.view.seen k }
    ensures noted { OnOk result (EndsUnknown dim (passes_of seat.old own.old actors.old.items) (passes_of seat.new own.new actors.new.items)) }
    ensures none { OnErr result (AddsNothing (passes_of seat.old own.old actors.old.items) (passes_of seat.new own.new actors.new.items)) }
{
    let Some(number) = admin_among(actors) else {
        let number = own_number(actors);
        return note_unknown(rt, alloc, floor, seat, number, own, dim);
    };
    let Some(mut actor) = taken(actors, number) else {
        unreachable!()
    };
    let noted = note_unknown(rt, alloc, floor, seat, number, &mut actor, dim);
    put(actors, number, actor);
    noted
}

/// The administrator, who is one of these, calls a settle.
fn settle_with<R: Wait>(
    rt: &R,
    alloc: Global,
    floor: &Floor,
    seat: &mut Seat<Volap>,
    own: &mut Actor,
    actors: &mut Vec<Option<Actor>>,
) -> Settled
    requires are { ArePasses seat.old own.old actors.old.items }
    requires all { missing 0 actors.old.items ≡ [] }
    requires about { IsAbout floor.now seat.old.table_id (actor_of own.old).setting }
    ensures are { ArePasses seat.new own.new actors.new.items }
    ensures all { missing 0 actors.new.items ≡ [] }
    ensures room { (vec_len actors.new ≡ vec_len actors.old) × (vec_capacity actors.new ≡ vec_capacity actors.old) }
    ensures table { seat.new.table_id ≡ seat.old.table_id }
    ensures setting { (actor_of own.new).setting ≡ (actor_of own.old).setting }
    ensures later { Extends seat.new.view.seen seat.old.view.seen }
    ensures others { (k : ℕ) → (IsAdminOf (actor_of own.old).setting k → ⊥) → begins_of seat.new.view.seen k ≡ begins_of seat.old.view.seen k }
    ensures settled { HaveSettledSo floor.now result (passes_of seat.old own.old actors.old.items) (passes_of seat.new own.new actors.new.items) }
{
    let Some(number) = admin_among(actors) else {
        let number = own_number(actors);
        return call_settle(rt, alloc, floor, seat, number, own);
    };
    let Some(mut actor) = taken(actors, number) else {
        unreachable!()
    };
    let settled = call_settle(rt, alloc, floor, seat, number, &mut actor);
    put(actors, number, actor);
    settled
}
