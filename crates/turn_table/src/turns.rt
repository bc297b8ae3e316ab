//! The calls on a seat. None of them takes memory.
ghost use Rattle.std.specs.Prelude.{◌≡◌, ◌≢◌, ℕ, ◌+◌, ◌<◌, ◌≤◌, [], ◌∷◌, ◌++◌, length, true, false, Some, None, OnOk, IfErr};
ghost use mathlib.Core.Option.{none, some};
ghost use Rattle.turn_table.specs.Numbered.{value_of, HaveOwnNumbers, numbers_of, without, after_first, replace, Extends};
ghost use Rattle.turn_table.specs.Views.{HasAll, after_take, after_refusal, with_note, after_commit, after_split, split_view, joined_view, after_release};
ghost use Rattle.turn_table.specs.Law.{IsPossible, sight};
ghost use Rattle.turn_table.specs.Seat.{cell_count, IsInOrder};

use crate::cores::Core;
use crate::held::Held;
use crate::lots::Lot;
use crate::moves::{position, straighten, turn_by};
use crate::rule::Place;
use crate::seat::Seat;
use crate::steps::{Cut, CutBy, Look, Together};
use crate::table::TurnTable;
use crate::view::View;
use arrayvec::ArrayVec;
use std::marker::Brand;
use std::sync::Wait;

/// A cell that another seat held, and its word, which was not 0.
#[derive(Clone, Copy)]
pub struct Busy {
    pub cell: u32,
    pub word: u64,
}

impl<C: Core> TurnTable<C> {
    /// How many cells there are.
    pub fn len(&self) -> usize
        ensures { result ≡ cell_count self.now }
    {
        self.table.slot_count()
    }

    /// Takes the turn of a cell if it is free, and waits for nobody. Else it answers the word that it
    /// read, and the seat keeps a note of the try.
    pub fn try_take(&self, seat: &mut Seat<C>, cell: u32) -> Result<(), Busy>
        requires own { seat.old.table_id ≡ self.now }
        requires cell { (cell < cell_count self.now) × (value_of seat.old.view.held cell ≡ none) }
        requires room { length seat.old.view.held < 7 }
        requires home { seat.old.lifted ≡ false }
        ensures ok { OnOk result ((c : C.Cell)
            × (seat.new ≡ record seat.old { ranks = seat.old.ranks ++ (cell, None) ∷ []; view = after_take C.log_at C.log seat.old.view cell c })
            × Extends seat.new.view.seen seat.old.view.seen
            × (HasAll seat.old.view.actor_count seat.old.view → (d : C.Cell) → value_of seat.old.view.known cell ≡ some d → c ≡ d)) }
        ensures err { IfErr result (λ b. (b.cell ≡ cell) × (b.word ≢ 0) × (b.word ≢ seat.old.view.number + 1)
            × (seat.new ≡ record seat.old { view = after_refusal seat.old.view cell b.word })) }
        ensures possible { IsPossible C.invariant C.log_at C.log C.needs seat.new.view }
    {
        self.attempt(seat, cell, None)
    }

    /// Waits until the turn of a cell is had. It looks at a held cell for a while, then sleeps until it is woken.
    /// The rank is not below one that was told for a held cell; where it is equal and not `free_rank`, the cell's
    /// number is greater.
    pub fn take<R: Wait>(&self, rt: &R, seat: &mut Seat<C>, cell: u32, rank: u8)
        requires own { seat.old.table_id ≡ self.now }
        requires cell { (cell < cell_count self.now) × (value_of seat.old.view.held cell ≡ none) }
        requires rank { IsInOrder seat.old.ranks cell rank }
        requires room { length seat.old.view.held < 7 }
        requires home { seat.old.lifted ≡ false }
        ensures took { (c : C.Cell) × (n : ℕ) × (last : ℕ × ℕ)
            × (seat.new ≡ record seat.old { ranks = seat.old.ranks ++ (cell, Some rank) ∷ []; view = after_take C.log_at C.log (with_note seat.old.view n last) cell c })
            × Extends seat.new.view.seen seat.old.view.seen
            × (HasAll seat.old.view.actor_count seat.old.view → (d : C.Cell) → value_of seat.old.view.known cell ≡ some d → c ≡ d) }
        ensures possible { IsPossible C.invariant C.log_at C.log C.needs seat.new.view }
    {
        if self.attempt(seat, cell, Some(rank)).is_ok() {
            return;
        }
        for _ in rt.forever() {
            if self.attempt_or_park(rt, seat, cell, Some(rank)).is_ok() {
                return;
            }
        }
        unreachable!()
    }

    /// One try, with the rank that is told for it.
    pub(crate) fn attempt(
        &self,
        seat: &mut Seat<C>,
        cell: u32,
        rank: Option<u8>,
    ) -> Result<(), Busy>
        requires own { seat.old.table_id ≡ self.now }
        requires cell { (cell < cell_count self.now) × (value_of seat.old.view.held cell ≡ none) }
        requires room { length seat.old.view.held < 7 }
        requires home { seat.old.lifted ≡ false }
        ensures ok { OnOk result ((c : C.Cell)
            × (seat.new ≡ record seat.old { ranks = seat.old.ranks ++ (cell, rank) ∷ []; view = after_take C.log_at C.log seat.old.view cell c })
            × Extends seat.new.view.seen seat.old.view.seen
            × (HasAll seat.old.view.actor_count seat.old.view → (d : C.Cell) → value_of seat.old.view.known cell ≡ some d → c ≡ d)) }
        ensures err { IfErr result (λ b. (b.cell ≡ cell) × (b.word ≢ 0) × (b.word ≢ seat.old.view.number + 1)
            × (seat.new ≡ record seat.old { view = after_refusal seat.old.view cell b.word })) }
        ensures possible { IsPossible C.invariant C.log_at C.log C.needs seat.new.view }
    {
        straighten::<C>(&mut seat.place, seat.row.len(), seat.ahead);
        seat.ahead = 0;
        let found = self.grab(&mut seat.place, seat.number, cell);
        if found != 0 {
            return Err(Busy { cell, word: found });
        }
        seat.place.turn();
        seat.row.push((cell, rank));
        Ok(())
    }

    /// Moves the values of all held cells out. No word changes.
    pub fn lift(&self, seat: &mut Seat<C>) -> Held<C::Cell>
        requires own { seat.old.table_id ≡ self.now }
        requires few { length seat.old.view.held ≤ 7 }
        requires home { seat.old.lifted ≡ false }
        ensures seat { seat.new ≡ record seat.old { lifted = true } }
        ensures cells { result ≡ seat.old.view.held }
        ensures distinct { HaveOwnNumbers result }
        ensures possible { IsPossible C.invariant C.log_at C.log C.needs seat.new.view }
    {
        self.lift_lot::<Held<C::Cell>>(seat)
    }

    /// Moves the values of all held cells out. No word changes.
    /// They have the form that the call names, which must fit their number.
    pub fn lift_lot<L: Lot<C>>(&self, seat: &mut Seat<C>) -> L
        requires own { seat.old.table_id ≡ self.now }
        requires few { L.fits (length seat.old.view.held) }
        requires home { seat.old.lifted ≡ false }
        ensures seat { seat.new ≡ record seat.old { lifted = true } }
        ensures cells { L.cells result ≡ seat.old.view.held }
        ensures distinct { HaveOwnNumbers (L.cells result) }
        ensures possible { IsPossible C.invariant C.log_at C.log C.needs seat.new.view }
    {
        straighten::<C>(&mut seat.place, seat.row.len(), seat.ahead);
        seat.ahead = 0;
        let held = L::taken_out(self, &mut seat.place, seat.row.as_slice());
        seat.lifted = true;
        held
    }

    /// Moves the values back as they were. No word changes.
    pub fn put_back(&self, seat: &mut Seat<C>, cells: Held<C::Cell>)
        requires own { seat.old.table_id ≡ self.now }
        requires lifted { seat.old.lifted ≡ true }
        requires cells { cells ≡ seat.old.view.held }
        ensures seat { seat.new ≡ record seat.old { lifted = false } }
        ensures possible { IsPossible C.invariant C.log_at C.log C.needs seat.new.view }
    {
        self.put_lot_back::<Held<C::Cell>>(seat, cells);
    }

    /// Moves the values back as they were. No word changes.
    pub fn put_lot_back<L: Lot<C>>(&self, seat: &mut Seat<C>, cells: L)
        requires own { seat.old.table_id ≡ self.now }
        requires lifted { seat.old.lifted ≡ true }
        requires cells { L.cells cells ≡ seat.old.view.held }
        ensures seat { seat.new ≡ record seat.old { lifted = false } }
        ensures possible { IsPossible C.invariant C.log_at C.log C.needs seat.new.view }
    {
        cells.put_in(self, &mut seat.place);
        seat.lifted = false;
    }

    /// One event of the core: the held cells have new values, and the actor `number` is `actor`. The
    /// first cell is given back, the others stay held.
    pub fn commit(&self, seat: &mut Seat<C>, cells: Held<C::Cell>, number: u32, actor: &C::Actor)
        requires own { seat.old.table_id ≡ self.now }
        requires lifted { seat.old.lifted ≡ true }
        requires cells { (numbers_of cells ≡ numbers_of seat.old.view.held) × (0 < length cells) }
        requires event { (a : C.Actor) × (value_of seat.old.view.actors number ≡ some a) × C.change (sight seat.old.view) cells number a actor.now }
        // What the seat's actors then must keep stays held.
        requires left { (j : ℕ) (x : C.Actor) (n : ℕ) → value_of (replace seat.old.view.actors number actor.now) j ≡ some x → C.needs x n → (d : C.Cell) × (value_of (after_first cells) n ≡ some d) }
        ensures seat { seat.new ≡ record { table_id = seat.old.table_id; lifted = false; ranks = after_first seat.old.ranks; view = after_commit C.log_at C.log seat.old.view cells number actor.now } }
        ensures lists { Extends seat.new.view.seen seat.old.view.seen }
        ensures possible { IsPossible C.invariant C.log_at C.log C.needs seat.new.view }
    {
        self.commit_lot::<Held<C::Cell>>(seat, cells, number, actor);
    }

    /// One event of the core: the held cells have new values, and the actor `number` is `actor`. The
    /// first cell is given back, the others stay held.
    pub fn commit_lot<L: Lot<C>>(&self, seat: &mut Seat<C>, cells: L, number: u32, actor: &C::Actor)
        requires own { seat.old.table_id ≡ self.now }
        requires lifted { seat.old.lifted ≡ true }
        requires cells { (numbers_of (L.cells cells) ≡ numbers_of seat.old.view.held) × (0 < length (L.cells cells)) }
        requires event { (a : C.Actor) × (value_of seat.old.view.actors number ≡ some a) × C.change (sight seat.old.view) (L.cells cells) number a actor.now }
        // What the seat's actors then must keep stays held.
        requires left { (j : ℕ) (x : C.Actor) (n : ℕ) → value_of (replace seat.old.view.actors number actor.now) j ≡ some x → C.needs x n → (d : C.Cell) × (value_of (after_first (L.cells cells)) n ≡ some d) }
        ensures seat { seat.new ≡ record { table_id = seat.old.table_id; lifted = false; ranks = after_first seat.old.ranks; view = after_commit C.log_at C.log seat.old.view (L.cells cells) number actor.now } }
        ensures lists { Extends seat.new.view.seen seat.old.view.seen }
        ensures possible { IsPossible C.invariant C.log_at C.log C.needs seat.new.view }
    {
        cells.put_in(self, &mut seat.place);
        let first = seat.row.remove(0);
        self.commit_as::<Brand>(&mut seat.place, first.0, number, actor);
        seat.lifted = false;
    }

    /// Gives a held cell back as it is.
    pub fn release(&self, seat: &mut Seat<C>, cell: u32)
        requires own { seat.old.table_id ≡ self.now }
        requires held { (c : C.Cell) × (value_of seat.old.view.held cell ≡ some c) }
        requires home { seat.old.lifted ≡ false }
        requires free { (j : ℕ) (x : C.Actor) → value_of seat.old.view.actors j ≡ some x → C.needs x cell → ⊥ }
        ensures seat { seat.new ≡ record seat.old { ranks = without seat.old.ranks cell; view = after_release seat.old.view cell } }
        ensures possible { IsPossible C.invariant C.log_at C.log C.needs seat.new.view }
    {
        straighten::<C>(&mut seat.place, seat.row.len(), seat.ahead);
        seat.ahead = 0;
        let at = position(seat.row.as_slice(), cell);
        let behind = seat.row.len() - 1 - at;
        turn_by::<C>(&mut seat.place, at);
        self.release_as::<Brand>(&mut seat.place, cell);
        turn_by::<C>(&mut seat.place, behind);
        seat.row.remove(at);
    }

    /// A seat for the idle actor `number`, which this seat has no more.
    pub fn split_seat(&self, seat: &mut Seat<C>, number: u32) -> Seat<C>
        requires own { (seat.old.table_id ≡ self.now) × (0 < cell_count self.now) }
        requires actor { (number ≢ seat.old.view.number) × ((a : C.Actor) × (value_of seat.old.view.actors number ≡ some a) × C.idle a) }
        ensures seat { seat.new ≡ record seat.old { view = after_split seat.old.view number } }
        ensures value { result ≡ record { table_id = seat.old.table_id; lifted = false; ranks = []; view = split_view seat.old.view number } }
        ensures possible { IsPossible C.invariant C.log_at C.log C.needs seat.new.view × IsPossible C.invariant C.log_at C.log C.needs result.view }
    {
        let place = self.cut::<Brand>(&mut seat.place, number);
        Seat {
            number,
            row: ArrayVec::new(),
            lifted: false,
            ahead: 0,
            place,
        }
    }

    /// Cuts a view into the two that are picked.
    fn cut<B: Cut<View<C::Cell, C::Actor, C::Entry>>>(
        &self,
        place: &mut Place<C>,
        number: u32,
    ) -> Place<C>
        requires own { (place.old.table_id ≡ self.now) × (0 < cell_count self.now) }
        requires picked { (B.kept place.old.me.0 ≡ after_split place.old.me.0 number) × (B.given place.old.me.0 ≡ split_view place.old.me.0 number) }
        requires actor { (number ≢ place.old.me.0.number) × ((a : C.Actor) × (value_of place.old.me.0.actors number ≡ some a) × ((k : ℕ) → C.needs a k → ⊥)) }
        ensures kept { (place.new.table_id ≡ place.old.table_id) × (place.new.id ≡ place.old.id) × (place.new.me ≡ (after_split place.old.me.0 number, place.old.me.1)) }
        ensures given { (result.table_id ≡ place.old.table_id) × (result.me ≡ (split_view place.old.me.0 number, [])) }
    {
        self.table.shared.split_seat::<CutBy<B>>(place)
    }

    /// Takes in the idle actors of a seat that holds no cell.
    pub fn join_seat(&self, seat: &mut Seat<C>, other: Seat<C>)
        requires own { (seat.old.table_id ≡ self.now) × (other.table_id ≡ self.now) × (0 < cell_count self.now) }
        requires bare { other.view.held ≡ [] }
        requires idle { (i : ℕ) (a : C.Actor) → value_of other.view.actors i ≡ some a → C.idle a }
        ensures seat { seat.new ≡ record seat.old { view = joined_view seat.old.view other.view } }
        ensures lists { Extends seat.new.view.seen seat.old.view.seen × Extends seat.new.view.seen other.view.seen }
        // No actor was with both.
        ensures apart { (i : ℕ) (a b : C.Actor) → value_of seat.old.view.actors i ≡ some a → value_of other.view.actors i ≡ some b → ⊥ }
        ensures possible { IsPossible C.invariant C.log_at C.log C.needs seat.new.view }
    {
        let Seat {
            number: _,
            row: _,
            lifted: _,
            ahead: _,
            place,
        } = other;
        self.table
            .shared
            .join_seat::<Together>(&mut seat.place, place);
        // What the two views say together is known of one moment, that of this look.
        self.table.shared.load::<Look<C>>(&mut seat.place, 0);
    }
}
