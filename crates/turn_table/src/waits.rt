//! Waiting for a turn, and waking who waits. No step of it is one of the rule, and no clause reads a count.
ghost use Rattle.std.specs.Prelude.{◌≡◌, ◌≢◌, ℕ, ◌+◌, ◌<◌, ◌++◌, [], ◌∷◌, length, false, OnOk, IfOk, IfErr, vec_len};
ghost use mathlib.Core.Option.{none, some};
ghost use Rattle.turn_table.specs.Numbered.{value_of, Extends};
ghost use Rattle.turn_table.specs.Views.{HasAll, after_take, after_refusal};
ghost use Rattle.turn_table.specs.Law.{IsPossible};
ghost use Rattle.turn_table.specs.Seat.{cell_count};

use crate::cores::Core;
use crate::seat::Seat;
use crate::table::TurnTable;
use crate::turns::Busy;
use std::alloc::{AllocError, Global};
use std::hint::spin_loop;
use std::sync::Wait;
use std::sync::atomic::{AtomicU64, Ordering};

/// The low half of a word is below this; a thread parks on that half.
const HALF: u64 = 1 << 32;

/// How often a thread looks at a held cell before it parks. A look takes some five cycles, so these take about as long as falling
/// asleep and being woken: a turn is mostly shorter.
const LOOKS: u32 = 2000;

/// Nobody waits for any cell.
pub(crate) fn nobody(alloc: Global, count: usize) -> Result<Vec<AtomicU64>, AllocError>
    ensures { IfOk result (λ v. vec_len v ≡ count) }
{
    let mut waiting = Vec::new(alloc);
    for _ in 0..count {
        waiting.push(AtomicU64::new(0))?;
    }
    Ok(waiting)
}

impl<C: Core> TurnTable<C> {
    /// Wakes one thread that waits for the cell, if one does. It is called after the cell's word was set to 0.
    pub(crate) fn wake(&self, cell: u32)
        requires { cell < cell_count self.now }
    {
        if self.waiting[cell as usize].load(Ordering::SeqCst) != 0 {
            self.table.shared.wake_one(cell as usize);
        }
    }

    /// Looks at the cell's word until it is 0, but no more than `LOOKS` times. Says whether it was.
    pub(crate) fn looks_free(&self, cell: u32) -> bool
        requires { cell < cell_count self.now }
    {
        for _ in 0..LOOKS {
            if self.table.shared.peek(cell as usize) == 0 {
                return true;
            }
            spin_loop();
        }
        false
    }

    /// A try once the cell looks free. Where it does not for long, the try is counted among those who wait, and the
    /// thread sleeps after a refusal until it is woken.
    // No wake is missed. As a thread falls asleep, the word is the one that its try read: the system compares the two and
    // begins the sleep in one step. So the cell is held then, and its holder has yet to give it. The holder sets the word
    // to 0 and then reads the count. All atomic steps have one order, so it reads it after the addition: it is not 0, and
    // a thread is woken. Who is woken tries again, and the give of whoever has the turn by then wakes the next. The try
    // after the addition saves a sleep where the cell came free meanwhile.
    pub(crate) fn attempt_or_park<R: Wait>(
        &self,
        rt: &R,
        seat: &mut Seat<C>,
        cell: u32,
        rank: Option<u8>,
    ) -> Result<(), Busy>
        requires own { seat.old.table_id ≡ self.now }
        requires cell { (cell < cell_count self.now) × (value_of seat.old.view.held cell ≡ none) }
        requires room { length seat.old.view.held < 7 }
        requires home { seat.old.lifted ≡ false }
        ensures ok { OnOk result ((c : C.Cell)
            × (seat.new ≡ record seat.old { ranks = seat.old.ranks ++ (cell, rank) ∷ []; view = after_take C.log_at C.log seat.old.view cell c })
            × Extends seat.new.view.seen seat.old.view.seen
            × (HasAll seat.old.view.actor_count seat.old.view → (d : C.Cell) → value_of seat.old.view.known cell ≡ some d → c ≡ d)) }
        ensures err { IfErr result (λ b. (b.cell ≡ cell) × (b.word ≢ 0) × (b.word ≢ seat.old.view.number + 1)
            × (seat.new ≡ record seat.old { view = after_refusal seat.old.view cell b.word })) }
        ensures possible { IsPossible C.invariant C.log_at C.log C.needs seat.new.view }
    {
        if self.looks_free(cell) {
            return self.attempt(seat, cell, rank);
        }
        let waiting = &self.waiting[cell as usize];
        waiting.fetch_add(1, Ordering::SeqCst);
        let tried = self.attempt(seat, cell, rank);
        if let Err(busy) = tried {
            self.table
                .shared
                .park(rt, cell as usize, (busy.word % HALF) as u32);
        }
        waiting.fetch_sub(1, Ordering::SeqCst);
        tried
    }
}
