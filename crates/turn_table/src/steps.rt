//! What each step on a word tells its seat.
use crate::cores::Core;
use crate::view::View;
use atomic_table::{Join, Play, Split};
use std::marker::{Brand, PhantomData};

/// A try to take a turn.
pub(crate) struct Take<C> {
    core: PhantomData<C>,
}

impl<C: Core> Play<Option<C::Cell>, View<C::Cell, C::Actor, C::Entry>> for Take<C> {
    ghost use Rattle.turn_table.specs.Law.{Took};

    ghost then = { Took C.invariant C.log_at C.log C.needs };
}

/// A view that a call picks.
pub(crate) trait Aim<V> {
    ghost next: { V → V };
}

impl<V> Aim<V> for Brand {
    ghost next = { λ v. v };
}

/// A commit or a release.
pub(crate) struct Give<C, B> {
    core: PhantomData<C>,
    aim: PhantomData<B>,
}

impl<C: Core, B: Aim<View<C::Cell, C::Actor, C::Entry>>> Play<
    Option<C::Cell>,
    View<C::Cell, C::Actor, C::Entry>,
> for Give<C, B> {
    ghost use Rattle.turn_table.specs.Law.{GaveBack};

    ghost then = { GaveBack C.invariant C.log_at C.log C.needs B.next };
}

/// The two views of a cut, which a call picks.
pub(crate) trait Cut<V> {
    ghost kept: { V → V };

    ghost given: { V → V };
}

impl<V> Cut<V> for Brand {
    ghost kept = { λ v. v };

    ghost given = { λ v. v };
}

/// An actor goes to a seat of its own.
pub(crate) struct CutBy<B> {
    cut: PhantomData<B>,
}

impl<V, B: Cut<V>> Split<V> for CutBy<B> {
    ghost left = { B.kept };

    ghost right = { B.given };
}

/// The actors of a seat go to another.
pub(crate) struct Together;

impl<Cell, Actor, Entry> Join<View<Cell, Actor, Entry>> for Together {
    ghost use Rattle.turn_table.specs.Views.{joined_view, spent_view};

    ghost both = { joined_view };

    ghost spent = { spent_view };
}

/// A look that changes nothing.
pub(crate) struct Look<C> {
    core: PhantomData<C>,
}

impl<C: Core> Play<Option<C::Cell>, View<C::Cell, C::Actor, C::Entry>> for Look<C> {
    ghost use Rattle.turn_table.specs.Law.{Looked};

    ghost then = { Looked C.invariant C.log_at C.log C.needs };
}
