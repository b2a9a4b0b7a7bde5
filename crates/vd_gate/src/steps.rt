//! The kinds of atomic step, as names for what each tells. No value of these types is made.
ghost use Rattle.vd_gate.specs.Views.{with_number_given, split_view, joined_view, spent_view};
ghost use Rattle.vd_gate.specs.Steps.{LoadsTicket, DrawsTicket, LoadsServing, AdvancesServing, DrawsNumber, LearnsOfJoin};

use crate::story::Story;
use crate::view::View;
use atomic_table::{Join, Play, Split};
use std::marker::PhantomData;

/// A load of the ticket word.
pub(crate) struct LoadTicket;

impl<S, E> Play<Option<S>, View<E>> for LoadTicket {
    ghost then = { LoadsTicket };
}

/// A compare and exchange of the ticket word.
pub(crate) struct DrawTicket;

impl<S, E> Play<Option<S>, View<E>> for DrawTicket {
    ghost then = { DrawsTicket };
}

/// A load of the serving word.
pub(crate) struct LoadServing<S> {
    story: PhantomData<S>,
}

impl<S: Story> Play<Option<S>, View<S::Entry>> for LoadServing<S> {
    ghost then = { LoadsServing S.stands };
}

/// The advance of the serving word, at which the turn takes place.
pub(crate) struct AdvanceServing<S> {
    story: PhantomData<S>,
}

impl<S: Story> Play<Option<S>, View<S::Entry>> for AdvanceServing<S> {
    ghost then = { AdvancesServing S.stands };
}

/// A compare and exchange of the passes word.
pub(crate) struct DrawNumber;

impl<S, E> Play<Option<S>, View<E>> for DrawNumber {
    ghost then = { DrawsNumber };
}

/// The load that follows a join.
pub(crate) struct LearnOfJoin;

impl<S, E> Play<Option<S>, View<E>> for LearnOfJoin {
    ghost then = { LearnsOfJoin };
}

/// The number that was drawn goes to a new view.
pub(crate) struct SplitView;

impl<E> Split<View<E>> for SplitView {
    ghost left = { with_number_given };

    ghost right = { split_view };
}

/// One view takes another over.
pub(crate) struct JoinViews;

impl<E> Join<View<E>> for JoinViews {
    ghost both = { joined_view };

    ghost spent = { spent_view };
}
