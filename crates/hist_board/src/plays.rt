//! The rule of the table, the kinds of step, and what each step tells its pass.
ghost use Rattle.hist_board.specs.Rule.{IsBoard, first_view, spent, handing, handed, copied, joined};
ghost use Rattle.hist_board.specs.Plays.{drawn, looked, taken, grown, passed, recalled};

use crate::held::Held;
use crate::view::View;
use atomic_table::{Join, Play, Split, TableRule};
use std::marker::PhantomData;
use std::snapshot::Snapshot;

/// The rule of a board. It names the board by the objects that it was made of.
pub struct Turns<S> {
    of: PhantomData<S>,
}

impl<S: Held> TableRule<S, View<S::Item, S::Frame>, Snapshot<Vec<S>>> for Turns<S> {
    ghost holds = { λ made. IsBoard S.history S.frame S.kind S.errands S.fits made.value.items };

    ghost first = { λ made. first_view S.history S.frame S.kind made.value.items };
}

/// A ticket is drawn: ticket, exchanged for the next number.
pub struct Draw;

impl<S: Held> Play<S, View<S::Item, S::Frame>> for Draw {
    ghost then = { drawn };
}

/// A look whether the ticket is served: a load of serving. Where it is, the whole history is seen with it.
pub struct Look;

impl<S: Held> Play<S, View<S::Item, S::Frame>> for Look {
    ghost then = { looked S.errands };
}

/// The length is read, and the object taken, which is no step of its own: a load of length.
pub struct Take;

impl<S: Held> Play<S, View<S::Item, S::Frame>> for Take {
    ghost then = { taken S.history S.frame S.kind S.errands S.fits };
}

/// An entry is added: length grows by 1.
pub struct Grow;

impl<S: Held> Play<S, View<S::Item, S::Frame>> for Grow {
    ghost then = { grown S.history };
}

/// The object is given back, and the turn passed on: serving grows by 1.
pub struct PassOn;

impl<S: Held> Play<S, View<S::Item, S::Frame>> for PassOn {
    ghost then = { passed };
}

/// A pass is split.
pub struct Hand;

impl<I, F> Split<View<I, F>> for Hand {
    ghost left = { handing };

    ghost right = { handed };
}

/// A pass is copied, which is a split that hands over no errand.
pub struct Copied;

impl<I, F> Split<View<I, F>> for Copied {
    ghost left = { λ v. v };

    ghost right = { copied };
}

/// Two passes are joined.
pub struct Meet;

impl<I, F> Join<View<I, F>> for Meet {
    ghost both = { joined };

    ghost spent = { spent };
}

/// After a join, which itself tells its pass nothing: a load that tells how the passes joined stood to each
/// other.
pub struct Recall;

impl<S: Held> Play<S, View<S::Item, S::Frame>> for Recall {
    ghost then = { recalled S.errands };
}
