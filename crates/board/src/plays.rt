// What each step on the table tells.
use crate::view::View;
use atomic_table::{Join, Play, Split};

/// An action of one's own.
pub(crate) struct Acts;

impl Play<(), View> for Acts {
    ghost use Rattle.board.specs.calls.Steps.{Acted};

    ghost then = { Acted };
}

/// The withdrawal of the published event.
pub(crate) struct Withdraws;

impl Play<(), View> for Withdraws {
    ghost use Rattle.board.specs.calls.Steps.{Withdrawn};

    ghost then = { Withdrawn };
}

/// A try for the lock.
pub(crate) struct Tries;

impl Play<(), View> for Tries {
    ghost use Rattle.board.specs.calls.Locking.{Tried};

    ghost then = { Tried };
}

/// The freeing of the lock.
pub(crate) struct Frees;

impl Play<(), View> for Frees {
    ghost use Rattle.board.specs.calls.Locking.{Freed};

    ghost then = { Freed };
}

/// The publication of an await.
pub(crate) struct Publishes;

impl Play<(), View> for Publishes {
    ghost use Rattle.board.specs.calls.Locking.{Published};

    ghost then = { Published };
}

/// The refusal of an await.
pub(crate) struct Refuses;

impl Play<(), View> for Refuses {
    ghost use Rattle.board.specs.calls.Locking.{Refused};

    ghost then = { Refused };
}

/// A load of one's own phase word.
pub(crate) struct Recalls;

impl Play<(), View> for Recalls {
    ghost use Rattle.board.specs.calls.Steps.{Recalled};

    ghost then = { Recalled };
}

/// A load of a phase word.
pub(crate) struct Looks;

impl Play<(), View> for Looks {
    ghost use Rattle.board.specs.calls.Steps.{Looked};

    ghost then = { Looked };
}

/// A load of an await word.
pub(crate) struct Watches;

impl Play<(), View> for Watches {
    ghost use Rattle.board.specs.calls.Steps.{Watched};

    ghost then = { Watched };
}

/// A load that tells only that the view is one of the board's.
pub(crate) struct CountsLoad;

impl Play<(), View> for CountsLoad {
    ghost use Rattle.board.specs.calls.Steps.{Counted};

    ghost then = { Counted };
}

/// A load that tells only that the child which comes to be forked next has made no step.
pub(crate) struct SeesUnforked;

impl Play<(), View> for SeesUnforked {
    ghost use Rattle.board.specs.calls.Steps.{Unforked};

    ghost then = { Unforked };
}

/// A task is forked.
pub(crate) struct SplitsChild;

impl Split<View> for SplitsChild {
    ghost use Rattle.board.specs.calls.Steps.{next_view, child};

    ghost left = { next_view };

    ghost right = { child };
}

/// A second viewer.
pub(crate) struct Copies;

impl Split<View> for Copies {
    ghost use Rattle.board.specs.calls.Steps.{another};

    ghost left = { λ v. v };

    ghost right = { another };
}

/// The first viewer, beside the seat of task 0.
pub(crate) struct Opens;

impl Split<View> for Opens {
    ghost use Rattle.board.specs.calls.Steps.{viewer};

    ghost left = { λ v. v };

    ghost right = { viewer };
}

/// A task's seat is taken in.
pub(crate) struct JoinsSeat;

impl Join<View> for JoinsSeat {
    ghost use Rattle.board.specs.calls.Steps.{both, spent_view};

    ghost both = { both };

    ghost spent = { spent_view };
}
