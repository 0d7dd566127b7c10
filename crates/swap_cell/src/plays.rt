//! What each kind of step on the table of a cell tells.

use crate::board::{Item, Knowledge};
use atomic_table::{Join, Play, Split};
use dp_base::Grows;

/// A slot is taken, or found taken.
pub struct Lock;

impl<T> Play<Item<T>, Knowledge<T>> for Lock {
    ghost use Rattle.swap_cell.specs.Steps.{locked};

    ghost then = { locked };
}

/// A slot is given back, with an item that is known.
pub struct Free;

impl<T> Play<Item<T>, Knowledge<T>> for Free {
    ghost use Rattle.swap_cell.specs.Steps.{freed};

    ghost then = { freed };
}

/// A slot is given back, and what was found there is kept.
pub struct Swap;

impl<T> Play<Item<T>, Knowledge<T>> for Swap {
    ghost use Rattle.swap_cell.specs.Steps.{swapped};

    ghost then = { swapped };
}

/// A viewer's flag is raised, lowered or read, which tells nothing.
pub struct Flag;

impl<T> Play<Item<T>, Knowledge<T>> for Flag {
    ghost use Rattle.swap_cell.specs.Steps.{flagged};

    ghost then = { flagged };
}

/// A value is set.
pub struct Append;

impl<T: Grows> Play<Item<T>, Knowledge<T>> for Append {
    ghost use Rattle.swap_cell.specs.Steps.{appended};

    ghost then = { appended T.extends };
}

/// A value is looked at.
pub struct Look;

impl<T: Grows> Play<Item<T>, Knowledge<T>> for Look {
    ghost use Rattle.swap_cell.specs.Steps.{looked};

    ghost then = { looked T.extends };
}

/// What was learnt is of one chain with what was known.
pub struct Line;

impl<T: Grows> Play<Item<T>, Knowledge<T>> for Line {
    ghost use Rattle.swap_cell.specs.Steps.{lined};

    ghost then = { lined T.extends };
}

/// A seat tells another all that it knows.
pub struct Tell;

impl<T> Split<Knowledge<T>> for Tell {
    ghost use Rattle.swap_cell.specs.Steps.{follower};

    ghost left = { λ v. v };

    ghost right = { follower };
}

/// A seat learns, and keeps the item that it has.
pub struct Learn;

impl<T> Join<Knowledge<T>> for Learn {
    ghost use Rattle.swap_cell.specs.Steps.{learnt, spent};

    ghost both = { learnt };

    ghost spent = { spent };
}

/// A seat learns, and takes over the item that the other has.
pub struct Renew;

impl<T> Join<Knowledge<T>> for Renew {
    ghost use Rattle.swap_cell.specs.Steps.{renewed, spent};

    ghost both = { renewed };

    ghost spent = { spent };
}
