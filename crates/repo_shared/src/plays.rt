//! What each kind of step on the table of a shared repository tells.

use crate::board::Knowledge;
use crate::shelf::Shelf;
use atomic_table::{Join, Play, Split};

/// The lock is taken, or found taken.
pub struct Lock;

impl<K> Play<Option<Shelf<K>>, Knowledge> for Lock {
    ghost use Rattle.repo_shared.specs.Steps.{locked};

    ghost then = { locked };
}

/// The history gains what was loaded.
pub struct Grow;

impl<K> Play<Option<Shelf<K>>, Knowledge> for Grow {
    ghost use Rattle.repo_shared.specs.Steps.{grown};

    ghost then = { grown };
}

/// The history gains what was loaded, and behind it an element of the seat's link.
pub struct Append;

impl<K> Play<Option<Shelf<K>>, Knowledge> for Append {
    ghost use Rattle.repo_shared.specs.Steps.{appended};

    ghost then = { appended };
}

/// The count is loaded.
pub struct Count;

impl<K> Play<Option<Shelf<K>>, Knowledge> for Count {
    ghost use Rattle.repo_shared.specs.Steps.{counted};

    ghost then = { counted };
}

/// The lock is given back.
pub struct Unlock;

impl<K> Play<Option<Shelf<K>>, Knowledge> for Unlock {
    ghost use Rattle.repo_shared.specs.Steps.{unlocked};

    ghost then = { unlocked };
}

/// A seat makes that of the next link.
pub struct Make;

impl Split<Knowledge> for Make {
    ghost use Rattle.repo_shared.specs.Steps.{counts_on, made};

    ghost left = { counts_on };

    ghost right = { made };
}

/// A seat tells what it knows.
pub struct Tell;

impl Split<Knowledge> for Tell {
    ghost use Rattle.repo_shared.specs.Steps.{teller};

    ghost left = { λ v. v };

    ghost right = { teller };
}

/// A seat learns what another knows, of which nothing is left.
pub struct Learn;

impl Join<Knowledge> for Learn {
    ghost use Rattle.repo_shared.specs.Steps.{learnt, spent};

    ghost both = { learnt };

    ghost spent = { spent };
}
