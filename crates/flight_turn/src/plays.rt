//! What each kind of step on the table of a turn tells.

use crate::rule::Stand;
use atomic_table::{Join, Play, Split};
use dp_base::Kin;

/// The compare and exchange of the turn.
pub struct Try;

impl<F: Kin> Play<Option<F>, Stand<F>> for Try {
    ghost use Rattle.flight_turn.specs.Steps.{tried};

    ghost then = { tried F.mark };
}

/// The turn back to 0.
pub struct GiveBack;

impl<F> Play<Option<F>, Stand<F>> for GiveBack {
    ghost use Rattle.flight_turn.specs.Steps.{gave};

    ghost then = { gave };
}

/// The want becomes the greater of itself and a number.
pub struct Raise;

impl<F> Play<Option<F>, Stand<F>> for Raise {
    ghost use Rattle.flight_turn.specs.Steps.{raised};

    ghost then = { raised };
}

/// The want is read.
pub struct Ask;

impl<F> Play<Option<F>, Stand<F>> for Ask {
    ghost use Rattle.flight_turn.specs.Steps.{asked};

    ghost then = { asked };
}

/// The seat that makes the others makes one.
pub struct Make;

impl<F> Split<Stand<F>> for Make {
    ghost use Rattle.flight_turn.specs.Steps.{counts_on, made};

    ghost left = { counts_on };

    ghost right = { made };
}

/// A seat takes in the one that made it, which makes no more.
pub struct TakeIn;

impl<F> Join<Stand<F>> for TakeIn {
    ghost use Rattle.flight_turn.specs.Steps.{spent};

    ghost both = { λ v w. v };

    ghost spent = { spent };
}
