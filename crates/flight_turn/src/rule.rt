//! The rule of the table under a turn: word 0 is the turn, the number of the seat that holds it or
//! 0, and word 1 is the want. The one slot has the flight while nobody holds the turn.

use atomic_table::{Seat, TableRule};
use dp_base::Kin;
use std::snapshot::Snapshot;

/// What the table is told once, when it is made.
#[derive(Drop)]
pub struct About<F> {
    pub flight: Snapshot<F>,
    pub seats: u64,
}

/// What a seat knows. No value of it is made.
pub struct Stand<F> {
    /// Its number, from 1. It is 0 where it has none.
    pub number: u64,
    /// The number of the next seat that it makes. It is 0 where it makes none.
    pub next: u64,
    /// How many seats the turn has.
    pub seats: u64,
    /// Whether it holds the turn.
    pub holds: bool,
    /// How many steps it made on a word.
    pub steps: u64,
    /// The turn as its last try found it.
    pub read: u64,
    /// The want as its last step on the want left it.
    pub want: u64,
    /// The greatest number to which it raised the want.
    pub raised_to: u64,
    /// The flight that lay in the slot as it gave the turn back last.
    pub left: Option<F>,
    /// A flight of the turn's mark.
    pub like: Option<F>,
}

pub struct OneHolder;

impl<F: Kin> TableRule<Option<F>, Stand<F>, About<F>> for OneHolder {
    ghost use Rattle.flight_turn.specs.Rule.{Kept, maker};

    ghost holds = { λ about. Kept F.mark about.flight.value about.seats };

    ghost first = { λ about. maker about.seats about.flight.value };
}

/// A seat at the table under a turn.
pub type Place<F> = Seat<Option<F>, Stand<F>>;
