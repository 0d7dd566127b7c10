//! A seat of a turn.
ghost use Rattle.std.specs.Prelude.{◌≡◌, ◌<◌, true, false, [], ◌∷◌, None};

use crate::rule::Place;

/// What one caller knows of a turn, and the empty slot while it holds. It may move to another
/// thread.
#[derive(Drop)]
pub struct TurnSeat<F> {
    pub(crate) place: Place<F>,
    pub(crate) number: u64,
    ghost numbered: { (number ≡ place.me.0.number) × (0 < number) },
    ghost away: { place.me.0.holds ≡ true → place.me.1 ≡ (0, None) ∷ [] },
    ghost apart: { place.me.0.holds ≡ false → place.me.1 ≡ [] },
}
