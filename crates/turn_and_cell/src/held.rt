//! What a caller does who takes the turn, and with it the setter.
ghost use Rattle.std.specs.Prelude.{◌≡◌, true, false, IfOk, IfErr};
ghost use Rattle.swap_cell.specs.Rule.{InLine};
ghost use Rattle.swap_cell.specs.Cells.{HasSet, StaysSet, setter_cell, viewer_cell, last_set, known};
ghost use Rattle.flight_turn.specs.Seats.{IsSeatOf, holds, turn_mark};
ghost use Rattle.turn_and_cell.specs.Held.{IsHeldBy};

use dp_base::Memory;
use flight_turn::{Busy, Turn, TurnSeat};
use std::sync::Wait;
use swap_cell::{Apart, SetBack, Setter, Viewer};

/// Takes the turn, if it is free, and has the viewer learn all that was set.
pub fn take<T: Apart + Drop>(
    turn: &Turn<Setter<T>>,
    seat: &mut TurnSeat<Setter<T>>,
    viewer: &mut Viewer<T>,
) -> Result<Setter<T>, Busy>
    requires seat { IsSeatOf setter_cell turn.now seat.old }
    requires cell { turn_mark setter_cell turn.now ≡ viewer_cell viewer.old }
    ensures seat { IsSeatOf setter_cell turn.now seat.new }
    ensures cell { viewer_cell viewer.new ≡ viewer_cell viewer.old }
    ensures taken { IfOk result (λ _. (holds seat.old ≡ false) × (holds seat.new ≡ true)) }
    ensures held { IfOk result (IsHeldBy viewer.new) }
    ensures line { IfOk result (λ _. InLine T.extends (known viewer.new)) }
    ensures busy { IfErr result (λ _. (holds seat.new ≡ holds seat.old)
        × (known viewer.new ≡ known viewer.old)) }
{
    let mut setter = turn.try_take(seat)?;
    viewer.learn(setter.tell());
    Ok(setter)
}

/// A look while the turn is held: it extends the value set last.
pub fn look<T: Apart + Drop>(setter: &Setter<T>, viewer: &mut Viewer<T>) -> Result<T, Memory>
    requires held { IsHeldBy viewer.old setter.now }
    ensures cell { viewer_cell viewer.new ≡ viewer_cell viewer.old }
    ensures held { IsHeldBy viewer.new setter.now }
    ensures extends { IfOk result (λ value. T.extends value (last_set setter.now)) }
{
    viewer.look()
}

/// Sets a value that extends one looked at while the turn is held, and has the viewer learn it.
pub fn set<T: Apart + Drop, W: Wait>(
    setter: &mut Setter<T>,
    viewer: &mut Viewer<T>,
    w: &mut W,
    looked: &T,
    value: T,
) -> Result<(), SetBack<T>>
    requires held { IsHeldBy viewer.old setter.old }
    requires looked { T.extends looked.now (last_set setter.old) }
    requires extends { T.extends value looked.now }
    ensures cell { viewer_cell viewer.new ≡ viewer_cell viewer.old }
    ensures held { IsHeldBy viewer.new setter.new }
    ensures set { IfOk result (λ _. HasSet setter.old setter.new value) }
    ensures back { IfErr result (λ e. (e.value ≡ value) × StaysSet setter.old setter.new) }
{
    let set = setter.set(w, value);
    viewer.learn(setter.tell());
    set
}
