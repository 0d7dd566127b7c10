ghost use Rattle.std.specs.Prelude.{◌≡◌, ◌≤◌};
ghost use Rattle.swap_cell.specs.Cells.{setter_cell, viewer_cell};
ghost use Rattle.flight_turn.specs.Seats.{IsSeatOf, turn_mark};

use crate::{look, set, take};
use dp_base::{Grows, Memory};
use flight_turn::{Turn, TurnSeat};
use std::alloc::Global;
use std::sync::Wait;
use std::test::Fail;
use swap_cell::{Apart, Setter, Viewer, cell};

/// A level that only rises.
#[derive(Debug, Drop)]
struct Level {
    metres: u64,
}

impl Grows for Level {
    ghost use Rattle.std.proofs.Common.{le_refl, le_trans};

    ghost extends = { λ x y. y.metres ≤ x.metres };

    ghost reflexive = { λ x. le_refl x.metres };

    ghost transitive = { λ x y z p q. le_trans q p };

    fn share(&self) -> Result<Level, Memory> {
        Ok(Level {
            metres: self.metres,
        })
    }
}

impl Apart for Level {
    fn apart(&self, _alloc: Global) -> Result<Level, Memory> {
        self.share()
    }
}

// Takes the turn, looks, sets a level that is higher by 4, and gives the turn back. It answers the
// level that it looked at.
fn raise<W: Wait>(
    turn: &Turn<Setter<Level>>,
    seat: &mut TurnSeat<Setter<Level>>,
    viewer: &mut Viewer<Level>,
    w: &mut W,
) -> Option<u64>
    requires seat { IsSeatOf setter_cell turn.now seat.old }
    requires cell { turn_mark setter_cell turn.now ≡ viewer_cell viewer.old }
{
    let mut setter = take(turn, seat, viewer).ok()?;
    let low = look(&setter, viewer).ok()?;
    let high = Level {
        metres: low.metres.saturating_add(4),
    };
    let set = set(&mut setter, viewer, w, &low, high);
    turn.give(seat, setter);
    set.ok()?;
    Some(low.metres)
}

// Who has the turn next looks at what was set before.
#[test]
fn one_raises_after_the_other(mut rt: HostRuntime) -> Result<(), Fail> {
    let (setter, mut viewers) = cell(rt.alloc(), Level { metres: 3 }, 2)?;
    let (turn, mut seats) = Turn::new(rt.alloc(), setter, 2)?;
    let (Some(mut second), Some(mut second_seat)) = (viewers.pop(), seats.pop()) else {
        panic!(rt; "there are two of each")
    };
    let (Some(mut first), Some(mut first_seat)) = (viewers.pop(), seats.pop()) else {
        panic!(rt; "there are two of each")
    };
    let low = raise(&turn, &mut first_seat, &mut first, &mut rt);
    let high = raise(&turn, &mut second_seat, &mut second, &mut rt);
    assert_eq!(rt; (low, high), (Some(3), Some(7)));
    Ok(())
}
